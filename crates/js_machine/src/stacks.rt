//! The machine's two stacks, each seen as its list, the newest first.

ghost use Rattle.std.specs.Prelude.{◌≡◌, ◌∷◌, ◌++◌, [], IfOk, MatchOption, reverse, take};
ghost use Rattle.js_values.specs.declared.value.Value.TheVariants.{Undefined};
ghost use Rattle.js_machine.specs.Stacks.{below, top, without};

use crate::frame::Frame;
use dl_text::TryCopy;
use js_values::Value;
use std::alloc::{AllocError, Global};
use std::marker::Model;

/// The values that frames own, and what was given or thrown.
#[derive(Drop)]
pub struct Values {
    items: Vec<Value>,
}

impl Model for Values {
    ghost use Rattle.std.specs.Prelude.{List, reverse};
    ghost use Rattle.js_values.specs.declared.value.Value as v;

    ghost Value = { List v.Value };

    ghost view = { λ values. reverse values.items.items };
}

fn copies(alloc: Global, values: &[Value]) -> Result<Vec<Value>, AllocError>
    ensures { IfOk result (λ copies. copies.items ≡ values.now) }
{
    let mut copies = Vec::new(alloc);
    for v in values {
        copies.push(v.copy(alloc)?)?;
    }
    Ok(copies)
}

impl Values {
    pub fn new(alloc: Global) -> Values
        ensures { result ≡ [] }
    {
        Values {
            items: Vec::new(alloc),
        }
    }

    #[inline]
    pub fn push(&mut self, v: Value) -> Result<(), AllocError>
        ensures { IfOk result (λ _. self.new ≡ v ∷ self.old) }
    {
        self.items.push(v)?;
        Ok(())
    }

    /// Adds a copy of each of these, in order.
    #[tactic(auto, using(crate::proofs::StackLists::newest_added))]
    pub fn push_copies(&mut self, alloc: Global, values: &[Value]) -> Result<(), AllocError>
        ensures { IfOk result (λ _. self.new ≡ reverse values.now ++ self.old) }
    {
        let mut copies = copies(alloc, values)?;
        self.items.append(&mut copies)?;
        Ok(())
    }

    /// The newest value, or undefined where there is none.
    #[inline]
    pub fn pop(&mut self) -> Value
        ensures value { result ≡ top self.old }
        ensures rest { self.new ≡ below self.old }
    {
        match self.items.pop() {
            Some(v) => v,
            None => Value::Undefined,
        }
    }

    #[inline]
    pub fn newest(&self) -> Option<&Value>
        ensures { MatchOption result (self.now ≡ []) (λ v. v.now ≡ top self.now) }
    {
        self.items.last()
    }

    /// The value under so many newer ones, if there is one.
    #[inline]
    pub fn under(&self, n: usize) -> Option<&Value>
        ensures { MatchOption result (top (without n self.now) ≡ Undefined)
            (λ v. v.now ≡ top (without n self.now)) }
    {
        let count = self.items.len();
        if n < count {
            Some(&self.items[count - 1 - n])
        } else {
            None
        }
    }

    /// So many of the newest values, or all there are, the oldest of them first.
    #[inline]
    pub fn newest_of(&self, n: usize) -> &[Value]
        ensures { result.now ≡ reverse (take n self.now) }
    {
        let from = self.items.len().saturating_sub(n);
        &self.items[from..]
    }

    /// Drops so many of the newest values.
    #[inline]
    pub fn forget(&mut self, n: usize)
        ensures { self.new ≡ without n self.old }
    {
        let left = self.items.len().saturating_sub(n);
        self.items.truncate(left);
    }

    /// Drops so many values under the newest.
    pub fn forget_under(&mut self, n: usize) -> Result<(), AllocError>
        ensures { IfOk result (λ _. self.new ≡ top self.old ∷ without n (below self.old)) }
    {
        let v = self.pop();
        self.forget(n);
        self.push(v)
    }
}

/// What waits for outcomes.
#[derive(Drop)]
pub struct Frames {
    items: Vec<Frame>,
}

impl Model for Frames {
    ghost use Rattle.std.specs.Prelude.{List, reverse};
    ghost use Rattle.js_machine.specs.declared.frame.Frame.{Frame};
    ghost use Rattle.js_machine.specs.contracts.frame.Frame as f;
    ghost use Rattle.std.specs.Coded.{codes, coded_list};

    ghost Value = { List Frame };

    ghost coded = { coded_list (Prim.hlevel (codes, f.the_row.coded)) };

    ghost view = { λ frames. reverse frames.items.items };
}

impl Frames {
    pub fn new(alloc: Global) -> Frames
        ensures { result ≡ [] }
    {
        Frames {
            items: Vec::new(alloc),
        }
    }

    #[inline]
    pub fn push(&mut self, frame: Frame) -> Result<(), AllocError>
        ensures { IfOk result (λ _. self.new ≡ frame ∷ self.old) }
    {
        self.items.push(frame)?;
        Ok(())
    }

    #[inline]
    pub fn pop(&mut self) -> Option<Frame>
        ensures { MatchOption result ((self.old ≡ []) × (self.new ≡ []))
            (λ frame. self.old ≡ frame ∷ self.new) }
    {
        self.items.pop()
    }
}
