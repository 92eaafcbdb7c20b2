//! The stack of open statements and calls.

ghost use Rattle.std.specs.Prelude.{◌≡◌, ◌∷◌, [], length, IfOk, OnOk, OnErr, MatchOption};
ghost use Rattle.exceptions_core.specs.Unwind.{unwind};
ghost use Rattle.exceptions_core.specs.Ways.{left_by, way_at};

use crate::completion::{Completion, Frame, Landing};
use crate::table::{Way, answer_of, way_of};
use std::alloc::{AllocError, Global};
use std::marker::Model;

/// The statements and calls that are open, seen as their list, the innermost first.
#[derive(Drop)]
pub struct Frames {
    frames: Vec<Frame>,
}

impl Model for Frames {
    ghost use Rattle.std.specs.Prelude.{List, reverse};
    ghost use Rattle.exceptions_core.specs.declared.completion.Frame.{Frame};

    ghost Value = { List Frame };

    ghost view = { λ f. reverse f.frames.items };
}

impl Frames {
    /// None is open.
    pub fn new(alloc: Global) -> Result<Frames, AllocError>
        ensures { IfOk result (λ frames. frames ≡ []) }
    {
        Ok(Frames {
            frames: Vec::new(alloc),
        })
    }

    /// Opens a statement or a call inside those that are open.
    pub fn push(&mut self, frame: Frame) -> Result<(), AllocError>
        ensures ok { OnOk result (self.new ≡ frame ∷ self.old) }
        ensures err { OnErr result (self.new ≡ self.old) }
    {
        self.frames.push(frame)?;
        Ok(())
    }

    /// How many are open.
    pub fn height(&self) -> usize
        ensures { result ≡ length self.now }
    {
        self.frames.len()
    }

    /// Goes to the innermost frame that takes the completion (ES3 12.7 to 12.14). The frames inside
    /// it go. It takes no memory.
    #[tactic(auto, using(crate::proofs::Walking::walks))]
    pub fn unwind(&mut self, c: Completion) -> Landing
        ensures { (result, self.new) ≡ unwind self.old c }
    {
        loop {
            match self.way(&c) {
                None => return Landing::Bottom(c),
                Some(Way::Stays) => return Landing::Next,
                Some(Way::Goes) => return self.leave(c),
                Some(Way::Passes) => {
                    let _passed = self.pop();
                }
            }
        }
    }

    /// The innermost frame goes, which takes the completion.
    fn leave(&mut self, c: Completion) -> Landing
        ensures { (result, self.new) ≡ left_by self.old c }
    {
        match self.pop() {
            None => Landing::Bottom(c),
            Some(frame) => answer_of(frame, c),
        }
    }

    /// Whether the innermost frame takes the completion.
    fn way(&self, c: &Completion) -> Option<Way>
        ensures { result ≡ way_at self.now c.now }
    {
        match self.frames.last() {
            None => None,
            Some(frame) => Some(way_of(frame, c)),
        }
    }

    fn pop(&mut self) -> Option<Frame>
        ensures { MatchOption result ((self.old ≡ []) × (self.new ≡ []))
            (λ frame. self.old ≡ frame ∷ self.new) }
    {
        self.frames.pop()
    }
}
