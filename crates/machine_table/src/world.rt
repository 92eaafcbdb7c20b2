//! The world of a run in the table: it answers host calls with undefined, has no late functions,
//! and keeps what it is asked.

ghost use Rattle.std.specs.Prelude.{◌≡◌, ◌∷◌, ◌++◌, [], IfOk};

use dl_text::{TryCopy, Units};
use js_machine::{Host, Late};
use js_tree::Func;
use js_values::Value;
use std::alloc::{AllocError, Global};

/// A host call with what it was answered.
#[derive(Drop)]
pub struct Answered {
    pub name: Units,
    pub arguments: Vec<Value>,
    pub answer: Value,
}

/// What the world was asked.
#[derive(Drop)]
pub enum Kept {
    Call(Answered),
    /// The entry of a function with its beat, which goes on.
    Entry(u32, u64),
    /// A late function, which is not there.
    Need(u32),
}

/// What was asked so far, in order.
#[derive(Drop)]
pub struct Calls {
    pub alloc: Global,
    pub kept: Vec<Kept>,
}

fn copies(alloc: Global, values: &[Value]) -> Result<Vec<Value>, AllocError>
    ensures { IfOk result (λ vs. vs.items ≡ values.now) }
{
    let mut list = Vec::new(alloc);
    for v in values {
        list.push(v.copy(alloc)?)?;
    }
    Ok(list)
}

impl Host for Calls {
    ghost use Rattle.std.specs.Prelude.{map};
    ghost use Rattle.machine_table.specs.World.{asked};

    ghost given = { λ world. map asked world.kept.items };

    fn call(&mut self, name: &Units, arguments: &[Value]) -> Result<Value, AllocError> {
        self.kept.push(Kept::Call(Answered {
            name: name.copy(self.alloc)?,
            arguments: copies(self.alloc, arguments)?,
            answer: Value::Undefined,
        }))?;
        Ok(Value::Undefined)
    }

    fn entered(&mut self, number: u32, beat: u64) -> Result<bool, AllocError> {
        self.kept.push(Kept::Entry(number, beat))?;
        Ok(true)
    }
}

impl Late for Calls {
    ghost use Rattle.std.specs.Prelude.{[]};

    ghost bodies = { λ world. [] };

    fn late(&mut self, number: u32) -> Result<bool, AllocError> {
        self.kept.push(Kept::Need(number))?;
        Ok(false)
    }

    fn body(&self, _number: u32) -> Option<&Func> {
        None
    }
}
