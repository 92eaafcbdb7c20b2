// Counts of calls and of faults.
ghost use Rattle.std.specs.Prelude.{◌≡◌, ◌≤◌, ◌+◌, ◌-◌, ◌^◌, ◌↔◌, min, IsTrue, IfOk, Contains};
ghost use Rattle.dl_ports.specs.Counts.{Rose, HasCause};

use crate::PortError;
use std::io;
use std::io::ErrorKind;

/// The calls so far, and the numbers of those that are to fail, counted from 1.
#[derive(Drop)]
pub struct Plan {
    pub calls: u64,
    pub fail: Vec<u64>,
}

impl Plan {
    /// No call so far.
    pub fn new(fail: Vec<u64>) -> Plan
        ensures calls { result.calls ≡ 0 }
        ensures fail { result.fail ≡ fail }
    {
        Plan { calls: 0, fail }
    }

    /// Counts a call and tells whether it is to fail.
    pub fn fails_now(&mut self) -> bool
        ensures calls { self.new.calls ≡ min (self.old.calls + 1) (2 ^ 64 - 1) }
        ensures fail { self.new.fail ≡ self.old.fail }
        ensures fails { IsTrue result ↔ Contains self.old.fail.items self.new.calls }
    {
        self.calls = self.calls.saturating_add(1);
        self.fail.contains(&self.calls)
    }
}

/// Counts a fault.
pub fn count_fault(faults: &mut u64) -> PortError
    ensures failed { result ≡ PortError.Failed }
    ensures rose { Rose faults.old faults.new }
    ensures later { faults.old ≤ faults.new }
{
    *faults = faults.saturating_add(1);
    PortError::Failed
}

/// The answer of a call to the system, whose failure is counted unless memory ran out.
pub fn counted<T>(faults: &mut u64, outcome: io::Result<T>) -> Result<T, PortError>
    ensures value { IfOk result (λ value. outcome ≡ Ok value) }
    ensures cause { HasCause faults.old faults.new result }
{
    match outcome {
        Ok(value) => Ok(value),
        Err(error) => match error.kind() {
            ErrorKind::OutOfMemory => Err(PortError::OutOfMemory),
            _ => Err(count_fault(faults)),
        },
    }
}
