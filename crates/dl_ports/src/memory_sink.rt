// A sink whose bytes are in memory.
ghost use Rattle.std.specs.Prelude.{◌≡◌, ◌⊎◌, ◌<◌, ◌≤◌, [], None, Some, length, take, min, IfOk, OnOk, OnErr, IsErrOf};
ghost use Rattle.dl_ports.specs.Counts.{HasCause};
ghost use Rattle.dl_ports.specs.Plans.{IsDue, IsFresh, CountsCall};
ghost use Rattle.dl_ports.specs.Streams.{and_more};

use crate::plan::{Plan, count_fault};
use crate::{Port, PortError, Sink};
use std::alloc::{AllocError, Global};

/// A sink in memory, which tells what it has taken and fails at the calls that it was told to.
#[derive(Drop)]
pub struct MemorySink {
    plan: Plan,
    most: usize,
    written: Vec<u8>,
    faults: u64,
}

impl MemorySink {
    ghost use Rattle.dl_ports.specs.Memory.{sink_written, sink_faults, sink_plan, sink_most};

    /// A sink that has taken nothing. It takes at most `most` bytes a call, and fails at the calls
    /// of `put` whose numbers, counted from 1, are in `fail`.
    pub fn new(alloc: Global, most: usize, fail: Vec<u64>) -> Result<MemorySink, AllocError>
        ensures written { IfOk result (λ sink. sink_written sink ≡ []) }
        ensures most { IfOk result (λ sink. sink_most sink ≡ most) }
        ensures plan { IfOk result (λ sink. IsFresh (sink_plan sink) fail.items) }
        ensures faults { IfOk result (λ sink. sink_faults sink ≡ 0) }
    {
        Ok(MemorySink {
            plan: Plan::new(fail),
            most,
            written: Vec::new(alloc),
            faults: 0,
        })
    }

    /// The bytes that it has taken.
    pub fn written(&self) -> &[u8]
        ensures { result.now ≡ sink_written self.now }
    {
        self.written.as_slice()
    }
}

impl Port for MemorySink {
    ghost use Rattle.dl_ports.specs.Memory.{sink_written};

    ghost faults = { λ sink. sink.faults };

    ghost left = { λ _. None };

    ghost written = { λ sink. Some (sink_written sink) };
}

impl Sink for MemorySink {
    ghost use Rattle.dl_ports.specs.Memory.{sink_written, sink_faults, sink_plan, sink_most};

    fn put(&mut self, piece: &[u8]) -> Result<usize, PortError>
        ensures bound { IfOk result (λ n. n ≤ length piece.now) }
        ensures some { IfOk result (λ n. 0 < length piece.now → 0 < n) }
        ensures taken { IfOk result (λ n. Some (sink_written self.new)
            ≡ and_more (Some (sink_written self.old)) (take n piece.now)) }
        ensures refused { OnErr result (Some (sink_written self.new)
            ≡ Some (sink_written self.old)) }
        ensures cause { HasCause (sink_faults self.old) (sink_faults self.new) result }

        // It takes at most so many bytes a call. It fails where it was told to or can take nothing.
        ensures most { IfOk result (λ n. n ≡ min (length piece.now) (sink_most self.old)) }
        ensures due { OnOk result (IsDue (sink_plan self.old) → ⊥) }
        ensures failed { IsErrOf result PortError.Failed
            → IsDue (sink_plan self.old) ⊎ ((sink_most self.old ≡ 0) × (0 < length piece.now)) }
        ensures counted { CountsCall (sink_plan self.old) (sink_plan self.new) }
        ensures same_most { sink_most self.new ≡ sink_most self.old }
    {
        if self.plan.fails_now() {
            return Err(count_fault(&mut self.faults));
        }
        let count = piece.len().min(self.most);
        if count == 0 && !piece.is_empty() {
            return Err(count_fault(&mut self.faults));
        }
        self.written.extend_from_slice(&piece[..count])?;
        Ok(count)
    }
}
