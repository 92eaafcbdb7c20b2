// A link whose two streams are in memory.
ghost use Rattle.std.specs.Prelude.{◌≡◌, ◌<◌, ◌≤◌, ◌↔◌, OnErr, [], Some, min, take, length, vec_len, IfOk};
ghost use Rattle.dl_ports.specs.Counts.{HasCause};
ghost use Rattle.dl_ports.specs.Streams.{and_front, and_more};

use crate::plan::{Plan, count_fault};
use crate::{Port, PortError, Sink, Source};
use std::alloc::{AllocError, Global};

/// A link in memory, which tells everything and fails at the calls that it was told to.
#[derive(Drop)]
pub struct MemoryLink {
    input: Vec<u8>,
    taken: usize,
    written: Vec<u8>,
    plan: Plan,
    faults: u64,
    ghost within: { taken ≤ vec_len input },
}

impl MemoryLink {
    ghost use Rattle.dl_ports.specs.Memory.{link_left, link_written, link_faults, link_plan};
    ghost use Rattle.dl_ports.specs.Plans.{IsFresh};

    /// A link with these bytes left. The calls of `Source` and `Sink` whose numbers, counted from
    /// 1, are in `fail` are to fail.
    pub fn new(alloc: Global, input: Vec<u8>, fail: Vec<u64>) -> Result<MemoryLink, AllocError>
        ensures left { IfOk result (λ link. link_left link ≡ input.items) }
        ensures written { IfOk result (λ link. link_written link ≡ []) }
        ensures plan { IfOk result (λ link. IsFresh (link_plan link) fail.items) }
        ensures faults { IfOk result (λ link. link_faults link ≡ 0) }
    {
        Ok(MemoryLink::arrived(alloc, input, fail))
    }

    /// The same, which takes no memory.
    pub(crate) fn arrived(alloc: Global, input: Vec<u8>, fail: Vec<u64>) -> MemoryLink
        ensures left { link_left result ≡ input.items }
        ensures written { link_written result ≡ [] }
        ensures plan { IsFresh (link_plan result) fail.items }
        ensures faults { link_faults result ≡ 0 }
    {
        MemoryLink {
            input,
            taken: 0,
            written: Vec::new(alloc),
            plan: Plan::new(fail),
            faults: 0,
        }
    }

    /// The bytes that it has taken.
    pub fn written(&self) -> &[u8]
        ensures { result.now ≡ link_written self.now }
    {
        self.written.as_slice()
    }
}

impl Port for MemoryLink {
    ghost use Rattle.dl_ports.specs.Memory.{link_left, link_written};

    ghost faults = { λ link. link.faults };

    ghost left = { λ link. Some (link_left link) };

    ghost written = { λ link. Some (link_written link) };
}

impl Source for MemoryLink {
    ghost use Rattle.dl_ports.specs.Memory.{link_left, link_written, link_faults, link_plan};
    ghost use Rattle.dl_ports.specs.Plans.{GoesByPlan};

    fn take(&mut self, room: &mut [u8]) -> Result<usize, PortError>
        requires { 0 < length room.old }
        ensures bound { IfOk result (λ n. n ≤ length room.new) }
        ensures taken { IfOk result (λ n. Some (link_left self.old)
            ≡ and_front (take n room.new) (Some (link_left self.new))) }
        ensures end { IfOk result (λ n. (n ≡ 0) ↔ (link_left self.old ≡ [])) }
        ensures refused { OnErr result (Some (link_left self.new) ≡ Some (link_left self.old)) }
        ensures cause { HasCause (link_faults self.old) (link_faults self.new) result }
        ensures same_written { Some (link_written self.new) ≡ Some (link_written self.old) }
        ensures plan { GoesByPlan (link_plan self.old) (link_plan self.new) result }
    {
        if self.plan.fails_now() {
            return Err(count_fault(&mut self.faults));
        }
        let count = fill_front(room, &self.input[self.taken..]);
        self.taken += count;
        Ok(count)
    }
}

impl Sink for MemoryLink {
    ghost use Rattle.dl_ports.specs.Memory.{link_left, link_written, link_faults, link_plan};
    ghost use Rattle.dl_ports.specs.Plans.{GoesByPlan};

    fn put(&mut self, piece: &[u8]) -> Result<usize, PortError>
        ensures bound { IfOk result (λ n. n ≤ length piece.now) }
        ensures some { IfOk result (λ n. 0 < length piece.now → 0 < n) }
        ensures taken { IfOk result (λ n. Some (link_written self.new)
            ≡ and_more (Some (link_written self.old)) (take n piece.now)) }
        ensures refused { OnErr result (Some (link_written self.new)
            ≡ Some (link_written self.old)) }
        ensures cause { HasCause (link_faults self.old) (link_faults self.new) result }
        ensures same_left { Some (link_left self.new) ≡ Some (link_left self.old) }
        ensures plan { GoesByPlan (link_plan self.old) (link_plan self.new) result }
    {
        if self.plan.fails_now() {
            return Err(count_fault(&mut self.faults));
        }
        self.written.extend_from_slice(piece)?;
        Ok(piece.len())
    }
}

// Copies as many bytes as there is room for and tells how many.
fn fill_front(room: &mut [u8], bytes: &[u8]) -> usize
    ensures count { result ≡ min (length room.old) (length bytes.now) }
    ensures front { take result room.new ≡ take result bytes.now }
{
    let count = room.len().min(bytes.len());
    room[..count].copy_from_slice(&bytes[..count]);
    count
}
