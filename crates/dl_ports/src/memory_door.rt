// A door whose links are in memory.
ghost use Rattle.std.specs.Prelude.{◌≡◌, ◌+◌, ◌<◌, ◌≤◌, IfSome, OnErr, MatchOption, [], None, Some, map, vec_len, vec_capacity, IfOk};
ghost use Rattle.std.specs.List.{slice_get};
ghost use Rattle.std.specs.Option.{option_copied, option_map};
ghost use Rattle.dl_ports.specs.Counts.{HasCause};

use crate::plan::{Plan, count_fault};
use crate::{Door, MemoryLink, Port, PortError};
use std::alloc::{AllocError, Global};
use std::vec::IntoIter;

/// A door in memory, which tells everything and fails at the calls that it was told to.
#[derive(Drop)]
pub struct MemoryDoor {
    alloc: Global,
    plan: Plan,
    inputs: IntoIter<(Vec<u8>, Vec<u64>)>,
    closed: Vec<MemoryLink>,
    lent: usize,
    faults: u64,
    ghost has_room: { vec_len closed + lent ≤ vec_capacity closed },
}

impl MemoryDoor {
    ghost use Rattle.dl_ports.specs.Memory.{door_inputs, door_closed, door_lent, door_faults, door_fails, door_plan, link_written};
    ghost use Rattle.dl_ports.specs.Plans.{IsFresh};

    /// A door where links with these bytes arrive, each with the numbers of its calls that are to
    /// fail. The calls of `accept` whose numbers, counted from 1, are in `fail` are to fail.
    pub fn new(
        alloc: Global,
        inputs: Vec<(Vec<u8>, Vec<u64>)>,
        fail: Vec<u64>,
    ) -> Result<MemoryDoor, AllocError>
        ensures inputs { IfOk result (λ door. door_inputs door
            ≡ map (λ input. input.0.items) inputs.items) }
        ensures fails { IfOk result (λ door. door_fails door
            ≡ map (λ input. input.1.items) inputs.items) }
        ensures plan { IfOk result (λ door. IsFresh (door_plan door) fail.items) }
        ensures closed { IfOk result (λ door. door_closed door ≡ []) }
        ensures lent { IfOk result (λ door. door_lent door ≡ 0) }
        ensures faults { IfOk result (λ door. door_faults door ≡ 0) }
    {
        Ok(MemoryDoor {
            alloc,
            plan: Plan::new(fail),
            inputs: inputs.into_iter(),
            closed: Vec::new(alloc),
            lent: 0,
            faults: 0,
        })
    }

    /// The bytes that the k-th closed link has taken, counted from 0, or `None` exactly where not
    /// so many are closed.
    pub fn written(&self, k: usize) -> Option<&[u8]>
        ensures { option_copied result
            ≡ option_map link_written (slice_get (door_closed self.now) k) }
    {
        match self.closed.get(k) {
            Some(link) => Some(link.written()),
            None => None,
        }
    }
}

impl Port for MemoryDoor {
    ghost faults = { λ door. door.faults };

    ghost left = { λ _. None };

    ghost written = { λ _. None };
}

impl Door for MemoryDoor {
    ghost use Rattle.dl_ports.specs.Memory.{told_inputs, told_closed, door_lent, door_faults, door_fails, door_plan, PlansFirst, link_left, link_written, link_faults, link_ended};
    ghost use Rattle.dl_ports.specs.Doors.{Arrives, NoneLeft, and_link};
    ghost use Rattle.dl_ports.specs.Plans.{GoesByPlan};

    type Link = MemoryLink;

    ghost inputs = { told_inputs };

    ghost closed = { told_closed };

    ghost lent = { door_lent };

    fn accept(&mut self) -> Result<Option<MemoryLink>, PortError>
        ensures input { IfOk result (λ link. MatchOption link
            (NoneLeft (told_inputs self.old) (told_inputs self.new))
            (λ link. Arrives (Some (link_left link))
            (told_inputs self.old) (told_inputs self.new))) }
        ensures told { IfOk result (λ link. IfSome link (λ link. Some (link_written link)
            ≡ Some [])) }
        ensures nothing_written { IfOk result (λ link. IfSome link (λ link. link_written link
            ≡ [])) }
        ensures no_faults { IfOk result (λ link. IfSome link (λ link. link_faults link ≡ 0)) }
        ensures lent { IfOk result (λ link. MatchOption link (door_lent self.new
            ≡ door_lent self.old)
            (λ _. door_lent self.new ≡ door_lent self.old + 1)) }
        ensures refused { OnErr result (told_inputs self.new ≡ told_inputs self.old) }
        ensures not_lent { OnErr result (door_lent self.new ≡ door_lent self.old) }
        ensures cause { HasCause (door_faults self.old) (door_faults self.new) result }
        ensures same_closed { told_closed self.new
            ≡ told_closed self.old }
        ensures same_left { ⟦<MemoryDoor as Port>⟧.left self.new
            ≡ ⟦<MemoryDoor as Port>⟧.left self.old }
        ensures same_written { ⟦<MemoryDoor as Port>⟧.written self.new
            ≡ ⟦<MemoryDoor as Port>⟧.written self.old }

        // Each link has its own list of calls that are to fail.
        ensures link_plan { IfOk result (λ link. IfSome link
            (λ link. PlansFirst (door_fails self.old) link (door_fails self.new))) }
        ensures plan { GoesByPlan (door_plan self.old) (door_plan self.new) result }
    {
        if self.plan.fails_now() {
            return Err(count_fault(&mut self.faults));
        }
        let Some(lent) = self.lent.checked_add(1) else {
            return Err(PortError::OutOfMemory);
        };
        self.closed.reserve(lent)?;
        let Some((input, fail)) = self.inputs.next() else {
            return Ok(None);
        };
        self.lent = lent;
        Ok(Some(MemoryLink::arrived(self.alloc, input, fail)))
    }

    fn close(&mut self, link: MemoryLink)
        requires { 0 < door_lent self.old }
        ensures closed { told_closed self.new
            ≡ and_link (told_closed self.old) (link_ended link) }
        ensures lent { door_lent self.new + 1 ≡ door_lent self.old }
        ensures same_inputs { told_inputs self.new ≡ told_inputs self.old }
        ensures same_faults { door_faults self.new ≡ door_faults self.old }
        ensures same_left { ⟦<MemoryDoor as Port>⟧.left self.new
            ≡ ⟦<MemoryDoor as Port>⟧.left self.old }
        ensures same_written { ⟦<MemoryDoor as Port>⟧.written self.new
            ≡ ⟦<MemoryDoor as Port>⟧.written self.old }

        // It isn't counted, and the calls to come stay.
        ensures same_plan { door_plan self.new ≡ door_plan self.old }
        ensures same_fails { door_fails self.new ≡ door_fails self.old }
    {
        self.lent -= 1;
        match self.closed.push(link) {
            Ok(()) => {}
            Err(_) => unreachable!(),
        }
    }
}
