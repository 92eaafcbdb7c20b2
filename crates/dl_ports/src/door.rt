// Where connections arrive.
ghost use Rattle.std.specs.Prelude.{◌≡◌, ◌+◌, ◌<◌, List, Option, ℕ, [], Some, IfOk, IfSome, OnErr, MatchOption};
ghost use Rattle.dl_ports.specs.Counts.{HasCause};
ghost use Rattle.dl_ports.specs.Doors.{Ended, ended, and_link, Arrives, NoneLeft};

use crate::{Port, PortError, Sink, Source};

/// A door where links to peers arrive. A link that was accepted is lent until it is closed.
pub trait Door: Port {
    type Link: Source + Sink + Drop;

    /// The bytes of each link that is still to come, in order, where told.
    ghost inputs: { Self → Option (List (List ℕ)) };

    /// The links that were handed back, in order, where told.
    ghost closed: { Self → Option (List Ended) };

    /// How many accepted links are not yet handed back.
    ghost lent: { Self → ℕ };

    /// The next link, or `None` exactly where there is no further one.
    fn accept(&mut self) -> Result<Option<Self::Link>, PortError>
        // The link has the first of the inputs left, nothing written and no faults.
        ensures input { IfOk result (λ link. MatchOption link
            (NoneLeft (inputs self.old) (inputs self.new))
            (λ link. Arrives (Self.Link.Port.left link) (inputs self.old) (inputs self.new))) }
        ensures told { IfOk result (λ link. IfSome link
            (λ link. IfSome (inputs self.old) (λ _. Self.Link.Port.written link ≡ Some []))) }
        ensures nothing_written { IfOk result (λ link. IfSome link
            (λ link. IfSome (Self.Link.Port.written link) (λ bytes. bytes ≡ []))) }
        ensures no_faults { IfOk result (λ link. IfSome link
            (λ link. Self.Link.Port.faults link ≡ 0)) }

        ensures lent { IfOk result (λ link. MatchOption link (lent self.new ≡ lent self.old)
            (λ _. lent self.new ≡ lent self.old + 1)) }
        ensures refused { OnErr result (inputs self.new ≡ inputs self.old) }
        ensures not_lent { OnErr result (lent self.new ≡ lent self.old) }
        ensures cause { HasCause (Self.faults self.old) (Self.faults self.new) result }
        ensures same_closed { closed self.new ≡ closed self.old }
        ensures same_left { Self.left self.new ≡ Self.left self.old }
        ensures same_written { Self.written self.new ≡ Self.written self.old };

    /// Takes a link back. It cannot fail and takes no memory, since the `accept` that lent the link
    /// made the room.
    fn close(&mut self, link: Self::Link)
        requires { 0 < lent self.old }
        ensures closed { closed self.new
            ≡ and_link (closed self.old)
            (ended Self.Link.Port.left Self.Link.Port.written Self.Link.Port.faults link) }
        ensures lent { lent self.new + 1 ≡ lent self.old }
        ensures same_inputs { inputs self.new ≡ inputs self.old }
        ensures same_faults { Self.faults self.new ≡ Self.faults self.old }
        ensures same_left { Self.left self.new ≡ Self.left self.old }
        ensures same_written { Self.written self.new ≡ Self.written self.old };
}
