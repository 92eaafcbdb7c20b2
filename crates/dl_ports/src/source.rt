// Where bytes are read.
ghost use Rattle.std.specs.Prelude.{◌≡◌, ◌<◌, ◌≤◌, ◌↔◌, [], length, take, IfOk, IfSome, OnErr};
ghost use Rattle.dl_ports.specs.Counts.{HasCause};
ghost use Rattle.dl_ports.specs.Streams.{and_front};

use crate::{Port, PortError};

/// A source of bytes.
pub trait Source: Port {
    /// Fills a front of the room with the bytes that come next and tells its length. 0 is the end
    /// of the input. What the room holds behind that front, or after a refusal, is left open.
    fn take(&mut self, room: &mut [u8]) -> Result<usize, PortError>
        requires { 0 < length room.old }
        ensures bound { IfOk result (λ n. n ≤ length room.new) }
        ensures taken { IfOk result (λ n. Self.left self.old
            ≡ and_front (take n room.new) (Self.left self.new)) }
        ensures end { IfOk result (λ n. IfSome (Self.left self.old)
            (λ left. (n ≡ 0) ↔ (left ≡ []))) }
        ensures refused { OnErr result (Self.left self.new ≡ Self.left self.old) }
        ensures cause { HasCause (Self.faults self.old) (Self.faults self.new) result }
        ensures same_written { Self.written self.new ≡ Self.written self.old };
}
