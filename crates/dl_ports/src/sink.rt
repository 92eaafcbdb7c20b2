// Where bytes are written.
ghost use Rattle.std.specs.Prelude.{◌≡◌, ◌<◌, ◌≤◌, length, take, IfOk, OnOk, OnErr};
ghost use Rattle.dl_ports.specs.Counts.{HasCause};
ghost use Rattle.dl_ports.specs.Streams.{and_more, WritesPart};

use crate::{Port, PortError};

/// A sink of bytes.
pub trait Sink: Port {
    /// Takes a front of the piece and tells its length, which is not 0 unless the piece is empty.
    fn put(&mut self, piece: &[u8]) -> Result<usize, PortError>
        ensures bound { IfOk result (λ n. n ≤ length piece.now) }
        ensures some { IfOk result (λ n. 0 < length piece.now → 0 < n) }
        ensures taken { IfOk result (λ n. Self.written self.new
            ≡ and_more (Self.written self.old) (take n piece.now)) }
        ensures refused { OnErr result (Self.written self.new ≡ Self.written self.old) }
        ensures cause { HasCause (Self.faults self.old) (Self.faults self.new) result }
        ensures same_left { Self.left self.new ≡ Self.left self.old };
}

/// Writes all the bytes. After a refusal a front of them was written, which is shorter than they
/// are unless they are none.
pub fn put_all<K: Sink>(sink: &mut K, bytes: &[u8]) -> Result<(), PortError>
    ensures written { OnOk result (K.written sink.new ≡ and_more (K.written sink.old) bytes.now) }
    ensures refused { OnErr result
        (WritesPart (K.written sink.old) bytes.now (K.written sink.new)) }
    ensures cause { HasCause (K.faults sink.old) (K.faults sink.new) result }
    ensures same_left { K.left sink.new ≡ K.left sink.old }
{
    let mut rest = bytes;
    while !rest.is_empty() {
        let count = sink.put(rest)?;
        rest = &rest[count..];
    }
    Ok(())
}
