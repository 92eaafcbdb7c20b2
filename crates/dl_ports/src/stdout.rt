// Standard output.
ghost use Rattle.std.specs.Prelude.{◌≡◌, None};

use crate::plan::{count_fault, counted};
use crate::{Port, PortError, Sink};

/// Standard output as a sink. It tells nothing.
#[derive(Drop)]
pub struct StdoutSink<R: Print> {
    rt: R,
    faults: u64,
}

impl<R: Print> StdoutSink<R> {
    /// The standard output of the program's runtime.
    pub fn new(rt: R) -> StdoutSink<R>
        ensures { ⟦<StdoutSink<R> as Port>⟧.faults result ≡ 0 }
    {
        StdoutSink { rt, faults: 0 }
    }
}

impl<R: Print> Port for StdoutSink<R> {
    ghost faults = { λ sink. sink.faults };

    ghost left = { λ _. None };

    ghost written = { λ _. None };
}

impl<R: Print> Sink for StdoutSink<R> {
    fn put(&mut self, piece: &[u8]) -> Result<usize, PortError> {
        let count = counted(&mut self.faults, self.rt.write_some(piece))?;
        if count == 0 && !piece.is_empty() {
            return Err(count_fault(&mut self.faults));
        }
        Ok(count)
    }
}
