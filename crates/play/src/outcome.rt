ghost use Rattle.std.specs.Prelude.{◌≡◌};
ghost use Rattle.play.specs.Answers.{error_of};
ghost use Rattle.play.specs.declared.outcome.FirstError.TheVariants.{OutOfMemory};

use dl_ports::PortError;
use dl_text::Text;
use std::alloc::{AllocError, AllocFailed};

/// How a run ends, where its report is written.
#[derive(Clone, Copy, Debug, PartialEq, Eq)]
pub enum End {
    Ended,
    OutOfSteps,
}

/// The report of a run, whole, and its end.
#[derive(Drop)]
pub struct Outcome {
    pub report: Text,
    pub end: End,
}

/// A file that the first path reads.
#[derive(Clone, Copy, Debug, PartialEq, Eq)]
pub enum FirstFile {
    Page,
    Manifest,
    Script,
    Cluster(u32),
}

/// Why there is no report.
#[derive(Drop)]
pub enum FirstError {
    /// The store failed at a read.
    ReadFault,
    /// The store has no file of this name.
    Missing(Text),
    /// The file breaks its form.
    First(FirstFile),
    OutOfMemory,
}

impl From<PortError> for FirstError {
    ghost from_gives = { λ port e. e ≡ error_of port };

    fn from(error: PortError) -> FirstError {
        match error {
            PortError::Failed => FirstError::ReadFault,
            PortError::OutOfMemory => FirstError::OutOfMemory,
        }
    }
}

impl From<AllocError> for FirstError {
    ghost from_gives = { λ _ e. e ≡ OutOfMemory };

    fn from(_: AllocError) -> FirstError {
        FirstError::OutOfMemory
    }
}

impl<T: Drop> From<AllocFailed<T>> for FirstError {
    ghost from_gives = { λ _ e. e ≡ OutOfMemory };

    fn from(_: AllocFailed<T>) -> FirstError {
        FirstError::OutOfMemory
    }
}
