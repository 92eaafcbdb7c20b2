// What every port has, and its errors.
ghost use Rattle.std.specs.Prelude.{◌≡◌, List, Option, ℕ};
ghost use Rattle.dl_ports.specs.declared.port.PortError.TheVariants.{OutOfMemory};

use std::alloc::{AllocError, AllocFailed};
use thiserror::Error;

/// Why a call of a port was refused.
#[derive(Clone, Copy, Debug, PartialEq, Eq, Error)]
pub enum PortError {
    /// The port failed, and its count of faults rose.
    #[error("the port failed")]
    Failed,
    #[error("out of memory")]
    OutOfMemory,
}

impl From<AllocError> for PortError {
    ghost from_gives = { λ _ e. e ≡ OutOfMemory };

    fn from(_: AllocError) -> Self {
        PortError::OutOfMemory
    }
}

impl<T: Drop> From<AllocFailed<T>> for PortError {
    ghost from_gives = { λ _ e. e ≡ OutOfMemory };

    fn from(_: AllocFailed<T>) -> Self {
        PortError::OutOfMemory
    }
}

/// An end of the program: a store, a sink, a source or a door. What it doesn't tell is `None`.
pub trait Port {
    /// How often it has failed. The count never falls, and stays at 2^64 - 1.
    ghost faults: { Self → ℕ };

    /// The bytes that a source still has, where told.
    ghost left: { Self → Option (List ℕ) };

    /// The bytes that a sink has taken, where told.
    ghost written: { Self → Option (List ℕ) };
}
