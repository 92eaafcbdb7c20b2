ghost use Rattle.std.specs.Prelude.{◌≡◌};
ghost use Rattle.object_heap.specs.declared.answer.HeapError.TheVariants.{OutOfMemory};

use js_values::Value;
use std::alloc::AllocError;

/// What a read of a property gives (ES3 8.6.2.1).
#[derive(Clone, Copy, Debug)]
pub enum Prop<'a> {
    /// The value.
    Own(&'a Value),
    /// The value is in this scope, at this place.
    Shared(u64, u64),
}

/// What a write to a property did (ES3 8.6.2.2).
#[derive(Clone, Copy, Debug, PartialEq, Eq)]
pub enum Put {
    Done,
    /// Nothing, since the property cannot be put.
    Ignored,
    /// Nothing, since the value belongs to this place of a scope.
    Shared(u64, u64),
}

/// Why a write failed.
#[derive(Clone, Copy, Debug, PartialEq, Eq)]
pub enum HeapError {
    /// The value is no length of an array, so a RangeError is due (ES3 15.4.5.1).
    BadLength,
    OutOfMemory,
}

impl From<AllocError> for HeapError {
    ghost from_gives = { λ _ e. e ≡ OutOfMemory };

    fn from(_: AllocError) -> HeapError {
        HeapError::OutOfMemory
    }
}
