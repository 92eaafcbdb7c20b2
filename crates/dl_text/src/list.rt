ghost use Rattle.std.specs.Prelude.{◌≡◌, List, IfOk};

use sqlite_items::Items;
use std::alloc::{AllocError, Global};

/// What is a list for contracts: `items` gives it.
pub trait Listed<T> {
    ghost listed: { Self → List T };

    /// The items in order.
    fn items(&self) -> &[T]
        ensures { result.now ≡ listed self.now };
}

impl<T> Listed<T> for Items<T> {
    ghost listed = { λ list. list };

    fn items(&self) -> &[T] {
        self.as_slice()
    }
}

/// What can be copied where memory is found.
pub trait TryCopy {
    /// An equal value.
    fn copy(&self, alloc: Global) -> Result<Self, AllocError>
    where
        Self: Sized,
        ensures { IfOk result (λ copy. copy ≡ self.now) };
}

impl TryCopy for u16 {
    fn copy(&self, _: Global) -> Result<u16, AllocError> {
        Ok(*self)
    }
}
