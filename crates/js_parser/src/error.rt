//! What is told of a text that is no accepted script.

ghost use Rattle.std.specs.Prelude.{◌≡◌};
ghost use Rattle.js_parser.specs.declared.error.ParseError.TheVariants.{OutOfMemory};

use crate::form::Construct;
use dl_text::Place;
use std::alloc::{AllocError, AllocFailed};

/// Why tokens gave no script.
#[derive(Clone, Copy, Debug, PartialEq, Eq)]
pub enum ParseError {
    /// No script goes on with the token at this place.
    Syntax(Place),
    /// Nor with this one, which is refused by a name of its own.
    Construct(Place, Construct),
    /// A limit of depth, nesting or brackets breaks in the statement at this place.
    TooDeep(Place),
    /// There are too many functions from the one at this place on.
    TooMany(Place),
    OutOfMemory,
}

impl From<AllocError> for ParseError {
    ghost from_gives = { λ _ error. error ≡ OutOfMemory };

    fn from(_error: AllocError) -> ParseError {
        ParseError::OutOfMemory
    }
}

impl<T: Drop> From<AllocFailed<T>> for ParseError {
    ghost from_gives = { λ _ error. error ≡ OutOfMemory };

    fn from(_error: AllocFailed<T>) -> ParseError {
        ParseError::OutOfMemory
    }
}
