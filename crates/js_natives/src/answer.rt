use js_values::{Reason, Value};

/// The kind of an error that a native throws, a new object of that kind without an own `message`.
#[derive(Clone, Copy, Debug, PartialEq, Eq)]
pub enum ErrorKind {
    TypeError,
    ReferenceError,
    RangeError,
}

/// How a native ends.
#[derive(Debug, Drop)]
pub enum Answer {
    Value(Value),
    Throw(ErrorKind),
    Stop(Reason),
}
