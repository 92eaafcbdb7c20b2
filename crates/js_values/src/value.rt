use crate::number::Num;
use dl_text::{TryCopy, Units};
use std::alloc::{AllocError, Global};
use std::mem::size_of;

/// The number of an object on the heap.
#[derive(Clone, Copy, Debug, PartialEq, Eq, Hash)]
pub struct ObjectId(pub u64);

/// A value of a script (ES3 8). A copy takes constant time.
#[derive(Debug, Drop)]
pub enum Value {
    Undefined,
    Null,
    Bool(bool),
    Num(Num),
    Str(Units),
    Object(ObjectId),
}

// A script holds many.
const _: () = prove!(size_of::<Value>() <= 24);

impl TryCopy for Value {
    fn copy(&self, alloc: Global) -> Result<Value, AllocError> {
        Ok(match self {
            Value::Undefined => Value::Undefined,
            Value::Null => Value::Null,
            Value::Bool(b) => Value::Bool(*b),
            Value::Num(n) => Value::Num(*n),
            Value::Str(text) => Value::Str(text.copy(alloc)?),
            Value::Object(o) => Value::Object(*o),
        })
    }
}
