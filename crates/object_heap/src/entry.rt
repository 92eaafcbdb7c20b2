ghost use Rattle.std.specs.Prelude.{◌≡◌};
ghost use Rattle.js_values.specs.declared.number.Num.TheVariants as number;
ghost use Rattle.js_values.specs.declared.value.Value.TheVariants as value;
ghost use Rattle.object_heap.specs.Arrays as arrays;

use crate::object::Attrs;
use js_values::{Num, Value};
use std::mem::size_of;

/// What is stored with the name of a property: its value, or the place of a scope where that is.
#[derive(Debug, Drop)]
pub(crate) enum Entry {
    Holds(Attrs, Value),
    /// An index of `arguments` that shares its value with a formal; it is DontEnum (ES3 10.1.8).
    Shares(u64, u64),
}

// Each property has one.
const _: () = prove!(size_of::<Entry>() <= 32);

/// What comes of a write to an object's own property.
#[derive(Debug, Drop)]
pub(crate) enum Written {
    Done,
    ReadOnly,
    /// The value belongs to this place of a scope.
    Shared(u64, u64),
    /// There is no such property; the value comes back.
    Absent(Value),
}

/// The attributes of a property that a write makes.
pub(crate) const NO_ATTRIBUTES: Attrs = Attrs {
    read_only: false,
    hidden: false,
    fixed: false,
};

/// The attributes of what only a `for-in` does not see.
pub(crate) const HIDDEN_ONLY: Attrs = Attrs {
    read_only: false,
    hidden: true,
    fixed: false,
};

/// The attributes of the `length` of an array.
pub(crate) const HIDDEN_AND_FIXED: Attrs = Attrs {
    read_only: false,
    hidden: true,
    fixed: true,
};

impl Entry {
    ghost use Rattle.object_heap.specs.Stored as stored;
    ghost use Rattle.object_heap.specs.Writes as writes;

    /// The attributes of the property.
    pub(crate) fn attributes(&self) -> Attrs
        ensures { result ≡ stored.attributes_of self.now }
    {
        match self {
            Entry::Holds(attributes, _) => *attributes,
            Entry::Shares(_, _) => HIDDEN_ONLY,
        }
    }

    /// Writes a value, unless the property is read-only or shares its value.
    pub(crate) fn write(&mut self, v: Value) -> Written
        ensures what { result ≡ writes.written_by
            (stored.attributes_of self.old).read_only (stored.slot_of self.old) }
        ensures after { self.new ≡ writes.entry_after result self.old v }
    {
        match self {
            Entry::Shares(scope, place) => Written::Shared(*scope, *place),
            Entry::Holds(attributes, value) => {
                if attributes.read_only {
                    return Written::ReadOnly;
                }
                *value = v;
                Written::Done
            }
        }
    }

    /// Holds another value, with the same attributes.
    pub(crate) fn hold(&mut self, v: Value)
        ensures { self.new ≡ stored.holding_in self.old v }
    {
        *self = Entry::Holds(self.attributes(), v);
    }
}

/// A whole number as the length of an array: from 0 to 2^32 - 1.
fn length_of_number(z: i64) -> Option<u32>
    ensures { result ≡ arrays.length_value (value.Num (number.Whole z)) }
{
    if 0 <= z && z <= 0xffff_ffff {
        Some(z as u32)
    } else {
        None
    }
}

/// The length of an array that a value is, where it is one (ES3 15.4.5.1).
pub(crate) fn length_value(v: &Value) -> Option<u32>
    ensures { result ≡ arrays.length_value v.now }
{
    match v {
        Value::Num(Num::Whole(whole)) => length_of_number(whole.get()),
        _ => None,
    }
}
