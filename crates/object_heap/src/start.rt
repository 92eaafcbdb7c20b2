//! The objects that are there at the start (ES3 15), each put together as its line in
//! `specs/Start.antt` says.
ghost use Rattle.std.specs.Prelude.{◌≡◌, ◌∷◌, [], codes, None, Some, IfOk, OnOk, OnErr};
ghost use Rattle.object_heap.specs.Arrays.{whole};
ghost use Rattle.object_heap.specs.Building.{first_of_function, members, object_of, put_all};
ghost use Rattle.object_heap.specs.Changes as changes;
ghost use Rattle.object_heap.specs.Names.{length_name};
ghost use Rattle.object_heap.specs.Start as start;

use crate::built_in::BuiltIn;
use crate::entry::{Entry, HIDDEN_AND_FIXED, HIDDEN_ONLY};
use crate::object::{Attrs, Class};
use crate::properties::Properties;
use crate::stored::StoredObject;
use dl_text::Units;
use js_values::{Num, ObjectId, Value};
use std::alloc::{AllocError, Global};

/// The attributes of the `length` of a function.
pub(crate) const ALL_THREE: Attrs = Attrs {
    read_only: true,
    hidden: true,
    fixed: true,
};

/// The units of a name in ASCII.
pub(crate) fn units_of_name(alloc: Global, name: &[u8]) -> Result<Units, AllocError>
    ensures { IfOk result (λ units. units ≡ name.now) }
{
    let mut units = Units::new(alloc);
    for byte in name {
        units.push(u16::from(*byte))?;
    }
    Ok(units)
}

/// One of the objects, as a value.
fn the(b: BuiltIn) -> Value
    ensures { result ≡ start.the b }
{
    Value::Object(ObjectId(b as u64))
}

/// Puts a property.
pub(crate) fn put(
    alloc: Global,
    properties: &mut Properties,
    name: &[u8],
    v: Value,
    attributes: Attrs,
) -> Result<(), AllocError>
    ensures { OnOk result (properties.new
        ≡ changes.put_property properties.old (changes.holding name.now v attributes)) }
{
    let name = units_of_name(alloc, name)?;
    properties.put_property(alloc, &name, Entry::Holds(attributes, v))
}

/// Puts a property for each line of a table.
fn put_members(
    alloc: Global,
    properties: &mut Properties,
    table: &[(&[u8], BuiltIn)],
) -> Result<(), AllocError>
    ensures { OnOk result (properties.new ≡ put_all properties.old (members table.now)) }
{
    for (name, b) in table {
        put(alloc, properties, name, the(*b), HIDDEN_ONLY)?;
    }
    Ok(())
}

/// An object with these properties, and those of a table behind them.
pub(crate) fn object_with(
    alloc: Global,
    class: Class,
    prototype: Option<BuiltIn>,
    mut properties: Properties,
    table: &[(&[u8], BuiltIn)],
) -> Result<StoredObject, AllocError>
    ensures { IfOk result
        (λ object. object ≡ object_of class prototype (put_all properties (members table.now))) }
{
    put_members(alloc, &mut properties, table)?;
    let prototype = match prototype {
        Some(b) => Some(b as u32),
        None => None,
    };
    Ok(StoredObject {
        properties,
        prototype,
        class,
    })
}

/// A function: its `length`, which is ReadOnly, DontEnum and DontDelete, and its `prototype`, if it
/// is a constructor, with the same three attributes.
pub(crate) fn function_with(
    alloc: Global,
    length: u32,
    prototype: Option<BuiltIn>,
    table: &[(&[u8], BuiltIn)],
) -> Result<StoredObject, AllocError>
    ensures { IfOk result (λ object. object ≡ object_of Class.Function
        (Some BuiltIn.FunctionPrototype)
        (put_all (first_of_function length prototype) (members table.now))) }
{
    let mut properties = Properties::new();
    let length = Value::Num(Num::from(length));
    put(alloc, &mut properties, b"length", length, ALL_THREE)?;
    if let Some(b) = prototype {
        put(alloc, &mut properties, b"prototype", the(b), ALL_THREE)?;
    }
    object_with(
        alloc,
        Class::Function,
        Some(BuiltIn::FunctionPrototype),
        properties,
        table,
    )
}

/// An error's prototype: its `constructor`, `name` and `message`, which is empty.
pub(crate) fn error_prototype(
    alloc: Global,
    prototype: BuiltIn,
    constructor: BuiltIn,
    name: &[u8],
    table: &[(&[u8], BuiltIn)],
) -> Result<StoredObject, AllocError>
    ensures { IfOk result (λ object. object ≡ object_of Class.Error (Some prototype)
        (put_all (start.error_properties constructor name.now) (members table.now))) }
{
    let mut properties = Properties::new();
    put(
        alloc,
        &mut properties,
        b"constructor",
        the(constructor),
        HIDDEN_ONLY,
    )?;
    let name = Value::Str(units_of_name(alloc, name)?);
    put(alloc, &mut properties, b"name", name, HIDDEN_ONLY)?;
    let message = Value::Str(Units::new(alloc));
    put(alloc, &mut properties, b"message", message, HIDDEN_ONLY)?;
    object_with(alloc, Class::Error, Some(prototype), properties, table)
}
