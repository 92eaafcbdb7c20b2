//! The objects of the start by their names, as in `specs/Start.antt`.
ghost use Rattle.std.specs.Prelude.{◌≡◌, [], map, Some, IfOk};
ghost use Rattle.object_heap.specs.Building.{members, object_of, put_all};
ghost use Rattle.object_heap.specs.Start as start;

use crate::built_in::BuiltIn;
use crate::entry::{HIDDEN_AND_FIXED, HIDDEN_ONLY};
use crate::object::Class;
use crate::properties::Properties;
use crate::start::{ALL_THREE, error_prototype, function_with, object_with, put};
use crate::stored::StoredObject;
use js_values::{Num, Value};
use std::alloc::{AllocError, Global};

/// 15.2.4
const OBJECT_PROTOTYPE: [(&[u8], BuiltIn); 6] = [
    (b"constructor", BuiltIn::Object),
    (b"toString", BuiltIn::ObjectToString),
    (b"valueOf", BuiltIn::ObjectValueOf),
    (b"hasOwnProperty", BuiltIn::HasOwnProperty),
    (b"isPrototypeOf", BuiltIn::IsPrototypeOf),
    (b"propertyIsEnumerable", BuiltIn::PropertyIsEnumerable),
];

/// 15.3.4, behind its `length` and `constructor`
const FUNCTION_PROTOTYPE: [(&[u8], BuiltIn); 3] = [
    (b"toString", BuiltIn::FunctionToString),
    (b"apply", BuiltIn::Apply),
    (b"call", BuiltIn::Call),
];

/// 15.4.4, behind its `length`
const ARRAY_PROTOTYPE: [(&[u8], BuiltIn); 11] = [
    (b"constructor", BuiltIn::Array),
    (b"toString", BuiltIn::ArrayToString),
    (b"concat", BuiltIn::ArrayConcat),
    (b"join", BuiltIn::Join),
    (b"pop", BuiltIn::Pop),
    (b"push", BuiltIn::Push),
    (b"reverse", BuiltIn::Reverse),
    (b"shift", BuiltIn::Shift),
    (b"slice", BuiltIn::ArraySlice),
    (b"splice", BuiltIn::Splice),
    (b"unshift", BuiltIn::Unshift),
];

/// 15.5.4
const STRING_PROTOTYPE: [(&[u8], BuiltIn); 11] = [
    (b"constructor", BuiltIn::String),
    (b"toString", BuiltIn::StringToString),
    (b"valueOf", BuiltIn::StringValueOf),
    (b"charAt", BuiltIn::CharAt),
    (b"charCodeAt", BuiltIn::CharCodeAt),
    (b"concat", BuiltIn::StringConcat),
    (b"indexOf", BuiltIn::IndexOf),
    (b"lastIndexOf", BuiltIn::LastIndexOf),
    (b"slice", BuiltIn::StringSlice),
    (b"split", BuiltIn::Split),
    (b"substring", BuiltIn::Substring),
];

/// 15.7.4
const NUMBER_PROTOTYPE: [(&[u8], BuiltIn); 3] = [
    (b"constructor", BuiltIn::Number),
    (b"toString", BuiltIn::NumberToString),
    (b"valueOf", BuiltIn::NumberValueOf),
];

/// 15.6.4
const BOOLEAN_PROTOTYPE: [(&[u8], BuiltIn); 3] = [
    (b"constructor", BuiltIn::Boolean),
    (b"toString", BuiltIn::BooleanToString),
    (b"valueOf", BuiltIn::BooleanValueOf),
];

/// 15.8
const MATH: [(&[u8], BuiltIn); 6] = [
    (b"abs", BuiltIn::Abs),
    (b"max", BuiltIn::Max),
    (b"min", BuiltIn::Min),
    (b"floor", BuiltIn::Floor),
    (b"ceil", BuiltIn::Ceil),
    (b"round", BuiltIn::Round),
];

/// 15.1, behind `NaN` and `undefined`
const GLOBAL: [(&[u8], BuiltIn); 13] = [
    (b"Object", BuiltIn::Object),
    (b"Array", BuiltIn::Array),
    (b"String", BuiltIn::String),
    (b"Number", BuiltIn::Number),
    (b"Boolean", BuiltIn::Boolean),
    (b"Error", BuiltIn::Error),
    (b"TypeError", BuiltIn::TypeError),
    (b"ReferenceError", BuiltIn::ReferenceError),
    (b"RangeError", BuiltIn::RangeError),
    (b"Math", BuiltIn::Math),
    (b"parseInt", BuiltIn::ParseInt),
    (b"isNaN", BuiltIn::IsNan),
    (b"host", BuiltIn::Host),
];

fn function_prototype(alloc: Global) -> Result<StoredObject, AllocError>
    ensures { IfOk result (λ object. object ≡ start.object BuiltIn.FunctionPrototype) }
{
    let mut properties = Properties::new();
    let length = Value::Num(Num::from(0u32));
    put(alloc, &mut properties, b"length", length, ALL_THREE)?;
    put(
        alloc,
        &mut properties,
        b"constructor",
        Value::Undefined,
        HIDDEN_ONLY,
    )?;
    let behind = Some(BuiltIn::ObjectPrototype);
    object_with(
        alloc,
        Class::Function,
        behind,
        properties,
        &FUNCTION_PROTOTYPE,
    )
}

fn array_prototype(alloc: Global) -> Result<StoredObject, AllocError>
    ensures { IfOk result (λ object. object ≡ start.object BuiltIn.ArrayPrototype) }
{
    let mut properties = Properties::new();
    let length = Value::Num(Num::from(0u32));
    put(alloc, &mut properties, b"length", length, HIDDEN_AND_FIXED)?;
    let behind = Some(BuiltIn::ObjectPrototype);
    object_with(alloc, Class::Array, behind, properties, &ARRAY_PROTOTYPE)
}

fn global(alloc: Global) -> Result<StoredObject, AllocError>
    ensures { IfOk result (λ object. object ≡ start.object BuiltIn.Global) }
{
    let mut properties = Properties::new();
    put(
        alloc,
        &mut properties,
        b"NaN",
        Value::Num(Num::NaN),
        HIDDEN_AND_FIXED,
    )?;
    put(
        alloc,
        &mut properties,
        b"undefined",
        Value::Undefined,
        HIDDEN_AND_FIXED,
    )?;
    let behind = Some(BuiltIn::ObjectPrototype);
    object_with(alloc, Class::Plain, behind, properties, &GLOBAL)
}

/// An object of a class without properties of other kinds.
fn plain(
    alloc: Global,
    class: Class,
    table: &[(&[u8], BuiltIn)],
) -> Result<StoredObject, AllocError>
    ensures { IfOk result (λ object. object ≡ object_of class (Some BuiltIn.ObjectPrototype)
        (put_all [] (members table.now))) }
{
    object_with(
        alloc,
        class,
        Some(BuiltIn::ObjectPrototype),
        Properties::new(),
        table,
    )
}

fn kind_of_error(
    alloc: Global,
    constructor: BuiltIn,
    name: &[u8],
) -> Result<StoredObject, AllocError>
    ensures { IfOk result (λ object. object ≡ object_of Class.Error (Some BuiltIn.ErrorPrototype)
        (start.error_properties constructor name.now)) }
{
    error_prototype(alloc, BuiltIn::ErrorPrototype, constructor, name, &[])
}

fn constructor(alloc: Global, prototype: BuiltIn) -> Result<StoredObject, AllocError>
    ensures { IfOk result (λ object. object ≡ start.constructor prototype []) }
{
    function_with(alloc, 1, Some(prototype), &[])
}

fn function(alloc: Global, length: u32) -> Result<StoredObject, AllocError>
    ensures { IfOk result (λ object. object ≡ start.function length) }
{
    function_with(alloc, length, None, &[])
}

/// These objects, in order.
pub(crate) fn objects(alloc: Global, all: &[BuiltIn]) -> Result<Vec<StoredObject>, AllocError>
    ensures { IfOk result (λ objects. objects.items ≡ map start.object all.now) }
{
    let mut objects = Vec::with_capacity(alloc, all.len())?;
    for b in all {
        objects.push(object(alloc, *b)?)?;
    }
    Ok(objects)
}

/// One of the objects.
fn object(alloc: Global, b: BuiltIn) -> Result<StoredObject, AllocError>
    ensures { IfOk result (λ object. object ≡ start.object b) }
{
    match b {
        BuiltIn::ObjectPrototype => {
            object_with(
                alloc,
                Class::Plain,
                None,
                Properties::new(),
                &OBJECT_PROTOTYPE,
            )
        }
        BuiltIn::FunctionPrototype => function_prototype(alloc),
        BuiltIn::ArrayPrototype => array_prototype(alloc),
        BuiltIn::StringPrototype => plain(alloc, Class::Plain, &STRING_PROTOTYPE),
        BuiltIn::NumberPrototype => plain(alloc, Class::Plain, &NUMBER_PROTOTYPE),
        BuiltIn::BooleanPrototype => plain(alloc, Class::Plain, &BOOLEAN_PROTOTYPE),
        BuiltIn::ErrorPrototype => {
            let table = [(b"toString".as_slice(), BuiltIn::ErrorToString)];
            error_prototype(
                alloc,
                BuiltIn::ObjectPrototype,
                BuiltIn::Error,
                b"Error",
                &table,
            )
        }
        BuiltIn::TypeErrorPrototype => kind_of_error(alloc, BuiltIn::TypeError, b"TypeError"),
        BuiltIn::ReferenceErrorPrototype => {
            kind_of_error(alloc, BuiltIn::ReferenceError, b"ReferenceError")
        }
        BuiltIn::RangeErrorPrototype => kind_of_error(alloc, BuiltIn::RangeError, b"RangeError"),
        BuiltIn::Math => plain(alloc, Class::Math, &MATH),
        BuiltIn::Host => plain(alloc, Class::Plain, &[(b"on", BuiltIn::On)]),
        BuiltIn::Global => global(alloc),
        BuiltIn::Object => constructor(alloc, BuiltIn::ObjectPrototype),
        BuiltIn::Array => constructor(alloc, BuiltIn::ArrayPrototype),
        BuiltIn::String => {
            let table = [(b"fromCharCode".as_slice(), BuiltIn::FromCharCode)];
            function_with(alloc, 1, Some(BuiltIn::StringPrototype), &table)
        }
        BuiltIn::Number => constructor(alloc, BuiltIn::NumberPrototype),
        BuiltIn::Boolean => constructor(alloc, BuiltIn::BooleanPrototype),
        BuiltIn::Error => constructor(alloc, BuiltIn::ErrorPrototype),
        BuiltIn::TypeError => constructor(alloc, BuiltIn::TypeErrorPrototype),
        BuiltIn::ReferenceError => constructor(alloc, BuiltIn::ReferenceErrorPrototype),
        BuiltIn::RangeError => constructor(alloc, BuiltIn::RangeErrorPrototype),
        BuiltIn::ObjectToString
        | BuiltIn::ObjectValueOf
        | BuiltIn::FunctionToString
        | BuiltIn::ArrayToString
        | BuiltIn::Pop
        | BuiltIn::Reverse
        | BuiltIn::Shift
        | BuiltIn::StringToString
        | BuiltIn::StringValueOf
        | BuiltIn::NumberValueOf
        | BuiltIn::BooleanToString
        | BuiltIn::BooleanValueOf
        | BuiltIn::ErrorToString => function(alloc, 0),
        BuiltIn::ParseInt
        | BuiltIn::Apply
        | BuiltIn::ArraySlice
        | BuiltIn::Splice
        | BuiltIn::StringSlice
        | BuiltIn::Split
        | BuiltIn::Substring
        | BuiltIn::Max
        | BuiltIn::Min
        | BuiltIn::On => function(alloc, 2),
        BuiltIn::IsNan
        | BuiltIn::HasOwnProperty
        | BuiltIn::IsPrototypeOf
        | BuiltIn::PropertyIsEnumerable
        | BuiltIn::Call
        | BuiltIn::ArrayConcat
        | BuiltIn::Join
        | BuiltIn::Push
        | BuiltIn::Unshift
        | BuiltIn::FromCharCode
        | BuiltIn::CharAt
        | BuiltIn::CharCodeAt
        | BuiltIn::StringConcat
        | BuiltIn::IndexOf
        | BuiltIn::LastIndexOf
        | BuiltIn::NumberToString
        | BuiltIn::Abs
        | BuiltIn::Floor
        | BuiltIn::Ceil
        | BuiltIn::Round => function(alloc, 1),
    }
}
