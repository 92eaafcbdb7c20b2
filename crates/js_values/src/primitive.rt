ghost use Rattle.std.specs.Prelude.{◌≡◌, Some, IfOk};
ghost use Rattle.js_values.specs.Values as spec;

use crate::number::Num;
use crate::number_text::num_of_units;
use crate::numeral::text_of_num;
use crate::reason::Reason;
use crate::value::Value;
use dl_text::{TryCopy, Units, units_of};
use std::alloc::{AllocError, Global};

/// ToBoolean (ES3 9.2). It takes no memory.
pub fn to_boolean(value: &Value) -> bool
    ensures { result ≡ spec.truth_of value.now }
{
    match value {
        Value::Undefined | Value::Null => false,
        Value::Bool(b) => *b,
        Value::Num(n) => match n.value() {
            Some(whole) => whole != 0,
            None => false,
        },
        Value::Str(text) => !text.items().is_empty(),
        Value::Object(_) => true,
    }
}

/// The number of a boolean.
pub(crate) fn number_of_bool(b: bool) -> Num
    ensures { result ≡ spec.number_of_bool b }
{
    Num::from(u32::from(b))
}

/// ToNumber of a value that is no object (ES3 9.3). It takes no memory.
pub fn to_number(value: &Value) -> Result<Num, Reason>
    requires { spec.IsPrimitive value.now }
    ensures { spec.number_of value.now ≡ Some result }
{
    match value {
        Value::Undefined => Ok(Num::NaN),
        Value::Null => Ok(Num::from(0u32)),
        Value::Bool(b) => Ok(number_of_bool(*b)),
        Value::Num(n) => Ok(*n),
        Value::Str(text) => num_of_units(text),
        Value::Object(_) => unreachable!(),
    }
}

/// ToString of a value that is no object (ES3 9.8).
#[tactic(auto, using(crate::proofs::Words::word_units))]
pub fn to_text(alloc: Global, value: &Value) -> Result<Units, AllocError>
    requires { spec.IsPrimitive value.now }
    ensures { IfOk result (λ text. spec.text_of value.now ≡ Some text) }
{
    match value {
        Value::Undefined => units_of(alloc, "undefined"),
        Value::Null => units_of(alloc, "null"),
        Value::Bool(true) => units_of(alloc, "true"),
        Value::Bool(false) => units_of(alloc, "false"),
        Value::Num(n) => text_of_num(alloc, *n, 10),
        Value::Str(text) => text.copy(alloc),
        Value::Object(_) => unreachable!(),
    }
}

/// The answer of `typeof` (ES3 11.4.3), where it is known of an object whether it is a function. It
/// takes no memory.
pub fn type_of(value: &Value, is_function: bool) -> &'static str
    ensures { result.now ≡ spec.type_of is_function value.now }
{
    match value {
        Value::Undefined => "undefined",
        Value::Null => "object",
        Value::Bool(_) => "boolean",
        Value::Num(_) => "number",
        Value::Str(_) => "string",
        Value::Object(_) if is_function => "function",
        Value::Object(_) => "object",
    }
}
