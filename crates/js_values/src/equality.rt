ghost use Rattle.std.specs.Prelude.{◌≡◌, nat_eq, Some, Ok};
ghost use Rattle.std.specs.Cmp.Lexicographic.{pointwise};
ghost use Rattle.js_values.specs.Equality as spec;
ghost use Rattle.js_values.specs.NumberTexts.{number_of_text};
ghost use Rattle.js_values.specs.Values.{IsPrimitive};

use crate::number::Num;
use crate::number_text::num_of_units;
use crate::primitive::number_of_bool;
use crate::reason::Reason;
use crate::value::Value;
use dl_text::Units;

/// Whether the numbers are the same, which NaN is with none.
fn same_number(a: Num, b: Num) -> bool
    ensures { result ≡ spec.same_number a b }
{
    match (a.value(), b.value()) {
        (Some(a), Some(b)) => a == b,
        _ => false,
    }
}

fn same_text(a: &Units, b: &Units) -> bool
    ensures { result ≡ pointwise nat_eq a.now b.now }
{
    a.items() == b.items()
}

/// `===` (ES3 11.9.6). It takes no memory.
pub fn strictly_equal(a: &Value, b: &Value) -> bool
    ensures { result ≡ spec.same_value a.now b.now }
{
    match (a, b) {
        (Value::Undefined, Value::Undefined) | (Value::Null, Value::Null) => true,
        (Value::Bool(a), Value::Bool(b)) => a == b,
        (Value::Num(a), Value::Num(b)) => same_number(*a, *b),
        (Value::Str(a), Value::Str(b)) => same_text(a, b),
        (Value::Object(a), Value::Object(b)) => a == b,
        _ => false,
    }
}

/// Whether a number and what a text is as a number are the same.
fn compared(a: Num, text: &Units) -> Result<bool, Reason>
    ensures { result ≡ spec.compared a (number_of_text text.now) }
{
    Ok(same_number(a, num_of_units(text)?))
}

fn equals_nothing(b: &Value) -> bool
    requires { IsPrimitive b.now }
    ensures { spec.equals_nothing b.now ≡ Some (Ok result) }
{
    match b {
        Value::Undefined | Value::Null => true,
        Value::Bool(_) | Value::Num(_) | Value::Str(_) => false,
        Value::Object(_) => unreachable!(),
    }
}

fn equals_number(a: Num, b: &Value) -> Result<bool, Reason>
    requires { IsPrimitive b.now }
    ensures { spec.equals_number a b.now ≡ Some result }
{
    match b {
        Value::Undefined | Value::Null => Ok(false),
        Value::Bool(b) => Ok(same_number(a, number_of_bool(*b))),
        Value::Num(b) => Ok(same_number(a, *b)),
        Value::Str(b) => compared(a, b),
        Value::Object(_) => unreachable!(),
    }
}

fn equals_text(a: &Units, b: &Value) -> Result<bool, Reason>
    requires { IsPrimitive b.now }
    ensures { spec.equals_text a.now b.now ≡ Some result }
{
    match b {
        Value::Undefined | Value::Null => Ok(false),
        Value::Bool(b) => compared(number_of_bool(*b), a),
        Value::Num(b) => compared(*b, a),
        Value::Str(b) => Ok(same_text(a, b)),
        Value::Object(_) => unreachable!(),
    }
}

/// `==` of values that are no objects (ES3 11.9.3), or the stop that a text meets. It takes no
/// memory.
pub fn loosely_equal(a: &Value, b: &Value) -> Result<bool, Reason>
    requires first { IsPrimitive a.now }
    requires second { IsPrimitive b.now }
    ensures { spec.equal_of a.now b.now ≡ Some result }
{
    match a {
        Value::Undefined | Value::Null => Ok(equals_nothing(b)),
        Value::Bool(a) => equals_number(number_of_bool(*a), b),
        Value::Num(a) => equals_number(*a, b),
        Value::Str(a) => equals_text(a, b),
        Value::Object(_) => unreachable!(),
    }
}
