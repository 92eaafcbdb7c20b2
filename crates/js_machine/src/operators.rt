//! Operators between two values (ES3 11.5 to 11.10), as far as they ask for nothing.

ghost use Rattle.std.specs.Prelude.{◌≡◌, ◌++◌, IfOk, Some};
ghost use Rattle.js_values.specs.Integers.{signed_32_bits};
ghost use Rattle.js_values.specs.Numbers.{less_of};
ghost use Rattle.js_values.specs.Values.{number_of, text_of};
ghost use Rattle.js_machine.specs.Operated as spec;
ghost use Rattle.js_machine.specs.Operators.{is_text, text_less};

use dl_text::{TryCopy, Units};
use js_tree::BinaryOp;
use js_values::{
    Num, Reason, Value, WholeNumber, add, div, less, loosely_equal, mul, rem, shift_left,
    shift_right, shift_right_unsigned, strictly_equal, sub, to_number, to_text, to_uint32,
};
use std::alloc::{AllocError, Global};

/// The most units of a text.
const LONGEST_TEXT: usize = 1 << 26;

/// What an operator gives: a value, or a stop. None where it asks for more.
type Operated = Option<Result<Value, Reason>>;

/// Whether a value is an object.
pub(crate) fn is_object(v: &Value) -> bool
    ensures { result ≡ spec.is_object v.now }
{
    match v {
        Value::Object(_) => true,
        Value::Undefined => false,
        Value::Null => false,
        Value::Bool(_) => false,
        Value::Num(_) => false,
        Value::Str(_) => false,
    }
}

fn is_text(v: &Value) -> bool
    ensures { result ≡ is_text v.now }
{
    match v {
        Value::Str(_) => true,
        Value::Undefined => false,
        Value::Null => false,
        Value::Bool(_) => false,
        Value::Num(_) => false,
        Value::Object(_) => false,
    }
}

/// ToNumber (ES3 9.3), but of an object.
pub(crate) fn number(v: &Value) -> Option<Result<Num, Reason>>
    ensures { result ≡ number_of v.now }
{
    match v {
        Value::Object(_) => None,
        Value::Undefined => Some(to_number(v)),
        Value::Null => Some(to_number(v)),
        Value::Bool(_) => Some(to_number(v)),
        Value::Num(_) => Some(to_number(v)),
        Value::Str(_) => Some(to_number(v)),
    }
}

/// ToString (ES3 9.8), but of an object.
pub(crate) fn text(alloc: Global, v: &Value) -> Result<Option<Units>, AllocError>
    ensures { IfOk result (λ text. text ≡ text_of v.now) }
{
    match v {
        Value::Object(_) => Ok(None),
        Value::Undefined => Ok(Some(to_text(alloc, v)?)),
        Value::Null => Ok(Some(to_text(alloc, v)?)),
        Value::Bool(_) => Ok(Some(to_text(alloc, v)?)),
        Value::Num(_) => Ok(Some(to_text(alloc, v)?)),
        Value::Str(text) => Ok(Some(text.copy(alloc)?)),
    }
}

/// The signed number of 32 bits.
fn signed(bits: u32) -> Num
    ensures { result ≡ Num.Whole (signed_32_bits bits) }
{
    let bits = i64::from(bits);
    let value = if bits < 1 << 31 {
        bits
    } else {
        bits - (1 << 32)
    };
    Num::Whole(WholeNumber::new(value))
}

fn as_value(n: Result<Num, Reason>) -> Result<Value, Reason>
    ensures { result ≡ spec.number_result n }
{
    match n {
        Ok(n) => Ok(Value::Num(n)),
        Err(stop) => Err(stop),
    }
}

/// An operation on two numbers (ES3 11.5 to 11.7, 11.10).
#[inline]
pub(crate) fn compute(op: BinaryOp, a: Num, b: Num) -> Result<Num, Reason>
    ensures { result ≡ spec.on_two op a b }
{
    match op {
        BinaryOp::Multiply => mul(a, b),
        BinaryOp::Divide => div(a, b),
        BinaryOp::Remainder => Ok(rem(a, b)),
        BinaryOp::Add => add(a, b),
        BinaryOp::Subtract => sub(a, b),
        BinaryOp::ShiftLeft => Ok(shift_left(a, b)),
        BinaryOp::ShiftRight => Ok(shift_right(a, b)),
        BinaryOp::ShiftRightUnsigned => Ok(shift_right_unsigned(a, b)),
        BinaryOp::BitAnd => Ok(signed(to_uint32(a) & to_uint32(b))),
        BinaryOp::BitXor => Ok(signed(to_uint32(a) ^ to_uint32(b))),
        BinaryOp::BitOr => Ok(signed(to_uint32(a) | to_uint32(b))),
        _ => Ok(Num::NaN),
    }
}

fn on_numbers(op: BinaryOp, v: &Value, w: &Value) -> Operated
    ensures { result ≡ spec.computed (spec.on_two op) v.now w.now }
{
    match number(v) {
        None => None,
        Some(Err(stop)) => Some(Err(stop)),
        Some(Ok(a)) => match number(w) {
            None => None,
            Some(Err(stop)) => Some(Err(stop)),
            Some(Ok(b)) => Some(as_value(compute(op, a, b))),
        },
    }
}

/// A text with another behind it (ES3 11.6.1).
fn as_text(alloc: Global, a: &Units, b: &Units) -> Result<Result<Value, Reason>, AllocError>
    ensures { IfOk result (λ r. r ≡ spec.text_result (a.now ++ b.now)) }
{
    if a.items().len() > LONGEST_TEXT || b.items().len() > LONGEST_TEXT - a.items().len() {
        return Ok(Err(Reason::LongText));
    }
    Ok(Ok(Value::Str(Units::joined(alloc, a, b)?)))
}

fn on_texts(alloc: Global, v: &Value, w: &Value) -> Result<Operated, AllocError>
    ensures { IfOk result (λ r. r ≡ spec.joined_texts v.now w.now) }
{
    let Some(a) = text(alloc, v)? else {
        return Ok(None);
    };
    let Some(b) = text(alloc, w)? else {
        return Ok(None);
    };
    Ok(Some(as_text(alloc, &a, &b)?))
}

/// `+` (ES3 11.6.1).
fn added(alloc: Global, v: &Value, w: &Value) -> Result<Operated, AllocError>
    ensures { IfOk result (λ r. r ≡ spec.added_to v.now w.now) }
{
    if is_object(v) || is_object(w) {
        Ok(None)
    } else if is_text(v) || is_text(w) {
        on_texts(alloc, v, w)
    } else {
        Ok(on_numbers(BinaryOp::Add, v, w))
    }
}

#[tactic(auto, using(crate::proofs::TextOrder::text_order))]
fn text_less(a: &Units, b: &Units) -> bool
    ensures { result ≡ text_less a.now b.now }
{
    a.items().cmp(b.items()).is_lt()
}

/// What a comparison makes of an order, where None is the standard's undefined.
#[inline]
pub(crate) fn truth_in(op: BinaryOp, b: Option<bool>) -> bool
    ensures { result ≡ spec.truth_in op b }
{
    match b {
        None => false,
        Some(b) => match op {
            BinaryOp::LessEqual => !b,
            BinaryOp::GreaterEqual => !b,
            _ => b,
        },
    }
}

fn order_of_numbers(op: BinaryOp, x: &Value, y: &Value) -> Operated
    ensures { result ≡ spec.on_numbers (λ a b. spec.truth_result (spec.truth_in op) (less_of a b))
        x.now y.now }
{
    match number(x) {
        None => None,
        Some(Err(stop)) => Some(Err(stop)),
        Some(Ok(a)) => match number(y) {
            None => None,
            Some(Err(stop)) => Some(Err(stop)),
            Some(Ok(b)) => Some(Ok(Value::Bool(truth_in(op, less(a, b))))),
        },
    }
}

/// What a comparison of x with y makes of whether x < y (ES3 11.8.5).
fn order(op: BinaryOp, x: &Value, y: &Value) -> Operated
    ensures { result ≡ spec.in_order (spec.truth_in op) x.now y.now }
{
    if is_object(x) || is_object(y) {
        return None;
    }
    match x {
        Value::Str(a) => match y {
            Value::Str(b) => Some(Ok(Value::Bool(truth_in(op, Some(text_less(a, b)))))),
            _ => order_of_numbers(op, x, y),
        },
        _ => order_of_numbers(op, x, y),
    }
}

fn equality_in(op: BinaryOp, b: bool) -> bool
    ensures { result ≡ spec.equality_in op b }
{
    match op {
        BinaryOp::NotEqual => !b,
        BinaryOp::NotSame => !b,
        _ => b,
    }
}

fn is_nothing(v: &Value) -> bool
    ensures { result ≡ spec.is_nothing v.now }
{
    match v {
        Value::Undefined => true,
        Value::Null => true,
        Value::Bool(_) => false,
        Value::Num(_) => false,
        Value::Str(_) => false,
        Value::Object(_) => false,
    }
}

/// An object with a value that is none.
fn equality_of_object(op: BinaryOp, w: &Value) -> Operated
    ensures { result ≡ spec.with_object (spec.equality_in op) w.now }
{
    if is_nothing(w) {
        Some(Ok(Value::Bool(equality_in(op, false))))
    } else {
        None
    }
}

fn as_truth(op: BinaryOp, b: Result<bool, Reason>) -> Operated
    ensures { result ≡ spec.changed_equality (spec.equality_in op) (Some b) }
{
    match b {
        Ok(b) => Some(Ok(Value::Bool(equality_in(op, b)))),
        Err(stop) => Some(Err(stop)),
    }
}

/// `==` and `!=` (ES3 11.9.3).
fn equality(op: BinaryOp, v: &Value, w: &Value) -> Operated
    ensures { result ≡ spec.in_equality (spec.equality_in op) v.now w.now }
{
    match (is_object(v), is_object(w)) {
        (true, true) => Some(Ok(Value::Bool(equality_in(op, strictly_equal(v, w))))),
        (true, false) => equality_of_object(op, w),
        (false, true) => equality_of_object(op, v),
        (false, false) => as_truth(op, loosely_equal(v, w)),
    }
}

/// What an operator gives for two values.
pub(crate) fn operate(
    alloc: Global,
    op: BinaryOp,
    v: &Value,
    w: &Value,
) -> Result<Operated, AllocError>
    ensures { IfOk result (λ r. r ≡ spec.operated op v.now w.now) }
{
    match op {
        BinaryOp::Add => added(alloc, v, w),
        BinaryOp::Less => Ok(order(op, v, w)),
        BinaryOp::Greater => Ok(order(op, w, v)),
        BinaryOp::LessEqual => Ok(order(op, w, v)),
        BinaryOp::GreaterEqual => Ok(order(op, v, w)),
        BinaryOp::InstanceOf => Ok(None),
        BinaryOp::In => Ok(None),
        BinaryOp::Equal => Ok(equality(op, v, w)),
        BinaryOp::NotEqual => Ok(equality(op, v, w)),
        BinaryOp::Same => Ok(Some(Ok(Value::Bool(strictly_equal(v, w))))),
        BinaryOp::NotSame => Ok(Some(Ok(Value::Bool(!strictly_equal(v, w))))),
        BinaryOp::Multiply => Ok(on_numbers(op, v, w)),
        BinaryOp::Divide => Ok(on_numbers(op, v, w)),
        BinaryOp::Remainder => Ok(on_numbers(op, v, w)),
        BinaryOp::Subtract => Ok(on_numbers(op, v, w)),
        BinaryOp::ShiftLeft => Ok(on_numbers(op, v, w)),
        BinaryOp::ShiftRight => Ok(on_numbers(op, v, w)),
        BinaryOp::ShiftRightUnsigned => Ok(on_numbers(op, v, w)),
        BinaryOp::BitAnd => Ok(on_numbers(op, v, w)),
        BinaryOp::BitXor => Ok(on_numbers(op, v, w)),
        BinaryOp::BitOr => Ok(on_numbers(op, v, w)),
    }
}
