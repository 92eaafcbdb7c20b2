//! Conversions of objects to primitive values, as far as they enter no function (ES3 8.6.2.6). Then
//! they throw a TypeError.

ghost use Rattle.std.specs.Prelude.{◌≡◌, codes, IfOk};
ghost use Rattle.js_machine.specs.Conversions.{HintNumber, HintString};
ghost use Rattle.js_machine.specs.Converted as spec;

use crate::machine::Machine;
use crate::operators::is_object;
use dl_text::{Units, units_of};
use js_tree::BinaryOp;
use js_values::{ObjectId, Value};
use std::alloc::{AllocError, Global};

#[tactic(auto, using(crate::proofs::ConversionLaws::name_laws))]
fn to_string_name(alloc: Global) -> Result<Units, AllocError>
    ensures { IfOk result (λ name. name ≡ codes "toString") }
{
    Ok(units_of(alloc, "toString")?)
}

#[tactic(auto, using(crate::proofs::ConversionLaws::name_laws))]
fn value_of_name(alloc: Global) -> Result<Units, AllocError>
    ensures { IfOk result (λ name. name ≡ codes "valueOf") }
{
    Ok(units_of(alloc, "valueOf")?)
}

/// The first of two that is an object, and the second where none is.
fn first_object<'a>(left: &'a Value, right: &'a Value) -> &'a Value
    ensures { result.now ≡ spec.first_object left.now right.now }
{
    if is_object(left) { left } else { right }
}

/// The operand that is converted first.
fn converted_first<'a>(op: BinaryOp, left: &'a Value, right: &'a Value) -> &'a Value
    ensures { result.now ≡ spec.converted_first op left.now right.now }
{
    match op {
        BinaryOp::Greater | BinaryOp::LessEqual => first_object(right, left),
        BinaryOp::InstanceOf | BinaryOp::In | BinaryOp::Same | BinaryOp::NotSame => left,
        _ => first_object(left, right),
    }
}

impl Machine {
    /// Whether a function is entered, by the values of two methods that are tried in turn.
    fn enters_by(&self, first: &Value, second: &Value) -> bool
        ensures { result ≡ spec.enters_by self.now.heap self.now.hosts first.now second.now }
    {
        match first {
            Value::Object(_) => self.is_callable(first),
            Value::Undefined => self.is_callable(second),
            Value::Null => self.is_callable(second),
            Value::Bool(_) => self.is_callable(second),
            Value::Num(_) => self.is_callable(second),
            Value::Str(_) => self.is_callable(second),
        }
    }

    /// The same by their names.
    fn enters_one_of(&self, first: &Units, second: &Units, o: ObjectId) -> Result<bool, AllocError>
        ensures { IfOk result (λ b. b
            ≡ spec.enters_one_of self.now.heap self.now.hosts first.now second.now o.0) }
    {
        let first = self.property_of(o, first)?;
        let second = self.property_of(o, second)?;
        Ok(self.enters_by(&first, &second))
    }

    /// Whether the text of an object comes of a function.
    pub(crate) fn enters_for_text(&self, v: &Value) -> Result<bool, AllocError>
        ensures { IfOk result (λ b. b
            ≡ spec.enters_value self.now.heap self.now.hosts HintString v.now) }
    {
        let Value::Object(o) = v else {
            return Ok(false);
        };
        let to_string = to_string_name(self.alloc)?;
        let value_of = value_of_name(self.alloc)?;
        self.enters_one_of(&to_string, &value_of, *o)
    }

    /// Whether the number of an object comes of a function, or what it is where any primitive value
    /// will do.
    pub(crate) fn enters_for_number(&self, v: &Value) -> Result<bool, AllocError>
        ensures { IfOk result (λ b. b
            ≡ spec.enters_value self.now.heap self.now.hosts HintNumber v.now) }
    {
        let Value::Object(o) = v else {
            return Ok(false);
        };
        let to_string = to_string_name(self.alloc)?;
        let value_of = value_of_name(self.alloc)?;
        self.enters_one_of(&value_of, &to_string, *o)
    }

    /// Whether an operator that does not give its result at once enters a function.
    pub(crate) fn enters_operated(
        &self,
        op: BinaryOp,
        left: &Value,
        right: &Value,
    ) -> Result<bool, AllocError>
        ensures { IfOk result (λ b. b
            ≡ spec.enters_operated self.now.heap self.now.hosts op left.now right.now) }
    {
        match op {
            BinaryOp::InstanceOf | BinaryOp::In => Ok(true),
            _ => self.enters_for_number(converted_first(op, left, right)),
        }
    }
}
