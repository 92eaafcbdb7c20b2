//! Expressions without effects (ES3 11.1 to 11.10), whose values are computed at once.

ghost use Rattle.std.specs.Prelude.{◌≡◌, pos, IfOk, IfSome, MatchBool, Ok, Some};
ghost use Rattle.js_values.specs.declared.number.Num.{Num};
ghost use Rattle.js_values.specs.declared.value.Value.{Value};
ghost use Rattle.js_tree.specs.Plain.{expr};
ghost use Rattle.js_machine.specs.AtOnce.{Pushed, value_at_once};
ghost use Rattle.js_machine.specs.Globals.{value_of_global};
ghost use Rattle.js_machine.specs.Operated as spec;

use crate::machine::Machine;
use crate::operators::{compute, operate, truth_in};
use dl_text::{TryCopy, Units};
use js_code::{ExprCode, ExprNode};
use js_tree::BinaryOp;
use js_values::{Num, Value, WholeNumber, less, strictly_equal};
use object_heap::{BuiltIn, Heap, Prop};
use std::alloc::{AllocError, Global};

/// Numbers are below 2^53.
const NUMBERS: u64 = 1 << 53;

/// The most steps that are taken at once. Where a try finds no value, the parts of the expression
/// are tried again as each is begun, so a try may go through no more than so many nodes.
const AT_ONCE: u64 = 32;

/// The deepest operand of so many steps.
const DEPTH: u32 = 16;

#[inline(always)]
fn whole_literal(n: u64) -> Option<WholeNumber>
    ensures { IfSome result (λ k. k ≡ pos n) }
{
    if n < NUMBERS {
        Some(WholeNumber::new(n as i64))
    } else {
        None
    }
}

/// The whole number that a name holds.
#[inline(always)]
fn whole_in_name(heap: &Heap, name: &Units) -> Option<WholeNumber>
    ensures { IfSome result (λ n.
        value_of_global heap.now name.now ≡ Some (Value.Num (Num.Whole n))) }
{
    match heap.get(heap.built_in(BuiltIn::Global), name) {
        Some(Prop::Own(Value::Num(Num::Whole(n)))) => Some(*n),
        _ => None,
    }
}

#[inline(always)]
#[tactic(auto, using(crate::proofs::AtOnceLaws::computes_whole))]
fn whole_by_both(op: BinaryOp, a: WholeNumber, b: WholeNumber) -> Option<WholeNumber>
    ensures { IfSome result (λ n.
        spec.operated op (Value.Num (Num.Whole a)) (Value.Num (Num.Whole b))
        ≡ Some (Ok (Value.Num (Num.Whole n)))) }
{
    let computed = compute(op, Num::Whole(a), Num::Whole(b));
    match &computed {
        Ok(Num::Whole(n)) => Some(*n),
        _ => None,
    }
}

/// The whole number that an expression gives.
#[tactic(auto, using(crate::proofs::AtOnceLaws::whole_laws))]
fn whole(heap: &Heap, e: &ExprCode, depth: u32) -> Option<WholeNumber>
    ensures { IfSome result (λ n.
        value_at_once (expr e.now) heap.now ≡ Some (Value.Num (Num.Whole n))) }
{
    match e.node() {
        ExprNode::Num(n) => whole_literal(*n),
        ExprNode::Name(name) => whole_in_name(heap, name),
        ExprNode::Binary(op, _, left, right) => {
            if depth == 0 {
                return None;
            }
            let Some(a) = whole(heap, left, depth - 1) else {
                return None;
            };
            let Some(b) = whole(heap, right, depth - 1) else {
                return None;
            };
            whole_by_both(*op, a, b)
        }
        _ => None,
    }
}

/// What a comparison of two whole numbers gives.
#[inline(always)]
fn truth_by_both(op: BinaryOp, a: WholeNumber, b: WholeNumber) -> Option<bool>
    ensures { IfSome result (λ c.
        spec.operated op (Value.Num (Num.Whole a)) (Value.Num (Num.Whole b))
        ≡ Some (Ok (Value.Bool c))) }
{
    let a = Num::Whole(a);
    let b = Num::Whole(b);
    match op {
        BinaryOp::Less => Some(truth_in(op, less(a, b))),
        BinaryOp::Greater => Some(truth_in(op, less(b, a))),
        BinaryOp::LessEqual => Some(truth_in(op, less(b, a))),
        BinaryOp::GreaterEqual => Some(truth_in(op, less(a, b))),
        BinaryOp::Equal | BinaryOp::Same => Some(strictly_equal(&Value::Num(a), &Value::Num(b))),
        BinaryOp::NotEqual | BinaryOp::NotSame => {
            Some(!strictly_equal(&Value::Num(a), &Value::Num(b)))
        }
        _ => None,
    }
}

/// The truth that a comparison gives.
#[inline(always)]
#[tactic(auto, using(crate::proofs::AtOnceLaws::truth_laws))]
fn truth(heap: &Heap, e: &ExprCode) -> Option<bool>
    ensures { IfSome result (λ b. value_at_once (expr e.now) heap.now ≡ Some (Value.Bool b)) }
{
    match e.node() {
        ExprNode::Binary(op, _, left, right) => {
            let Some(a) = whole(heap, left, DEPTH) else {
                return None;
            };
            let Some(b) = whole(heap, right, DEPTH) else {
                return None;
            };
            truth_by_both(*op, a, b)
        }
        _ => None,
    }
}

impl Machine {
    /// The value of an expression.
    #[tactic(auto, using(crate::proofs::AtOnceLaws::value_laws))]
    fn value(&self, e: &ExprCode, depth: u32) -> Result<Option<Value>, AllocError>
        ensures { IfOk result (λ found. IfSome found (λ v.
            value_at_once (expr e.now) self.now.heap ≡ Some v)) }
    {
        match e.node() {
            ExprNode::Num(n) => Ok(match whole_literal(*n) {
                Some(n) => Some(Value::Num(Num::Whole(n))),
                None => None,
            }),
            ExprNode::Str(text) => Ok(Some(Value::Str(text.copy(self.alloc)?))),
            ExprNode::Bool(b) => Ok(Some(Value::Bool(*b))),
            ExprNode::Null => Ok(Some(Value::Null)),
            ExprNode::Name(name) => self.name_value(name),
            ExprNode::Binary(op, _, left, right) => {
                if depth == 0 {
                    return Ok(None);
                }
                let Some(v) = self.value(left, depth - 1)? else {
                    return Ok(None);
                };
                let Some(w) = self.value(right, depth - 1)? else {
                    return Ok(None);
                };
                match operate(self.alloc, *op, &v, &w)? {
                    Some(Ok(v)) => Ok(Some(v)),
                    _ => Ok(None),
                }
            }
            _ => Ok(None),
        }
    }

    /// The value of an expression at once.
    #[inline(always)]
    fn at_once(&self, e: &ExprCode) -> Result<Option<Value>, AllocError>
        ensures { IfOk result (λ found. IfSome found (λ v.
            value_at_once (expr e.now) self.now.heap ≡ Some v)) }
    {
        if let Some(n) = whole(&self.heap, e, DEPTH) {
            return Ok(Some(Value::Num(Num::Whole(n))));
        }
        if let Some(b) = truth(&self.heap, e) {
            return Ok(Some(Value::Bool(b)));
        }
        self.value(e, DEPTH)
    }

    /// Puts the value of an expression on the values, if it is there at once.
    #[tactic(auto, using(crate::proofs::AtOnceLaws::is_cost))]
    pub(crate) fn push_at_once(&mut self, e: &ExprCode) -> Result<bool, AllocError>
        ensures { IfOk result (λ b.
            MatchBool b (Pushed e.now self.old self.new) (self.new ≡ self.old)) }
    {
        let cost = u64::from(e.cost());
        if cost == 0 || cost > AT_ONCE || cost > self.clock.left() {
            return Ok(false);
        }
        match self.at_once(e)? {
            None => Ok(false),
            Some(v) => {
                self.clock.spend(cost);
                self.values.push(v)?;
                Ok(true)
            }
        }
    }
}
