//! Unary operators (ES3 11.4) on values and on names.

ghost use Rattle.std.specs.Prelude.{◌≡◌, ◌∷◌, ◌≤◌, ◌<◌, ◌+◌, ◌*◌};
ghost use Rattle.std.specs.Prelude.{length, true, pos, neg_ℤ, ◌-ℤ◌, IfOk};
ghost use Rattle.js_values.specs.declared.number.Num.{Num};
ghost use Rattle.js_tree.specs.Plain.{expr};
ghost use Rattle.js_tree.specs.Tree as tree;
ghost use Rattle.js_machine.specs.Built.{is_name, is_plain_prefix};
ghost use Rattle.js_machine.specs.Globals.{is_callable};
ghost use Rattle.js_machine.specs.Globals as spec;
ghost use Rattle.js_machine.specs.NotBuilt.{StopsRightly};
ghost use Rattle.js_machine.specs.Rest.{Falls, Same, in_expr, in_type, in_value, rest};
ghost use Rattle.js_machine.specs.Unary.{complement};

use crate::frame::{Control, End, Frame, Unbuilt};
use crate::machine::Machine;
use crate::names::name_of;
use crate::operators::number;
use dl_text::{TryCopy, units_of};
use js_code::ExprCode;
use js_tree::{PostfixOp, PrefixOp};
use js_values::{Num, Reason, Value, WholeNumber, neg, to_boolean, to_int32, type_of};
use object_heap::{BuiltIn, Class};
use std::alloc::{AllocError, Global};

/// Each bit of ToInt32 is changed (ES3 11.4.8).
fn complement(n: Num) -> Num
    ensures { result ≡ complement n }
{
    Num::Whole(WholeNumber::new(-1 - i64::from(to_int32(n))))
}

fn of_number(op: PrefixOp, n: Num) -> Num
    ensures { result ≡ spec.number_by op n }
{
    match op {
        PrefixOp::Minus => neg(n),
        PrefixOp::BitNot => complement(n),
        _ => n,
    }
}

/// What an operator gives for a value: a value, or a stop. None where it asks for more.
fn unary(
    alloc: Global,
    op: PrefixOp,
    v: &Value,
) -> Result<Option<Result<Value, Reason>>, AllocError>
    ensures { IfOk result (λ r. r ≡ spec.unary_of op v.now) }
{
    match op {
        PrefixOp::Void => Ok(Some(Ok(Value::Undefined))),
        PrefixOp::Not => Ok(Some(Ok(Value::Bool(!to_boolean(v))))),
        PrefixOp::Plus | PrefixOp::Minus | PrefixOp::BitNot => Ok(match number(v) {
            None => None,
            Some(Err(reason)) => Some(Err(reason)),
            Some(Ok(n)) => Some(Ok(Value::Num(of_number(op, n)))),
        }),
        PrefixOp::Delete => Ok(Some(Ok(Value::Bool(true)))),
        PrefixOp::TypeOf | PrefixOp::Increment | PrefixOp::Decrement => {
            Ok(Some(Ok(v.copy(alloc)?)))
        }
    }
}

impl Machine {
    #[inline]
    #[tactic(auto, using(crate::proofs::UnaryLaws::prefix_laws))]
    pub(crate) fn begin_prefix(
        &mut self,
        op: PrefixOp,
        operand: &ExprCode,
    ) -> Result<Control, AllocError>
        requires { is_plain_prefix op (expr operand.now) ≡ true }
        ensures same { IfOk result (λ next.
            Same (in_expr (tree.Prefix op (expr operand.now))) self.old next self.new) }
        ensures falls { IfOk result (λ next. Falls self.old next self.new) }
        ensures rightly { IfOk result (λ next. StopsRightly next self.new) }
    {
        match op {
            PrefixOp::Delete => self.begin_delete(operand),
            PrefixOp::TypeOf => self.begin_typeof(operand),
            PrefixOp::Increment => self.begin_change(PostfixOp::Increment, operand),
            PrefixOp::Decrement => self.begin_change(PostfixOp::Decrement, operand),
            PrefixOp::Void => self.first(Frame::Unary(op), operand),
            PrefixOp::Plus => self.first(Frame::Unary(op), operand),
            PrefixOp::Minus => self.first(Frame::Unary(op), operand),
            PrefixOp::BitNot => self.first(Frame::Unary(op), operand),
            PrefixOp::Not => self.first(Frame::Unary(op), operand),
        }
    }

    #[inline]
    #[tactic(auto, using(crate::proofs::UnaryLaws::begin_change_laws))]
    fn begin_change(&mut self, op: PostfixOp, target: &ExprCode) -> Result<Control, AllocError>
        requires { is_name (expr target.now) ≡ true }
        ensures same { IfOk result (λ next.
            Same (in_expr (tree.Prefix (spec.prefix_of op) (expr target.now)))
            self.old next self.new) }
        ensures falls { IfOk result (λ next. Falls self.old next self.new) }
        ensures rightly { IfOk result (λ next. StopsRightly next self.new) }
    {
        if !self.clock.tick() {
            return Ok(Control::End(End::OutOfSteps));
        }
        self.change(op, true, target)
    }

    /// `delete` of a name, or of what is no reference (ES3 11.4.1).
    #[inline]
    #[tactic(auto, using(crate::proofs::UnaryLaws::delete_laws))]
    fn begin_delete(&mut self, operand: &ExprCode) -> Result<Control, AllocError>
        requires { is_plain_prefix PrefixOp.Delete (expr operand.now) ≡ true }
        ensures same { IfOk result (λ next.
            Same (in_expr (tree.Prefix PrefixOp.Delete (expr operand.now)))
            self.old next self.new) }
        ensures falls { IfOk result (λ next. Falls self.old next self.new) }
        ensures rightly { IfOk result (λ next. StopsRightly next self.new) }
    {
        let Some(name) = name_of(operand) else {
            return self.first(Frame::Unary(PrefixOp::Delete), operand);
        };
        if !self.clock.tick() {
            return Ok(Control::End(End::OutOfSteps));
        }
        let global = self.heap.built_in(BuiltIn::Global);
        if !self.heap.has(global, name) {
            return self.answer(Value::Bool(true));
        }
        let deletes = self.heap.delete(global, name);
        self.answer(Value::Bool(deletes))
    }

    #[inline]
    #[tactic(auto, using(crate::proofs::UnaryLaws::typeof_laws))]
    fn begin_typeof(&mut self, operand: &ExprCode) -> Result<Control, AllocError>
        requires { is_plain_prefix PrefixOp.TypeOf (expr operand.now) ≡ true }
        ensures same { IfOk result (λ next.
            Same (in_expr (tree.Prefix PrefixOp.TypeOf (expr operand.now)))
            self.old next self.new) }
        ensures falls { IfOk result (λ next. Falls self.old next self.new) }
        ensures rightly { IfOk result (λ next. StopsRightly next self.new) }
    {
        let Some(name) = name_of(operand) else {
            return self.first(Frame::Type, operand);
        };
        if !self.clock.tick() {
            return Ok(Control::End(End::OutOfSteps));
        }
        match self.name_value(name)? {
            Some(v) => self.answer_type(&v),
            None => self.answer_type(&Value::Undefined),
        }
    }

    /// Whether a value can be called.
    pub(crate) fn is_callable(&self, v: &Value) -> bool
        ensures { result ≡ is_callable self.now.heap self.now.hosts v.now }
    {
        match v {
            Value::Object(o) => match self.heap.class(*o) {
                Some(Class::Function) => { self.heap.which(*o).is_some() || self.hosts.has(o.0) }
                _ => false,
            },
            _ => false,
        }
    }

    /// The type of a value is given.
    #[tactic(auto, using(crate::proofs::UnaryLaws::type_laws))]
    pub(crate) fn answer_type(&mut self, v: &Value) -> Result<Control, AllocError>
        ensures same { IfOk result (λ next. Same (in_type v.now) self.old next self.new) }
        ensures falls { IfOk result (λ next. Falls self.old next self.new) }
        ensures rightly { IfOk result (λ next. StopsRightly next self.new) }
    {
        let is_callable = self.is_callable(v);
        let text = units_of(self.alloc, type_of(v, is_callable))?;
        self.answer(Value::Str(text))
    }

    #[inline]
    #[tactic(auto, using(crate::proofs::UnaryLaws::v_type))]
    pub(crate) fn give_type(&mut self) -> Result<Control, AllocError>
        ensures same { IfOk result (λ next. Same (in_value Frame.Type) self.old next self.new) }
        ensures falls { IfOk result (λ next. Falls self.old next self.new) }
        ensures rightly { IfOk result (λ next. StopsRightly next self.new) }
    {
        let v = self.values.pop();
        self.answer_type(&v)
    }

    #[inline]
    #[tactic(auto, using(crate::proofs::UnaryLaws::unary_laws))]
    pub(crate) fn give_unary(&mut self, op: PrefixOp) -> Result<Control, AllocError>
        ensures same { IfOk result (λ next.
            Same (in_value (Frame.Unary op)) self.old next self.new) }
        ensures falls { IfOk result (λ next. Falls self.old next self.new) }
        ensures rightly { IfOk result (λ next. StopsRightly next self.new) }
    {
        let v = self.values.pop();
        match unary(self.alloc, op, &v)? {
            Some(Ok(v)) => self.answer(v),
            Some(Err(reason)) => Ok(Control::End(End::Stopped(reason))),
            None => {
                if !self.enters_for_number(&v)? {
                    return self.throw_error(BuiltIn::TypeErrorPrototype);
                }
                self.values.push(v)?;
                self.frames.push(Frame::Unary(op))?;
                Ok(Control::Unbuilt(Unbuilt::Give))
            }
        }
    }
}
