//! Assignments to names, and `++` and `--` of names (ES3 11.3, 11.4.4, 11.4.5, 11.13). The target
//! is begun first, which takes a step of its own.

ghost use Rattle.std.specs.Prelude.{◌≡◌, ◌∷◌, ◌≤◌, ◌<◌, ◌+◌, ◌*◌};
ghost use Rattle.std.specs.Prelude.{length, true, None, Some, IfOk, Result};
ghost use Rattle.js_values.specs.declared.number.Num.{Num};
ghost use Rattle.js_values.specs.declared.value.Value.{Value};
ghost use Rattle.js_tree.specs.Plain.{expr};
ghost use Rattle.js_tree.specs.Tree as tree;
ghost use Rattle.js_machine.specs.Built.{is_name};
ghost use Rattle.js_machine.specs.Globals.{change_of, name_in};
ghost use Rattle.js_machine.specs.NotBuilt.{StopsRightly};
ghost use Rattle.js_machine.specs.Rest.{Falls, Same, in_change, in_changed, in_expr, in_value, rest};
ghost use Rattle.js_machine.specs.Unary.{one};

use crate::frame::{Control, End, Frame, Unbuilt};
use crate::machine::Machine;
use crate::names::name_of;
use crate::operators::{number, operate};
use dl_text::TryCopy;
use js_code::ExprCode;
use js_tree::{BinaryOp, PostfixOp};
use js_values::{Num, Reason, Value, add, sub};
use object_heap::BuiltIn;
use std::alloc::AllocError;

/// One more or one less.
pub(crate) fn changed(op: PostfixOp, n: Num) -> Result<Num, Reason>
    ensures { result ≡ change_of op n one }
{
    match op {
        PostfixOp::Increment => add(n, Num::from(1u32)),
        PostfixOp::Decrement => sub(n, Num::from(1u32)),
    }
}

pub(crate) fn number_value(n: &Num) -> Value
    ensures { result ≡ Value.Num n.now }
{
    Value::Num(*n)
}

impl Machine {
    #[inline]
    #[tactic(auto, using(crate::proofs::AssignmentLaws::assign_laws))]
    pub(crate) fn begin_assign(
        &mut self,
        target: &ExprCode,
        right: &ExprCode,
    ) -> Result<Control, AllocError>
        requires { is_name (expr target.now) ≡ true }
        ensures same { IfOk result (λ next.
            Same (in_expr (tree.Assign None (expr target.now) (expr right.now)))
            self.old next self.new) }
        ensures falls { IfOk result (λ next. Falls self.old next self.new) }
        ensures rightly { IfOk result (λ next. StopsRightly next self.new) }
    {
        if !self.clock.tick() {
            return Ok(Control::End(End::OutOfSteps));
        }
        let target = target.share()?;
        if self.push_at_once(right)? {
            self.give_store(target)
        } else {
            self.first(Frame::Store(target), right)
        }
    }

    #[inline]
    #[tactic(auto, using(crate::proofs::AssignmentLaws::assign_with_laws))]
    pub(crate) fn begin_assign_with(
        &mut self,
        op: BinaryOp,
        target: &ExprCode,
        right: &ExprCode,
    ) -> Result<Control, AllocError>
        requires { is_name (expr target.now) ≡ true }
        ensures same { IfOk result (λ next.
            Same (in_expr (tree.Assign (Some op) (expr target.now) (expr right.now)))
            self.old next self.new) }
        ensures falls { IfOk result (λ next. Falls self.old next self.new) }
        ensures rightly { IfOk result (λ next. StopsRightly next self.new) }
    {
        if !self.clock.tick() {
            return Ok(Control::End(End::OutOfSteps));
        }
        let Some(name) = name_of(target) else {
            return Ok(Control::Done);
        };
        match self.name_value(name)? {
            Some(v) => {
                let target = target.share()?;
                self.values.push(v)?;
                if self.push_at_once(right)? {
                    self.give_store_with(op, target)
                } else {
                    self.first(Frame::StoreWith(op, target), right)
                }
            }
            None => self.throw_error(BuiltIn::ReferenceErrorPrototype),
        }
    }

    #[inline]
    #[tactic(auto, using(crate::proofs::AssignmentLaws::v_store))]
    pub(crate) fn give_store(&mut self, target: ExprCode) -> Result<Control, AllocError>
        ensures same { IfOk result (λ next.
            Same (in_value (Frame.Store target)) self.old next self.new) }
        ensures falls { IfOk result (λ next. Falls self.old next self.new) }
        ensures rightly { IfOk result (λ next. StopsRightly next self.new) }
    {
        let v = self.values.pop();
        let given = v.copy(self.alloc)?;
        self.store(&target, v, given)
    }

    #[inline]
    #[tactic(auto, using(crate::proofs::AssignmentLaws::store_with_laws))]
    pub(crate) fn give_store_with(
        &mut self,
        op: BinaryOp,
        target: ExprCode,
    ) -> Result<Control, AllocError>
        ensures same { IfOk result (λ next.
            Same (in_value (Frame.StoreWith op target)) self.old next self.new) }
        ensures falls { IfOk result (λ next. Falls self.old next self.new) }
        ensures rightly { IfOk result (λ next. StopsRightly next self.new) }
    {
        let right = self.values.pop();
        let left = self.values.pop();
        match operate(self.alloc, op, &left, &right)? {
            Some(Ok(v)) => {
                let given = v.copy(self.alloc)?;
                self.store(&target, v, given)
            }
            Some(Err(reason)) => Ok(Control::End(End::Stopped(reason))),
            None => {
                if !self.enters_operated(op, &left, &right)? {
                    return self.throw_error(BuiltIn::TypeErrorPrototype);
                }
                self.values.push(left)?;
                self.values.push(right)?;
                self.frames.push(Frame::StoreWith(op, target))?;
                Ok(Control::Unbuilt(Unbuilt::Give))
            }
        }
    }

    #[inline]
    #[tactic(auto, using(crate::proofs::AssignmentLaws::postfix_laws))]
    pub(crate) fn begin_postfix(
        &mut self,
        op: PostfixOp,
        target: &ExprCode,
    ) -> Result<Control, AllocError>
        requires { is_name (expr target.now) ≡ true }
        ensures same { IfOk result (λ next.
            Same (in_expr (tree.Postfix (expr target.now) op)) self.old next self.new) }
        ensures falls { IfOk result (λ next. Falls self.old next self.new) }
        ensures rightly { IfOk result (λ next. StopsRightly next self.new) }
    {
        if !self.clock.tick() {
            return Ok(Control::End(End::OutOfSteps));
        }
        self.change(op, false, target)
    }

    /// Behind the step of the target: the number before is read.
    #[tactic(auto, using(crate::proofs::AssignmentLaws::change_laws))]
    pub(crate) fn change(
        &mut self,
        op: PostfixOp,
        gives_new: bool,
        target: &ExprCode,
    ) -> Result<Control, AllocError>
        ensures same { IfOk result (λ next.
            Same (in_change op gives_new (name_in (expr target.now))) self.old next self.new) }
        ensures falls { IfOk result (λ next. Falls self.old next self.new) }
        ensures rightly { IfOk result (λ next. StopsRightly next self.new) }
    {
        let Some(name) = name_of(target) else {
            return Ok(Control::Done);
        };
        let Some(old) = self.name_value(name)? else {
            return self.throw_error(BuiltIn::ReferenceErrorPrototype);
        };
        match number(&old) {
            Some(Ok(before)) => self.change_from(op, gives_new, target, before),
            Some(Err(reason)) => Ok(Control::End(End::Stopped(reason))),
            None => {
                if !self.enters_for_number(&old)? {
                    return self.throw_error(BuiltIn::TypeErrorPrototype);
                }
                let target = target.share()?;
                Ok(Control::Unbuilt(Unbuilt::Change(op, gives_new, target)))
            }
        }
    }

    #[inline]
    #[tactic(auto, using(crate::proofs::AssignmentLaws::changed_laws))]
    fn change_from(
        &mut self,
        op: PostfixOp,
        gives_new: bool,
        target: &ExprCode,
        before: Num,
    ) -> Result<Control, AllocError>
        ensures same { IfOk result (λ next.
            Same (in_changed op gives_new (name_in (expr target.now)) before)
            self.old next self.new) }
        ensures falls { IfOk result (λ next. Falls self.old next self.new) }
        ensures rightly { IfOk result (λ next. StopsRightly next self.new) }
    {
        let after = match changed(op, before) {
            Ok(after) => after,
            Err(reason) => return Ok(Control::End(End::Stopped(reason))),
        };
        let given = if gives_new { &after } else { &before };
        self.store(target, number_value(&after), number_value(given))
    }
}
