//! What a frame does with the value of an expression (ES3 11.5 to 11.14).

ghost use Rattle.std.specs.Prelude.{◌≡◌, ◌∷◌, ◌≤◌, ◌<◌, ◌+◌, ◌*◌, length, IfOk};
ghost use Rattle.js_machine.specs.NotBuilt.{StopsRightly};
ghost use Rattle.js_machine.specs.Rest.{Falls, Same, in_value, rest};
ghost use Rattle.js_machine.specs.Stacks.{below};

use crate::frame::{Control, End, Frame, Unbuilt};
use crate::machine::Machine;
use crate::operators::operate;
use js_code::ExprCode;
use js_tree::BinaryOp;
use js_values::to_boolean;
use object_heap::BuiltIn;
use std::alloc::AllocError;

impl Machine {
    #[inline]
    #[tactic(auto, using(crate::proofs::ValueLaws::left_laws))]
    fn give_left(&mut self, op: BinaryOp, right: ExprCode) -> Result<Control, AllocError>
        ensures same { IfOk result (λ next.
            Same (in_value (Frame.Left op right)) self.old next self.new) }
        ensures falls { IfOk result (λ next. Falls self.old next self.new) }
        ensures rightly { IfOk result (λ next. StopsRightly next self.new) }
    {
        let frame = match op {
            BinaryOp::In => Frame::In,
            _ => Frame::Right(op),
        };
        self.wait(frame, Control::Expr(right))
    }

    #[inline]
    #[tactic(auto, using(crate::proofs::ValueLaws::right_laws))]
    fn give_right(&mut self, op: BinaryOp) -> Result<Control, AllocError>
        ensures same { IfOk result (λ next.
            Same (in_value (Frame.Right op)) self.old next self.new) }
        ensures falls { IfOk result (λ next. Falls self.old next self.new) }
        ensures rightly { IfOk result (λ next. StopsRightly next self.new) }
    {
        let right = self.values.pop();
        let left = self.values.pop();
        match operate(self.alloc, op, &left, &right)? {
            Some(Ok(v)) => self.answer(v),
            Some(Err(reason)) => Ok(Control::End(End::Stopped(reason))),
            None => {
                if !self.enters_operated(op, &left, &right)? {
                    return self.throw_error(BuiltIn::TypeErrorPrototype);
                }
                self.values.push(left)?;
                self.values.push(right)?;
                self.frames.push(Frame::Right(op))?;
                Ok(Control::Unbuilt(Unbuilt::Give))
            }
        }
    }

    #[inline]
    #[tactic(auto, using(crate::proofs::ValueLaws::and_laws))]
    fn give_and(&mut self, right: ExprCode) -> Result<Control, AllocError>
        ensures same { IfOk result (λ next.
            Same (in_value (Frame.And right)) self.old next self.new) }
        ensures falls { IfOk result (λ next. Falls self.old next self.new) }
        ensures rightly { IfOk result (λ next. StopsRightly next self.new) }
    {
        let v = self.values.pop();
        if to_boolean(&v) {
            Ok(Control::Expr(right))
        } else {
            self.answer(v)
        }
    }

    #[inline]
    #[tactic(auto, using(crate::proofs::ValueLaws::or_laws))]
    fn give_or(&mut self, right: ExprCode) -> Result<Control, AllocError>
        ensures same { IfOk result (λ next.
            Same (in_value (Frame.Or right)) self.old next self.new) }
        ensures falls { IfOk result (λ next. Falls self.old next self.new) }
        ensures rightly { IfOk result (λ next. StopsRightly next self.new) }
    {
        let v = self.values.pop();
        if to_boolean(&v) {
            self.answer(v)
        } else {
            Ok(Control::Expr(right))
        }
    }

    #[inline]
    #[tactic(auto, using(crate::proofs::ValueLaws::cond_laws))]
    fn give_cond(&mut self, first: ExprCode, second: ExprCode) -> Result<Control, AllocError>
        ensures same { IfOk result (λ next.
            Same (in_value (Frame.Cond first second)) self.old next self.new) }
        ensures falls { IfOk result (λ next. Falls self.old next self.new) }
        ensures rightly { IfOk result (λ next. StopsRightly next self.new) }
    {
        let v = self.values.pop();
        if to_boolean(&v) {
            Ok(Control::Expr(first))
        } else {
            Ok(Control::Expr(second))
        }
    }

    /// A value is dropped, and something else is begun.
    #[inline]
    fn drop_value(&mut self, next: Control) -> Result<Control, AllocError>
        ensures { IfOk result (λ c. (c ≡ next)
            × (self.new ≡ record self.old { values = below self.old.values })) }
    {
        let _v = self.values.pop();
        Ok(next)
    }

    /// A frame takes the newest value.
    #[tactic(auto, using(crate::proofs::LoopLaws::loop_values, crate::proofs::ValueLaws::value_laws, crate::proofs::ForInLaws::v_visit))]
    pub(crate) fn give(&mut self, frame: Frame) -> Result<Control, AllocError>
        ensures same { IfOk result (λ next. Same (in_value frame) self.old next self.new) }
        ensures falls { IfOk result (λ next. Falls self.old next self.new) }
        ensures rightly { IfOk result (λ next. StopsRightly next self.new) }
    {
        match frame {
            Frame::Left(op, right) => self.give_left(op, right),
            Frame::Right(op) => self.give_right(op),
            Frame::And(right) => self.give_and(right),
            Frame::Or(right) => self.give_or(right),
            Frame::Comma(right) => self.drop_value(Control::Expr(right)),
            Frame::Cond(first, second) => self.give_cond(first, second),
            Frame::Do => self.drop_value(Control::Done),
            Frame::Next(list, i) => {
                let _v = self.values.pop();
                self.next_statement(list, i)
            }
            Frame::If(s) => self.give_if(s),
            Frame::Test(s) => self.give_test(s),
            Frame::Turn(s) => {
                let _v = self.values.pop();
                self.update(s)
            }
            Frame::Again(s) => {
                let _v = self.values.pop();
                self.turn(s)
            }
            Frame::Store(target) => self.give_store(target),
            Frame::StoreWith(op, target) => self.give_store_with(op, target),
            Frame::Unary(op) => self.give_unary(op),
            Frame::Type => self.give_type(),
            Frame::Var(i, items) => self.give_var(i, items),
            Frame::ForVar(i, items, s) => self.give_for_var(i, items, s),
            Frame::Callee(callee, arguments) => self.give_callee(callee, arguments),
            Frame::Argument(i, callee, arguments) => self.give_argument(i, callee, arguments),
            Frame::Base(e) => self.give_base(e),
            Frame::Key(e) => self.give_key(e),
            Frame::Put => self.give_put(),
            Frame::PutWith(op) => self.give_put_with(op),
            Frame::Changed(op, gives_new) => self.give_changed(op, gives_new),
            Frame::Element(i, elements) => self.give_element(i, elements),
            Frame::Pair(i, pairs) => self.give_pair(i, pairs),
            Frame::In => self.give_in(),
            Frame::VisitsFrom(s) => self.give_visits_from(s),
            Frame::Visits(s) => self.give_visits(s),
            Frame::Visit(left, s) => {
                let _v = self.values.pop();
                self.next_visit(left, s)
            }
            Frame::VisitBase(left, s) => self.give_visit_base(left, s),
            Frame::VisitKey(left, s) => self.give_visit_key(left, s),
        }
    }
}
