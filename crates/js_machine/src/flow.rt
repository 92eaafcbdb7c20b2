//! What a frame does where a statement ended, or a jump or an exception passes (ES3 8.9, 12.7,
//! 12.8, 12.13).

ghost use Rattle.std.specs.Prelude.{◌≡◌, ◌∷◌, ◌≤◌, ◌<◌, ◌+◌, ◌*◌};
ghost use Rattle.std.specs.Prelude.{suc, length, IfOk};
ghost use Rattle.js_machine.specs.NotBuilt.{StopsRightly};
ghost use Rattle.js_machine.specs.Rest.{Falls, Same, in_break, in_continue, in_done, in_throw};
ghost use Rattle.js_machine.specs.Rest.{rest, under};
ghost use Rattle.js_machine.specs.Stacks.{below, top, without};

use crate::frame::{Control, Frame};
use crate::machine::Machine;
use std::alloc::AllocError;

impl Machine {
    /// A frame goes with the value that it owns.
    fn pass_one(&mut self, next: Control) -> Result<Control, AllocError>
        ensures { IfOk result (λ c. (c ≡ next)
            × (self.new ≡ record self.old { values = below self.old.values })) }
    {
        let _owned = self.values.pop();
        Ok(next)
    }

    /// The same under the newest value, which stays.
    fn throw_over(&mut self, owned: usize) -> Result<Control, AllocError>
        ensures { IfOk result (λ c. (c ≡ Control.Throw)
            × (self.new ≡ record self.old {
              values = top self.old.values ∷ without owned (below self.old.values);
            })) }
    {
        self.values.forget_under(owned)?;
        Ok(Control::Throw)
    }

    /// A statement ended.
    #[tactic(auto, using(crate::proofs::FlowLaws::ended_laws, crate::proofs::LoopLaws::d_turn, crate::proofs::ForInLaws::d_visit))]
    pub(crate) fn end_statement(&mut self, frame: Frame) -> Result<Control, AllocError>
        ensures same { IfOk result (λ next. Same (in_done frame) self.old next self.new) }
        ensures falls { IfOk result (λ next. Falls self.old next self.new) }
        ensures rightly { IfOk result (λ next. StopsRightly next self.new) }
    {
        match frame {
            Frame::Next(list, i) => self.next_statement(list, i),
            Frame::Turn(s) => self.update(s),
            Frame::Left(_, _) => Ok(Control::Done),
            Frame::And(_) => Ok(Control::Done),
            Frame::Or(_) => Ok(Control::Done),
            Frame::Comma(_) => Ok(Control::Done),
            Frame::Cond(_, _) => Ok(Control::Done),
            Frame::Do => Ok(Control::Done),
            Frame::If(_) => Ok(Control::Done),
            Frame::Test(_) => Ok(Control::Done),
            Frame::Again(_) => Ok(Control::Done),
            Frame::Store(_) => Ok(Control::Done),
            Frame::Unary(_) => Ok(Control::Done),
            Frame::Type => Ok(Control::Done),
            Frame::Var(_, _) => Ok(Control::Done),
            Frame::ForVar(_, _, _) => Ok(Control::Done),
            Frame::Right(_) => self.pass_one(Control::Done),
            Frame::StoreWith(_, _) => self.pass_one(Control::Done),
            Frame::Callee(_, _) => Ok(Control::Done),
            Frame::Argument(i, _, _) => self.pass_call(i, Control::Done),
            Frame::Base(_) => Ok(Control::Done),
            Frame::Key(_) => self.pass_one(Control::Done),
            Frame::Put => self.pass_call(1, Control::Done),
            Frame::PutWith(_) => self.pass_call(2, Control::Done),
            Frame::Changed(_, _) => self.pass_call(1, Control::Done),
            Frame::Element(_, _) => self.pass_one(Control::Done),
            Frame::Pair(_, _) => self.pass_one(Control::Done),
            Frame::In => self.pass_one(Control::Done),
            Frame::VisitsFrom(_) => Ok(Control::Done),
            Frame::Visits(_) => Ok(Control::Done),
            Frame::Visit(left, s) => self.next_visit(left, s),
            Frame::VisitBase(left, _) => self.pass_visits(1, left, Control::Done),
            Frame::VisitKey(left, _) => self.pass_visits(2, left, Control::Done),
        }
    }

    /// A `break` leaves a statement.
    #[tactic(auto, using(crate::proofs::FlowLaws::break_passes, crate::proofs::LoopLaws::b_turn, crate::proofs::ForInLaws::b_visit))]
    pub(crate) fn leave(&mut self, frame: Frame) -> Result<Control, AllocError>
        ensures same { IfOk result (λ next. Same (in_break frame) self.old next self.new) }
        ensures falls { IfOk result (λ next. Falls self.old next self.new) }
        ensures rightly { IfOk result (λ next. StopsRightly next self.new) }
    {
        match frame {
            Frame::Turn(_) => Ok(Control::Done),
            Frame::Left(_, _) => Ok(Control::Break),
            Frame::And(_) => Ok(Control::Break),
            Frame::Or(_) => Ok(Control::Break),
            Frame::Comma(_) => Ok(Control::Break),
            Frame::Cond(_, _) => Ok(Control::Break),
            Frame::Do => Ok(Control::Break),
            Frame::If(_) => Ok(Control::Break),
            Frame::Test(_) => Ok(Control::Break),
            Frame::Again(_) => Ok(Control::Break),
            Frame::Next(_, _) => Ok(Control::Break),
            Frame::Store(_) => Ok(Control::Break),
            Frame::Unary(_) => Ok(Control::Break),
            Frame::Type => Ok(Control::Break),
            Frame::Var(_, _) => Ok(Control::Break),
            Frame::ForVar(_, _, _) => Ok(Control::Break),
            Frame::Right(_) => self.pass_one(Control::Break),
            Frame::StoreWith(_, _) => self.pass_one(Control::Break),
            Frame::Callee(_, _) => Ok(Control::Break),
            Frame::Argument(i, _, _) => self.pass_call(i, Control::Break),
            Frame::Base(_) => Ok(Control::Break),
            Frame::Key(_) => self.pass_one(Control::Break),
            Frame::Put => self.pass_call(1, Control::Break),
            Frame::PutWith(_) => self.pass_call(2, Control::Break),
            Frame::Changed(_, _) => self.pass_call(1, Control::Break),
            Frame::Element(_, _) => self.pass_one(Control::Break),
            Frame::Pair(_, _) => self.pass_one(Control::Break),
            Frame::In => self.pass_one(Control::Break),
            Frame::VisitsFrom(_) => Ok(Control::Break),
            Frame::Visits(_) => Ok(Control::Break),
            Frame::Visit(left, _) => self.pass_visits(0, left, Control::Done),
            Frame::VisitBase(left, _) => self.pass_visits(1, left, Control::Break),
            Frame::VisitKey(left, _) => self.pass_visits(2, left, Control::Break),
        }
    }

    /// A `continue` leaves a statement.
    #[tactic(auto, using(crate::proofs::FlowLaws::continue_passes, crate::proofs::LoopLaws::c_turn, crate::proofs::ForInLaws::c_visit))]
    pub(crate) fn leave_turn(&mut self, frame: Frame) -> Result<Control, AllocError>
        ensures same { IfOk result (λ next. Same (in_continue frame) self.old next self.new) }
        ensures falls { IfOk result (λ next. Falls self.old next self.new) }
        ensures rightly { IfOk result (λ next. StopsRightly next self.new) }
    {
        match frame {
            Frame::Turn(turn) => self.update(turn),
            Frame::Left(_, _) => Ok(Control::Continue),
            Frame::And(_) => Ok(Control::Continue),
            Frame::Or(_) => Ok(Control::Continue),
            Frame::Comma(_) => Ok(Control::Continue),
            Frame::Cond(_, _) => Ok(Control::Continue),
            Frame::Do => Ok(Control::Continue),
            Frame::If(_) => Ok(Control::Continue),
            Frame::Test(_) => Ok(Control::Continue),
            Frame::Again(_) => Ok(Control::Continue),
            Frame::Next(_, _) => Ok(Control::Continue),
            Frame::Store(_) => Ok(Control::Continue),
            Frame::Unary(_) => Ok(Control::Continue),
            Frame::Type => Ok(Control::Continue),
            Frame::Var(_, _) => Ok(Control::Continue),
            Frame::ForVar(_, _, _) => Ok(Control::Continue),
            Frame::Right(_) => self.pass_one(Control::Continue),
            Frame::StoreWith(_, _) => self.pass_one(Control::Continue),
            Frame::Callee(_, _) => Ok(Control::Continue),
            Frame::Argument(i, _, _) => self.pass_call(i, Control::Continue),
            Frame::Base(_) => Ok(Control::Continue),
            Frame::Key(_) => self.pass_one(Control::Continue),
            Frame::Put => self.pass_call(1, Control::Continue),
            Frame::PutWith(_) => self.pass_call(2, Control::Continue),
            Frame::Changed(_, _) => self.pass_call(1, Control::Continue),
            Frame::Element(_, _) => self.pass_one(Control::Continue),
            Frame::Pair(_, _) => self.pass_one(Control::Continue),
            Frame::In => self.pass_one(Control::Continue),
            Frame::VisitsFrom(_) => Ok(Control::Continue),
            Frame::Visits(_) => Ok(Control::Continue),
            Frame::Visit(left, s) => self.next_visit(left, s),
            Frame::VisitBase(left, _) => self.pass_visits(1, left, Control::Continue),
            Frame::VisitKey(left, _) => self.pass_visits(2, left, Control::Continue),
        }
    }

    /// A call goes with so many arguments and its base.
    fn pass_call(&mut self, count: u32, next: Control) -> Result<Control, AllocError>
        ensures { IfOk result (λ c. (c ≡ next)
            × (self.new ≡ record self.old { values = below (without count self.old.values) })) }
    {
        self.values.forget(count as usize);
        let _base = self.values.pop();
        Ok(next)
    }

    /// The same under the newest value, which stays.
    fn throw_over_call(&mut self, count: u32) -> Result<Control, AllocError>
        ensures { IfOk result (λ c. (c ≡ Control.Throw)
            × (self.new ≡ record self.old {
              values = top self.old.values ∷ below (without count (below self.old.values));
            })) }
    {
        let v = self.values.pop();
        self.values.forget(count as usize);
        let _base = self.values.pop();
        self.values.push(v)?;
        Ok(Control::Throw)
    }

    /// An exception passes.
    #[tactic(auto, using(crate::proofs::FlowLaws::throw_passes))]
    pub(crate) fn throw_past(&mut self, frame: Frame) -> Result<Control, AllocError>
        ensures same { IfOk result (λ next. Same (in_throw frame) self.old next self.new) }
        ensures falls { IfOk result (λ next. Falls self.old next self.new) }
        ensures rightly { IfOk result (λ next. StopsRightly next self.new) }
    {
        match frame {
            Frame::Left(_, _) => self.throw_over(0),
            Frame::And(_) => self.throw_over(0),
            Frame::Or(_) => self.throw_over(0),
            Frame::Comma(_) => self.throw_over(0),
            Frame::Cond(_, _) => self.throw_over(0),
            Frame::Do => self.throw_over(0),
            Frame::If(_) => self.throw_over(0),
            Frame::Test(_) => self.throw_over(0),
            Frame::Again(_) => self.throw_over(0),
            Frame::Next(_, _) => self.throw_over(0),
            Frame::Turn(_) => self.throw_over(0),
            Frame::Store(_) => self.throw_over(0),
            Frame::Unary(_) => self.throw_over(0),
            Frame::Type => self.throw_over(0),
            Frame::Var(_, _) => self.throw_over(0),
            Frame::ForVar(_, _, _) => self.throw_over(0),
            Frame::Right(_) => self.throw_over(1),
            Frame::StoreWith(_, _) => self.throw_over(1),
            Frame::Callee(_, _) => self.throw_over(0),
            Frame::Argument(i, _, _) => self.throw_over_call(i),
            Frame::Base(_) => self.throw_over(0),
            Frame::Key(_) => self.throw_over(1),
            Frame::Put => self.throw_over(2),
            Frame::PutWith(_) => self.throw_over(3),
            Frame::Changed(_, _) => self.throw_over(2),
            Frame::Element(_, _) => self.throw_over(1),
            Frame::Pair(_, _) => self.throw_over(1),
            Frame::In => self.throw_over(1),
            Frame::VisitsFrom(_) => self.throw_over(0),
            Frame::Visits(_) => self.throw_over(0),
            Frame::Visit(left, _) => self.throw_over_visits(0, left),
            Frame::VisitBase(left, _) => self.throw_over_visits(1, left),
            Frame::VisitKey(left, _) => self.throw_over_visits(2, left),
        }
    }
}
