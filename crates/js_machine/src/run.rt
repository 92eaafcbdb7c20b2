//! The run of the machine: one step after another, until it is over.

ghost use Rattle.std.specs.Prelude.{◌≡◌, ◌∷◌, ◌≤◌, ◌<◌, ◌+◌, ◌*◌, length, IfOk};
ghost use Rattle.js_machine.specs.Given.{LeadsTo};
ghost use Rattle.js_machine.specs.NotBuilt.{StopsRightly};
ghost use Rattle.js_machine.specs.Rest.{Same, measure, over_control, rest};

use crate::begin::{is_built_expression, is_built_statement};
use crate::frame::{Control, End, Over, Unbuilt};
use crate::machine::Machine;
use crate::world::Host;
use js_code::{ExprCode, StmtCode};
use std::alloc::AllocError;

impl Machine {
    /// An expression gave a value.
    #[inline]
    #[tactic(auto, using(crate::proofs::FlowLaws::give_laws))]
    fn turn_give(&mut self) -> Result<Control, AllocError>
        ensures same { IfOk result (λ next. Same (rest Control.Give) self.old next self.new) }
        ensures falls { IfOk result (λ next.
            measure next self.new < measure Control.Give self.old) }
        ensures rightly { IfOk result (λ next. StopsRightly next self.new) }
    {
        match self.frames.pop() {
            None => Ok(Control::End(End::Gave)),
            Some(frame) => self.give(frame),
        }
    }

    /// A statement ended.
    #[inline]
    #[tactic(auto, using(crate::proofs::FlowLaws::done_laws))]
    fn turn_done(&mut self) -> Result<Control, AllocError>
        ensures same { IfOk result (λ next. Same (rest Control.Done) self.old next self.new) }
        ensures falls { IfOk result (λ next.
            measure next self.new < measure Control.Done self.old) }
        ensures rightly { IfOk result (λ next. StopsRightly next self.new) }
    {
        match self.frames.pop() {
            None => Ok(Control::End(End::Done)),
            Some(frame) => self.end_statement(frame),
        }
    }

    /// A `break` goes out.
    #[inline]
    #[tactic(auto, using(crate::proofs::FlowLaws::break_laws))]
    fn turn_break(&mut self) -> Result<Control, AllocError>
        ensures same { IfOk result (λ next. Same (rest Control.Break) self.old next self.new) }
        ensures falls { IfOk result (λ next.
            measure next self.new < measure Control.Break self.old) }
        ensures rightly { IfOk result (λ next. StopsRightly next self.new) }
    {
        match self.frames.pop() {
            None => Ok(Control::End(End::Broke)),
            Some(frame) => self.leave(frame),
        }
    }

    /// A `continue` goes out.
    #[inline]
    #[tactic(auto, using(crate::proofs::FlowLaws::continue_laws))]
    fn turn_continue(&mut self) -> Result<Control, AllocError>
        ensures same { IfOk result (λ next. Same (rest Control.Continue) self.old next self.new) }
        ensures falls { IfOk result (λ next.
            measure next self.new < measure Control.Continue self.old) }
        ensures rightly { IfOk result (λ next. StopsRightly next self.new) }
    {
        match self.frames.pop() {
            None => Ok(Control::End(End::Continued)),
            Some(frame) => self.leave_turn(frame),
        }
    }

    /// An exception goes out.
    #[inline]
    #[tactic(auto, using(crate::proofs::FlowLaws::throw_laws))]
    fn turn_throw(&mut self) -> Result<Control, AllocError>
        ensures same { IfOk result (λ next. Same (rest Control.Throw) self.old next self.new) }
        ensures falls { IfOk result (λ next.
            measure next self.new < measure Control.Throw self.old) }
        ensures rightly { IfOk result (λ next. StopsRightly next self.new) }
    {
        match self.frames.pop() {
            None => Ok(Control::End(End::Threw)),
            Some(frame) => self.throw_past(frame),
        }
    }

    /// An expression is begun, if a step is left.
    #[inline]
    #[tactic(auto, using(crate::proofs::StepLaws::expr_laws))]
    fn turn_expr(&mut self, e: ExprCode) -> Result<Control, AllocError>
        ensures same { IfOk result (λ next. Same (rest (Control.Expr e)) self.old next self.new) }
        ensures falls { IfOk result (λ next.
            measure next self.new < measure (Control.Expr e) self.old) }
        ensures rightly { IfOk result (λ next. StopsRightly next self.new) }
    {
        if self.push_at_once(&e)? {
            return Ok(Control::Give);
        }
        if self.clock.left() == 0 {
            return Ok(Control::End(End::OutOfSteps));
        }
        if !is_built_expression(&e) {
            return Ok(Control::Unbuilt(Unbuilt::Expr(e)));
        }
        self.clock.spend(1);
        self.begin(e)
    }

    /// A statement is begun, if a step is left.
    #[inline]
    #[tactic(auto, using(crate::proofs::StepLaws::stmt_laws))]
    fn turn_stmt(&mut self, s: StmtCode) -> Result<Control, AllocError>
        ensures same { IfOk result (λ next. Same (rest (Control.Stmt s)) self.old next self.new) }
        ensures falls { IfOk result (λ next.
            measure next self.new < measure (Control.Stmt s) self.old) }
        ensures rightly { IfOk result (λ next. StopsRightly next self.new) }
    {
        if self.clock.left() == 0 {
            return Ok(Control::End(End::OutOfSteps));
        }
        if !is_built_statement(&s) {
            return Ok(Control::Unbuilt(Unbuilt::Stmt(s)));
        }
        self.clock.spend(1);
        self.begin_statement(s)
    }

    /// A turn of a loop begins, if a step is left; it is a beat.
    #[inline]
    #[tactic(auto, using(crate::proofs::StepLaws::body_laws))]
    fn turn_body(&mut self, s: StmtCode) -> Result<Control, AllocError>
        ensures same { IfOk result (λ next. Same (rest (Control.Body s)) self.old next self.new) }
        ensures falls { IfOk result (λ next.
            measure next self.new < measure (Control.Body s) self.old) }
        ensures rightly { IfOk result (λ next. StopsRightly next self.new) }
    {
        if self.clock.left() == 0 {
            return Ok(Control::End(End::OutOfSteps));
        }
        if !is_built_statement(&s) {
            return Ok(Control::Unbuilt(Unbuilt::Body(s)));
        }
        self.clock.spend(1);
        if self.beats == u64::MAX {
            return Err(AllocError);
        }
        self.beats += 1;
        self.begin_statement(s)
    }

    /// The machine goes on until it is over.
    pub(crate) fn go<W: Host>(&mut self, from: Control, world: &mut W) -> Result<Over, AllocError>
        requires { StopsRightly from self.old }
        ensures same { IfOk result (λ over. LeadsTo (rest from)
            self.old (W.given world.old) (over_control over) self.new (W.given world.new)) }
        ensures rightly { IfOk result (λ over. StopsRightly (over_control over) self.new) }
    {
        let mut control = from;
        'turns: loop {
            match control {
                Control::Expr(e) => control = self.turn_expr(e)?,
                Control::Stmt(s) => control = self.turn_stmt(s)?,
                Control::Body(s) => control = self.turn_body(s)?,
                Control::Call(count, callee) => control = self.turn_call(count, callee)?,
                Control::Enter(count, o) => control = self.turn_enter(count, o, world)?,
                Control::Give => control = self.turn_give()?,
                Control::Done => control = self.turn_done()?,
                Control::Break => control = self.turn_break()?,
                Control::Continue => control = self.turn_continue()?,
                Control::Throw => control = self.turn_throw()?,
                Control::End(end) => return Ok(Over::End(end)),
                Control::Unbuilt(what) => return Ok(Over::Unbuilt(what)),
            }
        }
    }
}
