//! Calls of properties of objects, and the host calls among them (ES3 11.2.3, 11.2.4).

ghost use Rattle.std.specs.Prelude.{◌≡◌, ◌∷◌, ◌++◌, ◌≤◌, ◌<◌, ◌+◌, ◌*◌};
ghost use Rattle.std.specs.Prelude.{[], length, true, IfOk, MatchOption, None, Some};
ghost use Rattle.js_tree.specs.Plain.{expr};
ghost use Rattle.js_tree.specs.Tree as tree;
ghost use Rattle.js_code.specs.Cursors.{exprs_from};
ghost use Rattle.js_machine.specs.Given.{LeadsTo};
ghost use Rattle.js_machine.specs.Built.{is_dot};
ghost use Rattle.js_machine.specs.HostCalls.{host_call_in};
ghost use Rattle.js_machine.specs.Members.{base_on, is_native, property_in};
ghost use Rattle.js_machine.specs.NotBuilt.{StopsRightly};
ghost use Rattle.js_machine.specs.Rest.{Falls, Same, in_arguments, in_expr, in_value, measure};
ghost use Rattle.js_machine.specs.References.{error_object};
ghost use Rattle.js_machine.specs.Rest.{rest};
ghost use Rattle.js_machine.specs.Stacks.{below, without};
ghost use Rattle.js_machine.specs.State.{object_value};

use crate::frame::{Control, End, Frame, Unbuilt};
use crate::machine::Machine;
use crate::members::{dot_of, is_base};
use crate::world::Host;
use dl_text::Units;
use js_code::{ExprCode, ExprCodes};
use js_values::{ObjectId, Value};
use object_heap::{BuiltIn, Class};
use std::alloc::AllocError;

impl Machine {
    /// The base of a call is begun, behind the step of its dot.
    #[inline]
    #[tactic(auto, using(crate::proofs::CallLaws::call_laws))]
    pub(crate) fn begin_call(
        &mut self,
        callee: &ExprCode,
        arguments: &ExprCodes,
    ) -> Result<Control, AllocError>
        requires { is_dot (expr callee.now) ≡ true }
        ensures same { IfOk result (λ next.
            Same (in_expr (tree.Call (expr callee.now) (exprs_from arguments.now 0)))
            self.old next self.new) }
        ensures falls { IfOk result (λ next. Falls self.old next self.new) }
        ensures rightly { IfOk result (λ next. StopsRightly next self.new) }
    {
        let Some((object, _)) = dot_of(callee) else {
            return Ok(Control::Done);
        };
        if !self.clock.tick() {
            return Ok(Control::End(End::OutOfSteps));
        }
        let callee = callee.share()?;
        let arguments = arguments.share()?;
        self.first(Frame::Callee(callee, arguments), object)
    }

    /// The arguments from one on are begun, and then the function is entered.
    #[inline]
    #[tactic(auto, using(crate::proofs::CallLaws::argument_laws))]
    fn next_argument(
        &mut self,
        i: u32,
        callee: ExprCode,
        arguments: ExprCodes,
    ) -> Result<Control, AllocError>
        ensures same { IfOk result (λ next.
            Same (in_arguments i callee arguments) self.old next self.new) }
        ensures falls { IfOk result (λ next. Falls self.old next self.new) }
        ensures rightly { IfOk result (λ next. StopsRightly next self.new) }
    {
        let Some(argument) = arguments.get(i as usize) else {
            return Ok(Control::Call(i, callee));
        };
        let argument = argument.share()?;
        self.frames.push(Frame::Argument(i, callee, arguments))?;
        Ok(Control::Expr(argument))
    }

    #[inline]
    #[tactic(auto, using(crate::proofs::CallLaws::base_laws))]
    pub(crate) fn give_callee(
        &mut self,
        callee: ExprCode,
        arguments: ExprCodes,
    ) -> Result<Control, AllocError>
        ensures same { IfOk result (λ next.
            Same (in_value (Frame.Callee callee arguments)) self.old next self.new) }
        ensures falls { IfOk result (λ next. Falls self.old next self.new) }
        ensures rightly { IfOk result (λ next. StopsRightly next self.new) }
    {
        let base = self.values.pop();
        if !is_base(&base) {
            return self.throw_error(BuiltIn::TypeErrorPrototype);
        }
        self.values.push(base)?;
        self.next_argument(0, callee, arguments)
    }

    #[inline]
    #[tactic(auto, using(crate::proofs::CallLaws::given_laws))]
    pub(crate) fn give_argument(
        &mut self,
        i: u32,
        callee: ExprCode,
        arguments: ExprCodes,
    ) -> Result<Control, AllocError>
        ensures same { IfOk result (λ next.
            Same (in_value (Frame.Argument i callee arguments)) self.old next self.new) }
        ensures falls { IfOk result (λ next. Falls self.old next self.new) }
        ensures rightly { IfOk result (λ next. StopsRightly next self.new) }
    {
        if i == u32::MAX {
            return Err(AllocError);
        }
        let v = self.values.pop();
        self.values.push(v)?;
        self.next_argument(i + 1, callee, arguments)
    }

    /// What a property has of the base that stands under so many arguments.
    fn callee(&self, count: u32, name: &Units) -> Result<Value, AllocError>
        ensures { IfOk result (λ f.
            f ≡ property_in self.now.heap (base_on count self.now.values) name.now) }
    {
        match self.values.under(count as usize) {
            Some(base) => self.property(base, name),
            None => Ok(Value::Undefined),
        }
    }

    /// An error is thrown in the place of a call with so many arguments.
    fn throw_at_call(&mut self, count: u32) -> Result<Control, AllocError>
        ensures { IfOk result (λ next. (next ≡ Control.Throw)
            × (self.new ≡ record self.old {
              heap = self.old.heap ++ error_object BuiltIn.TypeErrorPrototype ∷ [];
              values = object_value (length self.old.heap)
                  ∷ below (without count self.old.values);
            })) }
    {
        self.values.forget(count as usize);
        let _base = self.values.pop();
        self.throw_error(BuiltIn::TypeErrorPrototype)
    }

    /// The property of the base that stands under so many arguments is called.
    #[tactic(auto, using(crate::proofs::CallLaws::member_laws))]
    pub(crate) fn turn_call(&mut self, count: u32, callee: ExprCode) -> Result<Control, AllocError>
        ensures same { IfOk result (λ next.
            Same (rest (Control.Call count callee)) self.old next self.new) }
        ensures falls { IfOk result (λ next.
            measure next self.new < measure (Control.Call count callee) self.old) }
        ensures rightly { IfOk result (λ next. StopsRightly next self.new) }
    {
        let Some((_, name)) = dot_of(&callee) else {
            self.values.forget(count as usize);
            let _base = self.values.pop();
            return Ok(Control::Done);
        };
        match self.callee(count, name)? {
            Value::Object(o) => Ok(Control::Enter(count, o)),
            _ => self.throw_at_call(count),
        }
    }

    /// Whether an object is a function of the start.
    fn is_native(&self, o: ObjectId) -> bool
        ensures { result ≡ is_native self.now.heap o.0 }
    {
        match self.heap.class(o) {
            Some(Class::Function) => self.heap.which(o).is_some(),
            _ => false,
        }
    }

    /// The name of the host call that an object is, if it is one.
    #[tactic(auto, using(crate::proofs::CallLaws::name_laws))]
    fn host_call(&self, o: ObjectId) -> Option<&Units>
        ensures { MatchOption result (host_call_in self.now.heap self.now.hosts o.0 ≡ None)
            (λ name. host_call_in self.now.heap self.now.hosts o.0 ≡ Some name.now) }
    {
        match (self.heap.class(o), self.heap.which(o)) {
            (Some(Class::Function), None) => self.hosts.name(o.0),
            _ => None,
        }
    }

    /// An object is entered that is no host call.
    #[tactic(auto, using(crate::proofs::CallLaws::other_laws))]
    fn enter_other(&mut self, count: u32, o: ObjectId) -> Result<Control, AllocError>
        requires { host_call_in self.old.heap self.old.hosts o.0 ≡ None }
        ensures same { IfOk result (λ next.
            Same (rest (Control.Enter count o)) self.old next self.new) }
        ensures falls { IfOk result (λ next.
            measure next self.new < measure (Control.Enter count o) self.old) }
        ensures rightly { IfOk result (λ next. StopsRightly next self.new) }
    {
        if self.is_native(o) {
            return Ok(Control::Unbuilt(Unbuilt::Enter(count, o)));
        }
        self.throw_at_call(count)
    }

    /// An object is entered, if a step is left; host calls are asked of the world.
    pub(crate) fn turn_enter<W: Host>(
        &mut self,
        count: u32,
        o: ObjectId,
        world: &mut W,
    ) -> Result<Control, AllocError>
        ensures same { IfOk result (λ next. LeadsTo (rest (Control.Enter count o))
            self.old (W.given world.old) next self.new (W.given world.new)) }
        ensures falls { IfOk result (λ next.
            measure next self.new < measure (Control.Enter count o) self.old) }
        ensures rightly { IfOk result (λ next. StopsRightly next self.new) }
    {
        let Some(name) = self.host_call(o) else {
            return self.enter_other(count, o);
        };
        if self.clock.left() == 0 {
            return Ok(Control::End(End::OutOfSteps));
        }
        let v = world.call(name, self.values.newest_of(count as usize))?;
        self.clock.spend(1);
        self.values.forget(count as usize);
        let _base = self.values.pop();
        self.answer(v)
    }
}
