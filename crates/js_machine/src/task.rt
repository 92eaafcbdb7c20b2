//! Tasks: a machine is given a script, or a function to be called, and runs it in a world that
//! answers its host calls.

ghost use Rattle.std.specs.Prelude.{◌≡◌, true, IfOk, None, is_some, map};
ghost use Rattle.js_calls.specs.Declared.{functions_of};
ghost use Rattle.js_tree.specs.Plain as view;
ghost use Rattle.js_machine.specs.Globals.{host_body};
ghost use Rattle.js_machine.specs.Halts.{HaltsAs, RunsTo, Starts, StartsCall};
ghost use Rattle.js_machine.specs.Halts.{in_script, in_task, stack_of};
ghost use Rattle.js_machine.specs.NotBuilt.{StopsRightly, has_functions};
ghost use Rattle.js_machine.specs.Page.{state_at_start};
ghost use Rattle.js_machine.specs.Rest.{Same, over_control};
ghost use Rattle.js_machine.specs.Stacks.{top};

use crate::clock::Clock;
use crate::frame::{Control, End, Over, Unbuilt};
use crate::hosts::{Hosts, add_hosts};
use crate::machine::Machine;
use crate::stacks::{Frames, Values};
use crate::variables::declare;
use crate::world::Late;
use dl_text::{Names, TryCopy};
use js_code::BodyCode;
use js_tree::Script;
use js_values::{ObjectId, Reason, Value};
use object_heap::{BuiltIn, Heap};
use std::alloc::{AllocError, Global};

/// What a machine is to run.
#[derive(Drop)]
pub enum Task {
    Script(BodyCode),
    /// This function, with so many arguments above its `this` on these values.
    Call(u32, ObjectId, Values),
}

/// How a run ended.
#[derive(Drop)]
pub enum Halt {
    Ended,
    /// With what was thrown and not caught.
    Uncaught(Value),
    OutOfSteps,
    Stopped(Reason),
    /// The world said that the run cannot go on.
    LateFailed,
    /// What comes next is not built yet. The machine is not run again.
    Unbuilt,
}

/// Whether a script declares functions.
fn declares_functions(code: &BodyCode) -> bool
    ensures { result ≡ has_functions (functions_of (view.body code.now)) }
{
    !code.functions().is_empty()
}

impl Machine {
    /// A machine whose objects are those of the start and the host calls of these names, and which
    /// has taken no step. Of names that stand twice the last counts.
    pub fn new(alloc: Global, host_names: &Names) -> Result<Machine, AllocError>
        ensures heap { IfOk result (λ m. m.heap ≡ (state_at_start host_names.now).heap) }
        ensures hosts { IfOk result (λ m.
            map host_body m.hosts ≡ (state_at_start host_names.now).bodies) }
        ensures beats { IfOk result (λ m. m.beats ≡ 0) }
        ensures steps { IfOk result (λ m. m.clock ≡ (0, 0)) }
        ensures task { IfOk result (λ m. m.task ≡ None) }
    {
        let mut heap = Heap::new(alloc)?;
        let mut hosts = Hosts::new(alloc);
        add_hosts(alloc, &mut heap, &mut hosts, host_names)?;
        Ok(Machine {
            alloc,
            heap,
            hosts,
            frames: Frames::new(alloc),
            values: Values::new(alloc),
            clock: Clock::new(),
            beats: 0,
            task: None,
        })
    }

    /// The steps that were taken.
    pub fn steps(&self) -> u64
        ensures { result ≡ self.now.clock.0 }
    {
        self.clock.steps()
    }

    /// The beats so far: the turns of loops.
    pub fn beats(&self) -> u64
        ensures { result ≡ self.now.beats }
    {
        self.beats
    }

    /// A script is entered, if a step is left.
    #[tactic(auto, using(crate::proofs::ScriptLaws::script_laws))]
    fn enter_script(&mut self, code: BodyCode) -> Result<Control, AllocError>
        ensures same { IfOk result (λ next.
            Same (in_script (view.body code)) self.old next self.new) }
        ensures rightly { IfOk result (λ next. StopsRightly next self.new) }
    {
        if self.clock.left() == 0 {
            return Ok(Control::End(End::OutOfSteps));
        }
        let list = code.statements().share()?;
        if declares_functions(&code) {
            return Ok(Control::Unbuilt(Unbuilt::Script(list)));
        }
        self.clock.spend(1);
        declare(&mut self.heap, code.variables())?;
        self.next_statement(list, 0)
    }

    /// How the run ended, by why the machine does not go on.
    #[tactic(auto, using(crate::proofs::HaltLaws::halt_laws))]
    fn halt(&self, over: Over) -> Result<Halt, AllocError>
        requires { StopsRightly (over_control over) self.now }
        ensures { IfOk result (λ halt. HaltsAs halt over self.now) }
    {
        Ok(match over {
            Over::End(End::Gave) => Halt::Ended,
            Over::End(End::Done) => Halt::Ended,
            Over::End(End::Broke) => Halt::Ended,
            Over::End(End::Continued) => Halt::Ended,
            Over::End(End::Threw) => Halt::Uncaught(self.newest()?),
            Over::End(End::OutOfSteps) => Halt::OutOfSteps,
            Over::End(End::Stopped(reason)) => Halt::Stopped(reason),
            Over::Unbuilt(_) => Halt::Unbuilt,
        })
    }

    /// A copy of the newest value.
    fn newest(&self) -> Result<Value, AllocError>
        ensures { IfOk result (λ v. v ≡ top self.now.values) }
    {
        match self.values.newest() {
            Some(v) => v.copy(self.alloc),
            None => Ok(Value::Undefined),
        }
    }

    /// The task is begun.
    #[tactic(auto, using(crate::proofs::ScriptLaws::call_begun))]
    fn begin_task(&mut self, task: Task) -> Result<Control, AllocError>
        ensures same { IfOk result (λ next.
            Same (in_task task) (record self.old { values = stack_of task }) next self.new) }
        ensures rightly { IfOk result (λ next. StopsRightly next self.new) }
    {
        match task {
            Task::Script(code) => {
                self.values = Values::new(self.alloc);
                self.enter_script(code)
            }
            Task::Call(count, f, values) => {
                self.values = values;
                Ok(Control::Enter(count, f))
            }
        }
    }

    /// Sets a script as the task. None is set before.
    pub fn start(&mut self, script: &Script) -> Result<(), AllocError>
        requires { self.old.task ≡ None }
        ensures { IfOk result (λ _. Starts (view.script script.now) self.old self.new) }
    {
        let code = BodyCode::of_script(self.alloc, script)?;
        self.task = Some(Task::Script(code));
        Ok(())
    }

    /// Sets the call of a function as the task, with the global object as `this`. None is set
    /// before. What is no function throws a TypeError when it is run.
    pub fn start_call(&mut self, f: ObjectId, arguments: &[Value]) -> Result<(), AllocError>
        requires { self.old.task ≡ None }
        ensures { IfOk result (λ _. StartsCall f arguments.now self.old self.new) }
    {
        let Ok(count) = u32::try_from(arguments.len()) else {
            return Err(AllocError);
        };
        let mut values = Values::new(self.alloc);
        values.push(Value::Object(self.heap.built_in(BuiltIn::Global)))?;
        values.push_copies(self.alloc, arguments)?;
        self.task = Some(Task::Call(count, f, values));
        Ok(())
    }

    /// Runs the task until it ends, stops, or has taken so many steps, those before included. No
    /// task is set behind it.
    pub fn run<W: Late>(&mut self, budget: u64, world: &mut W) -> Result<Halt, AllocError>
        requires { is_some self.old.task ≡ true }
        ensures runs { IfOk result (λ halt. RunsTo budget
            self.old (W.given world.old) halt self.new (W.given world.new)) }
        ensures task { IfOk result (λ _. self.new.task ≡ None) }
    {
        let task = self.task.take().unwrap();
        self.clock.allow(budget);
        self.frames = Frames::new(self.alloc);
        let first = self.begin_task(task)?;
        let over = self.go(first, world)?;
        self.task = None;
        let halt = self.halt(over)?;
        Ok(halt)
    }
}
