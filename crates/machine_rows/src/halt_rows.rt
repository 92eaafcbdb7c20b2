//! How the run of a task ends (ES3 8.9, 13.2.1), and what a task is: these calls do nothing.

ghost use Rattle.std.specs.Prelude.{◌≡◌, ◌∷◌, [], ◌++◌, ℕ, List, codes, map, replicate, true};
ghost use Rattle.std.specs.Prelude.{Some, None};
ghost use Rattle.js_tree.specs.declared.tree.Stmt.{Stmt};
ghost use Rattle.js_tree.specs.Plain as view;
ghost use Rattle.js_tree.specs.Tree as tree;
ghost use Rattle.js_values.specs.declared.reason.Reason.TheVariants as reason;
ghost use Rattle.object_heap.specs.declared.built_in.BuiltIn.TheVariants as built;
ghost use Rattle.object_heap.specs.Start.{heap_at_start};
ghost use Rattle.js_machine.specs.declared.frame.End.TheVariants as end;
ghost use Rattle.js_machine.specs.declared.frame.Over.TheVariants as over;
ghost use Rattle.js_machine.specs.declared.frame.Unbuilt.TheVariants as unbuilt;
ghost use Rattle.js_machine.specs.declared.machine.Machine.{Machine};
ghost use Rattle.js_machine.specs.declared.task.Halt.TheVariants as halt;
ghost use Rattle.js_machine.specs.declared.task.Task.TheVariants as tasks;
ghost use Rattle.js_machine.specs.Asks.{Gives};
ghost use Rattle.js_machine.specs.Given.{Called, Needed};
ghost use Rattle.js_machine.specs.Halts.{HaltsAs, HaltsIn, RunsTask, RunsTo, Starts, StartsCall};
ghost use Rattle.js_machine.specs.Halts.{called_with};
ghost use Rattle.js_machine.specs.Halts.{in_call};
ghost use Rattle.js_machine.specs.Halts.{stack_of, uncaught};
ghost use Rattle.js_machine.specs.Logs.{OutOfSteps, ending_of, last_state, steps_of};
ghost use Rattle.js_machine.specs.References.{error_object};
ghost use Rattle.js_machine.specs.Rest.{Outside, ended, entering, state, thrown};
ghost use Rattle.js_machine.specs.Run.{End, Need, Say, Stopped, Trace};
ghost use Rattle.js_machine.specs.Run as run;
ghost use Rattle.machine_rows.specs.Alone.{hosts, more_objects, outcome_of, uncaught_of};
ghost use Rattle.machine_rows.specs.Asking.{call_of};
ghost use Rattle.machine_rows.specs.Nodes as node;
ghost use Rattle.machine_rows.specs.Samples.{minus, nothing, object, text, whole};
ghost use Rattle.machine_rows.specs.Writing.{a, block, x};

/// What is thrown and not caught, by statements that end in each way.
pub fn throws_of_ends()
    ensures throws { map uncaught (thrown (whole 6) ∷ thrown nothing ∷ [])
        ≡ Some (whole 6) ∷ Some nothing ∷ [] }
    ensures gives { uncaught (Gives (whole 5)) ≡ None }
    ensures completions { map uncaught_of node.endings ≡ replicate 6 (Some None) }
    ensures thrown_statement { uncaught_of (tree.Throw node.one) ≡ Some (Some (whole 1)) }
{}

/// How a run halts, in the state of its machine.
pub fn halts()
    ensures gives { (m : Machine) (out : Outside)
        → HaltsIn halt.Ended (End (Gives (whole 5)) (state m out)) m out }
    ensures done { (m : Machine) (out : Outside)
        → HaltsIn halt.Ended (ended end.Done [] (state m out)) m out }
    ensures jumps { (m : Machine) (out : Outside)
        → HaltsIn halt.Ended (ended end.Broke [] (state m out)) m out }
    ensures thrown_is_no_end { (m : Machine) (out : Outside)
        → HaltsIn halt.Ended (End (thrown (whole 5)) (state m out)) m out → ⊥ }
    ensures not_over { (m : Machine) (out : Outside)
        → HaltsIn halt.Ended (run.OutOfSteps (state m out)) m out → ⊥ }
    ensures throws { (m : Machine) (out : Outside)
        → HaltsIn (halt.Uncaught (whole 5)) (End (thrown (whole 5)) (state m out)) m out }
    ensures throws_another { (m : Machine) (out : Outside)
        → HaltsIn (halt.Uncaught (whole 5)) (End (thrown (whole 6)) (state m out)) m out → ⊥ }
    ensures not_thrown { (m : Machine) (out : Outside)
        → HaltsIn (halt.Uncaught (whole 5)) (End (Gives (whole 5)) (state m out)) m out → ⊥ }
    ensures out_of_steps { (m : Machine) (out : Outside)
        → HaltsIn halt.OutOfSteps (run.OutOfSteps (state m out)) m out }
    ensures not_out_of_steps { (m : Machine) (out : Outside)
        → HaltsIn halt.OutOfSteps (Stopped reason.Fraction (state m out)) m out → ⊥ }
    ensures stops { (m : Machine) (out : Outside)
        → HaltsIn (halt.Stopped reason.Fraction) (Stopped reason.Fraction (state m out)) m out }
    ensures stops_otherwise { (m : Machine) (out : Outside)
        → HaltsIn (halt.Stopped reason.Fraction) (Stopped reason.TooLarge (state m out)) m out → ⊥ }
    ensures goes_on { (m : Machine) (out : Outside)
        → HaltsIn halt.OutOfSteps (Say (Need 7) 12 (run.OutOfSteps (state m out))) m out → ⊥ }
    ensures no_late { (t : Trace) (m : Machine) (out : Outside)
        → HaltsIn halt.LateFailed t m out → ⊥ }
{}

/// Tasks: a script; and the call of a function, whose arguments stand above the global object (12).
pub fn tasks()
    ensures arguments { map called_with ([] ∷ (whole 1 ∷ whole 2 ∷ []) ∷ [])
        ≡ (object 12 ∷ []) ∷ (whole 2 ∷ whole 1 ∷ object 12 ∷ []) ∷ [] }
    ensures call_is_set { (old : Machine) → StartsCall (record { 0 = 65 })
        (whole 1 ∷ whole 2 ∷ []) old (record old {
          task = Some (tasks.Call 2 (record { 0 = 65 })
              (whole 2 ∷ whole 1 ∷ object 12 ∷ []));
        }) }
    ensures script_is_set { (code : List Stmt) (old : Machine) → Starts (view.body code) old
        (record old { task = Some (tasks.Script code) }) }
    ensures other_script_is_set { (old : Machine) → Starts (block (tree.Empty ∷ [])) old
        (record old { task = Some (tasks.Script []) }) → ⊥ }
    ensures script_stack { (code : List Stmt) → stack_of (tasks.Script code) ≡ [] }
    ensures call_stack { stack_of (tasks.Call 1 (record { 0 = 65 }) (whole 1 ∷ object 12 ∷ []))
        ≡ whole 1 ∷ object 12 ∷ [] }
    ensures no_task { (old new : Machine) → RunsTask None 100 old [] halt.Ended new [] → ⊥ }
{}

/// The runs of calls: `this` is the global object, and the arguments are in order. The entry takes
/// a step, but for that of what is no function (ES3 11.2.3).
pub fn runs_of_calls()
    ensures argument { outcome_of (call_of 58 (minus 5 ∷ []) 10) ≡ Some (Gives (whole 5)) }
    ensures this { outcome_of (call_of 25 [] 10) ≡ Some (Gives (object 12)) }
    ensures order { outcome_of (call_of 59 (minus 5 ∷ whole 7 ∷ []) 10) ≡ Some (Gives (whole 7)) }
    ensures first { outcome_of (call_of 22 (text (codes "12") ∷ whole 8 ∷ []) 10)
        ≡ Some (Gives (whole 10)) }
    ensures steps { steps_of (call_of 25 [] 10) ≡ 1 }
    ensures no_step { ending_of (call_of 25 [] 0) ≡ OutOfSteps }
    ensures no_function { outcome_of (call_of 0 [] 0) ≡ Some (thrown (object 69)) }
    ensures on_its_stack { (n beats steps : ℕ) (out : Outside) → entering 2 (record { 0 = 58 }) n []
        (whole 2 ∷ whole 1 ∷ object 12 ∷ []) heap_at_start [] beats steps out
        ≡ in_call (record { 0 = 58 }) (whole 1 ∷ whole 2 ∷ []) n [] [] heap_at_start [] beats steps
        out }
{}

/// The runs of tasks, from the steps that were taken before on: one without statements takes a
/// step, where one is left.
pub fn runs_of_tasks()
    ensures ends { (m : Machine) → RunsTo 5 (record m {
      clock = (3, 0);
      task = Some (tasks.Script []);
    }) [] halt.Ended (record m { clock = (4, 1) }) [] }
    ensures out_of_steps { (m : Machine) → RunsTo 3 (record m {
      clock = (3, 0);
      task = Some (tasks.Script []);
    }) [] halt.OutOfSteps (record m { clock = (3, 0) }) [] }
    ensures keeps_what_was_asked { (m : Machine) → RunsTo 5 (record m {
      clock = (3, 0);
      task = Some (tasks.Script []);
    }) (Needed 7 true ∷ []) halt.Ended (record m { clock = (4, 1) }) (Needed 7 true ∷ []) }
    ensures forgets { (m : Machine) → RunsTo 5 (record m {
      clock = (3, 0);
      task = Some (tasks.Script []);
    }) (Needed 7 true ∷ []) halt.Ended (record m { clock = (4, 1) }) [] → ⊥ }
    ensures no_task { (m : Machine) → RunsTo 5 (record m {
      clock = (3, 0);
      task = None;
    }) [] halt.Ended (record m { clock = (3, 0) }) [] → ⊥ }
    ensures calls_the_host { (m : Machine) → RunsTo 5 (record m {
      heap = more_objects;
      hosts = hosts;
      clock = (2, 0);
      task = Some (tasks.Call 2 (record { 0 = 65 }) (whole 2 ∷ whole 1 ∷ object 12 ∷ []));
    }) [] halt.Ended (record m { heap = more_objects; hosts = hosts; clock = (3, 2) })
        (Called (codes "out") (whole 1 ∷ whole 2 ∷ []) nothing ∷ []) }
    ensures throws { (m : Machine) → RunsTo 5 (record m {
      heap = more_objects;
      hosts = hosts;
      clock = (2, 0);
      task = Some (tasks.Call 0 (record { 0 = 66 }) (object 12 ∷ []));
    }) [] (halt.Uncaught (object 69)) (record m {
      heap = more_objects ++ error_object built.TypeErrorPrototype ∷ [];
      hosts = hosts;
      clock = (2, 3);
    }) [] }
{}

/// Where the machine is over, its halt tells the end of the run.
pub fn halts_of_ends()
    ensures gave { (m : Machine) → HaltsAs halt.Ended (over.End end.Gave) m }
    ensures broke { (m : Machine) → HaltsAs halt.Ended (over.End end.Broke) m }
    ensures threw { (m : Machine) → HaltsAs (halt.Uncaught (whole 5)) (over.End end.Threw)
        (record m { values = whole 5 ∷ [] }) }
    ensures stopped { (m : Machine)
        → HaltsAs (halt.Stopped reason.Fraction) (over.End (end.Stopped reason.Fraction)) m }
    ensures out_of_steps { (m : Machine) → HaltsAs halt.OutOfSteps (over.End end.OutOfSteps) m }
    ensures not_built { (m : Machine) → HaltsAs halt.Unbuilt
        (over.Unbuilt (unbuilt.Enter 0 (record { 0 = 13 }))) (record m { heap = more_objects }) }
    ensures not_ended { (m : Machine) → HaltsAs halt.Ended (over.End end.OutOfSteps) m → ⊥ }
    ensures not_out_of_steps { (m : Machine) → HaltsAs halt.OutOfSteps (over.End end.Gave) m → ⊥ }
    ensures not_thrown { (m : Machine) → HaltsAs halt.Ended (over.End end.Threw) m → ⊥ }
{}
