//! Worked functions (ES3 10, 13, 15.3): these calls do nothing, and each says what the host sees,
//! or how a run ends.

ghost use Rattle.std.specs.Prelude.{◌≡◌, ◌∷◌, [], codes, true, false, map, replicate};
ghost use Rattle.js_values.specs.declared.reason.Reason.TheVariants as reason;
ghost use Rattle.js_values.specs.declared.shown.Shown.TheVariants as shown;
ghost use Rattle.machine_rows.specs.ExpressionScripts.{empty, nothing, one};
ghost use Rattle.machine_rows.specs.FunctionScripts as small;
ghost use Rattle.js_machine.specs.Logs.{Ended, Stopped, marks_of, seen};
ghost use Rattle.js_machine.specs.Page.{original};
ghost use Rattle.machine_rows.specs.Rows.{ample, behind, caught, end_of, lines, number, numbers, out};
ghost use Rattle.machine_rows.specs.Rows.{page, run_of, text, texts, truth, values};
ghost use Rattle.js_machine.specs.Run.{Entry, Idle, Used};
ghost use Rattle.machine_rows.specs.Scripts.{dot};
ghost use Rattle.machine_rows.specs.Writing as tree;

/// What an entry binds, in order.
pub fn bindings()
    ensures declares_first { lines small.declares_first
        ≡ out (number 2 ∷ shown.Undefined ∷ []) ∷ [] }
    ensures binds_in_order { lines small.binds_in_order
        ≡ out (number 1 ∷ number 5 ∷ text (codes "function") ∷ []) ∷ [] }
    ensures declares_own { lines small.declares_own
        ≡ out (shown.Undefined ∷ text (codes "function") ∷ []) ∷ [] }
    ensures declares_again { seen (marks_of (original (tree.block small.makes_globals
        ∷ tree.block small.declares_again ∷ []) page ample)) ≡ texts tree.a ∷ texts tree.b
        ∷ texts tree.k ∷ out (truth false ∷ truth true ∷ truth false ∷ []) ∷ [] }
    ensures constants { lines small.writes_constants
        ≡ out (number 1 ∷ number 2 ∷ truth false ∷ shown.Undefined ∷ []) ∷ [] }
{}

/// `arguments`.
pub fn arguments_of_calls()
    ensures shares { lines small.shares ≡ out (number 2 ∷ number 2 ∷ number 3 ∷ [])
        ∷ out (number 2 ∷ number 5 ∷ []) ∷ texts (codes "0") ∷ [] }
    ensures shares_nothing { lines small.shares_nothing ≡ out (number 0 ∷ shown.Undefined
        ∷ shown.Undefined ∷ number 2 ∷ []) ∷ [] }
{}

/// Function objects and `new`.
pub fn function_objects()
    ensures keeps_its_name { lines small.keeps_its_name
        ≡ out (text (codes "function") ∷ truth false ∷ []) ∷ texts (codes "undefined") ∷ [] }
    ensures has_a_prototype { lines small.has_a_prototype ≡ out (number 2 ∷ truth true ∷ number 1
        ∷ truth false ∷ truth false ∷ []) ∷ texts tree.x ∷ [] }
    ensures returns_from_new { lines small.returns_from_new
        ≡ out (number 2 ∷ number 1 ∷ truth true ∷ []) ∷ [] }
    ensures no_constructor { caught (small.constructs (dot (tree.name (codes "Math"))
        (codes "abs"))) ≡ texts (codes "TypeError") ∷ [] }
    ensures host_is_no_constructor { caught (small.constructs (dot (tree.name (codes "host"))
        (codes "out"))) ≡ texts (codes "TypeError") ∷ [] }
    ensures object_is_no_constructor { caught (small.constructs (tree.name (codes "Math")))
        ≡ texts (codes "TypeError") ∷ [] }
    ensures steps_of_no_constructor { end_of (small.constructs (dot (tree.name (codes "Math"))
        (codes "abs"))) ≡ (Ended, 6) }
    ensures wrapper { end_of (small.constructs (tree.name (codes "Number")))
        ≡ (Stopped reason.Wrapper, 6) }
    ensures constructed { values small.constructed
        ≡ out (number 3 ∷ truth true ∷ text tree.x ∷ []) ∷ [] }
    ensures returns_nothing { lines small.returns_nothing ≡ out (shown.Undefined ∷ []) ∷ [] }
    ensures number_of_it { behind small.without_prototype (small.number_of_it ∷ [])
        ≡ out (truth false ∷ []) ∷ [] }
    ensures object_of_it { caught small.object_of_it ≡ texts (codes "TypeError") ∷ [] }
    ensures object_of_a_native { caught small.object_of_a_native
        ≡ texts (codes "TypeError") ∷ [] }
    ensures lengths { values small.lengths
        ≡ out (number 0 ∷ number 2 ∷ number 1 ∷ number 2 ∷ []) ∷ [] }
{}

/// Natives in runs: what they ask is done as the machine does it.
pub fn natives()
    ensures classes { values small.classes ≡ out (text (codes "[object Function]")
        ∷ text (codes "[object Function]") ∷ text (codes "[object Function]")
        ∷ text (codes "[object Array]") ∷ text (codes "[object Object]") ∷ []) ∷ [] }
    ensures asked { values small.asked ≡ texts tree.a ∷ texts tree.b ∷ out (truth true
        ∷ truth false ∷ truth true ∷ truth true ∷ number 2 ∷ truth true ∷ number 3 ∷ number 7
        ∷ []) ∷ [] }
    ensures class_of_an_error { lines small.class_of_an_error
        ≡ out (text (codes "[object Error]") ∷ truth true ∷ truth false ∷ []) ∷ [] }
    ensures error_texts { values small.error_texts
        ≡ out (text (codes "RangeError: x") ∷ text (codes "TypeError") ∷ []) ∷ [] }
    ensures range_error { caught small.throws_a_range_error ≡ texts (codes "RangeError") ∷ [] }
    ensures steps { end_of small.joins ≡ (Ended, 11) }
    ensures deletes { lines small.reverses ≡ out (truth false ∷ number 1 ∷ []) ∷ [] }
    ensures use_alone { marks_of (run_of small.uses_alone) ≡ Entry 1 1 ∷ Used 1 1 ∷ Idle 1 ∷ [] }
{}

/// `this`, `call` and `apply`.
pub fn applications()
    ensures applied { behind small.chooses_by_this small.applied ≡ out (number 1 ∷ number 2
        ∷ number 1 ∷ number 2 ∷ shown.Undefined ∷ shown.Undefined ∷ []) ∷ [] }
    ensures this_of_a_call { lines small.this_of_a_call ≡ out (truth true ∷ []) ∷ [] }
    ensures this_of_a_caught_call { lines small.this_of_a_caught_call
        ≡ out (truth true ∷ []) ∷ [] }
    ensures list_of_an_object { caught (small.applies empty) ≡ texts (codes "TypeError") ∷ [] }
    ensures list_of_a_number { caught (small.applies one) ≡ texts (codes "TypeError") ∷ [] }
    ensures list_of_undefined { caught (small.applies nothing) ≡ [] }
    ensures no_function { caught small.applies_no_function ≡ texts (codes "TypeError") ∷ [] }
    ensures a_text { end_of small.applies_a_text ≡ (Stopped reason.Wrapper, 14) }
    ensures this_values { behind small.tests_this small.this_values
        ≡ out (truth true ∷ truth false ∷ truth true ∷ truth false ∷ []) ∷ [] }
    ensures undefined_called { caught small.calls_undefined ≡ texts (codes "TypeError") ∷ [] }
    ensures null_called { caught small.calls_null ≡ texts (codes "TypeError") ∷ [] }
    ensures no_lists { map (λ e. caught (small.applies e)) small.no_lists
        ≡ replicate 7 (texts (codes "TypeError") ∷ []) }
    ensures three { end_of small.applies_three ≡ (Ended, 15) }
    ensures with_three { end_of small.calls_with_three ≡ (Ended, 11) }
    ensures a_number { caught (small.calls_value one) ≡ texts (codes "TypeError") ∷ [] }
    ensures an_object { caught (small.calls_value empty) ≡ texts (codes "TypeError") ∷ [] }
    ensures nothing_there { caught (small.calls_value (dot (tree.name (codes "host"))
        (codes "nope"))) ≡ texts (codes "TypeError") ∷ [] }
    ensures steps_of_no_call { end_of (small.calls_value one) ≡ (Ended, 4) }
{}
