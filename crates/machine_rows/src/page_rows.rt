//! Worked pages and stops: these calls do nothing, and each says what a run tells, and how it ends.

ghost use Rattle.std.specs.Prelude.{◌≡◌, ◌∷◌, [], codes, map, replicate, true, false};
ghost use Rattle.js_values.specs.declared.reason.Reason.TheVariants as reason;
ghost use Rattle.js_values.specs.declared.shown.Shown.TheVariants as shown;
ghost use Rattle.js_machine.specs.Logs.{Ended, OutOfSteps, Stopped, beats_of, ending_of, marks_of};
ghost use Rattle.machine_rows.specs.ExpressionScripts.{empty};
ghost use Rattle.js_machine.specs.Page.{original};
ghost use Rattle.js_tree.specs.Tree.{Throw};
ghost use Rattle.machine_rows.specs.PageScripts as small;
ghost use Rattle.machine_rows.specs.PageScripts.{stops};
ghost use Rattle.machine_rows.specs.Pages as pages;
ghost use Rattle.machine_rows.specs.Rows.{ample, caught, end_of, ended, lines, number, numbers, out};
ghost use Rattle.machine_rows.specs.Rows.{of_page, page, report, run_of, text, texts, truth};
ghost use Rattle.js_machine.specs.Run.{Call, Entry, Event, Idle, Uncaught};
ghost use Rattle.machine_rows.specs.Writing as tree;

/// Replies, events and listeners.
pub fn events()
    ensures replies { marks_of (of_page small.page small.asks) ≡ Call (codes "ask") (number 1 ∷ [])
        ∷ Call (codes "ask") [] ∷ Call (codes "ask") (number 2 ∷ [])
        ∷ out (number 7 ∷ text tree.x ∷ shown.Undefined ∷ []) ∷ Idle 0 ∷ Event 1 ∷ Event 2
        ∷ Event 3 ∷ [] }
    ensures replies_by_names { marks_of (of_page small.page small.asks_later) ≡ numbers 1
        ∷ Call (codes "ask") [] ∷ numbers 7 ∷ Idle 0 ∷ Event 1 ∷ Event 2 ∷ Event 3 ∷ [] }
    ensures listeners { marks_of (of_page small.page small.listening) ≡ Idle 0 ∷ Event 1
        ∷ Entry 1 1 ∷ out (text tree.a ∷ number 1 ∷ truth true ∷ []) ∷ Event 2 ∷ Entry 2 2
        ∷ Uncaught (shown.Object 1) ∷ Entry 3 3
        ∷ out (text tree.b ∷ shown.Null ∷ truth true ∷ []) ∷ Event 3 ∷ Entry 1 4
        ∷ out (text tree.a ∷ text tree.x ∷ truth true ∷ []) ∷ [] }
    ensures late { marks_of (of_page small.page small.registers_late) ≡ Idle 0 ∷ Event 1
        ∷ Entry 1 1 ∷ texts tree.x ∷ Event 2 ∷ Event 3 ∷ Entry 1 2 ∷ texts tree.x ∷ Entry 2 3
        ∷ texts tree.k ∷ [] }
    ensures answer { lines small.registers ≡ out (shown.Undefined ∷ []) ∷ [] }
    ensures no_function { caught small.registers_no_function
        ≡ texts tree.k ∷ texts (codes "TypeError") ∷ [] }
    ensures hidden { lines small.visits_host ≡ texts tree.x ∷ [] }
    ensures changes_host { lines small.changes_host ≡ out (number 1 ∷ truth true ∷ [])
        ∷ out (text (codes "undefined") ∷ truth true ∷ truth true ∷ []) ∷ [] }
    ensures steps_run_out { report (original (tree.block pages.goes ∷ []) pages.go_page 12)
        ≡ record {
          marks = Idle 0 ∷ Event 1 ∷ Entry 2 1 ∷ [];
          ending = OutOfSteps;
          steps = 12;
          beats = 1;
        } }
    ensures steps_suffice { report (original (tree.block pages.goes ∷ []) pages.go_page 19)
        ≡ ended (Idle 0 ∷ Event 1 ∷ Entry 2 1 ∷ Entry 1 2 ∷ texts tree.f ∷ []) 19 2 }
{}

/// Scripts one after another, what is not caught, and ranks.
pub fn scripts()
    ensures throws { marks_of (original (tree.block small.throws_one ∷ tree.block (tree.shows
        (tree.text tree.k ∷ []) ∷ []) ∷ []) page ample)
        ≡ Uncaught (number 1) ∷ texts tree.k ∷ Idle 0 ∷ [] }
    ensures ranks_of_thrown { marks_of (original (tree.block small.throws_first
        ∷ tree.block small.shows_then ∷ []) page ample) ≡ Uncaught (shown.Object 1)
        ∷ out (shown.Object 2 ∷ shown.Object 1 ∷ []) ∷ Idle 0 ∷ [] }
    ensures ranks { marks_of (original (tree.block small.passes_objects
        ∷ tree.block (Throw empty ∷ []) ∷ []) page ample)
        ≡ out (shown.Object 1 ∷ shown.Object 2 ∷ shown.Object 1 ∷ [])
        ∷ Uncaught (shown.Object 1) ∷ Uncaught (shown.Object 3) ∷ Idle 0 ∷ [] }
{}

/// Stops, which no `finally` sees.
pub fn stopped_runs()
    ensures fraction { end_of (stops small.fraction) ≡ (Stopped reason.Fraction, 7) }
    ensures seen_by_none { lines (stops small.fraction) ≡ [] }
    ensures too_large { map (λ e. ending_of (run_of (stops e))) small.too_large
        ≡ replicate 4 (Stopped reason.TooLarge) }
    ensures infinite { map (λ e. ending_of (run_of (stops e))) small.infinite
        ≡ replicate 2 (Stopped reason.Infinite) }
    ensures number_text { map (λ e. ending_of (run_of (stops e))) small.number_texts
        ≡ replicate 5 (Stopped reason.NumberText) }
    ensures function_text { end_of (stops small.function_text)
        ≡ (Stopped reason.FunctionText, 10) }
    ensures wrapper { map (λ e. ending_of (run_of (stops e))) small.wrappers
        ≡ replicate 5 (Stopped reason.Wrapper) }
    ensures script_function_text { ending_of (run_of (stops small.script_function_text))
        ≡ Stopped reason.FunctionText }
    ensures applied_primitives { map (λ e. ending_of (run_of (stops e)))
        small.applied_primitives ≡ replicate 3 (Stopped reason.Wrapper) }
    ensures before_the_beat { report (run_of small.enters_with_text) ≡ record {
      marks = Entry 1 1 ∷ [];
      ending = Stopped reason.Wrapper;
      steps = 12;
      beats = 1;
    } }
    ensures reserved_name { map (λ e. ending_of (run_of (stops e))) small.reserved_names
        ≡ replicate 4 (Stopped reason.ReservedName) }
    ensures not_reserved { ending_of (run_of (stops small.not_reserved)) ≡ Ended }
    ensures of_null { caught (tree.does small.reserved_of_null ∷ [])
        ≡ texts (codes "TypeError") ∷ [] }
    ensures in_an_event { report (of_page small.page small.stops_in_an_event) ≡ record {
      marks = Idle 0 ∷ Event 1 ∷ Entry 1 1 ∷ [];
      ending = Stopped reason.Fraction;
      steps = 20;
      beats = 1;
    } }
{}
