//! Worked runs of scripts and pages: these calls do nothing, and each says what a run tells, how it
//! ends, and after how many steps and beats.

ghost use Rattle.std.specs.Prelude.{◌≡◌, ◌∷◌, [], codes, false, true, map};
ghost use Rattle.js_values.specs.declared.number.Num.TheVariants.{NaN};
ghost use Rattle.js_values.specs.declared.reason.Reason.TheVariants as reason;
ghost use Rattle.js_values.specs.declared.shown.Shown.TheVariants as shown;
ghost use Rattle.js_machine.specs.Logs.{OutOfSteps, Stopped, log_of, marks_of, uses_of};
ghost use Rattle.js_machine.specs.Page.{original};
ghost use Rattle.machine_rows.specs.Pages as page;
ghost use Rattle.machine_rows.specs.Rows.{ended, lines, minus, number, numbers, out, report, run_of};
ghost use Rattle.machine_rows.specs.Rows.{bare_page, of_page, text, texts, under};
ghost use Rattle.js_machine.specs.Run.{Entry, Event, Idle, Uncaught};
ghost use Rattle.js_machine.specs.Run as run;
ghost use Rattle.js_tree.specs.Tree.{Used};
ghost use Rattle.machine_rows.specs.Scripts as script;
ghost use Rattle.machine_rows.specs.Writing as tree;

/// Scripts alone.
pub fn worked_scripts()
    ensures of_nothing { report (original (tree.block [] ∷ []) bare_page 100)
        ≡ ended (Idle 0 ∷ []) 1 0 }
    ensures sums { lines script.sums
        ≡ out (number 4 ∷ minus 3 ∷ minus 2147483648 ∷ text (codes "a1") ∷ []) ∷ [] }
    ensures jumps { lines script.jumps ≡ numbers 1 ∷ [] }
    ensures chooses { lines script.chooses ≡ numbers 0 ∷ numbers 3 ∷ [] }
    ensures divides { report (run_of script.divides) ≡ record {
      marks = numbers 3 ∷ [];
      ending = Stopped reason.Fraction;
      steps = 15;
      beats = 0;
    } }
    ensures passes_the_top { report (run_of script.passes_the_top) ≡ record {
      marks = numbers 9007199254740991 ∷ [];
      ending = Stopped reason.TooLarge;
      steps = 14;
      beats = 0;
    } }
    ensures never_ends { report (under 20 script.never_ends) ≡ record {
      marks = texts (codes "t") ∷ texts (codes "t") ∷ [];
      ending = OutOfSteps;
      steps = 20;
      beats = 3;
    } }
    ensures throws { report (run_of script.throws)
        ≡ ended (Uncaught (shown.Object 1) ∷ Idle 0 ∷ []) 3 0 }
{}

/// Objects and arrays.
pub fn worked_objects()
    ensures visits_again { report (run_of script.visits_again)
        ≡ ended (out (text tree.b ∷ number 2 ∷ []) ∷ out (text tree.a ∷ number 3 ∷ [])
        ∷ Idle 2 ∷ []) 34 2 }
    ensures shortens { lines script.shortens
        ≡ out (number 4 ∷ shown.Undefined ∷ shown.Bool true ∷ []) ∷ [] }
    ensures takes_a_reserved_name { report (run_of script.takes_a_reserved_name) ≡ record {
      marks = [];
      ending = Stopped reason.ReservedName;
      steps = 10;
      beats = 0;
    } }
    ensures converts { lines script.converts ≡ out (text (codes "1-2,3") ∷ number 2 ∷ number 12
        ∷ text (codes "ff") ∷ shown.Num NaN ∷ []) ∷ [] }
    ensures enters_with_a_text { report (run_of script.enters_with_a_text) ≡ record {
      marks = [];
      ending = Stopped reason.Wrapper;
      steps = 15;
      beats = 0;
    } }
{}

/// Functions.
pub fn worked_functions()
    ensures tells_three { report (run_of (script.tells_three [])) ≡ ended (Entry 1 1
        ∷ texts (codes "one") ∷ Entry 2 2 ∷ texts (codes "two") ∷ texts (codes "three")
        ∷ Idle 2 ∷ []) 27 2 }
    ensures constructs { lines script.constructs ≡ out (number 2 ∷ number 1 ∷ [])
        ∷ out (number 1 ∷ number 3 ∷ shown.Bool true ∷ [])
        ∷ out (number 3 ∷ number 4 ∷ number 1 ∷ []) ∷ [] }
    ensures catches { lines (script.catches (tree.function 1 [] (
        tree.returns (tree.name tree.e) ∷ []))) ≡ map numbers (0 ∷ 1 ∷ 2 ∷ 0 ∷ 1 ∷ 2 ∷ []) }
    ensures replaces_functions { lines script.replaces_functions
        ≡ out (text tree.g ∷ text tree.f ∷ text (codes "n") ∷ []) ∷ [] }
    ensures knows_its_name { lines script.knows_its_name ≡ out (shown.Bool true ∷ []) ∷ [] }
    ensures keeps_scopes { lines script.keeps_scopes
        ≡ out (number 10 ∷ number 20 ∷ number 11 ∷ number 21 ∷ []) ∷ [] }
    ensures shares_arguments { report (run_of script.shares_arguments) ≡ ended (Entry 1 1
        ∷ Entry 1 2 ∷ out (number 5 ∷ shown.Undefined ∷ []) ∷ Idle 2 ∷ []) 29 2 }
    ensures returns_at_last { lines script.returns_at_last ≡ numbers 2 ∷ [] }
    ensures visits_the_global_object { lines script.visits_the_global_object
        ≡ texts tree.f ∷ texts tree.k ∷ [] }
{}

/// Pages with events.
pub fn worked_pages()
    ensures goes { report (of_page page.go_page page.goes) ≡ ended (Idle 0 ∷ Event 1
        ∷ Entry 2 1 ∷ Entry 1 2 ∷ texts tree.f ∷ []) 19 2 }
    ensures counters { marks_of (of_page page.click_page page.counters) ≡ Entry 1 1 ∷ Entry 1 2
        ∷ Idle 2 ∷ Event 1 ∷ Entry 4 3 ∷ Entry 2 5 ∷ Entry 3 6 ∷ texts (codes "n=3")
        ∷ Entry 2 8 ∷ Entry 3 9 ∷ texts (codes "n=12") ∷ Event 2 ∷ Entry 4 10 ∷ Entry 2 12
        ∷ Entry 3 13 ∷ texts (codes "n=6") ∷ Entry 2 15 ∷ Entry 3 16 ∷ texts (codes "n=15") ∷ [] }
{}

/// The log of entries, and that of `$dl_use`.
pub fn worked_logs()
    ensures of_three { log_of (marks_of (run_of (script.tells_three [])))
        ≡ (1, 1) ∷ (2, 2) ∷ [] }
    ensures of_counters { log_of (marks_of (of_page page.click_page page.counters))
        ≡ (1, 1) ∷ (4, 3) ∷ (2, 5) ∷ (3, 6) ∷ [] }
    ensures uses { uses_of (marks_of (run_of (script.tells_three (Used 2 ∷ []))))
        ≡ (2, 1) ∷ [] }
    ensures with_uses { report (run_of (script.tells_three (Used 2 ∷ []))) ≡ ended (Entry 1 1
        ∷ run.Used 2 1 ∷ texts (codes "one") ∷ Entry 2 2 ∷ texts (codes "two")
        ∷ texts (codes "three") ∷ Idle 2 ∷ []) 27 2 }
    ensures no_uses { uses_of (marks_of (run_of (script.tells_three []))) ≡ [] }
{}
