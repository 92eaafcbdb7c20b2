//! Worked runs of written scripts, in both forms: these calls do nothing, and each says what a run
//! tells, how it ends, and after how many steps and beats.

ghost use Rattle.std.specs.Prelude.{◌≡◌, ◌∷◌, [], codes, true, map, None, Some};
ghost use Rattle.js_values.specs.declared.shown.Shown.TheVariants as shown;
ghost use Rattle.js_machine.specs.Logs.{NoEntry};
ghost use Rattle.js_tree.specs.Tree.{Empty};
ghost use Rattle.js_machine.specs.Page.{written};
ghost use Rattle.machine_rows.specs.Pages as page;
ghost use Rattle.machine_rows.specs.Rows.{ample, ended, number, numbers, out, report, text, texts};
ghost use Rattle.js_machine.specs.Run.{Entry, Event, Idle, Need};
ghost use Rattle.machine_rows.specs.Scripts as script;
ghost use Rattle.machine_rows.specs.WrittenScripts as form;
ghost use Rattle.machine_rows.specs.WrittenScripts.{written_lines, written_run};
ghost use Rattle.machine_rows.specs.Writing as tree;

/// Marks and steps of written scripts. A late function that is needed has no beat and no entry of
/// its own.
pub fn written_runs()
    ensures first_form { report (written_run form.tells_two form.tells_three_first)
        ≡ ended (Entry 1 1 ∷ texts (codes "one") ∷ Entry 2 2 ∷ Need 2 ∷ texts (codes "two")
        ∷ texts (codes "three") ∷ Idle 2 ∷ []) 35 2 }
    ensures second_form { report (written_run form.tells_two form.tells_three_second)
        ≡ ended (Entry 1 1 ∷ texts (codes "one") ∷ Entry 2 2 ∷ Need 2 ∷ texts (codes "two")
        ∷ texts (codes "three") ∷ Idle 2 ∷ []) 43 2 }
    ensures of_listeners { report (written form.goes_entries (tree.block form.goes ∷ [])
        page.go_page ample) ≡ ended (Idle 0 ∷ Event 1 ∷ Entry 2 1 ∷ Need 2 ∷ Entry 1 2 ∷ Need 1
        ∷ texts tree.f ∷ []) 37 2 }
    ensures without_entries { report (written_run [] form.tells_three_first) ≡ record {
      marks = Entry 1 1 ∷ texts (codes "one") ∷ Entry 2 2 ∷ Need 2 ∷ [];
      ending = NoEntry;
      steps = 19;
      beats = 2;
    } }
{}

/// What the host sees of them.
pub fn written_calls()
    ensures constructs { written_lines form.constructs_entries form.constructs
        ≡ out (number 2 ∷ number 1 ∷ []) ∷ out (number 1 ∷ number 3 ∷ shown.Bool true ∷ [])
        ∷ out (number 3 ∷ number 4 ∷ number 1 ∷ []) ∷ [] }
    ensures catches_first { written_lines form.catches_entries
        (script.catches (form.first_stub 1 None []))
        ≡ map numbers (0 ∷ 1 ∷ 2 ∷ 0 ∷ 1 ∷ 2 ∷ []) }
    ensures catches_second { written_lines form.catches_entries
        (script.catches (form.second_stub 1 None []))
        ≡ map numbers (0 ∷ 1 ∷ 2 ∷ 0 ∷ 1 ∷ 2 ∷ []) }
    ensures replaces_first { written_lines form.replaces_entries form.replaces_first
        ≡ out (text tree.g ∷ text tree.f ∷ text (codes "n") ∷ []) ∷ [] }
    ensures replaces_second { written_lines form.replaces_entries form.replaces_second
        ≡ out (text tree.g ∷ text tree.f ∷ text (codes "n") ∷ []) ∷ [] }
    ensures knows_first { written_lines form.knows_its_name_entries
        (form.knows_its_name_with (form.first_stub 1 (Some (codes "h")) form.named_formals))
        ≡ out (shown.Bool true ∷ []) ∷ [] }
    ensures knows_second { written_lines form.knows_its_name_entries
        (form.knows_its_name_with (form.second_stub 1 (Some (codes "h")) form.named_formals))
        ≡ out (shown.Bool true ∷ []) ∷ [] }
    ensures keeps_first { written_lines (form.keeps_scopes_entries form.first_stub)
        (form.keeps_scopes_with Empty (form.first_form 1))
        ≡ out (number 10 ∷ number 20 ∷ number 11 ∷ number 21 ∷ []) ∷ [] }
    ensures keeps_second { written_lines (form.keeps_scopes_entries form.second_stub)
        (form.keeps_scopes_with (form.cells (1 ∷ [])) (form.second_form 1))
        ≡ out (number 10 ∷ number 20 ∷ number 11 ∷ number 21 ∷ []) ∷ [] }
    ensures shares_first { written_lines form.shares_entries
        (form.shares_with Empty (form.first_form 1))
        ≡ out (number 5 ∷ shown.Undefined ∷ []) ∷ [] }
    ensures shares_second { written_lines form.shares_entries
        (form.shares_with (form.cells (1 ∷ [])) (form.second_form 1))
        ≡ out (number 5 ∷ shown.Undefined ∷ []) ∷ [] }
    ensures returns_first { written_lines form.returns_entries
        (form.returns_with Empty (form.first_form 1)) ≡ numbers 2 ∷ [] }
    ensures returns_second { written_lines form.returns_entries
        (form.returns_with (form.cells (1 ∷ [])) (form.second_form 1)) ≡ numbers 2 ∷ [] }
    ensures visits_second { written_lines form.visits_entries form.visits_the_global_object
        ≡ texts tree.f ∷ texts tree.k ∷ [] }
{}
