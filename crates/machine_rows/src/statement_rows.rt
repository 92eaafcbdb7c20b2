//! Worked statements (ES3 12): these calls do nothing, and each says what the host sees, or how a
//! run ends.

ghost use Rattle.std.specs.Prelude.{◌≡◌, ◌∷◌, [], codes, map};
ghost use Rattle.js_values.specs.declared.reason.Reason.TheVariants as reason;
ghost use Rattle.js_values.specs.declared.shown.Shown.TheVariants as shown;
ghost use Rattle.machine_rows.specs.ExpressionScripts.{empty, one};
ghost use Rattle.js_machine.specs.Logs.{Ended, Stopped, beats_of};
ghost use Rattle.machine_rows.specs.Rows.{caught, end_of, lines, number, numbers, out, run_of, text};
ghost use Rattle.machine_rows.specs.Rows.{texts};
ghost use Rattle.machine_rows.specs.StatementScripts as small;
ghost use Rattle.machine_rows.specs.Writing as tree;

/// Blocks, variables and conditions.
pub fn plain_statements()
    ensures blocks { lines small.blocks_and_variables ≡ texts tree.a ∷ texts tree.b
        ∷ out (number 1 ∷ shown.Undefined ∷ []) ∷ [] }
    ensures steps_of_blocks { end_of small.blocks_and_variables ≡ (Ended, 25) }
    ensures conditions { lines small.conditions ≡ texts tree.b ∷ texts tree.x ∷ [] }
{}

/// Loops with tests, and their turns.
pub fn loops()
    ensures once { lines small.does_once ≡ texts tree.x ∷ [] }
    ensures steps_of_once { end_of small.does_once ≡ (Ended, 10) }
    ensures does_on { lines small.does_on ≡ numbers 1 ∷ numbers 3 ∷ [] }
    ensures turns_of_does_on { beats_of (run_of small.does_on) ≡ 3 }
    ensures goes_on { lines small.goes_on ≡ numbers 1 ∷ numbers 3 ∷ texts tree.x ∷ [] }
    ensures turns_of_goes_on { beats_of (run_of small.goes_on) ≡ 4 }
    ensures no_parts { lines small.has_no_parts ≡ numbers 2 ∷ [] }
    ensures all_parts { lines small.has_all_parts ≡ texts tree.a ∷ texts tree.b ∷ [] }
    ensures turns_of_all_parts { beats_of (run_of small.has_all_parts) ≡ 0 }
    ensures updates { lines small.updates ≡ numbers 1 ∷ [] }
    ensures turns_of_updates { beats_of (run_of small.updates) ≡ 2 }
{}

/// The names that a `for-in` visits.
pub fn visits()
    ensures changes { lines small.changes_while_visited ≡ texts tree.a ∷ texts tree.k ∷ [] }
    ensures turns_of_changes { beats_of (run_of small.changes_while_visited) ≡ 2 }
    ensures prototypes { lines small.visits_prototypes
        ≡ texts tree.a ∷ texts tree.x ∷ texts tree.b ∷ [] }
    ensures of_a_text { lines small.visits_a_text ≡ texts tree.x ∷ [] }
    ensures of_null { caught small.visits_null ≡ texts (codes "TypeError") ∷ [] }
    ensures of_undefined { caught small.visits_undefined ≡ texts (codes "TypeError") ∷ [] }
    ensures of_primitives { lines small.visits_primitives ≡ texts tree.x ∷ texts tree.b ∷ [] }
    ensures goes_on { lines small.goes_on_with_visits ≡ texts tree.a ∷ texts tree.b ∷ [] }
    ensures begins { lines small.begins_a_visit
        ≡ texts tree.a ∷ texts tree.b ∷ out (shown.Undefined ∷ []) ∷ [] }
    ensures into_a_property { lines small.visits_into_a_property
        ≡ texts tree.k ∷ texts tree.a ∷ texts tree.k ∷ texts tree.b ∷ [] }
    ensures jumps { lines small.jumps_in_a_visit ≡ texts tree.b ∷ [] }
    ensures of_an_error { lines small.visits_an_error ≡ texts (codes "message") ∷ [] }
{}

/// `return`, `switch` and labels.
pub fn jumps()
    ensures returns { lines small.returns_from_a_loop
        ≡ out (number 1 ∷ shown.Undefined ∷ []) ∷ [] }
    ensures first_case { lines (small.switches one) ≡ numbers 1 ∷ numbers 0 ∷ [] }
    ensures later_case { lines (small.switches (tree.text (codes "1"))) ≡ numbers 2 ∷ [] }
    ensures default_case { lines (small.switches empty) ≡ numbers 0 ∷ [] }
    ensures tests_in_order { lines small.tests_in_order ≡ texts tree.a ∷ texts tree.b ∷ [] }
    ensures no_case { lines small.chooses_none ≡ [] }
    ensures leaves_a_switch { lines small.leaves_a_switch ≡ numbers 0 ∷ numbers 2 ∷ [] }
    ensures leaves_labels { lines small.leaves_labels ≡ texts tree.a ∷ texts tree.x ∷ [] }
    ensures leaves_the_loop { lines small.leaves_the_loop ≡ [] }
    ensures outside { lines (small.goes_on_outside tree.a) ≡ numbers 0 ∷ numbers 1 ∷ [] }
    ensures outside_by_the_other { lines (small.goes_on_outside tree.b)
        ≡ numbers 0 ∷ numbers 1 ∷ [] }
{}

/// `throw` and `try`.
pub fn exceptions()
    ensures in_a_scope { lines small.catches_in_a_scope
        ≡ numbers 2 ∷ out (number 1 ∷ number 3 ∷ []) ∷ [] }
    ensures finishes { lines small.finishes_and_catches
        ≡ texts tree.a ∷ numbers 1 ∷ texts tree.b ∷ [] }
    ensures from_a_catch { lines small.throws_from_a_catch ≡ texts tree.a ∷ numbers 2 ∷ [] }
    ensures leaves { lines small.leaves_by_finally ≡ texts tree.x ∷ [] }
    ensures goes_on { lines small.goes_on_through_finally ≡ numbers 0 ∷ numbers 1 ∷ [] }
    ensures stops { lines small.stops_in_a_try ≡ [] }
    ensures end_of_stops { end_of small.stops_in_a_try ≡ (Stopped reason.Fraction, 7) }
{}
