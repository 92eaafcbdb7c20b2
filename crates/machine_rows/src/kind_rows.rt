//! The steps of each kind of node (ES3 11, 12): these calls do nothing, and each says how many
//! steps small scripts take. The entry of the script takes the first one.

ghost use Rattle.std.specs.Prelude.{◌≡◌, ◌∷◌, [], map};
ghost use Rattle.machine_rows.specs.KindScripts as kind;
ghost use Rattle.js_machine.specs.Logs.{steps_of};
ghost use Rattle.machine_rows.specs.Rows.{run_of};

/// Statements, each alone.
pub fn steps_of_statements()
    ensures plain { map (λ s. steps_of (run_of (s ∷ []))) kind.plain_statements
        ≡ 2 ∷ 2 ∷ 2 ∷ 3 ∷ 1 ∷ 4 ∷ 3 ∷ [] }
    ensures loops { map (λ s. steps_of (run_of (s ∷ []))) kind.loops
        ≡ 4 ∷ 3 ∷ 3 ∷ 12 ∷ 6 ∷ [] }
    ensures others { map (λ s. steps_of (run_of (s ∷ []))) kind.other_statements
        ≡ 4 ∷ 4 ∷ 4 ∷ 5 ∷ 4 ∷ 4 ∷ 6 ∷ 4 ∷ [] }
{}

/// Expressions, each as a statement.
pub fn steps_of_expressions()
    ensures primaries { map (λ e. steps_of (run_of (kind.alone e))) kind.primaries
        ≡ 3 ∷ 3 ∷ 3 ∷ 3 ∷ 3 ∷ 3 ∷ 4 ∷ 4 ∷ 3 ∷ 4 ∷ 5 ∷ 7 ∷ 6 ∷ [] }
    ensures operations { map (λ e. steps_of (run_of (kind.behind_variables e))) kind.operations
        ≡ 8 ∷ 7 ∷ 7 ∷ 7 ∷ 7 ∷ 7 ∷ 7 ∷ 8 ∷ 8 ∷ 7 ∷ 7 ∷ 8 ∷ 8 ∷ 8 ∷ 8 ∷ [] }
{}
