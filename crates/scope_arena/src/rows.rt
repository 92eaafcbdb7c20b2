//! Worked scopes: these calls do nothing, and each says what a definition gives.

ghost use Rattle.std.specs.Prelude.{◌≡◌, ◌∷◌, [], Some, None, codes, length, map, option_map};
ghost use Rattle.js_values.specs.declared.value.Value.TheVariants as value;
ghost use Rattle.scope_arena.specs.Rows.{a, b, f, number, four_scopes, name_scope, outer_scope};
ghost use Rattle.scope_arena.specs.Rows.{slots, three_scopes, values_at};
ghost use Rattle.scope_arena.specs.Scopes as scope;
ghost use Rattle.scope_arena.specs.Search as search;

/// Scopes that were entered one in another.
pub fn entered_scopes()
    ensures undefined { values_at (scope.entered (a ∷ b ∷ []) None []) ((0, 0) ∷ (0, 1) ∷ [])
        ≡ value.Undefined ∷ value.Undefined ∷ [] }
    ensures at_the_end { length (scope.entered (a ∷ []) (Some 1) three_scopes) ≡ 4 }
    ensures others_stay { values_at (scope.entered (a ∷ []) (Some 1) three_scopes) slots
        ≡ number 1 ∷ number 2 ∷ number 3 ∷ number 4 ∷ value.Undefined ∷ value.Undefined ∷ [] }
    ensures parents { map (scope.parent_of four_scopes) (0 ∷ 1 ∷ 2 ∷ 3 ∷ 4 ∷ [])
        ≡ None ∷ Some 0 ∷ Some 1 ∷ Some 1 ∷ None ∷ [] }
    ensures chains { map (scope.chain_of four_scopes) (0 ∷ 1 ∷ 2 ∷ 3 ∷ [])
        ≡ (0 ∷ []) ∷ (1 ∷ 0 ∷ []) ∷ (2 ∷ 1 ∷ 0 ∷ []) ∷ (3 ∷ 1 ∷ 0 ∷ []) ∷ [] }
    ensures ancestors { map (scope.scope_up four_scopes 3) (0 ∷ 1 ∷ 2 ∷ 3 ∷ [])
        ≡ Some 3 ∷ Some 1 ∷ Some 0 ∷ None ∷ [] }
{}

/// Values by their slots.
pub fn read_values()
    ensures of_all { values_at four_scopes slots
        ≡ number 1 ∷ number 2 ∷ number 3 ∷ number 4 ∷ number 5 ∷ number 6 ∷ [] }
    ensures no_slot { scope.value_at four_scopes 0 2 ≡ value.Undefined }
    ensures no_scope { scope.value_at four_scopes 4 0 ≡ value.Undefined }
{}

/// Writes, and fixed scopes.
pub fn changed_values()
    ensures one_alone { values_at (scope.written_at 0 1 (number 9) four_scopes) slots
        ≡ number 1 ∷ number 9 ∷ number 3 ∷ number 4 ∷ number 5 ∷ number 6 ∷ [] }
    ensures fixed { scope.written_at 1 0 (number 9) four_scopes ≡ four_scopes }
    ensures no_slot { scope.written_at 0 2 (number 9) four_scopes ≡ four_scopes }
    ensures no_scope { scope.written_at 4 0 (number 9) four_scopes ≡ four_scopes }
    ensures fixing_keeps_values { values_at (scope.fixed_at 0 four_scopes) slots
        ≡ values_at four_scopes slots }
    ensures fixed_later { values_at (scope.written_at 0 0 (number 9) (scope.fixed_at 0 outer_scope))
        ((0, 0) ∷ []) ≡ number 1 ∷ [] }
    ensures other_fixed { values_at (scope.written_at 2 0 (number 9) three_scopes) ((2, 0) ∷ [])
        ≡ number 9 ∷ [] }
{}

/// The search of a name, and reads and writes by name.
pub fn found_names()
    ensures innermost { search.find_from four_scopes 2 b
        ≡ Some (record { up = 0; scope = 2; slot = 0 }) }
    ensures further_out { search.find_from four_scopes 3 b
        ≡ Some (record { up = 2; scope = 0; slot = 1 }) }
    ensures in_between { search.find_from four_scopes 2 f
        ≡ Some (record { up = 1; scope = 1; slot = 0 }) }
    ensures first_of_two { search.find_from four_scopes 3 a
        ≡ Some (record { up = 0; scope = 3; slot = 0 }) }
    ensures nowhere { search.find_from four_scopes 3 (codes "ab") ≡ None }
    ensures not_inwards { search.find_from four_scopes 0 f ≡ None }
    ensures not_beside { search.find_from four_scopes 2 a
        ≡ Some (record { up = 2; scope = 0; slot = 0 }) }
    ensures along_nothing { search.find four_scopes [] a ≡ None }
    ensures read { map (search.value_of_name four_scopes (2 ∷ 1 ∷ 0 ∷ [])) (a ∷ b ∷ f ∷ [])
        ≡ Some (number 1) ∷ Some (number 4) ∷ Some (number 3) ∷ [] }
    ensures read_nowhere { search.value_of_name four_scopes (2 ∷ 1 ∷ 0 ∷ []) (codes "c") ≡ None }
    ensures write { option_map (λ scopes. values_at scopes slots)
        (search.with_name four_scopes (3 ∷ 1 ∷ 0 ∷ []) b (number 9))
        ≡ Some (number 1 ∷ number 9 ∷ number 3 ∷ number 4 ∷ number 5 ∷ number 6 ∷ []) }
    ensures write_fixed { search.with_name four_scopes (3 ∷ 1 ∷ 0 ∷ []) f (number 9)
        ≡ Some four_scopes }
    ensures write_nowhere { search.with_name four_scopes (3 ∷ 1 ∷ 0 ∷ []) (codes "c") (number 9)
        ≡ None }
    ensures write_before_fixing { values_at name_scope ((1, 0) ∷ []) ≡ number 3 ∷ [] }
{}
