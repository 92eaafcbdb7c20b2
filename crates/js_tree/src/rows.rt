//! Small trees: these calls do nothing, and each says what is defined on trees, computed on one of
//! each kind of node.

ghost use Rattle.std.specs.Prelude.{◌≡◌, [], ◌∷◌, map};
ghost use Rattle.js_tree.specs.Plain.{case_level, expr_level, for_init_level, for_target_level};
ghost use Rattle.js_tree.specs.Plain.{func_level, pair_level, stmt_level, var_item_level};
ghost use Rattle.js_tree.specs.PlainRows as row;
ghost use Rattle.js_tree.specs.Numbering.{IsNumbered};
ghost use Rattle.js_tree.specs.Renumbering.{Alike, counted, expr as renumbered_expr, renumbered};
ghost use Rattle.js_tree.specs.Renumbering.{stmt as renumbered_stmt};
ghost use Rattle.js_tree.specs.TreeRows as small;

/// The plain tree of a node is that of its kind, with the plain trees of its parts in their places.
pub fn plain_nodes()
    ensures of_expressions { map expr_level row.expressions ≡ row.plain_expressions }
    ensures of_statements { map stmt_level row.statements ≡ row.plain_statements }
    ensures of_first_parts { map for_init_level row.first_parts ≡ row.plain_first_parts }
    ensures of_targets { map for_target_level row.targets ≡ row.plain_targets }
    ensures of_a_clause { case_level row.open_clause ≡ row.clause }
    ensures of_a_default { case_level row.open_default ≡ row.default_clause }
    ensures of_a_function { func_level row.open_code ≡ row.plain_code }
    ensures of_a_pair { pair_level row.open_pair ≡ row.plain_pair }
    ensures of_an_item { var_item_level row.open_item ≡ row.item }
    ensures of_a_bare_item { var_item_level row.open_bare_item ≡ row.bare_item }
{}

/// The functions in a tree stand in the order of the text, each before those in it.
pub fn functions_in_trees()
    ensures in_leaves { map small.numbers_in small.leaves ≡ small.no_numbers 7 }
    ensures in_expressions { map small.numbers_in
        (small.expressions (small.function 1) (small.function 2) (small.function 3))
        ≡ small.expression_numbers }
    ensures in_bare_statements { map small.statement_numbers small.bare_statements
        ≡ small.no_numbers 7 }
    ensures in_statements { map small.statement_numbers
        (small.statements
        (small.function 1) (small.function 2) (small.function 3) (small.function 4))
        ≡ small.numbers_of_statements }
    ensures of_a_function { small.numbers_in small.nested ≡ 7 ∷ 8 ∷ 9 ∷ [] }
{}

/// The functions of all scripts have the numbers from 1 on, in order.
pub fn numbered_scripts()
    ensures none { IsNumbered [] }
    ensures one { IsNumbered (small.script_of 1 ∷ []) }
    ensures over_scripts { IsNumbered
        (small.script_of 1 ∷ small.script_of 2 ∷ small.script_of 3 ∷ []) }
    ensures not_from_zero { IsNumbered (small.script_of 0 ∷ []) → ⊥ }
    ensures not_from_two { IsNumbered (small.script_of 2 ∷ []) → ⊥ }
    ensures no_number_twice { IsNumbered (small.script_of 1 ∷ small.script_of 1 ∷ []) → ⊥ }
    ensures no_number_left_out { IsNumbered (small.script_of 1 ∷ small.script_of 3 ∷ []) → ⊥ }
    ensures not_in_another_order { IsNumbered (small.script_of 2 ∷ small.script_of 1 ∷ []) → ⊥ }
{}

/// Functions get the numbers 1, 2, .. in the order of the text, whatever numbers they had.
pub fn renumbered_trees()
    ensures two_scripts { renumbered 1 (small.script_of 7 ∷ small.script_of 7 ∷ [])
        ≡ small.script_of 1 ∷ small.script_of 2 ∷ [] }
    ensures from_another { renumbered 4 (small.script_of 1 ∷ []) ≡ small.script_of 4 ∷ [] }
    ensures in_one_another { renumbered_expr counted 1 (small.nested_with 7 8 9)
        ≡ small.nested_with 1 2 3 }
    ensures in_leaves { map (renumbered_expr counted 1) small.leaves ≡ small.leaves }
    ensures in_expressions { map (renumbered_expr counted 1) (small.expressions_from 9 9 9)
        ≡ small.expressions_from 1 2 3 }
    ensures in_bare_statements { map (renumbered_stmt counted 1) small.bare_statements
        ≡ small.bare_statements }
    ensures in_statements { map (renumbered_stmt counted 1) (small.statements_from 9 9 9 9)
        ≡ small.statements_from 1 2 3 4 }
    ensures alike { Alike (small.script_of 1 ∷ []) (small.script_of 2 ∷ []) }
    ensures not_alike { Alike (small.script_of 1 ∷ []) [] → ⊥ }
{}
