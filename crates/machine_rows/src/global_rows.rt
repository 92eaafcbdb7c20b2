//! What scripts do with names, which are properties of the global object (ES3 10.1.3, 10.1.4), and
//! operators on one value (11.3, 11.4): these calls do nothing.

ghost use Rattle.std.specs.Prelude.{◌≡◌, ◌∷◌, [], ◌++◌, codes, length, map, replicate};
ghost use Rattle.std.specs.Prelude.{Some, None, Ok, Err, true, false};
ghost use Rattle.js_tree.specs.declared.tree.PostfixOp.TheVariants as postfix;
ghost use Rattle.js_tree.specs.declared.tree.PrefixOp.TheVariants as prefix;
ghost use Rattle.js_tree.specs.Tree.{AnExpr, MoreVarItems, NoExpr, NoVarItems};
ghost use Rattle.js_values.specs.declared.number.Num.TheVariants.{NaN};
ghost use Rattle.js_values.specs.declared.reason.Reason.TheVariants as reason;
ghost use Rattle.object_heap.specs.declared.object.Class.TheVariants as class;
ghost use Rattle.object_heap.specs.Arrays.{no_attributes};
ghost use Rattle.object_heap.specs.Changes.{defined, hidden_and_fixed};
ghost use Rattle.object_heap.specs.Objects.{Holds, prototype_of};
ghost use Rattle.object_heap.specs.Start.{heap_at_start};
ghost use Rattle.js_machine.specs.Asks.{Gives};
ghost use Rattle.js_machine.specs.Frames.{done, gives};
ghost use Rattle.js_machine.specs.Globals.{change_of, changed_from, changing, host_body};
ghost use Rattle.js_machine.specs.Globals.{initialised};
ghost use Rattle.js_machine.specs.Globals.{is_callable, is_callable_by, is_initialised, name_in};
ghost use Rattle.js_machine.specs.Globals.{no_names, prefix_of, stored, type_told, unary, unary_of};
ghost use Rattle.js_machine.specs.Globals.{value_of_global, with_variables};
ghost use Rattle.js_machine.specs.Logs.{Stopped, ending_of, last_state};
ghost use Rattle.js_machine.specs.Rest.{thrown};
ghost use Rattle.js_machine.specs.State.{OfHost};
ghost use Rattle.js_machine.specs.Unary.{one};
ghost use Rattle.machine_rows.specs.Alone.{fixed, global, hosts, more_objects, names_of};
ghost use Rattle.machine_rows.specs.Alone.{outcome_of};
ghost use Rattle.machine_rows.specs.Alone.{outcomes, own_attributes, own_slot, run_in, told};
ghost use Rattle.machine_rows.specs.Alone.{with_x};
ghost use Rattle.machine_rows.specs.Nodes as node;
ghost use Rattle.machine_rows.specs.Operands.{changes, changes_from, operands};
ghost use Rattle.machine_rows.specs.Samples.{minus, minus_number, nan, no, nothing, null, object};
ghost use Rattle.machine_rows.specs.Samples.{of, stops, text, whole, whole_number, yes};
ghost use Rattle.machine_rows.specs.Writing as tree;

/// Names, and what they are bound to (ES3 10.1.4, 11.1.2).
pub fn names_of_globals()
    ensures names { map name_in node.expressions
        ≡ replicate 5 None ++ Some tree.x ∷ replicate 16 None }
    ensures bound { map (value_of_global heap_at_start) (codes "NaN" ∷ codes "undefined"
        ∷ codes "Math" ∷ codes "host" ∷ []) ≡ map Some (nan ∷ nothing ∷ object 10 ∷ object 11
        ∷ []) }
    ensures unbound { value_of_global heap_at_start tree.x ≡ None }
    ensures inherited { value_of_global heap_at_start tree.to_string ≡ Some (object 24) }
    ensures own_first { value_of_global (defined global tree.to_string
        (whole 7) fixed heap_at_start) tree.to_string ≡ Some (whole 7) }
    ensures variable { value_of_global (with_x (whole 5)) tree.x ≡ Some (whole 5) }
    ensures of_undefined { value_of_global (with_x nothing) tree.x ≡ Some nothing }
    ensures one_scope { length no_names ≡ 1 }
    ensures writes { told (run_in (with_x (whole 9)) (stored (Some tree.x) (whole 5) (whole 6)))
        ≡ (Some (Gives (whole 6)), Some (whole 5)) }
    ensures makes { told (run_in heap_at_start (stored (Some tree.x) (whole 5) (whole 6)))
        ≡ (Some (Gives (whole 6)), Some (whole 5)) }
    ensures makes_plainly { own_attributes (last_state (run_in heap_at_start
        (stored (Some tree.x) (whole 5) (whole 5)))).heap global tree.x ≡ Some no_attributes }
    ensures no_name { told (run_in (with_x (whole 9)) (stored None (whole 5) (whole 6)))
        ≡ (Some (Gives (whole 6)), Some (whole 9)) }
{}

/// `++` and `--` of names (ES3 11.3.1, 11.3.2, 11.4.4, 11.4.5): the value before or behind is
/// given, as a number.
pub fn changes_of_names()
    ensures numbers { map (λ op. map (λ n. change_of op n one) (whole_number 5 ∷ whole_number 0
        ∷ NaN ∷ whole_number 9007199254740991 ∷ minus_number 9007199254740991 ∷ []))
        (postfix.Increment ∷ postfix.Decrement ∷ []) ≡ (Ok (whole_number 6) ∷ Ok (whole_number 1)
        ∷ Ok NaN ∷ Err reason.TooLarge ∷ Ok (minus_number 9007199254740990) ∷ []) ∷ (Ok
        (whole_number 4) ∷ Ok (minus_number 1) ∷ Ok NaN ∷ Ok (whole_number 9007199254740990)
        ∷ Err reason.TooLarge ∷ []) ∷ [] }
    ensures prefixes { map prefix_of (postfix.Increment ∷ postfix.Decrement ∷ [])
        ≡ prefix.Increment ∷ prefix.Decrement ∷ [] }
    ensures of_number { changes (with_x (whole 5)) ≡ (Some (Gives (whole 6)), Some (whole 6))
        ∷ (Some (Gives (whole 5)), Some (whole 6)) ∷ (Some (Gives (whole 4)), Some (whole 4))
        ∷ (Some (Gives (whole 5)), Some (whole 4)) ∷ [] }
    ensures of_text { changes (with_x (text (codes "7"))) ≡ (Some (Gives (whole 8)), Some (whole 8))
        ∷ (Some (Gives (whole 7)), Some (whole 8)) ∷ (Some (Gives (whole 6)), Some (whole 6))
        ∷ (Some (Gives (whole 7)), Some (whole 6)) ∷ [] }
    ensures of_undefined { changes (with_x nothing) ≡ replicate 4 (Some (Gives nan), Some nan) }
    ensures of_object { changes (with_x (object 2)) ≡ (Some (Gives (whole 1)), Some (whole 1))
        ∷ (Some (Gives (whole 0)), Some (whole 1)) ∷ (Some (Gives (minus 1)), Some (minus 1))
        ∷ (Some (Gives (whole 0)), Some (minus 1)) ∷ [] }
    ensures of_unbound { changes heap_at_start ≡ replicate 4 (Some (thrown (object 65)), None) }
    ensures reference_error { prototype_of (last_state (run_in heap_at_start
        (changing postfix.Increment true (Some tree.x)))).heap 65 ≡ Some 8 }
    ensures too_large { ending_of (run_in (with_x (whole 9007199254740991))
        (changing postfix.Increment true (Some tree.x))) ≡ Stopped reason.TooLarge }
    ensures stays { told (run_in (with_x (whole 9007199254740991))
        (changing postfix.Increment true (Some tree.x))) ≡ (None, Some (whole 9007199254740991)) }
    ensures no_name { changing postfix.Increment true None ≡ done }
    ensures from_number { changes_from (whole_number 5) (with_x (whole 9))
        ≡ (Some (Gives (whole 6)), Some (whole 6)) ∷ (Some (Gives (whole 5)), Some (whole 6))
        ∷ (Some (Gives (whole 4)), Some (whole 4)) ∷ (Some (Gives (whole 5)), Some (whole 4)) ∷ [] }
    ensures from_no_name { map (λ b. told (run_in (with_x (whole 9))
        (changed_from postfix.Increment b None (whole_number 5)))) (true ∷ false ∷ []) ≡ (
          Some
              (Gives (whole 6)),
          Some (whole 9),
        ) ∷ (Some (Gives (whole 5)), Some (whole 9)) ∷ [] }
    ensures from_too_large { ending_of (run_in (with_x (whole 9))
        (changed_from postfix.Decrement true (Some tree.x) (minus_number 9007199254740991)))
        ≡ Stopped reason.TooLarge }
{}

/// Operators on one value (ES3 11.4): of 5, "3", the empty text, "a", " 0x1F ", undefined, null,
/// true, NaN and an array, and of a text that stops.
pub fn operators_on_one_value()
    ensures minus_sign { map (unary_of prefix.Minus) operands
        ≡ map of (minus 5 ∷ minus 3 ∷ whole 0 ∷ nan ∷ minus 31 ∷ nan ∷ whole 0 ∷ minus 1 ∷ nan ∷ [])
        ++ None ∷ stops reason.NumberText ∷ [] }
    ensures plus_sign { map (unary_of prefix.Plus) operands
        ≡ map of (whole 5 ∷ whole 3 ∷ whole 0 ∷ nan ∷ whole 31 ∷ nan ∷ whole 0 ∷ whole 1 ∷ nan ∷ [])
        ++ None ∷ stops reason.NumberText ∷ [] }
    ensures complement { map (unary_of prefix.BitNot) operands
        ≡ map of (minus 6 ∷ minus 4 ∷ minus 1 ∷ minus 1 ∷ minus 32 ∷ minus 1 ∷ minus 1 ∷ minus 2
        ∷ minus 1 ∷ []) ++ None ∷ stops reason.NumberText ∷ [] }
    ensures large_complements { map (unary_of prefix.BitNot) (whole 4294967295 ∷ whole 2147483647
        ∷ whole 2147483648 ∷ []) ≡ map of (whole 0 ∷ minus 2147483648 ∷ whole 2147483647 ∷ []) }
    ensures negation { map (unary_of prefix.Not) operands
        ≡ map of (no ∷ no ∷ yes ∷ no ∷ no ∷ yes ∷ yes ∷ no ∷ yes ∷ no ∷ no ∷ []) }
    ensures zero_and_false { map (unary_of prefix.Not) (whole 0 ∷ no ∷ minus 1 ∷ [])
        ≡ map of (yes ∷ yes ∷ no ∷ []) }
    ensures void { map (unary_of prefix.Void) operands ≡ replicate 11 (of nothing) }
    ensures deletes { map (unary_of prefix.Delete) operands ≡ replicate 11 (of yes) }
    ensures on_targets { map (λ op. map (unary_of op) operands) (prefix.TypeOf
        ∷ prefix.Increment ∷ prefix.Decrement ∷ []) ≡ replicate 3 (map of operands) }
    ensures minus_program { outcomes (unary prefix.Minus) operands
        ≡ map (λ v. Some (Gives v)) (minus 5 ∷ minus 3 ∷ whole 0 ∷ nan ∷ minus 31 ∷ nan ∷ whole 0
        ∷ minus 1 ∷ nan ∷ whole 0 ∷ []) ++ None ∷ [] }
    ensures plus_program { outcomes (unary prefix.Plus) operands
        ≡ map (λ v. Some (Gives v)) (whole 5 ∷ whole 3 ∷ whole 0 ∷ nan ∷ whole 31 ∷ nan ∷ whole 0
        ∷ whole 1 ∷ nan ∷ whole 0 ∷ []) ++ None ∷ [] }
    ensures complement_program { outcomes (unary prefix.BitNot) operands
        ≡ map (λ v. Some (Gives v)) (minus 6 ∷ minus 4 ∷ minus 1 ∷ minus 1 ∷ minus 32 ∷ minus 1
        ∷ minus 1 ∷ minus 2 ∷ minus 1 ∷ minus 1 ∷ []) ++ None ∷ [] }
    ensures negation_program { outcomes (unary prefix.Not) operands ≡ map (λ v. Some (Gives v)) (no
        ∷ no ∷ yes ∷ no ∷ no ∷ yes ∷ yes ∷ no ∷ yes ∷ no ∷ no ∷ []) }
    ensures void_program { outcomes (unary prefix.Void) operands
        ≡ replicate 11 (Some (Gives nothing)) }
    ensures delete_program { map (unary prefix.Delete) operands ≡ replicate 11 (gives yes) }
    ensures programs_on_targets { map (λ op. map (unary op) operands) (prefix.TypeOf
        ∷ prefix.Increment ∷ prefix.Decrement ∷ []) ≡ replicate 3 (map gives operands) }
    ensures stopped_programs { map (λ op. ending_of (run_in heap_at_start (unary op
        (text (codes "1.5"))))) (prefix.Plus ∷ prefix.Minus ∷ prefix.BitNot ∷ [])
        ≡ replicate 3 (Stopped reason.NumberText) }
    ensures object_text { outcomes (unary prefix.Plus) (object 0 ∷ []) ≡ Some (Gives nan) ∷ [] }
{}

/// `typeof` (ES3 11.4.3), and which values can be called (11.2.3).
pub fn kinds_of_values()
    ensures types { map (λ v. outcome_of (run_in more_objects (type_told v))) (nothing ∷ null ∷ yes
        ∷ whole 5 ∷ nan ∷ text (codes "a") ∷ object 0 ∷ object 2 ∷ object 10 ∷ object 68 ∷ object 1
        ∷ object 13 ∷ object 65 ∷ []) ≡ map (λ t. Some (Gives (text t))) (codes "undefined"
        ∷ codes "object" ∷ codes "boolean" ∷ codes "number" ∷ codes "number" ∷ codes "string"
        ∷ replicate 4 (codes "object") ++ replicate 3 (codes "function")) }
    ensures primitives { map (is_callable more_objects hosts)
        (nothing ∷ null ∷ yes ∷ whole 65 ∷ text (codes "a") ∷ []) ≡ replicate 5 false }
    ensures objects { map (λ o. is_callable more_objects hosts (object o)) (0 ∷ 2 ∷ 6 ∷ 10 ∷ 12 ∷ 66
        ∷ 67 ∷ 68 ∷ 69 ∷ []) ≡ replicate 9 false }
    ensures functions { map (λ o. is_callable more_objects hosts (object o)) (1 ∷ 13 ∷ 64 ∷ 65 ∷ [])
        ≡ replicate 4 true }
    ensures no_hosts { map (λ o. is_callable more_objects [] (object o)) (13 ∷ 65 ∷ [])
        ≡ true ∷ false ∷ [] }
    ensures by_class { map (λ c. is_callable_by c hosts 65) (None ∷ map Some (class.Array
        ∷ class.Plain ∷ class.Function ∷ class.Arguments ∷ class.Error ∷ class.Math ∷ [])) ≡ false
        ∷ false ∷ false ∷ true ∷ false ∷ false ∷ false ∷ [] }
    ensures host_body { map host_body ((record { object = 65; name = tree.a }) ∷ [])
        ≡ (65, OfHost tree.a) ∷ [] }
{}

/// The variables of a script, which are made before it runs (ES3 10.1.3, 10.2.1), and their
/// initialisers (12.2).
pub fn variables_of_scripts()
    ensures new { names_of (with_variables (tree.x ∷ codes "NaN" ∷ tree.a ∷ tree.x ∷ [])
        heap_at_start) global ≡ names_of heap_at_start global ++ tree.x ∷ tree.a ∷ [] }
    ensures undefined { map (own_slot (with_variables (tree.x ∷ tree.a ∷ []) heap_at_start) global)
        (tree.x ∷ tree.a ∷ []) ≡ replicate 2 (Some (Holds nothing)) }
    ensures fixed { map (own_attributes (with_variables (tree.x ∷ tree.a
        ∷ []) heap_at_start) global) (tree.x ∷ tree.a ∷ []) ≡ replicate 2 (Some fixed) }
    ensures stays { own_slot (with_variables (tree.x ∷ []) (with_x (whole 5))) global tree.x
        ≡ Some (Holds (whole 5)) }
    ensures of_the_start { own_slot (with_variables (codes "Math" ∷ []) heap_at_start) global
        (codes "Math") ≡ Some (Holds (object 10)) }
    ensures attributes_stay { own_attributes (with_variables (codes "NaN"
        ∷ []) heap_at_start) global (codes "NaN") ≡ Some hidden_and_fixed }
    ensures not_inherited { own_slot (with_variables (tree.to_string ∷ []) heap_at_start) global
        tree.to_string ≡ Some (Holds nothing) }
    ensures none { with_variables [] (with_x (whole 5)) ≡ with_x (whole 5) }
    ensures initialised_items { map is_initialised (NoVarItems
        ∷ MoreVarItems tree.x NoExpr NoVarItems ∷ MoreVarItems tree.x (AnExpr node.one) NoVarItems
        ∷ MoreVarItems tree.x NoExpr (MoreVarItems tree.a (AnExpr node.one) NoVarItems)
        ∷ MoreVarItems tree.x (AnExpr node.one) (MoreVarItems tree.a NoExpr NoVarItems) ∷ [])
        ≡ true ∷ false ∷ true ∷ false ∷ true ∷ [] }
    ensures no_item { told (run_in (with_x (whole 9)) (initialised NoVarItems (gives (whole 6))
        (whole 5))) ≡ (Some (Gives (whole 6)), Some (whole 9)) }
    ensures one_item { told (run_in (with_x (whole 9)) (initialised (MoreVarItems tree.x
        (AnExpr node.one) NoVarItems) (gives (whole 6)) (whole 5)))
        ≡ (Some (Gives (whole 6)), Some (whole 5)) }
    ensures other_items { told (run_in (with_x (whole 9)) (initialised (MoreVarItems tree.a
        (AnExpr node.one) (MoreVarItems tree.x (AnExpr node.one) NoVarItems)) (gives (whole 6))
        (whole 5))) ≡ (Some (Gives (whole 6)), Some (whole 1)) }
    ensures first_of_two { value_of_global (last_state (run_in (with_x (whole 9)) (initialised
        (MoreVarItems tree.a (AnExpr node.one) (MoreVarItems tree.x (AnExpr node.one) NoVarItems))
        (gives (whole 6)) (whole 5)))).heap tree.a ≡ Some (whole 5) }
{}
