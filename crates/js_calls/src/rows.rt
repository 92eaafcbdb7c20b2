//! Worked entries, new objects and lists of arguments: these calls do nothing, and each says what a
//! definition gives.

ghost use Rattle.std.specs.Prelude.{◌≡◌, ◌∷◌, [], ◌++◌, Some, None, Ok, Err, map, codes, length};
ghost use Rattle.std.specs.Prelude.{replicate, true, slice_get, option_map};
ghost use Rattle.js_values.specs.declared.reason.Reason.TheVariants as reason;
ghost use Rattle.js_values.specs.declared.value.Value.TheVariants as value;
ghost use Rattle.object_heap.specs.declared.object.Class.TheVariants as class;
ghost use Rattle.object_heap.specs.Arrays.{whole};
ghost use Rattle.object_heap.specs.Changes.{all_three, hidden_and_fixed, hidden_only, holding};
ghost use Rattle.object_heap.specs.Changes.{sharing};
ghost use Rattle.object_heap.specs.Names.{constructor_name, length_name, prototype_name};
ghost use Rattle.object_heap.specs.Objects.{class_of, properties_of, prototype_of};
ghost use Rattle.scope_arena.specs.Scopes.{parent_of, written_at};
ghost use Rattle.js_calls.specs.Apply.{applied, value_in};
ghost use Rattle.js_calls.specs.Construct.{constructed, result_of};
ghost use Rattle.js_calls.specs.Declared.{functions_of, names_of, vars_in_all};
ghost use Rattle.js_calls.specs.Entry.{scope_names, this_at_entry};
ghost use Rattle.js_calls.specs.FunctionObjects.{with_function, with_name_scope};
ghost use Rattle.js_calls.specs.Rows.{bare, body_of, bound, bound_by, declared, entered_with, few};
ghost use Rattle.js_calls.specs.Rows.{full, o, outer_scope, seven_at_one, shared_arguments, var};
ghost use Rattle.js_calls.specs.Rows.{variables, with_prototype};

/// What code declares.
pub fn declared_names()
    ensures variables { vars_in_all (body_of variables)
        ≡ map (λ c. c ∷ []) (codes "abcdefghijklmnopqr") }
    ensures no_variables { vars_in_all (body_of (declared (codes "f") [] ∷ [])) ≡ [] }
    ensures functions { names_of (functions_of (body_of (var (codes "a") ∷ declared (codes "g") []
        ∷ declared (codes "f") [] ∷ declared (codes "g") [] ∷ [])))
        ≡ codes "g" ∷ codes "f" ∷ codes "g" ∷ [] }
    ensures no_functions { functions_of (body_of variables) ≡ [] }
    ensures of_a_scope { scope_names (codes "b" ∷ codes "a" ∷ []) (body_of (var (codes "d")
        ∷ var (codes "a") ∷ declared (codes "c") [] ∷ declared (codes "b") [] ∷ var (codes "d")
        ∷ []))
        ≡ codes "b" ∷ codes "a" ∷ codes "arguments" ∷ codes "c" ∷ codes "d" ∷ [] }
{}

/// `this` at an entry.
pub fn this_values()
    ensures objects { this_at_entry (o 5) ≡ Ok (o 5) }
    ensures global { map this_at_entry (value.Undefined ∷ value.Null ∷ [])
        ≡ replicate 2 (Ok (o 12)) }
    ensures primitives { map this_at_entry (value.Bool true ∷ whole 0 ∷ value.Str [] ∷ [])
        ≡ replicate 3 (Err reason.Wrapper) }
{}

/// Formals, `arguments`, functions and variables.
pub fn entries()
    ensures bound_names { bound_by (entered_with full (whole 1 ∷ whole 2 ∷ whole 3 ∷ []))
        ≡ (codes "a", whole 1) ∷ (codes "b", o 14) ∷ (codes "arguments", o 13)
        ∷ (codes "c", o 18) ∷ (codes "d", value.Undefined) ∷ [] }
    ensures functions { (entered_with full (whole 1 ∷ [])).functions ≡ 14 ∷ 16 ∷ 18 ∷ [] }
    ensures objects { length (entered_with full []).heap ≡ 20 }
    ensures the_scope { (entered_with full []).scope ≡ 1 }
    ensures its_parent { parent_of (entered_with full []).scopes 1 ≡ Some 0 }
    ensures outer_stays { bound (entered_with full (whole 1 ∷ [])).scopes 0
        ≡ (codes "out", value.Undefined) ∷ [] }
    ensures fewer_arguments { bound_by (entered_with bare (whole 1 ∷ []))
        ≡ (codes "a", whole 1) ∷ (codes "b", value.Undefined) ∷ (codes "arguments", o 13) ∷ [] }
    ensures more_arguments { bound_by (entered_with bare (whole 1 ∷ whole 2 ∷ whole 3 ∷ []))
        ≡ (codes "a", whole 1) ∷ (codes "b", whole 2) ∷ (codes "arguments", o 13) ∷ [] }
{}

/// The object of `arguments`.
pub fn argument_objects()
    ensures shared_indices { properties_of
        (entered_with bare (whole 1 ∷ whole 2 ∷ whole 3 ∷ [])).heap 13
        ≡ holding length_name (whole 3) hidden_only ∷ sharing 0 1 0 ∷ sharing 1 1 1
        ∷ holding (codes "2") (whole 3) hidden_only ∷ [] }
    ensures fewer { properties_of (entered_with bare (whole 1 ∷ [])).heap 13
        ≡ holding length_name (whole 1) hidden_only ∷ sharing 0 1 0 ∷ [] }
    ensures none { properties_of (entered_with bare []).heap 13
        ≡ holding length_name (whole 0) hidden_only ∷ [] }
    ensures its_class { class_of (entered_with bare []).heap 13 ≡ Some class.Arguments }
    ensures its_prototype { prototype_of (entered_with bare []).heap 13 ≡ Some 0 }
    ensures a_function_is_shared { applied (entered_with full (whole 1 ∷ whole 2 ∷ [])).heap
        (entered_with full (whole 1 ∷ whole 2 ∷ [])).scopes (o 13) 2
        ≡ Some (whole 1 ∷ o 14 ∷ []) }
{}

/// Function objects.
pub fn function_objects()
    ensures function { properties_of (with_function 2 few) 13
        ≡ holding length_name (whole 2) all_three ∷ holding prototype_name (o 14) hidden_and_fixed
        ∷ [] }
    ensures class { map (class_of (with_function 2 few)) (13 ∷ 14 ∷ [])
        ≡ Some class.Function ∷ Some class.Plain ∷ [] }
    ensures prototypes { map (prototype_of (with_function 2 few)) (13 ∷ 14 ∷ [])
        ≡ Some 1 ∷ Some 0 ∷ [] }
    ensures prototype { properties_of (with_function 2 few) 14
        ≡ holding constructor_name (o 13) hidden_only ∷ [] }
    ensures declared_with_two { properties_of (entered_with full []).heap 18
        ≡ holding length_name (whole 2) all_three ∷ holding prototype_name (o 19) hidden_and_fixed
        ∷ [] }
    ensures name { bound (with_name_scope (codes "f") (Some 0) 7 outer_scope) 1
        ≡ (codes "f", o 7) ∷ [] }
    ensures name_is_fixed { bound (written_at 1 0 (whole 9)
        (with_name_scope (codes "f") (Some 0) 7 outer_scope)) 1 ≡ (codes "f", o 7) ∷ [] }
    ensures around { parent_of (with_name_scope (codes "f") (Some 0) 7 outer_scope) 1 ≡ Some 0 }
{}

/// The object of `new`.
pub fn new_objects()
    ensures behind { prototype_of (constructed 13 (with_prototype (o 5))) 14 ≡ Some 5 }
    ensures of_no_object { map (λ v. prototype_of (constructed 13 (with_prototype v)) 14)
        (value.Undefined ∷ value.Null ∷ value.Bool true ∷ whole 5 ∷ value.Str [] ∷ [])
        ≡ replicate 5 (Some 0) }
    ensures of_none { prototype_of (constructed 5 few) 13 ≡ Some 0 }
    ensures class { class_of (constructed 13 (with_prototype (o 5))) 14 ≡ Some class.Plain }
    ensures empty { properties_of (constructed 13 (with_prototype (o 5))) 14 ≡ [] }
    ensures own_result { result_of (o 14) (o 5) ≡ o 5 }
    ensures no_result { map (result_of (o 14)) (value.Undefined ∷ value.Null ∷ value.Bool true
        ∷ whole 5 ∷ value.Str [] ∷ []) ≡ replicate 5 (o 14) }
{}

/// The list of `apply`.
pub fn applied_lists()
    ensures array { applied (seven_at_one class.Array) outer_scope (o 13) 3
        ≡ Some (value.Undefined ∷ whole 7 ∷ value.Undefined ∷ []) }
    ensures arguments { applied shared_arguments (written_at 0 0 (whole 6) outer_scope) (o 13) 2
        ≡ Some (whole 6 ∷ whole 8 ∷ []) }
    ensures none { map (λ v. applied few outer_scope v 0) (value.Undefined ∷ value.Null ∷ [])
        ≡ replicate 2 (Some []) }
    ensures empty { applied (seven_at_one class.Array) outer_scope (o 13) 0 ≡ Some [] }
    ensures other_objects { map (λ c. applied (seven_at_one c) outer_scope (o 13) 0) (class.Plain
        ∷ class.Function ∷ class.Error ∷ class.Math ∷ []) ≡ replicate 4 None }
    ensures primitives { map (λ v. applied few outer_scope v 0) (value.Bool true ∷ whole 5
        ∷ value.Str (codes "ab") ∷ []) ≡ replicate 3 None }
{}
