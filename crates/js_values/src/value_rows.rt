//! Worked values: these calls do nothing, and each says what a definition gives.

ghost use Rattle.std.specs.Prelude.{◌≡◌, [], ◌∷◌, ◌++◌, true, false, map};
ghost use Rattle.std.specs.Prelude.{Ok, Err, Some, None, codes, replicate};
ghost use Rattle.js_values.specs.declared.number.Num.TheVariants.{NaN};
ghost use Rattle.js_values.specs.declared.reason.Reason.TheVariants as stop;
ghost use Rattle.js_values.specs.declared.shown.Shown.TheVariants as shown;
ghost use Rattle.js_values.specs.declared.value.Value.TheVariants as value;
ghost use Rattle.js_values.specs.Equality as equality;
ghost use Rattle.js_values.specs.Rows.{n, minus, object, one_of_each};
ghost use Rattle.js_values.specs.Shown as shows;
ghost use Rattle.js_values.specs.Values as values;

/// Which values are no objects.
pub fn primitives()
    ensures undefined { values.IsPrimitive value.Undefined }
    ensures null { values.IsPrimitive value.Null }
    ensures boolean { values.IsPrimitive (value.Bool true) }
    ensures number { values.IsPrimitive (value.Num NaN) }
    ensures text { values.IsPrimitive (value.Str []) }
    ensures no_object { values.IsPrimitive (object 7) → ⊥ }
{}

/// Values as booleans.
pub fn booleans()
    ensures of_each { map values.truth_of one_of_each
        ≡ false ∷ false ∷ true ∷ false ∷ false ∷ true ∷ [] }
    ensures of_false { values.truth_of (value.Bool false) ≡ false }
    ensures of_zero { values.truth_of (value.Num (n 0)) ≡ false }
    ensures of_another { values.truth_of (value.Num (minus 1)) ≡ true }
    ensures of_a_text { values.truth_of (value.Str (codes "0")) ≡ true }
{}

/// Values as numbers.
pub fn numbers()
    ensures of_each { map values.number_of one_of_each ≡ Some (Ok NaN) ∷ Some (Ok (n 0))
        ∷ Some (Ok (n 1)) ∷ Some (Ok NaN) ∷ Some (Ok (n 0)) ∷ None ∷ [] }
    ensures of_false { values.number_of (value.Bool false) ≡ Some (Ok (n 0)) }
    ensures of_a_number { values.number_of (value.Num (n 3)) ≡ Some (Ok (n 3)) }
    ensures of_a_text { values.number_of (value.Str (codes "1.5")) ≡ Some (Err stop.NumberText) }
{}

/// Values as texts, and their types.
pub fn texts()
    ensures of_each { map values.text_of one_of_each ≡ Some (codes "undefined")
        ∷ Some (codes "null") ∷ Some (codes "true") ∷ Some (codes "NaN") ∷ Some [] ∷ None ∷ [] }
    ensures of_false { values.text_of (value.Bool false) ≡ Some (codes "false") }
    ensures of_a_number { values.text_of (value.Num (minus 12)) ≡ Some (codes "-12") }
    ensures of_a_text { values.text_of (value.Str (codes "a")) ≡ Some (codes "a") }
    ensures types { map (values.type_of false) one_of_each ≡ codes "undefined" ∷ codes "object"
        ∷ codes "boolean" ∷ codes "number" ∷ codes "string" ∷ codes "object" ∷ [] }
    ensures types_of_functions { map (values.type_of true) one_of_each ≡ codes "undefined"
        ∷ codes "object" ∷ codes "boolean" ∷ codes "number" ∷ codes "string" ∷ codes "function"
        ∷ [] }
{}

/// `===`.
pub fn strict_equality()
    ensures undefined { map (equality.same_value value.Undefined) one_of_each
        ≡ true ∷ replicate 5 false }
    ensures null { map (equality.same_value value.Null) one_of_each
        ≡ false ∷ true ∷ replicate 4 false }
    ensures boolean { map (equality.same_value (value.Bool true)) one_of_each
        ≡ false ∷ false ∷ true ∷ replicate 3 false }
    ensures nan { map (equality.same_value (value.Num NaN)) one_of_each ≡ replicate 6 false }
    ensures text { map (equality.same_value (value.Str [])) one_of_each
        ≡ replicate 4 false ++ true ∷ false ∷ [] }
    ensures of_object { map (equality.same_value (object 7)) one_of_each
        ≡ replicate 5 false ++ true ∷ [] }
    ensures two_false { equality.same_value (value.Bool false) (value.Bool false) ≡ true }
    ensures two_booleans { equality.same_value (value.Bool false) (value.Bool true) ≡ false }
    ensures numbers { equality.same_value (value.Num (n 3)) (value.Num (n 3)) ≡ true }
    ensures other_numbers { equality.same_value (value.Num (n 3)) (value.Num (minus 3)) ≡ false }
    ensures number_and_nan { equality.same_value (value.Num (n 3)) (value.Num NaN) ≡ false }
    ensures other_texts { equality.same_value (value.Str (codes "a")) (value.Str (codes "b"))
        ≡ false }
    ensures other_objects { equality.same_value (object 7) (object 8) ≡ false }
{}

/// `==`.
pub fn loose_equality()
    ensures undefined { map (equality.equal_of value.Undefined) one_of_each
        ≡ Some (Ok true) ∷ Some (Ok true) ∷ Some (Ok false) ∷ Some (Ok false) ∷ Some (Ok false)
        ∷ None ∷ [] }
    ensures null { map (equality.equal_of value.Null) one_of_each
        ≡ Some (Ok true) ∷ Some (Ok true) ∷ Some (Ok false) ∷ Some (Ok false) ∷ Some (Ok false)
        ∷ None ∷ [] }
    ensures boolean { map (equality.equal_of (value.Bool false)) one_of_each
        ≡ Some (Ok false) ∷ Some (Ok false) ∷ Some (Ok false) ∷ Some (Ok false) ∷ Some (Ok true)
        ∷ None ∷ [] }
    ensures number { map (equality.equal_of (value.Num (n 1))) one_of_each
        ≡ Some (Ok false) ∷ Some (Ok false) ∷ Some (Ok true) ∷ Some (Ok false) ∷ Some (Ok false)
        ∷ None ∷ [] }
    ensures text { map (equality.equal_of (value.Str (codes "1"))) one_of_each
        ≡ Some (Ok false) ∷ Some (Ok false) ∷ Some (Ok true) ∷ Some (Ok false) ∷ Some (Ok false)
        ∷ None ∷ [] }
    ensures of_object { map (equality.equal_of (object 7)) one_of_each ≡ replicate 6 None }
    ensures number_and_text { equality.equal_of (value.Num (n 12)) (value.Str (codes " 12"))
        ≡ Some (Ok true) }
    ensures text_and_number { equality.equal_of (value.Str (codes " 12")) (value.Num (n 12))
        ≡ Some (Ok true) }
    ensures texts { equality.equal_of (value.Str (codes " 12")) (value.Str (codes "12"))
        ≡ Some (Ok false) }
    ensures same_texts { equality.equal_of (value.Str (codes "12")) (value.Str (codes "12"))
        ≡ Some (Ok true) }
    ensures numbers { equality.equal_of (value.Num (n 3)) (value.Num (n 3)) ≡ Some (Ok true) }
    ensures two_booleans { equality.equal_of (value.Bool true) (value.Bool true)
        ≡ Some (Ok true) }
    ensures number_stops { equality.equal_of (value.Num NaN) (value.Str (codes "1.5"))
        ≡ Some (Err stop.NumberText) }
    ensures text_stops { equality.equal_of (value.Str (codes "1.5")) (value.Bool true)
        ≡ Some (Err stop.NumberText) }
    ensures boolean_stops { equality.equal_of (value.Bool true) (value.Str (codes "1.5"))
        ≡ Some (Err stop.NumberText) }
    ensures no_stop { equality.equal_of value.Null (value.Str (codes "1.5")) ≡ Some (Ok false) }
{}

/// Ranks, and shown values.
pub fn shown_values()
    ensures first { shows.rank_of [] (record { 0 = 9 }) ≡ 1 }
    ensures known { shows.rank_of (9 ∷ 4 ∷ 7 ∷ []) (record { 0 = 4 }) ≡ 2 }
    ensures next { shows.rank_of (9 ∷ 4 ∷ []) (record { 0 = 7 }) ≡ 3 }
    ensures passed { shows.passed_with_all (9 ∷ []) (one_of_each ++ object 9 ∷ object 4
        ∷ object 7 ∷ []) ≡ 9 ∷ 7 ∷ 4 ∷ [] }
    ensures of_each { shows.shown_of_all (9 ∷ []) one_of_each ≡ shown.Undefined ∷ shown.Null
        ∷ shown.Bool true ∷ shown.Num NaN ∷ shown.Str [] ∷ shown.Object 2 ∷ [] }
    ensures of_objects { shows.shown_of_all [] (object 5 ∷ object 8 ∷ object 5 ∷ [])
        ≡ shown.Object 1 ∷ shown.Object 2 ∷ shown.Object 1 ∷ [] }
    ensures words { map shows.shown_text (shown.Undefined ∷ shown.Null ∷ shown.Bool true
        ∷ shown.Bool false ∷ shown.Num NaN ∷ []) ≡ codes "undefined" ∷ codes "null"
        ∷ codes "true" ∷ codes "false" ∷ codes "NaN" ∷ [] }
    ensures number { shows.shown_text (shown.Num (minus 12)) ≡ codes "-12" }
    ensures text { shows.shown_text (shown.Str (codes "a\"")) ≡ codes "\"a\\\"\"" }
    ensures of_object { shows.shown_text (shown.Object 12) ≡ codes "#12" }
{}
