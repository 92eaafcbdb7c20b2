//! Worked natives of Number, Boolean and Math: these calls do nothing, and each says what a native
//! asks and answers.

ghost use Rattle.std.specs.Prelude.{◌≡◌, ◌∷◌, [], map, true, false, codes, replicate};
ghost use Rattle.js_values.specs.declared.reason.Reason.TheVariants as reason;
ghost use Rattle.js_values.specs.declared.value.Value.TheVariants as value;
ghost use Rattle.object_heap.specs.Arrays.{whole};
ghost use Rattle.js_natives.specs.declared.answer.Answer.TheVariants as answer;
ghost use Rattle.js_natives.specs.declared.answer.ErrorKind.TheVariants as kind;
ghost use Rattle.js_natives.specs.declared.native.Native.TheVariants as native;
ghost use Rattle.js_natives.specs.Rows.{ANumber, answered, answers_to, asks, few, gives};
ghost use Rattle.js_natives.specs.Rows.{gives_text, minus, nan, o, of_number};

/// `Number(v)`, `Boolean(v)`, and both with `new`.
pub fn numbers_and_truths()
    ensures number_of_nothing { answered native.Number value.Undefined [] few ≡ gives (whole 0) }
    ensures number_of_undefined { answered native.Number value.Undefined (value.Undefined ∷ []) few
        ≡ gives nan }
    ensures number_of_a_text { answered native.Number (o 3) (value.Str (codes " 12 ") ∷ []) few
        ≡ gives (whole 12) }
    ensures number_stops { answered native.Number (o 3) (value.Str (codes "1.5") ∷ []) few
        ≡ answer.Stop reason.NumberText }
    ensures number_of_an_object { asks native.Number (o 3) (o 5 ∷ o 6 ∷ []) few
        ≡ ANumber (o 5) ∷ [] }
    ensures truths { map (λ v. answered native.Boolean (o 3) (v ∷ []) few) (value.Str [] ∷ nan
        ∷ value.Null ∷ value.Str (codes "0") ∷ o 5 ∷ []) ≡ gives (value.Bool false)
        ∷ gives (value.Bool false) ∷ gives (value.Bool false) ∷ gives (value.Bool true)
        ∷ gives (value.Bool true) ∷ [] }
    ensures truth_of_nothing { answered native.Boolean (o 3) [] few ≡ gives (value.Bool false) }
    ensures truth_asks_nothing { asks native.Boolean (o 3) (o 5 ∷ []) few ≡ [] }
    ensures by_new { map (λ n. answered n (o 3) (o 5 ∷ []) few)
        (native.NewNumber ∷ native.NewBoolean ∷ []) ≡ replicate 2 (answer.Stop reason.Wrapper) }
    ensures by_new_at_once { map (λ n. asks n (o 3) (o 5 ∷ []) few)
        (native.NewNumber ∷ native.NewBoolean ∷ []) ≡ replicate 2 [] }
{}

/// `toString` of Number.prototype.
pub fn texts_in_radices()
    ensures in_sixteen { of_number native.NumberToString 255 (whole 16 ∷ [])
        ≡ gives_text (codes "ff") }
    ensures of_a_negative { answered native.NumberToString (minus 255) (whole 16 ∷ []) few
        ≡ gives_text (codes "-ff") }
    ensures at_the_ends { map (λ v. of_number native.NumberToString 71 (v ∷ []))
        (whole 2 ∷ whole 36 ∷ []) ≡ gives_text (codes "1000111") ∷ gives_text (codes "1z") ∷ [] }
    ensures in_ten { map (of_number native.NumberToString 255) ([] ∷ (value.Undefined ∷ [])
        ∷ (whole 10 ∷ []) ∷ []) ≡ replicate 3 (gives_text (codes "255")) }
    ensures in_another { map (λ v. of_number native.NumberToString 255 (v ∷ [])) (whole 1
        ∷ whole 37 ∷ whole 0 ∷ minus 16 ∷ nan ∷ value.Null ∷ [])
        ≡ replicate 6 (answer.Throw kind.RangeError) }
    ensures of_nan { answered native.NumberToString nan (whole 2 ∷ []) few
        ≡ gives_text (codes "NaN") }
    ensures converted { asks native.NumberToString (whole 5) (o 5 ∷ []) few ≡ ANumber (o 5) ∷ [] }
    ensures of_an_object { answered native.NumberToString (o 4) (o 5 ∷ []) few
        ≡ answer.Throw kind.TypeError }
    ensures at_once { asks native.NumberToString (o 4) (o 5 ∷ []) few ≡ [] }
    ensures of_others { answers_to native.NumberToString (value.Undefined ∷ value.Bool true
        ∷ value.Str (codes "5") ∷ []) ≡ answer.Throw kind.TypeError ∷ answer.Stop reason.Wrapper
        ∷ answer.Stop reason.Wrapper ∷ [] }
{}

/// `valueOf` of Number.prototype, and `toString` and `valueOf` of Boolean.prototype.
pub fn values_of_primitives()
    ensures numbers { answers_to native.NumberValueOf (whole 5 ∷ nan ∷ [])
        ≡ gives (whole 5) ∷ gives nan ∷ [] }
    ensures no_numbers { answers_to native.NumberValueOf (value.Bool true ∷ value.Str [] ∷ o 4
        ∷ value.Null ∷ []) ≡ answer.Stop reason.Wrapper ∷ answer.Stop reason.Wrapper
        ∷ answer.Throw kind.TypeError ∷ answer.Throw kind.TypeError ∷ [] }
    ensures truths { answers_to native.BooleanValueOf (value.Bool true ∷ value.Bool false ∷ [])
        ≡ gives (value.Bool true) ∷ gives (value.Bool false) ∷ [] }
    ensures texts_of_truths { answers_to native.BooleanToString (value.Bool true ∷ value.Bool false
        ∷ []) ≡ gives_text (codes "true") ∷ gives_text (codes "false") ∷ [] }
    ensures no_truths { map (λ n. answers_to n (whole 1 ∷ value.Str [] ∷ o 5 ∷ value.Undefined
        ∷ [])) (native.BooleanToString ∷ native.BooleanValueOf ∷ [])
        ≡ replicate 2 (answer.Stop reason.Wrapper ∷ answer.Stop reason.Wrapper
        ∷ answer.Throw kind.TypeError ∷ answer.Throw kind.TypeError ∷ []) }
{}

/// `abs`, `floor`, `ceil` and `round`.
pub fn single_numbers()
    ensures sizes { map (λ v. answered native.Abs (o 10) (v ∷ []) few) (minus 3 ∷ whole 3
        ∷ value.Str (codes "-7") ∷ nan ∷ []) ≡ gives (whole 3) ∷ gives (whole 3)
        ∷ gives (whole 7) ∷ gives nan ∷ [] }
    ensures size_of_nothing { answered native.Abs (o 10) [] few ≡ gives nan }
    ensures as_they_are { map (λ n. answered n (o 10) (minus 3 ∷ []) few)
        (native.Floor ∷ native.Ceil ∷ native.Round ∷ []) ≡ replicate 3 (gives (minus 3)) }
    ensures as_numbers { map (λ n. answered n (o 10) (value.Str (codes "0x1f") ∷ []) few)
        (native.Floor ∷ native.Ceil ∷ native.Round ∷ []) ≡ replicate 3 (gives (whole 31)) }
    ensures of_nothing { map (λ n. answered n (o 10) [] few)
        (native.Floor ∷ native.Ceil ∷ native.Round ∷ []) ≡ replicate 3 (gives nan) }
    ensures fractions_stop { map (λ n. answered n (o 10) (value.Str (codes "-0.5") ∷ []) few)
        (native.Abs ∷ native.Floor ∷ native.Ceil ∷ native.Round ∷ [])
        ≡ replicate 4 (answer.Stop reason.NumberText) }
    ensures of_primitives { map (λ n. answered n (whole 5) (whole 1 ∷ []) few)
        (native.Abs ∷ native.Floor ∷ native.Ceil ∷ native.Round ∷ native.Max ∷ native.Min ∷ [])
        ≡ replicate 6 (gives (whole 1)) }
    ensures converted_once { map (λ n. asks n (o 10) (o 5 ∷ o 6 ∷ []) few)
        (native.Abs ∷ native.Floor ∷ native.Ceil ∷ native.Round ∷ [])
        ≡ replicate 4 (ANumber (o 5) ∷ []) }
{}

/// `max` and `min`.
pub fn chosen_numbers()
    ensures greatest { answered native.Max (o 10) (minus 1 ∷ whole 3 ∷ value.Str (codes "2") ∷ [])
        few ≡ gives (whole 3) }
    ensures greatest_of_negatives { answered native.Max (o 10) (minus 3 ∷ minus 1 ∷ minus 2 ∷ [])
        few ≡ gives (minus 1) }
    ensures least { answered native.Min (o 10) (whole 2 ∷ minus 1 ∷ whole 3 ∷ []) few
        ≡ gives (minus 1) }
    ensures of_one { map (λ n. answered n (o 10) (whole 2 ∷ []) few) (native.Max ∷ native.Min ∷ [])
        ≡ replicate 2 (gives (whole 2)) }
    ensures with_nan { map (λ n. map (λ args. answered n (o 10) args few) ((nan ∷ whole 1 ∷ [])
        ∷ (whole 1 ∷ value.Undefined ∷ whole 5 ∷ []) ∷ [])) (native.Max ∷ native.Min ∷ [])
        ≡ replicate 2 (replicate 2 (gives nan)) }
    ensures of_none { map (λ n. answered n (o 10) [] few) (native.Max ∷ native.Min ∷ [])
        ≡ replicate 2 (answer.Stop reason.Infinite) }
    ensures all_are_converted { map (λ n. asks n (o 10) (nan ∷ o 5 ∷ o 6 ∷ []) few)
        (native.Max ∷ native.Min ∷ []) ≡ replicate 2 (ANumber nan ∷ ANumber (o 5) ∷ ANumber (o 6)
        ∷ []) }
{}
