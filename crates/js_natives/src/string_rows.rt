//! Worked natives of String and String.prototype: these calls do nothing, and each says what a
//! native asks and answers.

ghost use Rattle.std.specs.Prelude.{◌≡◌, ◌∷◌, [], Some, None, map, true, codes, replicate};
ghost use Rattle.js_values.specs.declared.reason.Reason.TheVariants as reason;
ghost use Rattle.js_values.specs.declared.value.Value.TheVariants as value;
ghost use Rattle.object_heap.specs.declared.object.Class.TheVariants as class;
ghost use Rattle.object_heap.specs.Arrays.{whole};
ghost use Rattle.object_heap.specs.Objects.{class_of, prototype_of};
ghost use Rattle.js_natives.specs.declared.answer.Answer.TheVariants as answer;
ghost use Rattle.js_natives.specs.declared.answer.ErrorKind.TheVariants as kind;
ghost use Rattle.js_natives.specs.declared.native.Native.TheVariants as native;
ghost use Rattle.js_natives.specs.Strings.{limit_of};
ghost use Rattle.js_natives.specs.Rows.{ANumber, AText, answered, answers_to, asks, few, gives};
ghost use Rattle.js_natives.specs.Rows.{gives_text, left, minus, nan, o, of_text, primitives, split_of};
ghost use Rattle.js_natives.specs.Rows.{texts};

/// `String(v)` and `new String(v)`.
pub fn texts_of_values()
    ensures of_nothing { answered native.String value.Undefined [] few ≡ gives_text [] }
    ensures of_undefined { answered native.String value.Undefined (value.Undefined ∷ []) few
        ≡ gives_text (codes "undefined") }
    ensures of_a_number { answered native.String (o 3) (minus 5 ∷ o 6 ∷ []) few
        ≡ gives_text (codes "-5") }
    ensures of_an_object { asks native.String (o 3) (o 5 ∷ o 6 ∷ []) few ≡ AText (o 5) ∷ [] }
    ensures by_new { map (λ args. answered native.NewString (o 3) args few)
        ([] ∷ (o 5 ∷ []) ∷ []) ≡ replicate 2 (answer.Stop reason.Wrapper) }
    ensures by_new_at_once { asks native.NewString (o 3) (o 5 ∷ []) few ≡ [] }
{}

/// `String.fromCharCode`.
pub fn texts_of_codes()
    ensures two { answered native.FromCharCode (o 3) (whole 65 ∷ value.Str (codes "66") ∷ []) few
        ≡ gives_text (codes "AB") }
    ensures none { answered native.FromCharCode (o 3) [] few ≡ gives_text [] }
    ensures of_16_bits { answered native.FromCharCode (o 3) (whole 65601 ∷ minus 1 ∷ nan ∷ []) few
        ≡ gives_text (65 ∷ 65535 ∷ 0 ∷ []) }
    ensures order { asks native.FromCharCode (o 3) (o 5 ∷ o 6 ∷ o 7 ∷ []) few
        ≡ ANumber (o 5) ∷ ANumber (o 6) ∷ ANumber (o 7) ∷ [] }
{}

/// `toString` and `valueOf` of String.prototype.
pub fn text_values()
    ensures text { map (λ n. answered n (value.Str (codes "ab")) [] few)
        (native.StringToString ∷ native.StringValueOf ∷ [])
        ≡ replicate 2 (gives_text (codes "ab")) }
    ensures of_others { map (λ n. answers_to n (value.Undefined ∷ value.Bool true ∷ whole 5 ∷ o 5
        ∷ [])) (native.StringToString ∷ native.StringValueOf ∷ [])
        ≡ replicate 2 (replicate 4 (answer.Throw kind.TypeError)) }
    ensures nothing_is_asked { asks native.StringToString (o 5) [] few ≡ [] }
{}

/// `charAt` and `charCodeAt`.
pub fn units_of_texts()
    ensures at { of_text native.CharAt (codes "abc") (whole 1 ∷ []) ≡ gives_text (codes "b") }
    ensures first { map (of_text native.CharAt (codes "abc")) ([] ∷ (nan ∷ [])
        ∷ (value.Undefined ∷ []) ∷ []) ≡ replicate 3 (gives_text (codes "a")) }
    ensures outside { map (of_text native.CharAt (codes "abc")) ((whole 3 ∷ []) ∷ (minus 1 ∷ [])
        ∷ []) ≡ replicate 2 (gives_text []) }
    ensures code { of_text native.CharCodeAt (codes "abc") (whole 1 ∷ []) ≡ gives (whole 98) }
    ensures first_code { of_text native.CharCodeAt (codes "abc") [] ≡ gives (whole 97) }
    ensures code_outside { map (of_text native.CharCodeAt (codes "abc")) ((whole 3 ∷ [])
        ∷ (minus 1 ∷ []) ∷ []) ≡ replicate 2 (gives nan) }
    ensures of_a_number { answered native.CharAt (whole 123) (whole 1 ∷ []) few
        ≡ gives_text (codes "2") }
    ensures of_the_global_object { asks native.CharAt value.Undefined (o 5 ∷ []) few
        ≡ AText (o 12) ∷ ANumber (o 5) ∷ [] }
    ensures order { asks native.CharCodeAt (o 5) (o 6 ∷ o 7 ∷ []) few
        ≡ AText (o 5) ∷ ANumber (o 6) ∷ [] }
{}

/// `concat` of String.prototype.
pub fn concatenated_texts()
    ensures two { of_text native.StringConcat (codes "a") (value.Str (codes "b") ∷ whole 5 ∷ [])
        ≡ gives_text (codes "ab5") }
    ensures none { of_text native.StringConcat (codes "a") [] ≡ gives_text (codes "a") }
    ensures order { asks native.StringConcat (o 5) (o 6 ∷ o 7 ∷ []) few
        ≡ AText (o 5) ∷ AText (o 6) ∷ AText (o 7) ∷ [] }
{}

/// `indexOf`.
pub fn first_places()
    ensures first { of_text native.IndexOf (codes "banana") (value.Str (codes "an") ∷ [])
        ≡ gives (whole 1) }
    ensures from { of_text native.IndexOf (codes "banana") (value.Str (codes "an") ∷ whole 2 ∷ [])
        ≡ gives (whole 3) }
    ensures at_the_start_itself { of_text native.IndexOf (codes "banana")
        (value.Str (codes "an") ∷ whole 1 ∷ []) ≡ gives (whole 1) }
    ensures from_before { of_text native.IndexOf (codes "banana")
        (value.Str (codes "an") ∷ minus 5 ∷ []) ≡ gives (whole 1) }
    ensures none { map (of_text native.IndexOf (codes "banana")) ((value.Str (codes "x") ∷ [])
        ∷ (value.Str (codes "an") ∷ whole 4 ∷ []) ∷ (value.Str (codes "bananas") ∷ [])
        ∷ (value.Str (codes "a") ∷ whole 99 ∷ []) ∷ []) ≡ replicate 4 (gives (minus 1)) }
    ensures at_the_end { of_text native.IndexOf (codes "banana") (value.Str (codes "na") ∷ whole 3
        ∷ []) ≡ gives (whole 4) }
    ensures empty { map (of_text native.IndexOf (codes "ab")) ((value.Str [] ∷ [])
        ∷ (value.Str [] ∷ whole 9 ∷ []) ∷ []) ≡ gives (whole 0) ∷ gives (whole 2) ∷ [] }
    ensures of_nothing { of_text native.IndexOf (codes "an undefined") [] ≡ gives (whole 3) }
    ensures order { asks native.IndexOf (o 5) (o 6 ∷ o 7 ∷ []) few
        ≡ AText (o 5) ∷ AText (o 6) ∷ ANumber (o 7) ∷ [] }
{}

/// `lastIndexOf`.
pub fn last_places()
    ensures last { of_text native.LastIndexOf (codes "banana") (value.Str (codes "an") ∷ [])
        ≡ gives (whole 3) }
    ensures not_behind { map (λ v. of_text native.LastIndexOf (codes "banana")
        (value.Str (codes "an") ∷ v ∷ [])) (whole 3 ∷ whole 2 ∷ whole 0 ∷ [])
        ≡ gives (whole 3) ∷ gives (whole 1) ∷ gives (minus 1) ∷ [] }
    ensures from_nan { map (λ v. of_text native.LastIndexOf (codes "banana")
        (value.Str (codes "an") ∷ v ∷ [])) (nan ∷ value.Undefined ∷ whole 99 ∷ [])
        ≡ replicate 3 (gives (whole 3)) }
    ensures from_before { map (λ s. of_text native.LastIndexOf (codes "banana")
        (value.Str s ∷ minus 1 ∷ [])) (codes "b" ∷ codes "a" ∷ [])
        ≡ gives (whole 0) ∷ gives (minus 1) ∷ [] }
    ensures at_the_end { of_text native.LastIndexOf (codes "banana") (value.Str (codes "a") ∷ [])
        ≡ gives (whole 5) }
    ensures empty { map (of_text native.LastIndexOf (codes "ab")) ((value.Str [] ∷ [])
        ∷ (value.Str [] ∷ whole 1 ∷ []) ∷ []) ≡ gives (whole 2) ∷ gives (whole 1) ∷ [] }
    ensures null_is_zero { of_text native.LastIndexOf (codes "aa") (value.Str (codes "a")
        ∷ value.Null ∷ []) ≡ gives (whole 0) }
    ensures order { asks native.LastIndexOf (o 5) (o 6 ∷ o 7 ∷ []) few
        ≡ AText (o 5) ∷ AText (o 6) ∷ ANumber (o 7) ∷ [] }
{}

/// `slice` and `substring` of String.prototype.
pub fn parts_of_texts()
    ensures slice { of_text native.StringSlice (codes "abcdef") (whole 1 ∷ whole 3 ∷ [])
        ≡ gives_text (codes "bc") }
    ensures slice_from_the_end { of_text native.StringSlice (codes "abcdef")
        (minus 3 ∷ minus 1 ∷ []) ≡ gives_text (codes "de") }
    ensures slice_crossed { of_text native.StringSlice (codes "abcdef") (whole 3 ∷ whole 1 ∷ [])
        ≡ gives_text [] }
    ensures slice_all { map (of_text native.StringSlice (codes "ab")) ([]
        ∷ (minus 9 ∷ whole 9 ∷ []) ∷ (nan ∷ value.Undefined ∷ []) ∷ [])
        ≡ replicate 3 (gives_text (codes "ab")) }
    ensures slice_to_null { of_text native.StringSlice (codes "ab") (whole 0 ∷ value.Null ∷ [])
        ≡ gives_text [] }
    ensures slice_order { asks native.StringSlice (o 5) (o 6 ∷ o 7 ∷ []) few
        ≡ AText (o 5) ∷ ANumber (o 6) ∷ ANumber (o 7) ∷ [] }
    ensures substring { of_text native.Substring (codes "abcdef") (whole 1 ∷ whole 3 ∷ [])
        ≡ gives_text (codes "bc") }
    ensures substring_crossed { of_text native.Substring (codes "abcdef") (whole 3 ∷ whole 1 ∷ [])
        ≡ gives_text (codes "bc") }
    ensures substring_below { of_text native.Substring (codes "abcdef") (whole 2 ∷ minus 1 ∷ [])
        ≡ gives_text (codes "ab") }
    ensures substring_past { of_text native.Substring (codes "abcdef") (whole 99 ∷ whole 4 ∷ [])
        ≡ gives_text (codes "ef") }
    ensures substring_to_the_end { map (of_text native.Substring (codes "abc")) ((whole 1 ∷ [])
        ∷ (whole 1 ∷ value.Undefined ∷ []) ∷ []) ≡ replicate 2 (gives_text (codes "bc")) }
    ensures substring_to_nan { of_text native.Substring (codes "abc") (whole 1 ∷ nan ∷ [])
        ≡ gives_text (codes "a") }
    ensures substring_order { asks native.Substring (o 5) (o 6 ∷ value.Undefined ∷ []) few
        ≡ AText (o 5) ∷ ANumber (o 6) ∷ [] }
{}

/// `split`.
pub fn split_texts()
    ensures pieces { split_of (codes "a,b,,c") (value.Str (codes ",") ∷ [])
        ≡ texts (codes "a" ∷ codes "b" ∷ [] ∷ codes "c" ∷ []) }
    ensures at_the_ends { split_of (codes ",a,") (value.Str (codes ",") ∷ [])
        ≡ texts ([] ∷ codes "a" ∷ [] ∷ []) }
    ensures longer { split_of (codes "xabyab") (value.Str (codes "ab") ∷ [])
        ≡ texts (codes "x" ∷ codes "y" ∷ [] ∷ []) }
    ensures overlapping { split_of (codes "aaa") (value.Str (codes "aa") ∷ [])
        ≡ texts ([] ∷ codes "a" ∷ []) }
    ensures none { split_of (codes "abc") (value.Str (codes ",") ∷ []) ≡ texts (codes "abc" ∷ []) }
    ensures of_no_separator { map (split_of (codes "a,b")) ([] ∷ (value.Undefined ∷ []) ∷ [])
        ≡ replicate 2 (texts (codes "a,b" ∷ [])) }
    ensures by_null { split_of (codes "1null2") (value.Null ∷ [])
        ≡ texts (codes "1" ∷ codes "2" ∷ []) }
    ensures singles { split_of (codes "abc") (value.Str [] ∷ [])
        ≡ texts (codes "a" ∷ codes "b" ∷ codes "c" ∷ []) }
    ensures of_empty { split_of [] (value.Str (codes ",") ∷ []) ≡ texts ([] ∷ []) }
    ensures of_empty_by_empty { split_of [] (value.Str [] ∷ []) ≡ [] }
    ensures of_empty_by_none { split_of [] [] ≡ texts ([] ∷ []) }
    ensures limited { split_of (codes "a,b,c") (value.Str (codes ",") ∷ whole 2 ∷ [])
        ≡ texts (codes "a" ∷ codes "b" ∷ []) }
    ensures limited_to_none { map (λ v. split_of (codes "a,b") (value.Str (codes ",") ∷ v ∷ []))
        (whole 0 ∷ value.Null ∷ nan ∷ []) ≡ replicate 3 [] }
    ensures not_limited { map (λ v. split_of (codes "a,b") (value.Str (codes ",") ∷ v ∷ []))
        (value.Undefined ∷ whole 9 ∷ minus 1 ∷ [])
        ≡ replicate 3 (texts (codes "a" ∷ codes "b" ∷ [])) }
    ensures greatest_limit { limit_of value.Undefined ≡ 4294967295 }
    ensures an_array { class_of (left native.Split (value.Str []) [] few) 13 ≡ Some class.Array }
    ensures of_arrays { prototype_of (left native.Split (value.Str []) [] few) 13 ≡ Some 2 }
    ensures answered { answered native.Split (value.Str []) [] few ≡ gives (o 13) }
    ensures limit_before_separator { asks native.Split (o 5) (o 6 ∷ o 7 ∷ []) few
        ≡ AText (o 5) ∷ ANumber (o 7) ∷ AText (o 6) ∷ [] }
{}

/// What is not looked at is not converted.
pub fn what_is_not_asked()
    ensures of_texts { map (λ n. asks n (value.Str []) (value.Undefined ∷ value.Undefined ∷ []) few)
        (native.Split ∷ native.StringToString ∷ native.StringValueOf ∷ [])
        ≡ (AText (value.Str []) ∷ []) ∷ [] ∷ [] ∷ [] }
    ensures no_primitive_stops { map (λ v. answered native.StringConcat v [] few) primitives
        ≡ gives_text (codes "false") ∷ gives_text (codes "5") ∷ gives_text (codes "a") ∷ [] }
    ensures nothing_behind { asks native.IndexOf (value.Str []) [] few ≡ AText (value.Str []) ∷ [] }
    ensures no_more { asks native.CharAt (value.Str []) (whole 0 ∷ o 5 ∷ []) few
        ≡ AText (value.Str []) ∷ ANumber (whole 0) ∷ [] }
{}
