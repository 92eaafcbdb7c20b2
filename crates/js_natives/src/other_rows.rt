//! Worked natives of errors, of the global object and of `host`: these calls do nothing, and each
//! says what a native asks and answers.

ghost use Rattle.std.specs.Prelude.{◌≡◌, ◌∷◌, [], Some, None, map, true, false, codes, replicate};
ghost use Rattle.js_values.specs.declared.reason.Reason.TheVariants as reason;
ghost use Rattle.js_values.specs.declared.value.Value.TheVariants as value;
ghost use Rattle.object_heap.specs.declared.object.Class.TheVariants as class;
ghost use Rattle.object_heap.specs.Arrays.{no_attributes, whole};
ghost use Rattle.object_heap.specs.Changes.{holding};
ghost use Rattle.object_heap.specs.Objects.{class_of, properties_of, prototype_of};
ghost use Rattle.js_natives.specs.declared.answer.Answer.TheVariants as answer;
ghost use Rattle.js_natives.specs.declared.answer.ErrorKind.TheVariants as kind;
ghost use Rattle.js_natives.specs.declared.native.Native.TheVariants as native;
ghost use Rattle.js_natives.specs.Rows.{AGet, AListener, ANumber, AText, answered, answers_to};
ghost use Rattle.js_natives.specs.Rows.{asks, few, gives, gives_text, left, minus, nan, o, one_object};
ghost use Rattle.js_natives.specs.Rows.{parsed, parsed_in, primitives};

/// `Error(..)` and those of the three kinds, and with `new`.
pub fn new_errors()
    ensures answered { answered native.Error value.Undefined [] few ≡ gives (o 13) }
    ensures classes { map (λ n. class_of (left n value.Undefined [] few) 13) (native.Error
        ∷ native.TypeError ∷ native.ReferenceError ∷ native.RangeError ∷ [])
        ≡ replicate 4 (Some class.Error) }
    ensures prototypes { map (λ n. prototype_of (left n value.Undefined [] few) 13) (native.Error
        ∷ native.TypeError ∷ native.ReferenceError ∷ native.RangeError ∷ [])
        ≡ Some 6 ∷ Some 7 ∷ Some 8 ∷ Some 9 ∷ [] }
    ensures without_message { map (λ n. map (λ args. properties_of
        (left n value.Undefined args few) 13) ([] ∷ (value.Undefined ∷ []) ∷ []))
        (native.Error ∷ native.TypeError ∷ native.ReferenceError ∷ native.RangeError ∷ [])
        ≡ replicate 4 (replicate 2 []) }
    ensures with_message { properties_of (left native.TypeError value.Undefined (whole 5 ∷ []) few)
        13 ≡ holding (codes "message") (value.Str (codes "5")) no_attributes ∷ [] }
    ensures with_empty_message { properties_of (left native.Error value.Undefined
        (value.Str [] ∷ []) few) 13 ≡ holding (codes "message") (value.Str []) no_attributes ∷ [] }
    ensures with_null { properties_of (left native.Error value.Undefined (value.Null ∷ []) few) 13
        ≡ holding (codes "message") (value.Str (codes "null")) no_attributes ∷ [] }
    ensures converted { asks native.RangeError value.Undefined (o 5 ∷ o 6 ∷ []) few
        ≡ AText (o 5) ∷ [] }
{}

/// `toString` of Error.prototype.
pub fn error_texts()
    ensures both { answered native.ErrorToString (o 13) [] (one_object class.Error
        (holding (codes "name") (value.Str (codes "E")) no_attributes
        ∷ holding (codes "message") (value.Str (codes "m")) no_attributes ∷ []))
        ≡ gives_text (codes "E: m") }
    ensures name_alone { answered native.ErrorToString (o 13) [] (one_object class.Error
        (holding (codes "name") (value.Str (codes "E")) no_attributes
        ∷ holding (codes "message") (value.Str []) no_attributes ∷ []))
        ≡ gives_text (codes "E") }
    ensures neither { answered native.ErrorToString (o 13) [] (one_object class.Plain [])
        ≡ gives_text (codes "undefined: undefined") }
    ensures order { asks native.ErrorToString (o 13) (o 5 ∷ []) (one_object class.Error
        (holding (codes "message") (o 7) no_attributes
        ∷ holding (codes "name") (o 6) no_attributes ∷ [])) ≡ AGet 13 (codes "name")
        ∷ AText (o 6) ∷ AGet 13 (codes "message") ∷ AText (o 7) ∷ [] }
    ensures of_primitives { answers_to native.ErrorToString primitives
        ≡ replicate 3 (answer.Stop reason.Wrapper) }
{}

/// `parseInt`.
pub fn parsed_numbers()
    ensures decimal { parsed (codes "12px") ≡ gives (whole 12) }
    ensures signs { map parsed (codes "-12" ∷ codes "+12" ∷ codes "--12" ∷ codes "- 12" ∷ [])
        ≡ gives (minus 12) ∷ gives (whole 12) ∷ gives nan ∷ gives nan ∷ [] }
    ensures blanks { map parsed (codes "\t\n 7" ∷ (0xA0 ∷ 0x3000 ∷ 55 ∷ []) ∷ codes "7 8" ∷ [])
        ≡ replicate 3 (gives (whole 7)) }
    ensures leading_zeros { map parsed (codes "010" ∷ codes "08" ∷ [])
        ≡ gives (whole 10) ∷ gives (whole 8) ∷ [] }
    ensures hexadecimal { map parsed (codes "0x1f" ∷ codes "0X1F" ∷ codes "-0x1f" ∷ [])
        ≡ gives (whole 31) ∷ gives (whole 31) ∷ gives (minus 31) ∷ [] }
    ensures no_digits { map parsed ([] ∷ codes "0x" ∷ codes "px" ∷ codes ".5" ∷ codes "-" ∷ [])
        ≡ replicate 5 (gives nan) }
    ensures up_to_a_point { map parsed (codes "1.9" ∷ codes "1e3" ∷ [])
        ≡ replicate 2 (gives (whole 1)) }
    ensures minus_zero { parsed (codes "-0") ≡ gives (whole 0) }
    ensures greatest { map parsed (codes "9007199254740991" ∷ codes "9007199254740992"
        ∷ codes "-9007199254740992" ∷ []) ≡ gives (whole 9007199254740991)
        ∷ answer.Stop reason.TooLarge ∷ answer.Stop reason.TooLarge ∷ [] }
    ensures in_a_radix { parsed_in (codes "z") (whole 36) ≡ gives (whole 35) }
    ensures in_two { parsed_in (codes "1012") (whole 2) ≡ gives (whole 5) }
    ensures in_sixteen { map (λ s. parsed_in s (whole 16)) (codes "0x1f" ∷ codes "1f" ∷ [])
        ≡ replicate 2 (gives (whole 31)) }
    ensures no_prefix_in_ten { parsed_in (codes "0x1f") (whole 10) ≡ gives (whole 0) }
    ensures no_radix { map (parsed_in (codes "0x1f")) (whole 0 ∷ value.Undefined ∷ nan
        ∷ value.Null ∷ []) ≡ replicate 4 (gives (whole 31)) }
    ensures bad_radix { map (parsed_in (codes "1")) (whole 1 ∷ whole 37 ∷ minus 2 ∷ [])
        ≡ replicate 3 (gives nan) }
    ensures radix_of_32_bits { parsed_in (codes "11") (whole 4294967298) ≡ gives (whole 3) }
    ensures of_nothing { answered native.ParseInt (o 12) [] few ≡ gives nan }
    ensures of_a_number { answered native.ParseInt (o 12) (minus 12 ∷ []) few ≡ gives (minus 12) }
    ensures order { asks native.ParseInt (o 12) (o 5 ∷ o 6 ∷ []) few
        ≡ AText (o 5) ∷ ANumber (o 6) ∷ [] }
{}

/// `isNaN`.
pub fn not_numbers()
    ensures of_each { map (λ v. answered native.IsNan (o 12) (v ∷ []) few) (nan ∷ value.Undefined
        ∷ value.Str (codes "a") ∷ []) ≡ replicate 3 (gives (value.Bool true)) }
    ensures of_numbers { map (λ v. answered native.IsNan (o 12) (v ∷ []) few) (whole 5 ∷ value.Null
        ∷ value.Str [] ∷ value.Bool true ∷ []) ≡ replicate 4 (gives (value.Bool false)) }
    ensures of_nothing { answered native.IsNan (o 12) [] few ≡ gives (value.Bool true) }
    ensures converted { asks native.IsNan (o 12) (o 5 ∷ o 6 ∷ []) few ≡ ANumber (o 5) ∷ [] }
    ensures stops { answered native.IsNan (o 12) (value.Str (codes "Infinity") ∷ []) few
        ≡ answer.Stop reason.NumberText }
{}

/// `host.on`. The function is 13.
pub fn listeners()
    ensures registered { asks native.On (o 11) (whole 5 ∷ o 13 ∷ []) (one_object class.Function [])
        ≡ AText (whole 5) ∷ AListener (codes "5") 13 ∷ [] }
    ensures answered { answered native.On (o 11) (value.Str (codes "go") ∷ o 13 ∷ [])
        (one_object class.Function []) ≡ gives value.Undefined }
    ensures no_functions { map (λ c. answered native.On (o 11) (value.Str (codes "go") ∷ o 13 ∷ [])
        (one_object c [])) (class.Plain ∷ class.Array ∷ class.Arguments ∷ class.Error ∷ class.Math
        ∷ []) ≡ replicate 5 (answer.Throw kind.TypeError) }
    ensures no_objects { map (λ v. answered native.On (o 11) (value.Str (codes "go") ∷ v ∷ []) few)
        (value.Undefined ∷ value.Null ∷ primitives) ≡ replicate 5 (answer.Throw kind.TypeError) }
    ensures nothing { answered native.On (o 11) [] few ≡ answer.Throw kind.TypeError }
    ensures converted_first { asks native.On (o 11) (o 5 ∷ whole 6 ∷ []) few ≡ AText (o 5) ∷ [] }
    ensures any_this { asks native.On (value.Str []) (value.Str (codes "go") ∷ o 13 ∷ [])
        (one_object class.Function []) ≡ AText (value.Str (codes "go"))
        ∷ AListener (codes "go") 13 ∷ [] }
{}
