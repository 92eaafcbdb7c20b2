//! Worked natives of Array.prototype that move elements: these calls do nothing, and each says what
//! a native asks, answers and leaves. A triple is the answer, the elements that the array then has,
//! and the steps.

ghost use Rattle.std.specs.Prelude.{◌≡◌, ◌∷◌, [], ◌++◌, Some, None, codes, replicate};
ghost use Rattle.js_values.specs.declared.reason.Reason.TheVariants as reason;
ghost use Rattle.js_values.specs.declared.value.Value.TheVariants as value;
ghost use Rattle.object_heap.specs.declared.object.Class.TheVariants as class;
ghost use Rattle.object_heap.specs.Arrays.{no_attributes, whole};
ghost use Rattle.object_heap.specs.Changes.{holding};
ghost use Rattle.object_heap.specs.Names.{length_name};
ghost use Rattle.js_natives.specs.declared.answer.Answer.TheVariants as answer;
ghost use Rattle.js_natives.specs.declared.answer.ErrorKind.TheVariants as kind;
ghost use Rattle.js_natives.specs.declared.native.Native.TheVariants as native;
ghost use Rattle.js_natives.specs.Rows.{AGet, ANumber, APut, AStep, answers_to, array_over};
ghost use Rattle.js_natives.specs.Rows.{asks, elements_of, full_array, gives, left, made_by, minus};
ghost use Rattle.js_natives.specs.Rows.{nan, o, on_array, one_array, one_object, own_value};
ghost use Rattle.js_natives.specs.Rows.{primitives, wholes};

/// `reverse`.
pub fn reversed_elements()
    ensures even { on_array native.Reverse [] (wholes (1 ∷ 2 ∷ 3 ∷ 4 ∷ []))
        ≡ (gives (o 13), wholes (4 ∷ 3 ∷ 2 ∷ 1 ∷ []), 2) }
    ensures odd { on_array native.Reverse [] (wholes (1 ∷ 2 ∷ 3 ∷ []))
        ≡ (gives (o 13), wholes (3 ∷ 2 ∷ 1 ∷ []), 1) }
    ensures of_none { on_array native.Reverse [] [] ≡ (gives (o 13), [], 0) }
    ensures upper_hole { on_array native.Reverse [] (Some (whole 1) ∷ None ∷ [])
        ≡ (gives (o 13), None ∷ Some (whole 1) ∷ [], 1) }
    ensures lower_hole { on_array native.Reverse [] (None ∷ Some (whole 2) ∷ [])
        ≡ (gives (o 13), Some (whole 2) ∷ None ∷ [], 1) }
    ensures two_holes { on_array native.Reverse [] (None ∷ Some (whole 2) ∷ None ∷ [])
        ≡ (gives (o 13), None ∷ Some (whole 2) ∷ None ∷ [], 1) }
    ensures order { asks native.Reverse (o 13) [] (one_array (wholes (1 ∷ 2 ∷ 3 ∷ [])))
        ≡ AGet 13 length_name ∷ ANumber (whole 3) ∷ AStep ∷ AGet 13 (codes "0")
        ∷ AGet 13 (codes "2") ∷ APut 13 (codes "0") (whole 3) ∷ APut 13 (codes "2") (whole 1)
        ∷ [] }
    ensures of_primitives { answers_to native.Reverse primitives
        ≡ replicate 3 (answer.Stop reason.Wrapper) }
{}

/// `shift`.
pub fn shifted_elements()
    ensures three { on_array native.Shift [] (wholes (1 ∷ 2 ∷ 3 ∷ []))
        ≡ (gives (whole 1), wholes (2 ∷ 3 ∷ []), 2) }
    ensures one { on_array native.Shift [] (wholes (1 ∷ [])) ≡ (gives (whole 1), [], 0) }
    ensures of_none { on_array native.Shift [] [] ≡ (gives value.Undefined, [], 0) }
    ensures hole { on_array native.Shift [] (Some (whole 1) ∷ None ∷ Some (whole 3) ∷ [])
        ≡ (gives (whole 1), None ∷ Some (whole 3) ∷ [], 2) }
    ensures first_hole { on_array native.Shift [] (None ∷ Some (whole 2) ∷ [])
        ≡ (gives value.Undefined, wholes (2 ∷ []), 1) }
    ensures order { asks native.Shift (o 13) [] (one_array (wholes (1 ∷ 2 ∷ 3 ∷ [])))
        ≡ AGet 13 length_name ∷ ANumber (whole 3) ∷ AGet 13 (codes "0")
        ∷ AStep ∷ AGet 13 (codes "1") ∷ APut 13 (codes "0") (whole 2)
        ∷ AStep ∷ AGet 13 (codes "2") ∷ APut 13 (codes "1") (whole 3)
        ∷ APut 13 length_name (whole 2) ∷ [] }
    ensures order_of_none { asks native.Shift (o 13) [] (one_array [])
        ≡ AGet 13 length_name ∷ ANumber (whole 0) ∷ APut 13 length_name (whole 0) ∷ [] }
    ensures of_primitives { answers_to native.Shift primitives
        ≡ replicate 3 (answer.Stop reason.Wrapper) }
{}

/// `slice` of Array.prototype.
pub fn sliced_arrays()
    ensures between { made_by native.ArraySlice (whole 1 ∷ whole 3 ∷ [])
        (wholes (1 ∷ 2 ∷ 3 ∷ 4 ∷ [])) ≡ wholes (2 ∷ 3 ∷ []) }
    ensures from_the_end { made_by native.ArraySlice (minus 3 ∷ minus 1 ∷ [])
        (wholes (1 ∷ 2 ∷ 3 ∷ 4 ∷ [])) ≡ wholes (2 ∷ 3 ∷ []) }
    ensures past_the_ends { made_by native.ArraySlice (minus 9 ∷ whole 9 ∷ [])
        (wholes (1 ∷ 2 ∷ [])) ≡ wholes (1 ∷ 2 ∷ []) }
    ensures all { made_by native.ArraySlice [] (wholes (1 ∷ 2 ∷ [])) ≡ wholes (1 ∷ 2 ∷ []) }
    ensures undefined_end { made_by native.ArraySlice (whole 1 ∷ value.Undefined ∷ [])
        (wholes (1 ∷ 2 ∷ [])) ≡ wholes (2 ∷ []) }
    ensures null_end { made_by native.ArraySlice (nan ∷ value.Null ∷ []) (wholes (1 ∷ 2 ∷ []))
        ≡ [] }
    ensures crossed { made_by native.ArraySlice (whole 3 ∷ whole 1 ∷ [])
        (wholes (1 ∷ 2 ∷ 3 ∷ 4 ∷ [])) ≡ [] }
    ensures holes { made_by native.ArraySlice (whole 1 ∷ [])
        (Some (whole 1) ∷ None ∷ Some (whole 3) ∷ None ∷ []) ≡ None ∷ Some (whole 3) ∷ None ∷ [] }
    ensures not_inherited { elements_of (left native.ArraySlice (o 14) []
        (array_over (Some (whole 1) ∷ None ∷ []))) 15 ≡ Some (whole 1) ∷ None ∷ [] }
    ensures steps_of_each { on_array native.ArraySlice (whole 1 ∷ [])
        (Some (whole 1) ∷ None ∷ Some (whole 3) ∷ None ∷ [])
        ≡ (gives (o 14), Some (whole 1) ∷ None ∷ Some (whole 3) ∷ None ∷ [], 3) }
    ensures order { asks native.ArraySlice (o 13) (o 1 ∷ o 2 ∷ []) (one_array (wholes (1 ∷ 2 ∷ [])))
        ≡ AGet 13 length_name ∷ ANumber (whole 2) ∷ ANumber (o 1) ∷ ANumber (o 2) ∷ AStep
        ∷ AGet 13 (codes "1") ∷ [] }
    ensures of_primitives { answers_to native.ArraySlice primitives
        ≡ replicate 3 (answer.Stop reason.Wrapper) }
{}

/// What `splice` takes out.
pub fn taken_out()
    ensures two { made_by native.Splice (whole 1 ∷ whole 2 ∷ []) (wholes (1 ∷ 2 ∷ 3 ∷ 4 ∷ 5 ∷ []))
        ≡ wholes (2 ∷ 3 ∷ []) }
    ensures from_the_end { made_by native.Splice (minus 2 ∷ whole 1 ∷ [])
        (wholes (1 ∷ 2 ∷ 3 ∷ 4 ∷ 5 ∷ [])) ≡ wholes (4 ∷ []) }
    ensures past_the_end { made_by native.Splice (whole 3 ∷ whole 99 ∷ [])
        (wholes (1 ∷ 2 ∷ 3 ∷ 4 ∷ 5 ∷ [])) ≡ wholes (4 ∷ 5 ∷ []) }
    ensures negative_count { made_by native.Splice (whole 1 ∷ minus 2 ∷ []) (wholes (1 ∷ 2 ∷ []))
        ≡ [] }
    ensures no_count { made_by native.Splice (whole 1 ∷ []) (wholes (1 ∷ 2 ∷ [])) ≡ [] }
    ensures nothing { made_by native.Splice [] (wholes (1 ∷ 2 ∷ [])) ≡ [] }
    ensures holes { made_by native.Splice (whole 0 ∷ whole 3 ∷ [])
        (None ∷ Some (whole 2) ∷ None ∷ []) ≡ None ∷ Some (whole 2) ∷ None ∷ [] }
    ensures order { asks native.Splice (o 13) (o 1 ∷ o 2 ∷ []) (one_array (wholes (1 ∷ [])))
        ≡ AGet 13 length_name ∷ ANumber (whole 1) ∷ ANumber (o 1) ∷ ANumber (o 2)
        ∷ APut 13 length_name (whole 1) ∷ [] }
    ensures of_primitives { answers_to native.Splice primitives
        ≡ replicate 3 (answer.Stop reason.Wrapper) }
{}

/// What `splice` leaves.
pub fn spliced_elements()
    ensures fewer { on_array native.Splice (whole 1 ∷ whole 2 ∷ [])
        (wholes (1 ∷ 2 ∷ 3 ∷ 4 ∷ 5 ∷ [])) ≡ (gives (o 14), wholes (1 ∷ 4 ∷ 5 ∷ []), 6) }
    ensures as_many { on_array native.Splice (whole 1 ∷ whole 2 ∷ whole 8 ∷ whole 9 ∷ [])
        (wholes (1 ∷ 2 ∷ 3 ∷ 4 ∷ [])) ≡ (gives (o 14), wholes (1 ∷ 8 ∷ 9 ∷ 4 ∷ []), 2) }
    ensures more { on_array native.Splice (whole 1 ∷ whole 1 ∷ whole 7 ∷ whole 8 ∷ whole 9 ∷ [])
        (wholes (1 ∷ 2 ∷ 3 ∷ 4 ∷ [])) ≡ (gives (o 14), wholes (1 ∷ 7 ∷ 8 ∷ 9 ∷ 3 ∷ 4 ∷ []), 3) }
    ensures only_in { on_array native.Splice (whole 1 ∷ whole 0 ∷ whole 7 ∷ [])
        (wholes (1 ∷ 2 ∷ [])) ≡ (gives (o 14), wholes (1 ∷ 7 ∷ 2 ∷ []), 1) }
    ensures nothing { on_array native.Splice [] (wholes (1 ∷ 2 ∷ []))
        ≡ (gives (o 14), wholes (1 ∷ 2 ∷ []), 0) }
    ensures holes_to_the_left { on_array native.Splice (whole 0 ∷ whole 1 ∷ [])
        (wholes (1 ∷ 2 ∷ []) ++ None ∷ Some (whole 4) ∷ [])
        ≡ (gives (o 14), Some (whole 2) ∷ None ∷ Some (whole 4) ∷ [], 5) }
    ensures holes_to_the_right { on_array native.Splice (whole 0 ∷ whole 0 ∷ whole 9 ∷ [])
        (Some (whole 1) ∷ None ∷ Some (whole 3) ∷ [])
        ≡ (gives (o 14), Some (whole 9) ∷ Some (whole 1) ∷ None ∷ Some (whole 3) ∷ [], 3) }
    ensures from_the_left { asks native.Splice (o 13) (whole 0 ∷ whole 1 ∷ [])
        (one_array (wholes (1 ∷ 2 ∷ 3 ∷ []))) ≡ AGet 13 length_name ∷ ANumber (whole 3)
        ∷ ANumber (whole 0) ∷ ANumber (whole 1) ∷ AStep ∷ AGet 13 (codes "0")
        ∷ AStep ∷ AGet 13 (codes "1") ∷ APut 13 (codes "0") (whole 2)
        ∷ AStep ∷ AGet 13 (codes "2") ∷ APut 13 (codes "1") (whole 3)
        ∷ AStep ∷ APut 13 length_name (whole 2) ∷ [] }
    ensures from_the_right { asks native.Splice (o 13) (whole 0 ∷ whole 0 ∷ o 9 ∷ [])
        (one_array (wholes (1 ∷ 2 ∷ []))) ≡ AGet 13 length_name ∷ ANumber (whole 2)
        ∷ ANumber (whole 0) ∷ ANumber (whole 0) ∷ AStep ∷ AGet 13 (codes "1")
        ∷ APut 13 (codes "2") (whole 2) ∷ AStep ∷ AGet 13 (codes "0")
        ∷ APut 13 (codes "1") (whole 1) ∷ APut 13 (codes "0") (o 9)
        ∷ APut 13 length_name (whole 3) ∷ [] }
    ensures of_no_array { own_value (left native.Splice (o 13) (whole 0 ∷ whole 1 ∷ [])
        (one_object class.Plain (holding length_name (whole 2) no_attributes
        ∷ holding (codes "1") (whole 5) no_attributes ∷ []))) 13 (codes "1") ≡ None }
{}

/// `unshift`.
pub fn unshifted_elements()
    ensures two { on_array native.Unshift (whole 8 ∷ whole 9 ∷ []) (wholes (1 ∷ 2 ∷ []))
        ≡ (gives (whole 4), wholes (8 ∷ 9 ∷ 1 ∷ 2 ∷ []), 2) }
    ensures none { on_array native.Unshift [] (wholes (1 ∷ 2 ∷ []))
        ≡ (gives (whole 2), wholes (1 ∷ 2 ∷ []), 2) }
    ensures into_none { on_array native.Unshift (whole 8 ∷ []) []
        ≡ (gives (whole 1), wholes (8 ∷ []), 0) }
    ensures holes { on_array native.Unshift (whole 9 ∷ []) (Some (whole 1) ∷ None ∷ [])
        ≡ (gives (whole 3), Some (whole 9) ∷ Some (whole 1) ∷ None ∷ [], 2) }
    ensures order { asks native.Unshift (o 13) (o 8 ∷ o 9 ∷ []) (one_array (wholes (1 ∷ 2 ∷ [])))
        ≡ AGet 13 length_name ∷ ANumber (whole 2) ∷ AStep ∷ AGet 13 (codes "1")
        ∷ APut 13 (codes "3") (whole 2) ∷ AStep ∷ AGet 13 (codes "0")
        ∷ APut 13 (codes "2") (whole 1) ∷ APut 13 (codes "0") (o 8) ∷ APut 13 (codes "1") (o 9)
        ∷ APut 13 length_name (whole 4) ∷ [] }
    ensures of_primitives { answers_to native.Unshift primitives
        ≡ replicate 3 (answer.Stop reason.Wrapper) }
{}
