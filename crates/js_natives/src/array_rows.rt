//! Worked natives of Array and of Array.prototype, but for those that move elements: these calls do
//! nothing, and each says what a native asks, answers and leaves.

ghost use Rattle.std.specs.Prelude.{◌≡◌, ◌∷◌, [], ◌++◌, Some, None, map, true, codes, replicate};
ghost use Rattle.js_values.specs.declared.reason.Reason.TheVariants as reason;
ghost use Rattle.js_values.specs.declared.value.Value.TheVariants as value;
ghost use Rattle.object_heap.specs.declared.object.Class.TheVariants as class;
ghost use Rattle.object_heap.specs.Arrays.{length_in, no_attributes, whole};
ghost use Rattle.object_heap.specs.Changes.{holding};
ghost use Rattle.object_heap.specs.Names.{length_name};
ghost use Rattle.object_heap.specs.Objects.{class_of, properties_of, prototype_of};
ghost use Rattle.js_natives.specs.declared.answer.Answer.TheVariants as answer;
ghost use Rattle.js_natives.specs.declared.answer.ErrorKind.TheVariants as kind;
ghost use Rattle.js_natives.specs.declared.native.Native.TheVariants as native;
ghost use Rattle.js_natives.specs.Arrays.{pushed};
ghost use Rattle.js_natives.specs.Asks.{ended};
ghost use Rattle.js_natives.specs.Rows.{AGet, ANumber, APut, AStep, AText, answered, answers_to};
ghost use Rattle.js_natives.specs.Rows.{array_of, array_over, asks, elements_of, few, full_array};
ghost use Rattle.js_natives.specs.Rows.{gives, gives_text, left, made_by, minus, nan, o, on_array};
ghost use Rattle.js_natives.specs.Rows.{one_array, one_object, own_value, primitives, run, steps};
ghost use Rattle.js_natives.specs.Rows.{two_arrays, wholes};

/// `Array(..)` and `new Array(..)`.
pub fn new_arrays()
    ensures of_none { elements_of (left native.Array value.Undefined [] few) 13 ≡ [] }
    ensures answered { answered native.Array value.Undefined [] few ≡ gives (o 13) }
    ensures its_class { class_of (left native.Array value.Undefined [] few) 13
        ≡ Some class.Array }
    ensures its_prototype { prototype_of (left native.Array value.Undefined [] few) 13 ≡ Some 2 }
    ensures of_two { elements_of (left native.Array value.Undefined (whole 4 ∷ o 5 ∷ []) few) 13
        ≡ Some (whole 4) ∷ Some (o 5) ∷ [] }
    ensures of_a_length { elements_of (left native.Array value.Undefined (whole 3 ∷ []) few) 13
        ≡ None ∷ None ∷ None ∷ [] }
    ensures of_a_text { elements_of (left native.Array value.Undefined
        (value.Str (codes "3") ∷ []) few) 13 ≡ Some (value.Str (codes "3")) ∷ [] }
    ensures of_undefined { elements_of (left native.Array value.Undefined
        (value.Undefined ∷ []) few) 13 ≡ Some value.Undefined ∷ [] }
    ensures greatest { length_in (properties_of (left native.Array value.Undefined
        (whole 4294967295 ∷ []) few) 13) ≡ 4294967295 }
    ensures no_length { map (λ v. answered native.Array value.Undefined (v ∷ []) few)
        (whole 4294967296 ∷ minus 1 ∷ nan ∷ []) ≡ replicate 3 (answer.Throw kind.RangeError) }
    ensures nothing_is_asked { asks native.Array value.Undefined (o 5 ∷ o 6 ∷ []) few ≡ [] }
{}

/// `toString` of Array.prototype.
pub fn array_texts()
    ensures joined { answered native.ArrayToString (o 13) [] (one_array (wholes (1 ∷ 2 ∷ 3 ∷ [])))
        ≡ gives_text (codes "1,2,3") }
    ensures no_separator { answered native.ArrayToString (o 13) (value.Str (codes "-") ∷ [])
        (one_array (wholes (1 ∷ 2 ∷ []))) ≡ gives_text (codes "1,2") }
    ensures takes_steps { steps native.ArrayToString (o 13) [] (one_array (wholes (1 ∷ 2 ∷ 3 ∷ [])))
        ≡ 2 }
    ensures of_others { map (λ c. answered native.ArrayToString (o 13) [] (one_object c []))
        (class.Plain ∷ class.Function ∷ class.Arguments ∷ class.Error ∷ class.Math ∷ [])
        ≡ replicate 5 (answer.Throw kind.TypeError) }
    ensures of_the_global_object { answers_to native.ArrayToString (value.Undefined ∷ [])
        ≡ answer.Throw kind.TypeError ∷ [] }
    ensures of_primitives { answers_to native.ArrayToString primitives
        ≡ replicate 3 (answer.Stop reason.Wrapper) }
{}

/// `join`.
pub fn joined_elements()
    ensures with_a_separator { answered native.Join (o 13) (value.Str (codes "-") ∷ [])
        (one_array (Some (whole 1) ∷ Some (o 5) ∷ Some (value.Bool true) ∷ []))
        ≡ gives_text (codes "1-o5-true") }
    ensures without { answered native.Join (o 13) [] (one_array (wholes (1 ∷ 2 ∷ [])))
        ≡ gives_text (codes "1,2") }
    ensures with_undefined { answered native.Join (o 13) (value.Undefined ∷ [])
        (one_array (wholes (1 ∷ 2 ∷ []))) ≡ gives_text (codes "1,2") }
    ensures with_null { answered native.Join (o 13) (value.Null ∷ [])
        (one_array (wholes (1 ∷ 2 ∷ []))) ≡ gives_text (codes "1null2") }
    ensures holes { answered native.Join (o 13) []
        (one_array (None ∷ Some value.Undefined ∷ Some value.Null ∷ None ∷ []))
        ≡ gives_text (codes ",,,") }
    ensures steps_on_holes { steps native.Join (o 13) []
        (one_array (None ∷ Some value.Undefined ∷ Some value.Null ∷ None ∷ [])) ≡ 3 }
    ensures inherited { answered native.Join (o 14) [] (array_over (Some (whole 1) ∷ None ∷ []))
        ≡ gives_text (codes "1,7") }
    ensures of_one { on_array native.Join [] (wholes (8 ∷ []))
        ≡ (gives_text (codes "8"), wholes (8 ∷ []), 0) }
    ensures of_none { asks native.Join (o 13) (o 5 ∷ []) (one_array [])
        ≡ AGet 13 length_name ∷ ANumber (whole 0) ∷ AText (o 5) ∷ [] }
    ensures of_none_is_empty { answered native.Join (o 13) [] (one_array []) ≡ gives_text [] }
    ensures order { asks native.Join (o 13) (o 5 ∷ []) (one_array (Some (o 6) ∷ Some (o 7) ∷ []))
        ≡ AGet 13 length_name ∷ ANumber (whole 2) ∷ AText (o 5) ∷ AGet 13 (codes "0")
        ∷ AText (o 6) ∷ AStep ∷ AGet 13 (codes "1") ∷ AText (o 7) ∷ [] }
    ensures of_no_array { answered native.Join (o 13) [] (one_object class.Plain
        (holding length_name (value.Str (codes "2")) no_attributes
        ∷ holding (codes "1") (whole 5) no_attributes ∷ [])) ≡ gives_text (codes ",5") }
    ensures length_of_32_bits { answered native.Join (o 13) [] (one_object class.Plain
        (holding length_name (whole 4294967297) no_attributes
        ∷ holding (codes "0") (whole 5) no_attributes ∷ [])) ≡ gives_text (codes "5") }
    ensures length_stops { answered native.Join (o 13) [] (one_object class.Plain
        (holding length_name (value.Str (codes "1.5")) no_attributes ∷ []))
        ≡ answer.Stop reason.NumberText }
    ensures of_primitives { answers_to native.Join primitives
        ≡ replicate 3 (answer.Stop reason.Wrapper) }
    ensures of_the_global_object { answers_to native.Join (value.Null ∷ []) ≡ gives_text [] ∷ [] }
{}

/// `concat`.
pub fn concatenated_arrays()
    ensures arrays_and_values { elements_of (left native.ArrayConcat (o 13)
        (o 14 ∷ whole 9 ∷ o 5 ∷ []) (two_arrays (wholes (1 ∷ 2 ∷ [])) (wholes (3 ∷ 4 ∷ [])))) 15
        ≡ wholes (1 ∷ 2 ∷ 3 ∷ 4 ∷ 9 ∷ []) ++ Some (o 5) ∷ [] }
    ensures answered { answered native.ArrayConcat (o 13) [] (one_array []) ≡ gives (o 14) }
    ensures once { elements_of (left native.ArrayConcat (o 13) (o 14 ∷ [])
        (two_arrays (wholes (1 ∷ [])) (Some (o 13) ∷ []))) 15 ≡ Some (whole 1) ∷ Some (o 13) ∷ [] }
    ensures holes { made_by native.ArrayConcat (whole 7 ∷ []) (Some (whole 1) ∷ None ∷ [])
        ≡ Some (whole 1) ∷ None ∷ Some (whole 7) ∷ [] }
    ensures last_hole { made_by native.ArrayConcat [] (Some (whole 1) ∷ None ∷ [])
        ≡ Some (whole 1) ∷ None ∷ [] }
    ensures not_inherited { elements_of (left native.ArrayConcat (o 14) []
        (array_over (Some (whole 1) ∷ None ∷ []))) 15 ≡ Some (whole 1) ∷ None ∷ [] }
    ensures of_no_array { elements_of (left native.ArrayConcat (o 13) (whole 7 ∷ [])
        (one_object class.Arguments (holding length_name (whole 1) no_attributes ∷ []))) 14
        ≡ Some (o 13) ∷ Some (whole 7) ∷ [] }
    ensures steps_of_each { steps native.ArrayConcat (o 13) (o 14 ∷ whole 9 ∷ o 13 ∷ [])
        (two_arrays (Some (whole 1) ∷ None ∷ []) (wholes (3 ∷ 4 ∷ 5 ∷ []))) ≡ 7 }
    ensures order { asks native.ArrayConcat (o 13) [] (one_array (Some (o 5) ∷ None ∷ []))
        ≡ AGet 13 length_name ∷ AStep ∷ AGet 13 (codes "0") ∷ AStep
        ∷ APut 14 length_name (whole 2) ∷ [] }
    ensures itself_stays { left native.ArrayConcat (o 13) [] (one_array (wholes (1 ∷ [])))
        ≡ one_array (wholes (1 ∷ [])) ++ array_of (wholes (1 ∷ [])) ∷ [] }
    ensures of_primitives { answers_to native.ArrayConcat primitives
        ≡ replicate 3 (answer.Stop reason.Wrapper) }
{}

/// `pop`.
pub fn popped_elements()
    ensures last { on_array native.Pop [] (wholes (1 ∷ 2 ∷ 3 ∷ []))
        ≡ (gives (whole 3), wholes (1 ∷ 2 ∷ []), 0) }
    ensures hole { on_array native.Pop [] (Some (whole 1) ∷ None ∷ [])
        ≡ (gives value.Undefined, wholes (1 ∷ []), 0) }
    ensures of_none { on_array native.Pop [] [] ≡ (gives value.Undefined, [], 0) }
    ensures order { asks native.Pop (o 13) [] (one_array (wholes (1 ∷ 2 ∷ [])))
        ≡ AGet 13 length_name ∷ ANumber (whole 2) ∷ AGet 13 (codes "1")
        ∷ APut 13 length_name (whole 1) ∷ [] }
    ensures of_no_length { asks native.Pop (o 13) [] (one_object class.Plain [])
        ≡ AGet 13 length_name ∷ ANumber value.Undefined ∷ APut 13 length_name (whole 0) ∷ [] }
    ensures of_no_array { own_value (left native.Pop (o 13) [] (one_object class.Plain
        (holding length_name (whole 3) no_attributes ∷ holding (codes "2") (whole 5) no_attributes
        ∷ []))) 13 (codes "2") ≡ None }
    ensures of_primitives { answers_to native.Pop primitives
        ≡ replicate 3 (answer.Stop reason.Wrapper) }
{}

/// `push`.
pub fn pushed_elements()
    ensures two { on_array native.Push (whole 7 ∷ whole 8 ∷ []) (wholes (1 ∷ []))
        ≡ (gives (whole 3), wholes (1 ∷ 7 ∷ 8 ∷ []), 0) }
    ensures none { on_array native.Push [] (wholes (1 ∷ []))
        ≡ (gives (whole 1), wholes (1 ∷ []), 0) }
    ensures order { asks native.Push (o 13) (o 5 ∷ o 6 ∷ []) (one_array (wholes (1 ∷ [])))
        ≡ AGet 13 length_name ∷ ANumber (whole 1) ∷ APut 13 (codes "1") (o 5)
        ∷ APut 13 (codes "2") (o 6) ∷ APut 13 length_name (whole 3) ∷ [] }
    ensures greatest { answered native.Push (o 13) [] full_array ≡ gives (whole 4294967295) }
    ensures too_many { (run (ended (pushed [] 13 4294967296)) full_array).answer
        ≡ answer.Throw kind.RangeError }
    ensures of_no_array { own_value (left native.Push (o 13) (whole 7 ∷ [])
        (one_object class.Plain [])) 13 length_name ≡ Some (whole 1) }
    ensures of_primitives { answers_to native.Push primitives
        ≡ replicate 3 (answer.Stop reason.Wrapper) }
{}
