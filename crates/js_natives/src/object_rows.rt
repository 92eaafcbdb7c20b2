//! Worked natives of Object, Object.prototype and Function.prototype: these calls do nothing, and
//! each says what a native asks and answers.

ghost use Rattle.std.specs.Prelude.{◌≡◌, ◌∷◌, [], ◌++◌, Some, None, map, true, false, codes};
ghost use Rattle.std.specs.Prelude.{replicate};
ghost use Rattle.js_values.specs.declared.reason.Reason.TheVariants as reason;
ghost use Rattle.js_values.specs.declared.value.Value.TheVariants as value;
ghost use Rattle.object_heap.specs.declared.object.Class.TheVariants as class;
ghost use Rattle.object_heap.specs.Arrays.{no_attributes, whole};
ghost use Rattle.object_heap.specs.Changes.{hidden_only, holding, made};
ghost use Rattle.object_heap.specs.Objects.{class_of, prototype_of};
ghost use Rattle.js_natives.specs.declared.answer.Answer.TheVariants as answer;
ghost use Rattle.js_natives.specs.declared.answer.ErrorKind.TheVariants as kind;
ghost use Rattle.js_natives.specs.declared.native.Native.TheVariants as native;
ghost use Rattle.js_natives.specs.Rows.{AText, answered, answers_to, asks, few, gives, gives_text};
ghost use Rattle.js_natives.specs.Rows.{left, o, one_object, primitives, two_behind};

/// `Object(v)` and `new Object(v)`.
pub fn objects_of_values()
    ensures new_one { answered native.Object value.Undefined [] few ≡ gives (o 13) }
    ensures its_class { class_of (left native.Object value.Undefined [] few) 13 ≡ Some class.Plain }
    ensures its_prototype { prototype_of (left native.Object value.Undefined [] few) 13 ≡ Some 0 }
    ensures of_undefined { answered native.Object (o 3) (value.Undefined ∷ []) few ≡ gives (o 13) }
    ensures of_null { answered native.Object (o 3) (value.Null ∷ []) few ≡ gives (o 13) }
    ensures of_an_object { answered native.Object (o 3) (o 5 ∷ []) few ≡ gives (o 5) }
    ensures no_new_one { left native.Object (o 3) (o 5 ∷ []) few ≡ few }
    ensures of_primitives { map (λ v. answered native.Object (o 3) (v ∷ []) few) primitives
        ≡ replicate 3 (answer.Stop reason.Wrapper) }
{}

/// `toString` and `valueOf` of Object.prototype.
pub fn object_texts()
    ensures classes { map (λ c. answered native.ObjectToString (o 13) [] (one_object c []))
        (class.Plain ∷ class.Function ∷ class.Array ∷ class.Arguments ∷ class.Error ∷ class.Math
        ∷ []) ≡ gives_text (codes "[object Object]") ∷ gives_text (codes "[object Function]")
        ∷ gives_text (codes "[object Array]") ∷ gives_text (codes "[object Object]")
        ∷ gives_text (codes "[object Error]") ∷ gives_text (codes "[object Math]") ∷ [] }
    ensures of_the_global_object { answers_to native.ObjectToString (value.Undefined ∷ value.Null
        ∷ []) ≡ replicate 2 (gives_text (codes "[object Object]")) }
    ensures of_primitives { answers_to native.ObjectToString primitives
        ≡ replicate 3 (answer.Stop reason.Wrapper) }
    ensures value { answered native.ObjectValueOf (o 5) (o 6 ∷ []) few ≡ gives (o 5) }
    ensures global_value { answers_to native.ObjectValueOf (value.Undefined ∷ value.Null ∷ [])
        ≡ replicate 2 (gives (o 12)) }
    ensures no_value { answers_to native.ObjectValueOf primitives
        ≡ replicate 3 (answer.Stop reason.Wrapper) }
{}

/// `hasOwnProperty`. In the heap 13 has a and a hidden b, and stands behind 14, which has c.
pub fn own_properties()
    ensures own { answered native.HasOwnProperty (o 13) (value.Str (codes "a") ∷ []) two_behind
        ≡ gives (value.Bool true) }
    ensures hidden { answered native.HasOwnProperty (o 13) (value.Str (codes "b") ∷ []) two_behind
        ≡ gives (value.Bool true) }
    ensures inherited { answered native.HasOwnProperty (o 14) (value.Str (codes "a") ∷ [])
        two_behind ≡ gives (value.Bool false) }
    ensures none { answered native.HasOwnProperty (o 13) (value.Str (codes "c") ∷ []) two_behind
        ≡ gives (value.Bool false) }
    ensures converted { asks native.HasOwnProperty (o 13) (whole 7 ∷ o 5 ∷ []) two_behind
        ≡ AText (whole 7) ∷ [] }
    ensures of_a_number { answered native.HasOwnProperty (o 13) (whole 7 ∷ [])
        (one_object class.Plain (holding (codes "7") value.Null no_attributes ∷ []))
        ≡ gives (value.Bool true) }
    ensures of_nothing { answered native.HasOwnProperty (o 13) []
        (one_object class.Plain (holding (codes "undefined") value.Null no_attributes ∷ []))
        ≡ gives (value.Bool true) }
    ensures reserved { answered native.HasOwnProperty (o 13) (value.Str (codes "$dl_r2") ∷ [])
        two_behind ≡ answer.Stop reason.ReservedName }
    ensures not_reserved { answered native.HasOwnProperty (o 13) (value.Str (codes "$dl") ∷ [])
        two_behind ≡ gives (value.Bool false) }
    ensures of_primitives { map (λ v. answered native.HasOwnProperty v (o 5 ∷ []) few) primitives
        ≡ replicate 3 (answer.Stop reason.Wrapper) }
    ensures stops_at_once { asks native.HasOwnProperty (value.Str []) (o 5 ∷ []) few ≡ [] }
{}

/// `isPrototypeOf`, on the same heap.
pub fn prototypes_of_values()
    ensures behind { answered native.IsPrototypeOf (o 13) (o 14 ∷ []) two_behind
        ≡ gives (value.Bool true) }
    ensures further { answered native.IsPrototypeOf (o 13) (o 15 ∷ [])
        (made class.Plain (Some 14) two_behind) ≡ gives (value.Bool true) }
    ensures itself { answered native.IsPrototypeOf (o 13) (o 13 ∷ []) two_behind
        ≡ gives (value.Bool false) }
    ensures before { answered native.IsPrototypeOf (o 14) (o 13 ∷ []) two_behind
        ≡ gives (value.Bool false) }
    ensures of_primitives { map (λ v. answered native.IsPrototypeOf (o 13) (v ∷ []) two_behind)
        (value.Undefined ∷ value.Null ∷ primitives) ≡ replicate 5 (gives (value.Bool false)) }
    ensures of_nothing { answered native.IsPrototypeOf (o 13) [] two_behind
        ≡ gives (value.Bool false) }
    ensures no_object { map (λ v. answered native.IsPrototypeOf v (o 13 ∷ []) two_behind) primitives
        ≡ replicate 3 (answer.Stop reason.Wrapper) }
    ensures global { answered native.IsPrototypeOf value.Undefined (o 13 ∷ [])
        (few ++ made class.Plain (Some 12) []) ≡ gives (value.Bool true) }
{}

/// `propertyIsEnumerable`, on the same heap.
pub fn visible_properties()
    ensures own { answered native.PropertyIsEnumerable (o 13) (value.Str (codes "a") ∷ [])
        two_behind ≡ gives (value.Bool true) }
    ensures hidden { answered native.PropertyIsEnumerable (o 13) (value.Str (codes "b") ∷ [])
        two_behind ≡ gives (value.Bool false) }
    ensures inherited { answered native.PropertyIsEnumerable (o 14) (value.Str (codes "a") ∷ [])
        two_behind ≡ gives (value.Bool false) }
    ensures converted { asks native.PropertyIsEnumerable (o 13) (o 5 ∷ []) two_behind
        ≡ AText (o 5) ∷ [] }
    ensures reserved { answered native.PropertyIsEnumerable (o 13)
        (value.Str (codes "$dl_") ∷ []) two_behind ≡ answer.Stop reason.ReservedName }
    ensures of_primitives { map (λ v. asks native.PropertyIsEnumerable v (o 5 ∷ []) few) primitives
        ≡ replicate 3 [] }
{}

/// `toString` of Function.prototype.
pub fn function_texts()
    ensures of_a_function { answered native.FunctionToString (o 13) []
        (one_object class.Function []) ≡ answer.Stop reason.FunctionText }
    ensures of_others { map (λ c. answered native.FunctionToString (o 13) [] (one_object c []))
        (class.Plain ∷ class.Array ∷ class.Arguments ∷ class.Error ∷ class.Math ∷ [])
        ≡ replicate 5 (answer.Throw kind.TypeError) }
    ensures of_the_global_object { answers_to native.FunctionToString (value.Undefined ∷ [])
        ≡ answer.Throw kind.TypeError ∷ [] }
    ensures of_primitives { answers_to native.FunctionToString primitives
        ≡ replicate 3 (answer.Stop reason.Wrapper) }
{}
