//! The objects of the start, as scripts meet them: these calls do nothing, and each says what is
//! found there.

ghost use Rattle.std.specs.Prelude.{◌≡◌, ◌∷◌, [], ◌++◌, Some, None, map, codes, length};
ghost use Rattle.std.specs.Prelude.{replicate};
ghost use Rattle.js_values.specs.declared.number.Num.TheVariants as number;
ghost use Rattle.js_values.specs.declared.value.Value.TheVariants as value;
ghost use Rattle.object_heap.specs.declared.object.Class.TheVariants as class;
ghost use Rattle.object_heap.specs.declared.built_in.BuiltIn.TheVariants as built;
ghost use Rattle.object_heap.specs.Arrays.{whole};
ghost use Rattle.object_heap.specs.BuiltIns.{built_ins, number_of, which};
ghost use Rattle.object_heap.specs.Changes.{all_three, hidden_and_fixed, hidden_only};
ghost use Rattle.object_heap.specs.Objects.{Holds, class_of, prototype_of};
ghost use Rattle.object_heap.specs.Rows as row;
ghost use Rattle.object_heap.specs.Rows.{members, names_of, attributes_at, lengths, value_at};
ghost use Rattle.object_heap.specs.Rows.{prototypes_on};
ghost use Rattle.object_heap.specs.Start.{heap_at_start};
ghost use Rattle.object_heap.specs.Visited.{keys};

/// The numbers of the objects.
pub fn numbers_at_start()
    ensures in_order { map number_of built_ins ≡ row.numbers_from 0 65 }
    ensures count { length heap_at_start ≡ 65 }
    ensures later { which 65 ≡ None }
    ensures one { which 12 ≡ Some built.Global }
{}

/// What the global object, `host` and Math have.
pub fn global_names()
    ensures names { names_of built.Global ≡ codes "NaN" ∷ codes "undefined" ∷ codes "Object"
        ∷ codes "Array" ∷ codes "String" ∷ codes "Number" ∷ codes "Boolean" ∷ codes "Error"
        ∷ codes "TypeError" ∷ codes "ReferenceError" ∷ codes "RangeError" ∷ codes "Math"
        ∷ codes "parseInt" ∷ codes "isNaN" ∷ codes "host" ∷ [] }
    ensures objects { members built.Global (names_of built.Global) ≡ None ∷ None
        ∷ Some built.Object ∷ Some built.Array ∷ Some built.String ∷ Some built.Number
        ∷ Some built.Boolean ∷ Some built.Error ∷ Some built.TypeError
        ∷ Some built.ReferenceError ∷ Some built.RangeError ∷ Some built.Math
        ∷ Some built.ParseInt ∷ Some built.IsNan ∷ Some built.Host ∷ [] }
    ensures nan { value_at built.Global (codes "NaN") ≡ Some (Holds (value.Num number.NaN)) }
    ensures undefined { value_at built.Global (codes "undefined") ≡ Some (Holds value.Undefined) }
    ensures attributes { attributes_at built.Global
        ≡ replicate 2 hidden_and_fixed ++ replicate 13 hidden_only }
    ensures of_math { members built.Math (codes "abs" ∷ codes "max" ∷ codes "min" ∷ codes "floor"
        ∷ codes "ceil" ∷ codes "round" ∷ codes "PI" ∷ []) ≡ Some built.Abs ∷ Some built.Max
        ∷ Some built.Min ∷ Some built.Floor ∷ Some built.Ceil ∷ Some built.Round ∷ None ∷ [] }
    ensures attributes_of_math { attributes_at built.Math ≡ replicate 6 hidden_only }
    ensures of_host { members built.Host (codes "on" ∷ codes "out" ∷ [])
        ≡ Some built.On ∷ None ∷ [] }
    ensures attributes_of_host { attributes_at built.Host ≡ hidden_only ∷ [] }
    ensures inherited { members built.Global (codes "valueOf" ∷ codes "constructor" ∷ [])
        ≡ Some built.ObjectValueOf ∷ Some built.Object ∷ [] }
{}

/// What the prototypes of objects, functions and arrays have.
pub fn object_prototypes()
    ensures of_object { members built.ObjectPrototype (codes "constructor" ∷ codes "toString"
        ∷ codes "valueOf" ∷ codes "hasOwnProperty" ∷ codes "isPrototypeOf"
        ∷ codes "propertyIsEnumerable" ∷ codes "toLocaleString" ∷ [])
        ≡ Some built.Object ∷ Some built.ObjectToString ∷ Some built.ObjectValueOf
        ∷ Some built.HasOwnProperty ∷ Some built.IsPrototypeOf ∷ Some built.PropertyIsEnumerable
        ∷ None ∷ [] }
    ensures of_object_attributes { attributes_at built.ObjectPrototype ≡ replicate 6 hidden_only }
    ensures of_functions { members built.Join (codes "toString" ∷ codes "apply" ∷ codes "call"
        ∷ codes "valueOf" ∷ codes "constructor" ∷ codes "prototype" ∷ [])
        ≡ Some built.FunctionToString ∷ Some built.Apply ∷ Some built.Call
        ∷ Some built.ObjectValueOf ∷ None ∷ None ∷ [] }
    ensures of_functions_constructor { value_at built.FunctionPrototype (codes "constructor")
        ≡ Some (Holds value.Undefined) }
    ensures of_functions_attributes { attributes_at built.FunctionPrototype
        ≡ all_three ∷ replicate 4 hidden_only }
    ensures of_arrays { members built.ArrayPrototype (names_of built.ArrayPrototype) ≡ None
        ∷ Some built.Array ∷ Some built.ArrayToString ∷ Some built.ArrayConcat ∷ Some built.Join
        ∷ Some built.Pop ∷ Some built.Push ∷ Some built.Reverse ∷ Some built.Shift
        ∷ Some built.ArraySlice ∷ Some built.Splice ∷ Some built.Unshift ∷ [] }
    ensures of_arrays_names { names_of built.ArrayPrototype ≡ codes "length"
        ∷ codes "constructor" ∷ codes "toString" ∷ codes "concat" ∷ codes "join" ∷ codes "pop"
        ∷ codes "push" ∷ codes "reverse" ∷ codes "shift" ∷ codes "slice" ∷ codes "splice"
        ∷ codes "unshift" ∷ [] }
    ensures of_arrays_attributes { attributes_at built.ArrayPrototype
        ≡ hidden_and_fixed ∷ replicate 11 hidden_only }
{}

/// What the prototypes of primitives and errors have.
pub fn other_prototypes()
    ensures of_strings { members built.StringPrototype (codes "constructor" ∷ codes "toString"
        ∷ codes "valueOf" ∷ codes "charAt" ∷ codes "charCodeAt" ∷ codes "concat"
        ∷ codes "indexOf" ∷ codes "lastIndexOf" ∷ codes "slice" ∷ codes "split"
        ∷ codes "substring" ∷ codes "length" ∷ []) ≡ Some built.String
        ∷ Some built.StringToString ∷ Some built.StringValueOf ∷ Some built.CharAt
        ∷ Some built.CharCodeAt ∷ Some built.StringConcat ∷ Some built.IndexOf
        ∷ Some built.LastIndexOf ∷ Some built.StringSlice ∷ Some built.Split
        ∷ Some built.Substring ∷ None ∷ [] }
    ensures of_strings_attributes { attributes_at built.StringPrototype
        ≡ replicate 11 hidden_only }
    ensures of_numbers { members built.NumberPrototype (codes "constructor" ∷ codes "toString"
        ∷ codes "valueOf" ∷ []) ≡ Some built.Number ∷ Some built.NumberToString
        ∷ Some built.NumberValueOf ∷ [] }
    ensures of_booleans { members built.BooleanPrototype (codes "constructor" ∷ codes "toString"
        ∷ codes "valueOf" ∷ []) ≡ Some built.Boolean ∷ Some built.BooleanToString
        ∷ Some built.BooleanValueOf ∷ [] }
    ensures of_errors { map (λ b. members b (codes "constructor" ∷ codes "toString" ∷ []))
        (built.ErrorPrototype ∷ built.TypeErrorPrototype ∷ built.ReferenceErrorPrototype
        ∷ built.RangeErrorPrototype ∷ []) ≡ (Some built.Error ∷ Some built.ErrorToString ∷ [])
        ∷ (Some built.TypeError ∷ Some built.ErrorToString ∷ [])
        ∷ (Some built.ReferenceError ∷ Some built.ErrorToString ∷ [])
        ∷ (Some built.RangeError ∷ Some built.ErrorToString ∷ []) ∷ [] }
    ensures names_of_errors { map (λ b. value_at b (codes "name")) (built.ErrorPrototype
        ∷ built.TypeErrorPrototype ∷ built.ReferenceErrorPrototype ∷ built.RangeErrorPrototype
        ∷ []) ≡ Some (Holds (value.Str (codes "Error")))
        ∷ Some (Holds (value.Str (codes "TypeError")))
        ∷ Some (Holds (value.Str (codes "ReferenceError")))
        ∷ Some (Holds (value.Str (codes "RangeError"))) ∷ [] }
    ensures messages { map (λ b. value_at b (codes "message")) (built.ErrorPrototype
        ∷ built.TypeErrorPrototype ∷ built.ReferenceErrorPrototype ∷ built.RangeErrorPrototype
        ∷ []) ≡ replicate 4 (Some (Holds (value.Str []))) }
    ensures attributes_of_errors { map attributes_at (built.ErrorPrototype
        ∷ built.RangeErrorPrototype ∷ []) ≡ replicate 4 hidden_only ∷ replicate 3 hidden_only
        ∷ [] }
{}

/// The constructors.
pub fn constructors()
    ensures prototypes { prototypes_on (built.Object ∷ built.Array ∷ built.String ∷ built.Number
        ∷ built.Boolean ∷ built.Error ∷ built.TypeError ∷ built.ReferenceError ∷ built.RangeError
        ∷ []) ≡ map (λ b. Some b) (built.ObjectPrototype ∷ built.ArrayPrototype
        ∷ built.StringPrototype ∷ built.NumberPrototype ∷ built.BooleanPrototype
        ∷ built.ErrorPrototype ∷ built.TypeErrorPrototype ∷ built.ReferenceErrorPrototype
        ∷ built.RangeErrorPrototype ∷ []) }
    ensures attributes { map attributes_at (built.Object ∷ built.TypeError ∷ built.Join ∷ [])
        ≡ replicate 2 all_three ∷ replicate 2 all_three ∷ replicate 1 all_three ∷ [] }
    ensures of_string { members built.String (codes "fromCharCode" ∷ [])
        ≡ Some built.FromCharCode ∷ [] }
    ensures of_string_attributes { attributes_at built.String
        ≡ all_three ∷ all_three ∷ hidden_only ∷ [] }
{}

/// The `length` of each function.
pub fn lengths_at_start()
    ensures constructors { lengths (built.Object ∷ built.Array ∷ built.String ∷ built.Number
        ∷ built.Boolean ∷ built.Error ∷ built.TypeError ∷ built.ReferenceError
        ∷ built.RangeError ∷ []) ≡ replicate 9 (Some (Holds (whole 1))) }
    ensures none { lengths (built.ObjectToString ∷ built.ObjectValueOf ∷ built.FunctionToString
        ∷ built.ArrayToString ∷ built.Pop ∷ built.Reverse ∷ built.Shift ∷ built.StringToString
        ∷ built.StringValueOf ∷ built.NumberValueOf ∷ built.BooleanToString
        ∷ built.BooleanValueOf ∷ built.ErrorToString ∷ built.ArrayPrototype ∷ [])
        ≡ replicate 14 (Some (Holds (whole 0))) }
    ensures one { lengths (built.IsNan ∷ built.HasOwnProperty ∷ built.IsPrototypeOf
        ∷ built.PropertyIsEnumerable ∷ built.Call ∷ built.ArrayConcat ∷ built.Join ∷ built.Push
        ∷ built.Unshift ∷ built.FromCharCode ∷ built.CharAt ∷ built.CharCodeAt
        ∷ built.StringConcat ∷ built.IndexOf ∷ built.LastIndexOf ∷ built.NumberToString
        ∷ built.Abs ∷ built.Floor ∷ built.Ceil ∷ built.Round ∷ [])
        ≡ replicate 20 (Some (Holds (whole 1))) }
    ensures two { lengths (built.ParseInt ∷ built.Apply ∷ built.ArraySlice ∷ built.Splice
        ∷ built.StringSlice ∷ built.Split ∷ built.Substring ∷ built.Max ∷ built.Min ∷ built.On
        ∷ []) ≡ replicate 10 (Some (Holds (whole 2))) }
    ensures of_no_function { lengths (built.StringPrototype ∷ built.Math ∷ built.Host
        ∷ built.Global ∷ []) ≡ replicate 4 None }
{}

/// Classes and prototypes.
pub fn kinds_at_start()
    ensures classes { map (class_of heap_at_start) (row.numbers_from 0 65) ≡ Some class.Plain
        ∷ Some class.Function ∷ Some class.Array ∷ replicate 3 (Some class.Plain)
        ++ replicate 4 (Some class.Error) ++ Some class.Math ∷ Some class.Plain
        ∷ Some class.Plain ∷ replicate 52 (Some class.Function) }
    ensures prototypes { map (prototype_of heap_at_start) (row.numbers_from 0 65) ≡ None
        ∷ replicate 6 (Some 0) ++ replicate 3 (Some 6) ++ replicate 3 (Some 0)
        ++ replicate 52 (Some 1) }
    ensures nothing_is_visited { map (keys heap_at_start) (row.numbers_from 0 65)
        ≡ replicate 65 [] }
    ensures attributes { map row.attributes_in_order (row.numbers_from 0 65)
        ≡ replicate 6 hidden_only ∷ (all_three ∷ replicate 4 hidden_only)
        ∷ (hidden_and_fixed ∷ replicate 11 hidden_only) ∷ replicate 11 hidden_only
        ∷ replicate 3 hidden_only ∷ replicate 3 hidden_only ∷ replicate 4 hidden_only
        ∷ replicate 3 (replicate 3 hidden_only) ++ replicate 6 hidden_only ∷ (hidden_only ∷ [])
        ∷ (replicate 2 hidden_and_fixed ++ replicate 13 hidden_only)
        ∷ replicate 2 (replicate 2 all_three) ++ (all_three ∷ all_three ∷ hidden_only ∷ [])
        ∷ replicate 6 (replicate 2 all_three) ++ replicate 43 (all_three ∷ []) }
{}
