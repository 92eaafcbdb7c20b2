//! Which native each function of the start is: these calls do nothing, and each says what the table
//! has.

ghost use Rattle.std.specs.Prelude.{◌≡◌, ◌∷◌, [], ◌++◌, Some, None, map, replicate};
ghost use Rattle.object_heap.specs.BuiltIns.{built_ins};
ghost use Rattle.object_heap.specs.declared.built_in.BuiltIn.TheVariants as built;
ghost use Rattle.js_natives.specs.declared.native.Native.TheVariants as native;
ghost use Rattle.js_natives.specs.Rows.{called_as, constructed_as};

/// The functions of the start, and no other object there, are natives when they are called.
pub fn called_functions()
    ensures others { map called_as (built.ObjectPrototype ∷ built.FunctionPrototype
        ∷ built.ArrayPrototype ∷ built.StringPrototype ∷ built.NumberPrototype
        ∷ built.BooleanPrototype ∷ built.ErrorPrototype ∷ built.TypeErrorPrototype
        ∷ built.ReferenceErrorPrototype ∷ built.RangeErrorPrototype ∷ built.Math ∷ built.Host
        ∷ built.Global ∷ []) ≡ replicate 13 None }
    ensures constructors { map called_as (built.Object ∷ built.Array ∷ built.String ∷ built.Number
        ∷ built.Boolean ∷ built.Error ∷ built.TypeError ∷ built.ReferenceError ∷ built.RangeError
        ∷ []) ≡ Some native.Object ∷ Some native.Array ∷ Some native.String ∷ Some native.Number
        ∷ Some native.Boolean ∷ Some native.Error ∷ Some native.TypeError
        ∷ Some native.ReferenceError ∷ Some native.RangeError ∷ [] }
    ensures of_objects { map called_as (built.ParseInt ∷ built.IsNan ∷ built.ObjectToString
        ∷ built.ObjectValueOf ∷ built.HasOwnProperty ∷ built.IsPrototypeOf
        ∷ built.PropertyIsEnumerable ∷ built.FunctionToString ∷ built.Apply ∷ built.Call ∷ [])
        ≡ Some native.ParseInt ∷ Some native.IsNan ∷ Some native.ObjectToString
        ∷ Some native.ObjectValueOf ∷ Some native.HasOwnProperty ∷ Some native.IsPrototypeOf
        ∷ Some native.PropertyIsEnumerable ∷ Some native.FunctionToString ∷ Some native.Apply
        ∷ Some native.Call ∷ [] }
    ensures of_arrays { map called_as (built.ArrayToString ∷ built.ArrayConcat ∷ built.Join
        ∷ built.Pop ∷ built.Push ∷ built.Reverse ∷ built.Shift ∷ built.ArraySlice ∷ built.Splice
        ∷ built.Unshift ∷ []) ≡ Some native.ArrayToString ∷ Some native.ArrayConcat
        ∷ Some native.Join ∷ Some native.Pop ∷ Some native.Push ∷ Some native.Reverse
        ∷ Some native.Shift ∷ Some native.ArraySlice ∷ Some native.Splice ∷ Some native.Unshift
        ∷ [] }
    ensures of_strings { map called_as (built.FromCharCode ∷ built.StringToString
        ∷ built.StringValueOf ∷ built.CharAt ∷ built.CharCodeAt ∷ built.StringConcat
        ∷ built.IndexOf ∷ built.LastIndexOf ∷ built.StringSlice ∷ built.Split ∷ built.Substring
        ∷ []) ≡ Some native.FromCharCode ∷ Some native.StringToString ∷ Some native.StringValueOf
        ∷ Some native.CharAt ∷ Some native.CharCodeAt ∷ Some native.StringConcat
        ∷ Some native.IndexOf ∷ Some native.LastIndexOf ∷ Some native.StringSlice
        ∷ Some native.Split ∷ Some native.Substring ∷ [] }
    ensures of_others { map called_as (built.NumberToString ∷ built.NumberValueOf
        ∷ built.BooleanToString ∷ built.BooleanValueOf ∷ built.ErrorToString ∷ built.Abs
        ∷ built.Max ∷ built.Min ∷ built.Floor ∷ built.Ceil ∷ built.Round ∷ built.On ∷ [])
        ≡ Some native.NumberToString ∷ Some native.NumberValueOf ∷ Some native.BooleanToString
        ∷ Some native.BooleanValueOf ∷ Some native.ErrorToString ∷ Some native.Abs
        ∷ Some native.Max ∷ Some native.Min ∷ Some native.Floor ∷ Some native.Ceil
        ∷ Some native.Round ∷ Some native.On ∷ [] }
{}

/// The constructors are natives when `new` calls them.
pub fn constructed_functions()
    ensures constructors { map constructed_as (built.Object ∷ built.Array ∷ built.String
        ∷ built.Number ∷ built.Boolean ∷ built.Error ∷ built.TypeError ∷ built.ReferenceError
        ∷ built.RangeError ∷ []) ≡ Some native.Object ∷ Some native.Array ∷ Some native.NewString
        ∷ Some native.NewNumber ∷ Some native.NewBoolean ∷ Some native.Error
        ∷ Some native.TypeError ∷ Some native.ReferenceError ∷ Some native.RangeError ∷ [] }
    ensures others { map constructed_as built_ins
        ≡ replicate 13 None ++ map constructed_as (built.Object ∷ built.Array ∷ built.String
        ∷ built.Number ∷ built.Boolean ∷ built.Error ∷ built.TypeError ∷ built.ReferenceError
        ∷ built.RangeError ∷ []) ++ replicate 43 None }
{}
