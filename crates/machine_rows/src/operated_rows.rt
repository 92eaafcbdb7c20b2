//! What the machine's operators give for two values (ES3 11.5 to 11.10), or where they stop: these
//! calls do nothing. None is where an object has to be looked into.

ghost use Rattle.std.specs.Prelude.{◌≡◌, ℕ, List, ◌∷◌, [], ◌++◌, codes, length, map, replicate};
ghost use Rattle.std.specs.Prelude.{Some, None, Ok, Err, true, false};
ghost use Rattle.js_tree.specs.declared.tree.BinaryOp.TheVariants as op;
ghost use Rattle.js_values.specs.declared.number.Num.TheVariants.{NaN};
ghost use Rattle.js_values.specs.declared.reason.Reason.TheVariants as reason;
ghost use Rattle.js_values.specs.declared.value.Value.TheVariants as value;
ghost use Rattle.js_machine.specs.Operated.{equality_in, is_nothing, is_object, text_result};
ghost use Rattle.js_machine.specs.Operated.{truth_in};
ghost use Rattle.machine_rows.specs.Operations.{before_each, behind_each, by_each};
ghost use Rattle.machine_rows.specs.Operations.{by_number_operators, kinds, of_objects};
ghost use Rattle.machine_rows.specs.Operations.{on_each_two, results, table};
ghost use Rattle.machine_rows.specs.Samples.{minus, minus_number, nan, no, nothing, null, object};
ghost use Rattle.machine_rows.specs.Samples.{of, stops, text, whole, whole_number, yes};

/// Each operator on the same two values (ES3 11.5 to 11.10).
pub fn each_operator()
    ensures whole_numbers { by_each (minus 12) (whole 6)
        ≡ map of (minus 72 ∷ minus 2 ∷ whole 0 ∷ minus 6 ∷ minus 18 ∷ minus 768 ∷ minus 1
        ∷ whole 67108863 ∷ yes ∷ no ∷ yes ∷ no ∷ []) ++ None ∷ None ∷ map of (no ∷ yes ∷ no ∷ yes
        ∷ whole 4 ∷ minus 14 ∷ minus 10 ∷ []) }
    ensures same_numbers { by_each (whole 7) (whole 7)
        ≡ map of (whole 49 ∷ whole 1 ∷ whole 0 ∷ whole 14 ∷ whole 0 ∷ whole 896 ∷ whole 0
        ∷ whole 0 ∷ no ∷ no ∷ yes ∷ yes ∷ []) ++ None ∷ None ∷ map of (yes ∷ no ∷ yes ∷ no
        ∷ whole 7 ∷ whole 0 ∷ whole 7 ∷ []) }
    ensures texts { by_each (text (codes "10")) (text (codes "9"))
        ≡ of (whole 90) ∷ stops reason.Fraction ∷ map of (whole 1 ∷ text (codes "109") ∷ whole 1
        ∷ whole 5120 ∷ whole 0 ∷ whole 0 ∷ yes ∷ no ∷ yes ∷ no ∷ []) ++ None ∷ None
        ∷ map of (no ∷ yes ∷ no ∷ yes ∷ whole 8 ∷ whole 3 ∷ whole 11 ∷ []) }
    ensures not_a_number { by_each nan (whole 1)
        ≡ map of (nan ∷ nan ∷ nan ∷ nan ∷ nan ∷ whole 0 ∷ whole 0 ∷ whole 0 ∷ no ∷ no ∷ no ∷ no
        ∷ []) ++ None ∷ None ∷ map of (no ∷ yes ∷ no ∷ yes ∷ whole 0 ∷ whole 1 ∷ whole 1 ∷ []) }
    ensures two_nothings { by_each nothing null
        ≡ map of (nan ∷ nan ∷ nan ∷ nan ∷ nan ∷ whole 0 ∷ whole 0 ∷ whole 0 ∷ no ∷ no ∷ no ∷ no
        ∷ []) ++ None ∷ None ∷ map of (yes ∷ no ∷ no ∷ yes ∷ whole 0 ∷ whole 0 ∷ whole 0 ∷ []) }
    ensures null_and_truth { by_each null yes
        ≡ map of (whole 0 ∷ whole 0 ∷ whole 0 ∷ whole 1 ∷ minus 1 ∷ whole 0 ∷ whole 0 ∷ whole 0
        ∷ yes ∷ no ∷ yes ∷ no ∷ []) ++ None ∷ None ∷ map of (no ∷ yes ∷ no ∷ yes ∷ whole 0
        ∷ whole 1 ∷ whole 1 ∷ []) }
    ensures truth_and_text { by_each yes (text (codes "1"))
        ≡ map of (whole 1 ∷ whole 1 ∷ whole 0 ∷ text (codes "true1") ∷ whole 0 ∷ whole 2 ∷ whole 0
        ∷ whole 0 ∷ no ∷ no ∷ yes ∷ yes ∷ []) ++ None ∷ None ∷ map of (yes ∷ no ∷ no ∷ yes
        ∷ whole 1 ∷ whole 0 ∷ whole 1 ∷ []) }
{}

/// Each operator on an object and another value, of which few do not look into it (ES3 11.8, 11.9).
pub fn each_operator_on_objects()
    ensures first { by_each (object 70) (whole 1)
        ≡ of_objects (None ∷ None ∷ []) (of no ∷ of yes ∷ []) }
    ensures second { by_each (whole 1) (object 70)
        ≡ of_objects (None ∷ None ∷ []) (of no ∷ of yes ∷ []) }
    ensures text_first { by_each (text (codes "a")) (object 70)
        ≡ of_objects (None ∷ None ∷ []) (of no ∷ of yes ∷ []) }
    ensures text_second { by_each (object 70) (text (codes "a"))
        ≡ of_objects (None ∷ None ∷ []) (of no ∷ of yes ∷ []) }
    ensures two_objects { by_each (object 70) (object 71)
        ≡ of_objects (of no ∷ of yes ∷ []) (of no ∷ of yes ∷ []) }
    ensures one_object { by_each (object 70) (object 70)
        ≡ of_objects (of yes ∷ of no ∷ []) (of yes ∷ of no ∷ []) }
    ensures object_and_null { by_each (object 70) null
        ≡ of_objects (of no ∷ of yes ∷ []) (of no ∷ of yes ∷ []) }
    ensures undefined_and_object { by_each nothing (object 70)
        ≡ of_objects (of no ∷ of yes ∷ []) (of no ∷ of yes ∷ []) }
    ensures is_object { map is_object kinds
        ≡ false ∷ false ∷ false ∷ false ∷ false ∷ true ∷ [] }
    ensures is_nothing { map is_nothing kinds
        ≡ true ∷ true ∷ false ∷ false ∷ false ∷ false ∷ [] }
{}

/// Products, quotients and remainders (ES3 11.5).
pub fn products_of_values()
    ensures products { results op.Multiply ((minus 6, whole 7) ∷ (minus 6, minus 7) ∷
        (whole 2, nan) ∷ (text (codes "6"), yes) ∷ (nothing, whole 1) ∷ (text (codes "a"), whole 1)
        ∷ (whole 94906265, whole 94906265) ∷ []) ≡ map of (minus 42 ∷ whole 42 ∷ nan ∷ whole 6
        ∷ nan ∷ nan ∷ whole 9007199136250225 ∷ []) }
    ensures large_product { results op.Multiply ((whole 94906266, whole 94906266)
        ∷ (whole 94906266, minus 94906266) ∷ []) ≡ replicate 2 (stops reason.TooLarge) }
    ensures quotients { results op.Divide ((minus 21, whole 7) ∷ (whole 0, minus 5) ∷
        (whole 0, whole 0) ∷ (nan, whole 0) ∷ (whole 1, nan) ∷ (text (codes "8"), text (codes "2"))
        ∷ (null, null) ∷ []) ≡ map of (minus 3 ∷ whole 0 ∷ nan ∷ nan ∷ nan ∷ whole 4 ∷ nan ∷ []) }
    ensures fractions { results op.Divide ((whole 1, whole 2) ∷ (minus 7, whole 3)
        ∷ (whole 1, text (codes "2")) ∷ []) ≡ replicate 3 (stops reason.Fraction) }
    ensures infinite { results op.Divide ((whole 1, whole 0) ∷ (minus 1, null)
        ∷ (yes, text []) ∷ []) ≡ replicate 3 (stops reason.Infinite) }
    ensures remainders { results op.Remainder ((whole 7, minus 3) ∷ (minus 7, whole 3)
        ∷ (whole 3, whole 7) ∷ (whole 7, whole 0) ∷ (nan, whole 2) ∷ (whole 2, nan)
        ∷ (text (codes "9"), text (codes "4")) ∷ []) ≡ map of (whole 1 ∷ minus 1 ∷ whole 3 ∷ nan
        ∷ nan ∷ nan ∷ whole 1 ∷ []) }
{}

/// Sums and differences (ES3 11.6).
pub fn sums_of_values()
    ensures sums { results op.Add ((whole 1, whole 2) ∷ (whole 1, minus 2) ∷ (yes, yes) ∷
        (null, whole 1) ∷ (whole 1, nothing) ∷ (nan, no) ∷ []) ≡ map of (whole 3 ∷ minus 1
        ∷ whole 2 ∷ whole 1 ∷ nan ∷ nan ∷ []) }
    ensures behind_a_text { before_each op.Add (text (codes "x")) (nothing ∷ null ∷ no ∷ minus 5
        ∷ nan ∷ text (codes "y") ∷ text [] ∷ []) ≡ map (λ t. of (text t)) (codes "xundefined"
        ∷ codes "xnull" ∷ codes "xfalse" ∷ codes "x-5" ∷ codes "xNaN" ∷ codes "xy" ∷ codes "x"
        ∷ []) }
    ensures before_a_text { behind_each op.Add (nothing ∷ null ∷ yes ∷ whole 10 ∷ nan ∷ text []
        ∷ text (codes "1.5") ∷ []) (text (codes "x")) ≡ map (λ t. of (text t)) (codes "undefinedx"
        ∷ codes "nullx" ∷ codes "truex" ∷ codes "10x" ∷ codes "NaNx" ∷ codes "x" ∷ codes "1.5x"
        ∷ []) }
    ensures large_sums { results op.Add ((whole 9007199254740991, whole 1)
        ∷ (minus 9007199254740991, minus 1) ∷ []) ≡ replicate 2 (stops reason.TooLarge) }
    ensures greatest { results op.Add ((whole 9007199254740990, whole 1)
        ∷ (minus 9007199254740990, minus 1) ∷ [])
        ≡ map of (whole 9007199254740991 ∷ minus 9007199254740991 ∷ []) }
    ensures differences { results op.Subtract ((whole 2, whole 5) ∷ (text (codes "5"), whole 2)
        ∷ (null, yes) ∷ (whole 1, nothing) ∷ (whole 1, text (codes "a")) ∷ [])
        ≡ map of (minus 3 ∷ whole 3 ∷ minus 1 ∷ nan ∷ nan ∷ []) }
    ensures large_difference { results op.Subtract ((minus 9007199254740991, whole 1) ∷ [])
        ≡ stops reason.TooLarge ∷ [] }
{}

/// The length of a text that a sum may give; a longer one stops.
pub fn long_texts()
    ensures longest { (t : List ℕ) → length t ≡ 67108864 → text_result t ≡ Ok (value.Str t) }
    ensures longer { (t : List ℕ) → length t ≡ 67108865 → text_result t ≡ Err reason.LongText }
{}

/// Shifts and bits (ES3 11.7, 11.10).
pub fn bits_of_values()
    ensures left { results op.ShiftLeft ((whole 1, whole 31) ∷ (whole 1, whole 33) ∷
        (minus 1, whole 4) ∷ (whole 1, minus 1) ∷ (whole 4294967297, whole 1) ∷ (nan, whole 1) ∷
        (whole 3, nan) ∷ (text (codes "3"), yes) ∷ []) ≡ map of (minus 2147483648 ∷ whole 2
        ∷ minus 16 ∷ minus 2147483648 ∷ whole 2 ∷ whole 0 ∷ whole 3 ∷ whole 6 ∷ []) }
    ensures right { results op.ShiftRight ((minus 7, whole 1) ∷ (whole 7, whole 1)
        ∷ (whole 4294967295, whole 0) ∷ (whole 2147483648, whole 31) ∷ (whole 8, whole 33)
        ∷ (nothing, whole 1) ∷ []) ≡ map of (minus 4 ∷ whole 3 ∷ minus 1 ∷ minus 1 ∷ whole 4
        ∷ whole 0 ∷ []) }
    ensures right_unsigned { results op.ShiftRightUnsigned ((minus 1, whole 28) ∷ (minus 1, whole 0)
        ∷ (whole 8, whole 2) ∷ (minus 8, whole 32) ∷ (nan, nan) ∷ []) ≡ map of (whole 15
        ∷ whole 4294967295 ∷ whole 2 ∷ whole 4294967288 ∷ whole 0 ∷ []) }
    ensures and { results op.BitAnd ((whole 6, whole 3) ∷ (minus 1, whole 255) ∷ (nan, whole 5)
        ∷ (yes, text (codes "3")) ∷ []) ≡ map of (whole 2 ∷ whole 255 ∷ whole 0 ∷ whole 1 ∷ []) }
    ensures exclusive { results op.BitXor ((whole 6, whole 3) ∷ (minus 1, whole 0) ∷ (null, yes)
        ∷ []) ≡ map of (whole 5 ∷ minus 1 ∷ whole 1 ∷ []) }
    ensures or { results op.BitOr ((whole 6, whole 3) ∷ (whole 2147483648, whole 0)
        ∷ (whole 4294967296, whole 1) ∷ (nan, whole 5) ∷ [])
        ≡ map of (whole 7 ∷ minus 2147483648 ∷ whole 1 ∷ whole 5 ∷ []) }
    ensures on_two_numbers { on_each_two (minus_number 12) (whole_number 6)
        ≡ map Ok (minus_number 72 ∷ minus_number 2 ∷ whole_number 0 ∷ minus_number 6
        ∷ minus_number 18 ∷ minus_number 768 ∷ minus_number 1 ∷ whole_number 67108863
        ∷ replicate 10 NaN ++ whole_number 4 ∷ minus_number 14 ∷ minus_number 10 ∷ []) }
    ensures on_two_stops { on_each_two (whole_number 9007199254740991) (whole_number 2)
        ≡ Err reason.TooLarge ∷ Err reason.Fraction ∷ Ok (whole_number 1) ∷ Err reason.TooLarge
        ∷ map Ok (whole_number 9007199254740989 ∷ minus_number 4 ∷ minus_number 1
        ∷ whole_number 1073741823 ∷ replicate 10 NaN ++ whole_number 2 ∷ minus_number 3
        ∷ minus_number 1 ∷ []) }
{}

/// Orders, by numbers where one of the two is no text (ES3 11.8.1 to 11.8.5).
pub fn orders_of_values()
    ensures less { results op.Less ((whole 1, whole 2) ∷ (whole 2, whole 1) ∷ (whole 1, whole 1)
        ∷ (minus 2, minus 1) ∷ (nan, whole 1) ∷ (whole 1, nan) ∷ (null, whole 1)
        ∷ (nothing, whole 1) ∷ (yes, whole 2) ∷ (text (codes "10"), whole 9)
        ∷ (whole 9, text (codes "10")) ∷ (text (codes "a"), whole 1) ∷ [])
        ≡ map of (yes ∷ no ∷ no ∷ yes ∷ no ∷ no ∷ yes ∷ no ∷ yes ∷ no ∷ yes ∷ no ∷ []) }
    ensures less_texts { results op.Less ((text (codes "a"), text (codes "b")) ∷ (
      text
          (codes "b"),
      text (codes "a"),
    ) ∷ (text (codes "a"), text (codes "a")) ∷ (
      text
          (codes "a"),
      text (codes "ab"),
    ) ∷ (text (codes "ab"), text (codes "a")) ∷ (
      text [],
      text
          (codes "a"),
    ) ∷ (text [], text []) ∷ (text (codes "1.5"), text (codes "1.6")) ∷ []) ≡ map of
        (yes ∷ no ∷ no ∷ yes ∷ no ∷ yes ∷ no ∷ yes ∷ []) }
    ensures greater { results op.Greater ((whole 1, whole 2) ∷ (whole 2, whole 1) ∷
        (whole 1, whole 1) ∷ (nan, whole 1) ∷ (whole 1, nan) ∷ (text (codes "b"), text (codes "a"))
        ∷ (text (codes "a"), text (codes "b")) ∷ (text (codes "10"), whole 9) ∷ (null, minus 1)
        ∷ []) ≡ map of (no ∷ yes ∷ no ∷ no ∷ no ∷ yes ∷ no ∷ yes ∷ yes ∷ []) }
    ensures less_equal { results op.LessEqual ((whole 1, whole 2) ∷ (whole 2, whole 1) ∷
        (whole 1, whole 1) ∷ (nan, whole 1) ∷ (whole 1, nan) ∷ (text (codes "a"), text (codes "a"))
        ∷ (text (codes "b"), text (codes "a")) ∷ (null, whole 0) ∷ (nothing, null) ∷ []) ≡ map of
        (yes ∷ no ∷ yes ∷ no ∷ no ∷ yes ∷ no ∷ yes ∷ no ∷ []) }
    ensures greater_equal { results op.GreaterEqual ((whole 1, whole 2) ∷ (whole 2, whole 1) ∷
        (whole 1, whole 1) ∷ (nan, whole 1) ∷ (whole 1, nan) ∷ (text (codes "a"), text (codes "a"))
        ∷ (text (codes "a"), text (codes "b")) ∷ (null, whole 0) ∷ (whole 0, nothing) ∷ [])
        ≡ map of (no ∷ yes ∷ yes ∷ no ∷ no ∷ yes ∷ no ∷ yes ∷ no ∷ []) }
    ensures truths { map (λ op. map (truth_in op) (None ∷ Some true ∷ Some false ∷ []))
        (op.Less ∷ op.Greater ∷ op.LessEqual ∷ op.GreaterEqual ∷ [])
        ≡ (false ∷ true ∷ false ∷ []) ∷ (false ∷ true ∷ false ∷ [])
        ∷ (false ∷ false ∷ true ∷ []) ∷ (false ∷ false ∷ true ∷ []) ∷ [] }
{}

/// Equality of each kind of value with each (ES3 11.9.1 to 11.9.6): undefined, null, true, 1, "1"
/// and an object.
pub fn equalities_of_kinds()
    ensures equal { table op.Equal
        ≡ map of (yes ∷ yes ∷ no ∷ no ∷ no ∷ no ∷ []) ∷ map of (yes ∷ yes ∷ no ∷ no ∷ no ∷ no ∷ [])
        ∷ replicate 3 (map of (no ∷ no ∷ yes ∷ yes ∷ yes ∷ []) ++ None ∷ [])
        ++ (of no ∷ of no ∷ None ∷ None ∷ None ∷ of yes ∷ []) ∷ [] }
    ensures not_equal { table op.NotEqual ≡ map of (no ∷ no ∷ yes ∷ yes ∷ yes ∷ yes ∷ []) ∷ map of
        (no ∷ no ∷ yes ∷ yes ∷ yes ∷ yes ∷ []) ∷ replicate 3 (map of (yes ∷ yes ∷ no ∷ no ∷ no
        ∷ []) ++ None ∷ []) ++ (of yes ∷ of yes ∷ None ∷ None ∷ None ∷ of no ∷ []) ∷ [] }
    ensures same { table op.Same
        ≡ map (map of) ((yes ∷ no ∷ no ∷ no ∷ no ∷ no ∷ []) ∷ (no ∷ yes ∷ no ∷ no ∷ no ∷ no ∷ [])
        ∷ (no ∷ no ∷ yes ∷ no ∷ no ∷ no ∷ []) ∷ (no ∷ no ∷ no ∷ yes ∷ no ∷ no ∷ [])
        ∷ (no ∷ no ∷ no ∷ no ∷ yes ∷ no ∷ []) ∷ (no ∷ no ∷ no ∷ no ∷ no ∷ yes ∷ []) ∷ []) }
    ensures not_same { table op.NotSame ≡ map (map of) ((no ∷ yes ∷ yes ∷ yes ∷ yes ∷ yes ∷ []) ∷
        (yes ∷ no ∷ yes ∷ yes ∷ yes ∷ yes ∷ []) ∷ (yes ∷ yes ∷ no ∷ yes ∷ yes ∷ yes ∷ []) ∷ (yes
        ∷ yes ∷ yes ∷ no ∷ yes ∷ yes ∷ []) ∷ (yes ∷ yes ∷ yes ∷ yes ∷ no ∷ yes ∷ []) ∷ (yes ∷ yes
        ∷ yes ∷ yes ∷ yes ∷ no ∷ []) ∷ []) }
    ensures changes { map (λ op. map (equality_in op) (true ∷ false ∷ []))
        (op.Equal ∷ op.NotEqual ∷ op.Same ∷ op.NotSame ∷ []) ≡ (true ∷ false ∷ [])
        ∷ (false ∷ true ∷ []) ∷ (true ∷ false ∷ []) ∷ (false ∷ true ∷ []) ∷ [] }
{}

/// Equality of values of which the kinds alone do not tell (ES3 11.9.3, 11.9.6).
pub fn equalities_of_values()
    ensures one_kind { results op.Equal ((nan, nan) ∷ (whole 1, minus 1) ∷ (whole 0, whole 0)
        ∷ (text (codes "a"), text (codes "a")) ∷ (text (codes "a"), text (codes "b"))
        ∷ (text (codes "a"), text (codes "ab")) ∷ (text (codes "1"), text (codes "1.0"))
        ∷ (yes, no) ∷ (no, no) ∷ []) ≡ map of (no ∷ no ∷ yes ∷ yes ∷ no ∷ no ∷ no ∷ no ∷ yes ∷ []) }
    ensures truths { results op.Equal ((no, whole 0) ∷ (no, text []) ∷ (yes, whole 2)
        ∷ (yes, text (codes "true")) ∷ (whole 0, no) ∷ (text (codes "0"), no) ∷ (no, null)
        ∷ (nothing, no) ∷ (yes, nan) ∷ [])
        ≡ map of (yes ∷ yes ∷ no ∷ no ∷ yes ∷ yes ∷ no ∷ no ∷ no ∷ []) }
    ensures numbers_and_texts { results op.Equal ((whole 0, text []) ∷ (text [], whole 0) ∷
        (whole 0, text (codes "a")) ∷ (text (codes " 12 "), whole 12) ∷ (
          whole 16,
          text
              (codes "0x10"),
        ) ∷ (nan, text (codes "NaN")) ∷ (whole 1, text (codes "2")) ∷ []) ≡ map of
        (yes ∷ yes ∷ no ∷ yes ∷ yes ∷ no ∷ no ∷ []) }
    ensures no_conversion { results op.Equal ((null, whole 0) ∷ (whole 0, null) ∷
        (nothing, whole 0) ∷ (nothing, nan) ∷ (text (codes "null"), null) ∷ (text [], nothing)
        ∷ []) ≡ replicate 6 (of no) }
    ensures same { results op.Same ((nan, nan) ∷ (whole 1, whole 2) ∷ (
      text (codes "a"),
      text
          (codes "b"),
    ) ∷ (text (codes "a"), text (codes "a")) ∷ (yes, no) ∷ (no, no) ∷
        (object 70, object 71) ∷ []) ≡ map of (no ∷ no ∷ no ∷ yes ∷ no ∷ yes ∷ no ∷ []) }
    ensures not_same { results op.NotSame ((nan, nan) ∷ (whole 2, whole 2) ∷ (object 70, object 71)
        ∷ []) ≡ map of (yes ∷ no ∷ yes ∷ []) }
{}

/// Numbers of texts that stop (ES3 9.3.1): a fraction, and one that is too large. The left operand
/// is converted first, but both operands of an order are made primitive before (ES3 11.8.5).
pub fn stops_of_texts()
    ensures first { by_number_operators (text (codes "1.5")) (whole 1)
        ≡ replicate 10 (stops reason.NumberText) }
    ensures second { by_number_operators (whole 1) (text (codes "1.5"))
        ≡ replicate 10 (stops reason.NumberText) }
    ensures before_an_object { by_number_operators (text (codes "1.5")) (object 70)
        ≡ replicate 10 (stops reason.NumberText) }
    ensures behind_an_object { by_number_operators (object 70) (text (codes "1.5"))
        ≡ replicate 10 None }
    ensures large { by_number_operators (whole 1) (text (codes "9007199254740992"))
        ≡ replicate 10 (stops reason.TooLarge) }
    ensures left_first { by_number_operators (text (codes "1.5")) (text (codes "9007199254740992"))
        ≡ replicate 10 (stops reason.NumberText) }
    ensures then_right { by_number_operators (text (codes "9007199254740992")) (text (codes "1.5"))
        ≡ replicate 10 (stops reason.TooLarge) }
    ensures orders { map (λ op. results op ((text (codes "1.5"), whole 1) ∷ (
      yes,
      text
          (codes "1.5"),
    ) ∷ (text (codes "1.5"), object 70) ∷ (object 70, text (codes "1.5")) ∷ []))
        (op.Less ∷ op.Greater ∷ op.LessEqual ∷ op.GreaterEqual ∷ []) ≡ replicate 4
        (stops reason.NumberText ∷ stops reason.NumberText ∷ None ∷ None ∷ []) }
    ensures equalities { map (λ op. results op ((text (codes "1.5"), whole 1) ∷ (
      whole 1,
      text
          (codes "1.5"),
    ) ∷ (yes, text (codes "1e3")) ∷ (text (codes "Infinity"), no) ∷ [])) (op.Equal
        ∷ op.NotEqual ∷ []) ≡ replicate 2 (replicate 4 (stops reason.NumberText)) }
    ensures large_equality { results op.Equal ((text (codes "9007199254740992"), whole 1) ∷ [])
        ≡ stops reason.TooLarge ∷ [] }
    ensures no_numbers { results op.Equal ((text (codes "1.5"), text (codes "1.5")) ∷ (
      text
          (codes "1.5"),
      null,
    ) ∷ (nothing, text (codes "1.5")) ∷ []) ≡ map of (yes ∷ no ∷ no ∷ []) }
    ensures not_the_same { results op.Same ((text (codes "1.5"), whole 1) ∷ []) ≡ of no ∷ [] }
{}
