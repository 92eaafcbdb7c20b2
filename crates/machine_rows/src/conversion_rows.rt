//! Which conversions of objects enter a function (ES3 8.6.2.6): these calls do nothing. 13 is a
//! function of the start, 65 a host call, and 66 to 68 are none.

ghost use Rattle.std.specs.Prelude.{◌≡◌, ◌∷◌, [], ◌++◌, codes, map, replicate, true, false};
ghost use Rattle.js_machine.specs.Conversions.{HintNumber, HintString};
ghost use Rattle.js_machine.specs.Converted.{converted_first, enters, enters_one_of};
ghost use Rattle.js_machine.specs.Converted.{enters_operated, enters_value, first_object};
ghost use Rattle.machine_rows.specs.Alone.{hosts, more_objects};
ghost use Rattle.machine_rows.specs.Converting.{by_methods, entered_by, with_methods};
ghost use Rattle.machine_rows.specs.Operations.{operators};
ghost use Rattle.machine_rows.specs.Samples.{nothing, null, object, text, whole, yes};
ghost use Rattle.machine_rows.specs.Writing.{a, to_string};

/// The second method is looked at only where the first is no object, and enters where it can be
/// called.
pub fn entered_methods()
    ensures first { map (λ v. by_methods v nothing) (object 13 ∷ object 65 ∷ object 66 ∷ object 67
        ∷ object 68 ∷ object 70 ∷ []) ≡ true ∷ true ∷ replicate 4 false }
    ensures first_alone { map (λ v. by_methods v (object 13)) (object 67 ∷ object 70 ∷ [])
        ≡ false ∷ false ∷ [] }
    ensures second { map (λ v. by_methods v (object 13)) (nothing ∷ null ∷ yes ∷ whole 5 ∷ text a
        ∷ []) ≡ replicate 5 true }
    ensures second_is_none { map (λ v. by_methods v (object 67)) (nothing ∷ null ∷ yes ∷ whole 5
        ∷ text a ∷ []) ≡ replicate 5 false }
    ensures none { map (by_methods nothing) (nothing ∷ whole 5 ∷ text a ∷ []) ≡ replicate 3 false }
    ensures names { enters_one_of (with_methods (object 67) (object 13)) hosts to_string
        (codes "valueOf") 67 ≡ true }
    ensures other_names { enters_one_of (with_methods (object 67) (object 13)) hosts
        (codes "valueOf") to_string 67 ≡ false }
{}

/// By the hint: for its number an object is asked for `valueOf` first, and for its text for
/// `toString`.
pub fn entered_objects()
    ensures by_hint { map (entered_by (object 67)) (object 13 ∷ object 67 ∷ whole 1 ∷ [])
        ≡ (false ∷ true ∷ []) ∷ (false ∷ false ∷ []) ∷ (false ∷ false ∷ []) ∷ [] }
    ensures of_functions { map (entered_by (object 65)) (object 13 ∷ object 67 ∷ whole 1 ∷ [])
        ≡ (true ∷ true ∷ []) ∷ (true ∷ false ∷ []) ∷ (true ∷ true ∷ []) ∷ [] }
    ensures of_no_objects { map (entered_by (whole 2)) (object 13 ∷ object 67 ∷ whole 1 ∷ [])
        ≡ (true ∷ true ∷ []) ∷ (false ∷ false ∷ []) ∷ (false ∷ false ∷ []) ∷ [] }
    ensures inherited { map (λ hint. enters more_objects hosts hint 67) (HintNumber ∷ HintString
        ∷ []) ≡ true ∷ true ∷ [] }
    ensures values { map (enters_value more_objects hosts HintNumber) (nothing ∷ null ∷ yes
        ∷ whole 5 ∷ text a ∷ object 12 ∷ object 70 ∷ [])
        ≡ replicate 5 false ++ true ∷ false ∷ [] }
    ensures values_by_hint { map (λ hint. enters_value (with_methods (object 67) (object 13)) hosts
        hint (object 67)) (HintNumber ∷ HintString ∷ []) ≡ false ∷ true ∷ [] }
{}

/// The operand that an operator converts first, which for `>` and `<=` is the right one of two
/// objects.
pub fn operands_converted_first()
    ensures first { map (first_object (object 67)) (object 12 ∷ whole 1 ∷ [])
        ≡ object 67 ∷ object 67 ∷ [] }
    ensures second { map (first_object (whole 1)) (object 12 ∷ whole 2 ∷ [])
        ≡ object 12 ∷ whole 2 ∷ [] }
    ensures of_two { map (λ op. converted_first op (object 67) (object 12)) operators
        ≡ replicate 9 (object 67) ++ object 12 ∷ object 12 ∷ replicate 10 (object 67) }
    ensures left { map (λ op. converted_first op (object 67) (whole 1)) operators
        ≡ replicate 21 (object 67) }
    ensures right { map (λ op. converted_first op (whole 1) (object 12)) operators
        ≡ replicate 12 (object 12) ++ whole 1 ∷ whole 1 ∷ object 12 ∷ object 12
        ∷ whole 1 ∷ whole 1 ∷ replicate 3 (object 12) }
    ensures throws_left { map (λ op. enters_operated (with_methods (object 67) (object 13)) hosts
        op (object 67) (object 12)) operators
        ≡ replicate 9 false ++ true ∷ true ∷ false ∷ true ∷ true ∷ replicate 7 false }
    ensures throws_right { map (λ op. enters_operated (with_methods (object 67) (object 13)) hosts
        op (object 12) (object 67)) operators
        ≡ replicate 9 true ++ false ∷ false ∷ replicate 10 true }
    ensures of_no_objects { map (λ op. enters_operated more_objects hosts op (whole 1) (whole 2))
        operators ≡ replicate 12 false ++ true ∷ true ∷ replicate 7 false }
{}
