//! Worked texts of numbers: these calls do nothing, and each says which number a text is.

ghost use Rattle.std.specs.Prelude.{◌≡◌, [], ◌∷◌, ◌++◌, true, false};
ghost use Rattle.std.specs.Prelude.{Ok, Err, codes, replicate};
ghost use Rattle.std.specs.List.{list_all, list_any};
ghost use Rattle.js_values.specs.declared.number.Num.TheVariants.{NaN};
ghost use Rattle.js_values.specs.declared.reason.Reason.TheVariants as stop;
ghost use Rattle.js_values.specs.NumberTexts as texts;
ghost use Rattle.js_values.specs.Rows.{n, minus, top, numbers_of};

/// Which units are blanks.
pub fn blanks()
    ensures white_space { list_all texts.is_white_space (9 ∷ 11 ∷ 12 ∷ 32 ∷ 0xA0 ∷ 0x1680
        ∷ 0x2000 ∷ 0x2001 ∷ 0x2009 ∷ 0x200A ∷ 0x202F ∷ 0x205F ∷ 0x3000 ∷ []) ≡ true }
    ensures line_terminators { list_all texts.is_blank (10 ∷ 13 ∷ 0x2028 ∷ 0x2029 ∷ []) ≡ true }
    ensures no_white_space { list_any texts.is_white_space (10 ∷ 13 ∷ 0x2028 ∷ 0x2029 ∷ [])
        ≡ false }
    ensures others { list_any texts.is_blank (0 ∷ 8 ∷ 14 ∷ 31 ∷ 33 ∷ 0x85 ∷ 0x9F ∷ 0xA1
        ∷ 0x167F ∷ 0x1681 ∷ 0x180E ∷ 0x1FFF ∷ 0x200B ∷ 0x2027 ∷ 0x202A ∷ 0x202E ∷ 0x2030
        ∷ 0x205E ∷ 0x2060 ∷ 0x2FFF ∷ 0x3001 ∷ 0xFEFF ∷ []) ≡ false }
    ensures trimmed { texts.trimmed (32 ∷ 10 ∷ 49 ∷ 32 ∷ 50 ∷ 0xA0 ∷ 13 ∷ []) ≡ codes "1 2" }
    ensures all_trimmed { texts.trimmed (32 ∷ 10 ∷ 32 ∷ []) ≡ [] }
    ensures none_trimmed { texts.trimmed (codes "1 2") ≡ codes "1 2" }
{}

/// Texts in decimal.
pub fn decimal_texts()
    ensures nothing { numbers_of ([] ∷ codes " " ∷ codes "\n\t " ∷ [])
        ≡ Ok (n 0) ∷ Ok (n 0) ∷ Ok (n 0) ∷ [] }
    ensures digits { numbers_of (codes "0" ∷ codes "9" ∷ codes "007" ∷ codes " \t12\n" ∷ [])
        ≡ Ok (n 0) ∷ Ok (n 9) ∷ Ok (n 7) ∷ Ok (n 12) ∷ [] }
    ensures other_blanks { texts.number_of_text (0xA0 ∷ 49 ∷ 0x3000 ∷ []) ≡ Ok (n 1) }
    ensures signs { numbers_of (codes "+5" ∷ codes "-5" ∷ codes "-0" ∷ [])
        ≡ Ok (n 5) ∷ Ok (minus 5) ∷ Ok (n 0) ∷ [] }
    ensures many_zeros { texts.number_of_text (replicate 400 48 ++ codes "7") ≡ Ok (n 7) }
    ensures greatest { texts.number_of_text (codes "9007199254740991") ≡ Ok (n top) }
    ensures above { texts.number_of_text (codes "9007199254740992") ≡ Err stop.TooLarge }
    ensures least { texts.number_of_text (codes "-9007199254740991") ≡ Ok (minus top) }
    ensures below { texts.number_of_text (codes "-9007199254740992") ≡ Err stop.TooLarge }
{}

/// Texts in hexadecimal.
pub fn hexadecimal_texts()
    ensures digits { numbers_of (codes "0x1F" ∷ codes "0X1f" ∷ codes "0x0a9" ∷ codes " 0xAf " ∷ [])
        ≡ Ok (n 31) ∷ Ok (n 31) ∷ Ok (n 169) ∷ Ok (n 175) ∷ [] }
    ensures greatest { texts.number_of_text (codes "0x1fffffffffffff") ≡ Ok (n top) }
    ensures above { texts.number_of_text (codes "0x20000000000000") ≡ Err stop.TooLarge }
    ensures no_digits { numbers_of (codes "0x" ∷ codes "0x " ∷ codes "x1" ∷ codes "1x1" ∷ [])
        ≡ replicate 4 (Ok NaN) }
    ensures no_sign { numbers_of (codes "-0x1" ∷ codes "+0x1" ∷ codes "0x-1" ∷ [])
        ≡ replicate 3 (Ok NaN) }
    ensures other_digits { numbers_of (codes "0xg" ∷ codes "0x1G" ∷ codes "0y1" ∷ codes "0w1"
        ∷ codes "0Y1" ∷ codes "0W1" ∷ codes "0x1.0" ∷ []) ≡ replicate 7 (Ok NaN) }
{}

/// Texts that the standard reads as numbers, and that are not written as whole numbers.
pub fn fractional_texts()
    ensures points { numbers_of (codes "1.5" ∷ codes "1." ∷ codes ".5" ∷ codes "-1.5"
        ∷ codes "+.5" ∷ codes " 1.0 " ∷ []) ≡ replicate 6 (Err stop.NumberText) }
    ensures exponents { numbers_of (codes "1e3" ∷ codes "1E3" ∷ codes "1e+3" ∷ codes "1e-3"
        ∷ codes "1.e3" ∷ codes ".5e3" ∷ codes "1.5E0" ∷ []) ≡ replicate 7 (Err stop.NumberText) }
    ensures infinities { numbers_of (codes "Infinity" ∷ codes "-Infinity" ∷ codes "+Infinity"
        ∷ []) ≡ replicate 3 (Err stop.NumberText) }
{}

/// Texts that are no numbers.
pub fn other_texts()
    ensures signs { numbers_of (codes "+" ∷ codes "-" ∷ codes "--5" ∷ codes "+-5" ∷ codes "- 5"
        ∷ codes ",5" ∷ []) ≡ replicate 6 (Ok NaN) }
    ensures points { numbers_of (codes "." ∷ codes "1.5.5" ∷ codes "1.5x" ∷ codes "1/5"
        ∷ codes ".x" ∷ []) ≡ replicate 5 (Ok NaN) }
    ensures exponents { numbers_of (codes "1e" ∷ codes "1e+" ∷ codes "e3" ∷ codes ".e3"
        ∷ codes "1.5e" ∷ codes "1e3.5" ∷ codes "1f3" ∷ codes "1d3" ∷ codes "1F3" ∷ codes "1D3"
        ∷ []) ≡ replicate 10 (Ok NaN) }
    ensures words { numbers_of (codes "infinity" ∷ codes "Infinityx" ∷ codes "Infinit"
        ∷ codes "--Infinity" ∷ codes "NaN" ∷ codes "a" ∷ []) ≡ replicate 6 (Ok NaN) }
    ensures digits { numbers_of (codes "1_0" ∷ codes "1 2" ∷ codes "12a" ∷ codes "1:" ∷ codes "/1"
        ∷ []) ≡ replicate 5 (Ok NaN) }
    ensures wide_digit { texts.number_of_text (0xFF19 ∷ []) ≡ Ok NaN }
    ensures byte_order_mark { texts.number_of_text (0xFEFF ∷ 49 ∷ []) ≡ Ok NaN }
{}
