//! Worked numbers and values: these calls do nothing, and each says what a definition gives.

ghost use Rattle.std.specs.Prelude.{◌≡◌, ◌-◌, ◌^◌, [], true, false, pos, neg_ℤ, codes};
ghost use Rattle.std.specs.Prelude.{Ok, Err, Some, None};
ghost use Rattle.js_values.specs.declared.number.Num.TheVariants.{NaN};
ghost use Rattle.js_values.specs.declared.reason.Reason.TheVariants as stop;
ghost use Rattle.js_values.specs.Integers as integers;
ghost use Rattle.js_values.specs.Numbers as numbers;
ghost use Rattle.js_values.specs.Numerals as numerals;
ghost use Rattle.js_values.specs.Range.{IsInRange};
ghost use Rattle.js_values.specs.Rows.{n, minus, top};

/// Which whole numbers there are.
pub fn whole_numbers()
    ensures greatest { IsInRange (pos top) }
    ensures least { IsInRange (neg_ℤ (pos top)) }
    ensures above { IsInRange (pos (2 ^ 53)) → ⊥ }
    ensures below { IsInRange (neg_ℤ (pos (2 ^ 53))) → ⊥ }
{}

/// Sums and differences.
pub fn sums()
    ensures sum { numbers.sum_of (n 2) (minus 5) ≡ Ok (minus 3) }
    ensures nan_and { numbers.sum_of NaN (n 1) ≡ Ok NaN }
    ensures and_nan { numbers.sum_of (n 1) NaN ≡ Ok NaN }
    ensures greatest_sum { numbers.sum_of (n (top - 1)) (n 1) ≡ Ok (n top) }
    ensures above { numbers.sum_of (n top) (n 1) ≡ Err stop.TooLarge }
    ensures least_sum { numbers.sum_of (minus (top - 1)) (minus 1) ≡ Ok (minus top) }
    ensures below { numbers.sum_of (minus top) (minus 1) ≡ Err stop.TooLarge }
    ensures difference { numbers.difference_of (n 2) (n 5) ≡ Ok (minus 3) }
    ensures nan_less { numbers.difference_of NaN (n 1) ≡ Ok NaN }
    ensures less_nan { numbers.difference_of (n 1) NaN ≡ Ok NaN }
    ensures difference_below { numbers.difference_of (minus top) (n 1) ≡ Err stop.TooLarge }
    ensures difference_above { numbers.difference_of (n top) (minus 1) ≡ Err stop.TooLarge }
{}

/// Products and negations.
pub fn products()
    ensures product { numbers.product_of (minus 3) (n 5) ≡ Ok (minus 15) }
    ensures of_two_negatives { numbers.product_of (minus 3) (minus 5) ≡ Ok (n 15) }
    ensures no_minus_zero { numbers.product_of (minus 3) (n 0) ≡ Ok (n 0) }
    ensures nan_times { numbers.product_of NaN (n 0) ≡ Ok NaN }
    ensures times_nan { numbers.product_of (n 0) NaN ≡ Ok NaN }
    ensures greatest { numbers.product_of (minus top) (minus 1) ≡ Ok (n top) }
    ensures above { numbers.product_of (n (2 ^ 52)) (n 2) ≡ Err stop.TooLarge }
    ensures below { numbers.product_of (n (2 ^ 52)) (minus 2) ≡ Err stop.TooLarge }
    ensures far_above { numbers.product_of (n top) (n top) ≡ Err stop.TooLarge }
    ensures negation { numbers.negation_of (n 3) ≡ minus 3 }
    ensures of_a_negative { numbers.negation_of (minus 3) ≡ n 3 }
    ensures of_zero { numbers.negation_of (n 0) ≡ n 0 }
    ensures of_nan { numbers.negation_of NaN ≡ NaN }
{}

/// Quotients and remainders.
pub fn quotients()
    ensures whole { numbers.quotient_of (minus 6) (n 3) ≡ Ok (minus 2) }
    ensures by_a_negative { numbers.quotient_of (n 6) (minus 3) ≡ Ok (minus 2) }
    ensures of_two_negatives { numbers.quotient_of (minus 6) (minus 3) ≡ Ok (n 2) }
    ensures of_zero { numbers.quotient_of (n 0) (minus 3) ≡ Ok (n 0) }
    ensures fraction { numbers.quotient_of (n 7) (n 2) ≡ Err stop.Fraction }
    ensures small_fraction { numbers.quotient_of (minus 1) (n top) ≡ Err stop.Fraction }
    ensures infinite { numbers.quotient_of (n 7) (n 0) ≡ Err stop.Infinite }
    ensures negative_infinite { numbers.quotient_of (minus 7) (n 0) ≡ Err stop.Infinite }
    ensures zero_by_zero { numbers.quotient_of (n 0) (n 0) ≡ Ok NaN }
    ensures nan_by_zero { numbers.quotient_of NaN (n 0) ≡ Ok NaN }
    ensures by_nan { numbers.quotient_of (n 7) NaN ≡ Ok NaN }
    ensures rest { numbers.remainder_of (n 7) (n 4) ≡ n 3 }
    ensures rest_of_a_negative { numbers.remainder_of (minus 7) (n 4) ≡ minus 3 }
    ensures rest_by_a_negative { numbers.remainder_of (n 7) (minus 4) ≡ n 3 }
    ensures no_rest { numbers.remainder_of (minus 8) (n 4) ≡ n 0 }
    ensures rest_by_zero { numbers.remainder_of (n 7) (n 0) ≡ NaN }
    ensures nan_rest { numbers.remainder_of NaN (n 4) ≡ NaN }
    ensures rest_by_nan { numbers.remainder_of (n 7) NaN ≡ NaN }
{}

/// The order of numbers.
pub fn order()
    ensures below { numbers.less_of (minus 2) (n 1) ≡ Some true }
    ensures above { numbers.less_of (n 1) (minus 2) ≡ Some false }
    ensures same { numbers.less_of (n 1) (n 1) ≡ Some false }
    ensures nan_first { numbers.less_of NaN (n 1) ≡ None }
    ensures nan_second { numbers.less_of (n 1) NaN ≡ None }
{}

/// Integers of 32 bits.
pub fn integers_of_32_bits()
    ensures unsigned_of_nan { integers.uint32_of NaN ≡ 0 }
    ensures unsigned { integers.uint32_of (n 5) ≡ 5 }
    ensures unsigned_of_a_negative { integers.uint32_of (minus 1) ≡ 4294967295 }
    ensures unsigned_greatest { integers.uint32_of (n 4294967295) ≡ 4294967295 }
    ensures unsigned_wraps { integers.uint32_of (n 4294967296) ≡ 0 }
    ensures unsigned_wraps_below { integers.uint32_of (minus 4294967297) ≡ 4294967295 }
    ensures signed_of_nan { integers.int32_of NaN ≡ pos 0 }
    ensures signed { integers.int32_of (n 2147483647) ≡ pos 2147483647 }
    ensures signed_wraps { integers.int32_of (n 2147483648) ≡ neg_ℤ (pos 2147483648) }
    ensures signed_of_a_negative { integers.int32_of (minus 1) ≡ neg_ℤ (pos 1) }
    ensures signed_of_the_top { integers.int32_of (n top) ≡ neg_ℤ (pos 1) }
{}

/// Shifts.
pub fn shifts()
    ensures left { integers.shifted_left (n 3) (n 4) ≡ n 48 }
    ensures left_to_the_sign { integers.shifted_left (n 1) (n 31) ≡ minus 2147483648 }
    ensures left_by_32 { integers.shifted_left (n 1) (n 32) ≡ n 1 }
    ensures left_out { integers.shifted_left (n 4294967295) (n 4) ≡ minus 16 }
    ensures left_by_a_negative { integers.shifted_left (n 1) (minus 1) ≡ minus 2147483648 }
    ensures right { integers.shifted_right (minus 5) (n 1) ≡ minus 3 }
    ensures right_of_a_positive { integers.shifted_right (n 5) (n 1) ≡ n 2 }
    ensures right_by_33 { integers.shifted_right (n 5) (n 33) ≡ n 2 }
    ensures right_by_32 { integers.shifted_right (n 5) (n 32) ≡ n 5 }
    ensures right_of_many_bits { integers.shifted_right (n 4294967295) (n 1) ≡ minus 1 }
    ensures unsigned { integers.shifted_right_unsigned (minus 1) (n 0) ≡ n 4294967295 }
    ensures unsigned_by_28 { integers.shifted_right_unsigned (minus 1) (n 28) ≡ n 15 }
    ensures unsigned_by_33 { integers.shifted_right_unsigned (n 5) (n 33) ≡ n 2 }
    ensures of_nan { integers.shifted_right_unsigned NaN NaN ≡ n 0 }
{}

/// Texts of numbers, and back.
pub fn texts_of_numbers()
    ensures of_nan { numerals.number_text 10 NaN ≡ codes "NaN" }
    ensures of_zero { numerals.number_text 2 (n 0) ≡ codes "0" }
    ensures of_ten { numerals.number_text 10 (n 10) ≡ codes "10" }
    ensures of_a_negative { numerals.number_text 10 (minus 255) ≡ codes "-255" }
    ensures in_two { numerals.number_text 2 (minus 255) ≡ codes "-11111111" }
    ensures in_sixteen { numerals.number_text 16 (minus 255) ≡ codes "-ff" }
    ensures in_thirty_six { numerals.number_text 36 (minus 255) ≡ codes "-73" }
    ensures last_digits { numerals.number_text 36 (n 359) ≡ codes "9z" }
    ensures read_nothing { numerals.number_in 10 [] ≡ pos 0 }
    ensures read { numerals.number_in 16 (codes "ff") ≡ pos 255 }
    ensures read_a_negative { numerals.number_in 36 (codes "-73") ≡ neg_ℤ (pos 255) }
{}
