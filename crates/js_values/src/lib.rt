//! The numbers and values of scripts (ES3 8, 9, 11).
//!
//! A `Num` is NaN or a whole number of at most 53 bits; an operation gives what the standard's
//! does, or the `Reason` why the run stops there. The layers above may know of it the definitions
//! of `specs/`, over the whole numbers: `Numbers` and `Integers` of operations, `Numerals` and
//! `NumberTexts` of texts, `Values` and `Equality` of conversions, `Shown` of what reports show.
//! The laws say how these belong together, and the rows compute them at their edges. How numbers
//! and values are stored stays here.
#![tactic(auto)]

mod arithmetic;
mod equality;
mod integers;
mod laws;
mod number;
mod number_text;
mod numeral;
mod primitive;
mod reason;
mod rows;
mod shown;
mod text_rows;
mod value;
mod value_rows;

pub use arithmetic::{add, div, less, mul, neg, rem, sub};
pub use equality::{loosely_equal, strictly_equal};
pub use integers::{shift_left, shift_right, shift_right_unsigned, to_int32, to_uint32};
pub use laws::{
    equality_is_symmetric, fractions_are_literals, integers_agree, quotients_are_exact,
    remainders_are_left, sums_and_products_commute, texts_read_back,
};
pub use number::{Num, WholeNumber};
pub use number_text::num_of_units;
pub use numeral::text_of_num;
pub use primitive::{to_boolean, to_number, to_text, type_of};
pub use reason::Reason;
pub use rows::{
    integers_of_32_bits, order, products, quotients, shifts, sums, texts_of_numbers, whole_numbers,
};
pub use shown::Shown;
pub use text_rows::{blanks, decimal_texts, fractional_texts, hexadecimal_texts, other_texts};
pub use value::{ObjectId, Value};
pub use value_rows::{
    booleans, loose_equality, numbers, primitives, shown_values, strict_equality, texts,
};

#[cfg(test)]
mod tests;
