ghost use Rattle.std.specs.Prelude.{◌≡◌, ◌≤◌, ◌^◌, min};
ghost use Rattle.std.specs.Char.{digit_value};
ghost use Rattle.std.specs.List.{list_all};
ghost use Rattle.std.specs.Str.Parse.{digits_value};
ghost use Rattle.dl_text.specs.Place as place;
ghost use Rattle.js_values.specs.NumberTexts as spec;

use crate::number::Num;
use crate::reason::Reason;
use dl_text::Units;

/// 2^53, the first number that is too large.
const LIMIT: u64 = 1 << 53;

/// `Infinity`.
const INFINITY: [u16; 8] = [0x49, 0x6e, 0x66, 0x69, 0x6e, 0x69, 0x74, 0x79];

fn is_white_space(unit: u16) -> bool
    ensures { result ≡ spec.is_white_space unit }
{
    matches!(
        unit,
        0x9 | 0xb | 0xc | 0x20 | 0xa0 | 0x1680 | 0x2000..=0x200a | 0x202f | 0x205f | 0x3000
    )
}

fn is_line_terminator(unit: u16) -> bool
    ensures { result ≡ place.is_line_terminator unit }
{
    matches!(unit, 0xa | 0xd | 0x2028 | 0x2029)
}

fn is_blank(unit: u16) -> bool
    ensures { result ≡ spec.is_blank unit }
{
    is_white_space(unit) || is_line_terminator(unit)
}

fn is_digit(unit: u16) -> bool
    ensures { result ≡ spec.is_digit unit }
{
    (0x30..=0x39).contains(&unit)
}

/// The value of a digit, or 36.
fn digit_of(unit: u16) -> u64
    ensures value { result ≡ digit_value unit }
    ensures most { result ≤ 36 }
{
    match unit {
        0x30..=0x39 => u64::from(unit - 0x30),
        0x41..=0x5a => u64::from(unit - 0x37),
        0x61..=0x7a => u64::from(unit - 0x57),
        _ => 36,
    }
}

fn is_hex_digit(unit: u16) -> bool
    ensures { result ≡ spec.is_hex_digit unit }
{
    digit_of(unit) < 16
}

/// What stands behind the blanks at the front.
#[tactic(auto, using(crate::proofs::Trimming::behind_steps))]
fn behind_blanks(text: &[u16]) -> &[u16]
    ensures { result.now ≡ spec.behind spec.is_blank text.now }
{
    for (i, unit) in text.iter().enumerate() {
        if !is_blank(*unit) {
            return &text[i..];
        }
    }
    &[]
}

/// What stands behind the digits at the front.
#[tactic(auto, using(crate::proofs::Trimming::behind_steps))]
fn behind_digits(text: &[u16]) -> &[u16]
    ensures { result.now ≡ spec.behind spec.is_digit text.now }
{
    for (i, unit) in text.iter().enumerate() {
        if !is_digit(*unit) {
            return &text[i..];
        }
    }
    &[]
}

/// The text without the blanks at its end.
#[tactic(auto, using(crate::proofs::Trimming::last_blanks))]
fn without_last_blanks(text: &[u16]) -> &[u16]
    ensures { result.now ≡ spec.without_last_blanks text.now }
{
    let mut end = text.len();
    while end > 0 {
        if !is_blank(text[end - 1]) {
            return &text[..end];
        }
        end -= 1;
    }
    &[]
}

fn are_digits(text: &[u16]) -> bool
    ensures { result ≡ list_all spec.is_digit text.now }
{
    text.iter().all(|unit| is_digit(*unit))
}

fn are_hex_digits(text: &[u16]) -> bool
    ensures { result ≡ list_all spec.is_hex_digit text.now }
{
    text.iter().all(|unit| is_hex_digit(*unit))
}

fn is_decimal(text: &[u16]) -> bool
    ensures { result ≡ spec.is_decimal text.now }
{
    match text {
        [] => false,
        [first, rest @ ..] => is_digit(*first) && are_digits(rest),
    }
}

fn is_hexadecimal(text: &[u16]) -> bool
    ensures { result ≡ spec.is_hexadecimal text.now }
{
    match text {
        [] => false,
        [first, rest @ ..] => is_hex_digit(*first) && are_hex_digits(rest),
    }
}

/// What stands behind `0x` or `0X`, or nothing.
fn behind_prefix(text: &[u16]) -> &[u16]
    ensures { result.now ≡ spec.behind_prefix text.now }
{
    match text {
        [0x30, 0x78 | 0x58, digits @ ..] => digits,
        _ => &[],
    }
}

/// What stands behind a sign, if there is one.
fn without_sign(text: &[u16]) -> &[u16]
    ensures { result.now ≡ spec.without_sign text.now }
{
    match text {
        [0x2b | 0x2d, rest @ ..] => rest,
        _ => text,
    }
}

fn is_negative(text: &[u16]) -> bool
    ensures { result ≡ spec.is_negative text.now }
{
    matches!(text, [0x2d, ..])
}

/// The number that the digits write, or 2^53 where it is at least that.
#[tactic(auto, using(crate::proofs::Capped::capped_more))]
fn capped_value(radix: u64, digits: &[u16]) -> u64
    requires least { 1 ≤ radix }
    requires most { radix ≤ 36 }
    ensures { result ≡ min (2 ^ 53) (digits_value radix digits.now) }
{
    let mut value = 0;
    for unit in digits {
        value = LIMIT.min(value * radix + digit_of(*unit));
    }
    value
}

fn is_exponent(text: &[u16]) -> bool
    ensures { result ≡ spec.is_exponent text.now }
{
    match text {
        [0x65 | 0x45, rest @ ..] => is_decimal(without_sign(rest)),
        _ => false,
    }
}

fn ends_literal(text: &[u16]) -> bool
    ensures { result ≡ spec.ends_literal text.now }
{
    text.is_empty() || is_exponent(text)
}

fn begins_digit(text: &[u16]) -> bool
    ensures { result ≡ spec.begins_digit text.now }
{
    match text {
        [unit, ..] => is_digit(*unit),
        [] => false,
    }
}

/// Whether the text stands behind a whole part that has digits or not.
fn ends_fraction(digits: bool, text: &[u16]) -> bool
    ensures { result ≡ spec.ends_fraction digits text.now }
{
    match text {
        [] => false,
        [0x2e, rest @ ..] => { (digits || begins_digit(rest)) && ends_literal(behind_digits(rest)) }
        _ => digits && is_exponent(text),
    }
}

fn is_fractional(text: &[u16]) -> bool
    ensures { result ≡ spec.is_fractional text.now }
{
    text == INFINITY.as_slice() || ends_fraction(begins_digit(text), behind_digits(text))
}

#[tactic(auto, using(crate::proofs::Capped::capped_texts))]
fn hex_number(text: &[u16]) -> Result<Num, Reason>
    ensures { result ≡ spec.hex_number text.now }
{
    Num::whole(capped_value(16, behind_prefix(text)) as i64)
}

fn no_whole_number(text: &[u16]) -> Result<Num, Reason>
    ensures { result ≡ spec.no_whole_number text.now }
{
    if is_fractional(without_sign(text)) {
        Err(Reason::NumberText)
    } else {
        Ok(Num::NaN)
    }
}

#[tactic(auto, using(crate::proofs::Capped::capped_texts))]
fn decimal_number(text: &[u16]) -> Result<Num, Reason>
    ensures { result ≡ spec.decimal_number text.now }
{
    let digits = without_sign(text);
    if !is_decimal(digits) {
        return no_whole_number(text);
    }
    let value = capped_value(10, digits) as i64;
    if is_negative(text) {
        Num::whole(-value)
    } else {
        Num::whole(value)
    }
}

/// The number of a text with no blanks around it.
fn number_of_literal(text: &[u16]) -> Result<Num, Reason>
    ensures { result ≡ spec.number_of_literal text.now }
{
    match text {
        [] => Num::whole(0),
        _ if is_hexadecimal(behind_prefix(text)) => hex_number(text),
        _ => decimal_number(text),
    }
}

/// The number that a text is (ES3 9.3.1): `NumberText` where it is one that is not written as a
/// whole number, `TooLarge` where it has more than 53 bits. It takes no memory.
pub fn num_of_units(u: &Units) -> Result<Num, Reason>
    ensures { result ≡ spec.number_of_text u.now }
{
    number_of_literal(without_last_blanks(behind_blanks(u.items())))
}
