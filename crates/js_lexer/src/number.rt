ghost use Rattle.std.specs.Prelude.{ℕ, ◌≡◌, ◌≤◌, ◌<◌, ◌^◌, length, min, slice_index};
ghost use Rattle.std.specs.Char.{digit_value};
ghost use Rattle.js_lexer.specs.Characters.{number_of};
ghost use Rattle.js_lexer.specs.Fronts as spec;

use crate::characters::{begins_name, digits_length, hex_digits_length, is_digit, is_hex_digit};
use crate::front::Front;
use crate::token::{LexKind, TokenKind};

const LIMIT: u64 = 1 << 53;

fn digit_of(base: u32, digit: char) -> u32
    requires least { 2 ≤ base }
    requires most { base ≤ 36 }
    requires digit { digit_value digit < base }
    ensures { result ≡ digit_value digit }
{
    digit.to_digit(base).unwrap_or(0)
}

/// The number that the digits write, or 2^53 where it is at least that.
#[tactic(auto, using(crate::proofs::Numbers::capped_more))]
fn value_of(base: u32, digits: &[char]) -> u64
    requires least { 2 ≤ base }
    requires most { base ≤ 36 }
    requires digits { (i : ℕ) → i < length digits.now
        → digit_value (slice_index digits.now i) < base }
    ensures { result ≡ min (2 ^ 53) (number_of base digits.now) }
{
    let mut value = 0u64;
    for digit in digits {
        let next = digit_of(base, *digit);
        value = LIMIT.min(u64::from(base) * value + u64::from(next));
    }
    value
}

fn is_hex_number(text: &[char]) -> bool
    ensures { result ≡ spec.is_hex_number text.now }
{
    match text {
        ['0', x, digit, ..] => (*x == 'x' || *x == 'X') && is_hex_digit(*digit),
        _ => false,
    }
}

fn after_number(hex: bool, rest: &[char]) -> Option<LexKind>
    ensures { result ≡ spec.after_number hex rest.now }
{
    let next = *rest.first()?;
    if is_digit(next) {
        Some(LexKind::Octal)
    } else if !hex && next == '.' {
        Some(LexKind::Fraction)
    } else if !hex && (next == 'e' || next == 'E') {
        Some(LexKind::Exponent)
    } else if begins_name(next) || next == '\\' {
        Some(LexKind::NumberTail)
    } else {
        None
    }
}

fn tested_number(length: usize, value: u64, fault: Option<LexKind>) -> Front
    ensures { (exact : ℕ) → value ≡ min (2 ^ 53) exact
        → result ≡ spec.tested_number length exact fault }
{
    match fault {
        Some(kind) => Front::Bad(kind, 0),
        None if value < LIMIT => Front::Next(length, Some(TokenKind::Number(value))),
        None => Front::Bad(LexKind::WideNumber, 0),
    }
}

#[tactic(auto, using(crate::proofs::Runs::hex_digits_pass))]
fn hex_number(text: &[char]) -> Front
    ensures { result ≡ spec.hex_number text.now }
{
    let length = hex_digits_length(text);
    let (digits, rest) = text.split_at(length);
    tested_number(2 + length, value_of(16, digits), after_number(true, rest))
}

fn decimal_length(text: &[char]) -> usize
    ensures value { result ≡ spec.decimal_length text.now }
    ensures within { result ≤ length text.now }
{
    match text {
        ['0', ..] => 1,
        _ => digits_length(text),
    }
}

#[tactic(auto, using(crate::proofs::Runs::decimal_digits_pass))]
fn decimal_number(text: &[char]) -> Front
    ensures { result ≡ spec.decimal_number text.now }
{
    let length = decimal_length(text);
    let (digits, rest) = text.split_at(length);
    tested_number(length, value_of(10, digits), after_number(false, rest))
}

/// The number at the front of a text that begins with a digit, or its fault.
pub fn number(text: &[char]) -> Front
    ensures { result ≡ spec.number text.now }
{
    if is_hex_number(text) {
        hex_number(&text[2..])
    } else {
        decimal_number(text)
    }
}
