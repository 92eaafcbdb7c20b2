ghost use Rattle.std.specs.Prelude.{◌≡◌, ◌+◌, ◌≤◌, ◌<◌, ◌^◌, ◌∷◌, length, IfOk, IfSome, IsTrue};
ghost use Rattle.js_lexer.specs.Fronts as spec;

use crate::characters::{begins_with_digit, is_digit, is_line_terminator};
use crate::front::Front;
use crate::token::{LexKind, TokenKind};
use dl_text::Units;
use std::alloc::{AllocError, Global};

/// The unit of two hexadecimal digits at the front, and the length of the escape that they end.
fn two_digits(text: &[char]) -> Option<(u32, usize)>
    ensures value { result ≡ spec.two_digits text.now }
    ensures within { IfSome result (λ part. (part.1 ≡ 4) × (2 ≤ length text.now) × (part.0 < 256)) }
{
    match text {
        [a, b, ..] => Some((16 * a.to_digit(16)? + b.to_digit(16)?, 4)),
        _ => None,
    }
}

/// The unit of four hexadecimal digits at the front, and the length of the escape that they end.
fn four_digits(text: &[char]) -> Option<(u32, usize)>
    ensures value { result ≡ spec.four_digits text.now }
    ensures within { IfSome result (λ part.
        (part.1 ≡ 6) × (4 ≤ length text.now) × (part.0 < 0x1_0000)) }
{
    match text {
        [a, b, c, d, ..] => {
            let high = 4096 * a.to_digit(16)? + 256 * b.to_digit(16)?;
            Some((high + 16 * c.to_digit(16)? + d.to_digit(16)?, 6))
        }
        _ => None,
    }
}

/// What a single character gives behind a backslash.
fn escaped(c: char) -> u32
    ensures value { result ≡ spec.escaped c }
    ensures within { result < 0x11_0000 }
{
    match c {
        'b' => 8,
        't' => 9,
        'n' => 10,
        'v' => 11,
        'f' => 12,
        'r' => 13,
        _ => u32::from(c),
    }
}

/// What stands behind a backslash: what it gives, and the length from the backslash on.
fn escape(text: &[char]) -> Option<(u32, usize)>
    ensures value { result ≡ spec.escape text.now }
    ensures within { IfSome result (λ part.
        (0 < part.1) × (part.1 ≤ 1 + length text.now) × (part.0 < 0x11_0000)) }
{
    match text {
        [] => None,
        [c, rest @ ..] => {
            if *c == 'x' {
                two_digits(rest)
            } else if *c == 'u' {
                four_digits(rest)
            } else if is_digit(*c) {
                if *c == '0' && !begins_with_digit(rest) {
                    Some((0, 2))
                } else {
                    None
                }
            } else if is_line_terminator(*c) {
                None
            } else {
                Some((escaped(*c), 2))
            }
        }
    }
}

/// The part of a string between such quotes at the front: what it gives, and its length.

fn string_part(quote: char, text: &[char]) -> Option<(u32, usize)>
    ensures value { result ≡ spec.string_part quote text.now }
    ensures within { IfSome result (λ part.
        (0 < part.1) × (part.1 ≤ length text.now) × (part.0 < 0x11_0000)) }
{
    match text {
        [] => None,
        [c, rest @ ..] => {
            if *c == '\\' {
                escape(rest)
            } else if *c == quote || is_line_terminator(*c) {
                None
            } else {
                Some((u32::from(*c), 1))
            }
        }
    }
}

/// The parts of a string at the front, as far as there are any: their units and their length.
fn string_inside(alloc: Global, quote: char, text: &[char]) -> Result<(Units, usize), AllocError>
    ensures inside { IfOk result (λ inside. spec.IsInside quote text.now inside.1 inside.0) }
    ensures within { IfOk result (λ inside. inside.1 ≤ length text.now) }
{
    let mut units = Units::new(alloc);
    let mut at = 0;
    while let Some((value, length)) = string_part(quote, &text[at..]) {
        units.push_code_point(value)?;
        at += length;
    }
    Ok((units, at))
}

/// Whether the text begins with a line terminator, or is empty.
fn is_line_end(text: &[char]) -> bool
    ensures { result ≡ spec.is_line_end text.now }
{
    match text {
        [] => true,
        [c, ..] => is_line_terminator(*c),
    }
}

/// What ends a string behind so many characters, which give these units.
fn string_end(quote: char, length: usize, units: Units, rest: &[char]) -> Front
    requires { length < 2 ^ 63 }
    ensures { result ≡ spec.string_end quote length units rest.now }
{
    match rest {
        [] => Front::Bad(LexKind::OpenString, 0),
        [c, more @ ..] => {
            if *c == quote {
                Front::Next(length + 2, Some(TokenKind::Str(units)))
            } else if *c == '\\' && !is_line_end(more) {
                Front::Bad(LexKind::BadEscape, length + 1)
            } else {
                Front::Bad(LexKind::OpenString, 0)
            }
        }
    }
}

/// What stands at a quote, before this rest: a string, or its fault.
pub fn string(alloc: Global, quote: char, rest: &[char]) -> Result<Front, AllocError>
    requires { IsTrue (spec.is_quote quote) }
    ensures { IfOk result (spec.StandsAt (quote ∷ rest.now)) }
{
    let (units, length) = string_inside(alloc, quote, rest)?;
    let (_, end) = rest.split_at(length);
    Ok(string_end(quote, length, units, end))
}
