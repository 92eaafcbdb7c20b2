ghost use Rattle.std.specs.Prelude.{◌≡◌, ◌<◌, ◌≤◌, ◌++◌, IfOk, OnOk};
ghost use Rattle.std.specs.Char.{digit_char};
ghost use Rattle.js_values.specs.Numerals as spec;

use crate::number::Num;
use dl_text::{Units, units_of};
use std::alloc::{AllocError, Global};

/// The character of a digit.
fn digit(value: u64) -> u16
    requires { value < 36 }
    ensures { result ≡ digit_char value }
{
    if value < 10 {
        b'0' as u16 + value as u16
    } else {
        b'a' as u16 + (value - 10) as u16
    }
}

/// Adds the digits, the highest first.
#[tactic(auto, using(crate::proofs::Digits::digits_texts))]
fn push_digits(text: &mut Units, value: u64, radix: u64) -> Result<(), AllocError>
    requires least { 2 ≤ radix }
    requires most { radix ≤ 36 }
    ensures { OnOk result (text.new ≡ text.old ++ spec.digits_text radix value) }
{
    if value < radix {
        return text.push(digit(value));
    }
    push_digits(text, value / radix, radix)?;
    text.push(digit(value % radix))
}

/// The text of a number in a radix, in lower case and behind `-` below 0 (ES3 9.8.1, 15.7.4.2).
#[tactic(auto, using(crate::proofs::Words::word_units))]
pub fn text_of_num(alloc: Global, a: Num, radix: u32) -> Result<Units, AllocError>
    requires least { 2 ≤ radix }
    requires most { radix ≤ 36 }
    ensures { IfOk result (λ text. text ≡ spec.number_text radix a) }
{
    let Some(value) = a.value() else {
        return units_of(alloc, "NaN");
    };
    let mut text = Units::new(alloc);
    if value < 0 {
        text.push(b'-' as u16)?;
    }
    push_digits(&mut text, value.unsigned_abs(), u64::from(radix))?;
    Ok(text)
}
