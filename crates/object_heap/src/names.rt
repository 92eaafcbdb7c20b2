ghost use Rattle.std.specs.Prelude.{◌≡◌, ◌<◌, ◌^◌, ◌++◌, true, min, IfOk, OnOk};
ghost use Rattle.std.specs.Char.{digit_char, digit_value};
ghost use Rattle.std.specs.List.{list_all};
ghost use Rattle.std.specs.Str.Parse.{digits_value};
ghost use Rattle.js_values.specs.NumberTexts as spec;
ghost use Rattle.object_heap.specs.Arrays as arrays;
ghost use Rattle.object_heap.specs.Names as names;

use dl_text::Units;
use std::alloc::{AllocError, Global};

/// 2^53, from where on all numbers are too large.
const LIMIT: u64 = 1 << 53;

/// 2^32 - 1, the greatest length of an array.
pub(crate) const GREATEST_LENGTH: u64 = 0xffff_ffff;

/// `length`.
const LENGTH: [u16; 6] = [0x6c, 0x65, 0x6e, 0x67, 0x74, 0x68];

/// `$dl_`.
const RESERVED: [u16; 4] = [0x24, 0x64, 0x6c, 0x5f];

/// Whether a name is `length`.
pub fn is_length(name: &[u16]) -> bool
    ensures { result ≡ names.is_same_name name.now names.length_name }
{
    name == LENGTH.as_slice()
}

/// Whether a name begins with `$dl_`, as those do that scripts cannot write.
pub fn is_reserved(name: &[u16]) -> bool
    ensures { result ≡ names.is_reserved name.now }
{
    name.starts_with(RESERVED.as_slice())
}

fn is_digit(unit: u16) -> bool
    ensures { result ≡ spec.is_digit unit }
{
    (0x30..=0x39).contains(&unit)
}

fn are_digits(units: &[u16]) -> bool
    ensures { result ≡ list_all spec.is_digit units.now }
{
    units.iter().all(|unit| is_digit(*unit))
}

/// Whether a name is the text of a whole number (ES3 9.8.1).
fn is_whole_text(name: &[u16]) -> bool
    ensures { result ≡ names.is_whole_text name.now }
{
    match name {
        [] => false,
        [only] => is_digit(*only),
        [0x30, ..] => false,
        [first, second, rest @ ..] => is_digit(*first) && is_digit(*second) && are_digits(rest),
    }
}

fn digit_of(unit: u16) -> u64
    requires { spec.is_digit unit ≡ true }
    ensures { result ≡ digit_value unit }
{
    u64::from(unit - 0x30)
}

/// The number that the digits write, or 2^53 where it is at least that.
#[tactic(auto, using(js_values::proofs::Capped::capped_more, crate::proofs::WholeTexts::digit_at))]
fn capped_value(digits: &[u16]) -> u64
    requires { list_all spec.is_digit digits.now ≡ true }
    ensures { result ≡ min (2 ^ 53) (digits_value 10 digits.now) }
{
    let mut value = 0;
    for unit in digits {
        value = LIMIT.min(value * 10 + digit_of(*unit));
    }
    value
}

#[tactic(auto, using(crate::proofs::WholeTexts::whole_text_has_digits))]
/// The number that a name is the text of, where it is an index (ES3 15.4).
pub(crate) fn index_of(name: &[u16]) -> Option<u32>
    ensures { result ≡ names.index_of name.now }
{
    if !is_whole_text(name) {
        return None;
    }
    let value = capped_value(name);
    if value < GREATEST_LENGTH {
        Some(value as u32)
    } else {
        None
    }
}

/// Whether an index lies from one length up to another.
pub(crate) fn is_between(new: u32, old: u32, index: Option<u32>) -> bool
    ensures { result ≡ arrays.is_between new old index }
{
    match index {
        Some(k) => new <= k && k < old,
        None => false,
    }
}

/// The character of a digit.
fn digit(value: u64) -> u16
    requires { value < 10 }
    ensures { result ≡ digit_char value }
{
    b'0' as u16 + value as u16
}

/// Adds the digits of a number, the highest first.
#[tactic(auto, using(js_values::proofs::Digits::digits_texts))]
fn push_decimal(text: &mut Units, value: u64) -> Result<(), AllocError>
    ensures { OnOk result (text.new ≡ text.old ++ names.decimal value) }
{
    if value < 10 {
        return text.push(digit(value));
    }
    push_decimal(text, value / 10)?;
    text.push(digit(value % 10))
}

/// The text of a whole number (ES3 9.8.1).
pub(crate) fn decimal(alloc: Global, value: u64) -> Result<Units, AllocError>
    ensures { IfOk result (λ text. text ≡ names.decimal value) }
{
    let mut text = Units::new(alloc);
    push_decimal(&mut text, value)?;
    Ok(text)
}
