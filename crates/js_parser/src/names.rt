//! Which names may stand where.

ghost use Rattle.std.specs.Prelude.{◌≡◌, Some, IfOk, IfErr};
ghost use Rattle.std.specs.Fmt.{decimal};
ghost use Rattle.js_lexer.specs.Characters.{begins};
ghost use Rattle.js_lexer.specs.Words.{is_spelled};
ghost use Rattle.js_parser.specs.Names as spec;
ghost use Rattle.js_parser.specs.Reads.{Makes};
ghost use Rattle.js_parser.specs.declared.stop.Stop.TheVariants.{OutOfMemory};

use crate::form::Form;
use crate::stop::Stop;
use dl_text::{TryCopy, Units};
use js_lexer::TokenKind;
use js_tree::LAST_FUNCTION_NUMBER;
use std::alloc::{AllocError, Global};

/// Whether the name begins with this text, which is ASCII.
#[tactic(auto, using(js_lexer::proofs::Fronts::beginning))]
fn begins_with(text: &str, name: &[u16]) -> bool
    ensures { result ≡ begins text.now name.now }
{
    let bytes = text.as_bytes();
    for (i, byte) in bytes.iter().enumerate() {
        match name.get(i) {
            Some(unit) => {
                if u16::from(*byte) != *unit {
                    return false;
                }
            }
            None => return false,
        }
    }
    true
}

/// Whether the name is this text, which is ASCII.
pub fn is_written_so(text: &str, name: &Units) -> bool
    ensures { result ≡ is_spelled text.now name.now }
{
    let units = name.items();
    text.len() == units.len() && begins_with(text, units)
}

/// The name `eval`.
pub fn is_eval(name: &Units) -> bool
    ensures { result ≡ spec.is_eval name.now }
{
    is_written_so("eval", name)
}

/// Doloto's own names, which begin with `$dl_`.
pub fn is_own(name: &Units) -> bool
    ensures { result ≡ spec.is_own name.now }
{
    begins_with("$dl_", name.items())
}

/// The value of a decimal digit.
fn digit_of(unit: u16) -> Option<u32>
    ensures { result ≡ spec.digit_of unit }
{
    match unit {
        0x30..=0x39 => Some(u32::from(unit - 0x30)),
        _ => None,
    }
}

/// Whether these write the number of a function in decimal, without a leading zero.
fn is_numeral(digits: &[u16]) -> bool
    ensures { result ≡ spec.is_numeral digits.now }
{
    let mut number = 0;
    for unit in digits {
        let Some(digit) = digit_of(*unit) else {
            return false;
        };
        number = 10 * number + digit;
        // After a leading zero, and where the digits are too many.
        if number == 0 || number > LAST_FUNCTION_NUMBER {
            return false;
        }
    }
    number != 0
}

/// The cell `$dl_rk` of function k.
fn is_cell(name: &Units) -> bool
    ensures { result ≡ spec.is_cell name.now }
{
    let units = name.items();
    begins_with("$dl_r", units) && is_numeral(&units[5..])
}

/// Whether the name may stand in a text of this form.
fn may_stand(form: Form, name: &Units) -> bool
    ensures { result ≡ spec.may_stand form name.now }
{
    !is_own(name) || (matches!(form, Form::Written) && is_cell(name))
}

/// Whether the name may stand as an expression or as a label (ES3 7.6).
pub fn is_reference(form: Form, name: &Units) -> bool
    ensures { result ≡ spec.is_reference form name.now }
{
    may_stand(form, name)
        && !(is_eval(name) || is_written_so("Function", name) || is_written_so("Infinity", name))
}

/// Whether a `var`, a function, a formal or a `catch` may have the name.
pub fn is_binding(form: Form, name: &Units) -> bool
    ensures { result ≡ spec.is_binding form name.now }
{
    is_reference(form, name) && !is_written_so("arguments", name)
}

/// Whether the name may stand behind a dot.
pub fn is_property(form: Form, name: &Units) -> bool
    ensures { result ≡ spec.is_property form name.now }
{
    may_stand(form, name) && !(is_written_so("callee", name) || is_written_so("caller", name))
}

/// A number in decimal.
fn numeral(alloc: Global, number: u64) -> Result<Units, AllocError>
    ensures { IfOk result (λ units. units ≡ decimal number) }
{
    let text = format!(in alloc; "{number}")?;
    let bytes = text.as_bytes();
    let mut units = Units::new(alloc);
    for byte in bytes {
        units.push(u16::from(*byte))?;
    }
    Ok(units)
}

/// The key that a token of an object literal gives, as a string (ES3 11.1.5).
pub fn key_of(alloc: Global, form: Form, kind: &TokenKind) -> Result<Option<Units>, Stop>
    ensures ok { IfOk result (λ key. key ≡ spec.key_of form kind.now) }
    ensures err { IfErr result (λ error. error ≡ OutOfMemory) }
{
    match kind {
        TokenKind::Name(name) if may_stand(form, name) => Ok(Some(name.copy(alloc)?)),
        TokenKind::Str(text) if !is_own(text) => Ok(Some(text.copy(alloc)?)),
        TokenKind::Number(number) => Ok(Some(numeral(alloc, *number)?)),
        _ => Ok(None),
    }
}

/// Whether the names are the same.
#[tactic(auto, using(crate::proofs::Spellings::spelled_items))]
pub fn is_same(name: &Units, other: &Units) -> bool
    ensures { result ≡ is_spelled name.now other.now }
{
    name.items() == other.items()
}

/// Whether the name is among these.
pub fn is_among(name: &Units, names: &[Units]) -> bool
    ensures { result ≡ spec.is_among name.now names.now }
{
    names.iter().any(|other| is_same(name, other))
}

/// A name that is shared.
pub fn share(alloc: Global, name: &Units) -> Result<Units, Stop>
    ensures ok { IfOk result (λ copy. copy ≡ name.now) }
    ensures err { IfErr result (λ error. error ≡ OutOfMemory) }
{
    Ok(name.copy(alloc)?)
}

/// A name that is shared, where there may be none.
pub fn share_some(alloc: Global, name: &Units) -> Result<Option<Units>, Stop>
    ensures { Makes (λ name. name) (Some name.now) result }
{
    Ok(Some(name.copy(alloc)?))
}
