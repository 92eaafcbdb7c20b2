ghost use Rattle.std.specs.Prelude.{◌≡◌, ◌≤◌, ◌<◌, ◌&&◌, length, IfSome};
ghost use Rattle.std.specs.Char.Utf16.{is_high_surrogate, is_low_surrogate};
ghost use Rattle.js_lexer.specs.Names as spec;

use crate::characters::{begins_name, continues_name};
use crate::word::word_of;
use dl_text::Units;

fn is_pair(high: u16, low: u16) -> bool
    ensures { result ≡ (is_high_surrogate high && is_low_surrogate low) }
{
    (0xd800..0xdc00).contains(&high) && (0xdc00..0xe000).contains(&low)
}

/// The character at the front, and how many units it takes: none at a surrogate that has no
/// partner.
fn character_at(units: &[u16]) -> Option<(char, usize)>
    ensures value { result ≡ spec.character_at units.now }
    ensures within { IfSome result (λ c. (0 < c.1) × (c.1 ≤ length units.now)) }
{
    match units {
        [high, low, ..] if is_pair(*high, *low) => {
            let code = 0x1_0000 + (u32::from(*high) - 0xd800) * 0x400 + (u32::from(*low) - 0xdc00);
            Some((char::from_u32(code)?, 2))
        }
        [unit, ..] => Some((char::from_u32(u32::from(*unit))?, 1)),
        [] => None,
    }
}

fn begins(units: &[u16]) -> bool
    ensures { result ≡ spec.begins (spec.character_at units.now) }
{
    match character_at(units) {
        Some((c, _)) => begins_name(c),
        None => false,
    }
}

/// Whether every character goes on with a name.
#[tactic(auto, using(crate::proofs::Names::goes_on_more, crate::proofs::Names::goes_on_end))]
fn goes_on(units: &[u16]) -> bool
    ensures { result ≡ spec.goes_on units.now }
{
    let mut rest = units;
    while let Some((c, length)) = character_at(rest) {
        if !continues_name(c) {
            return false;
        }
        let (_, more) = rest.split_at(length);
        rest = more;
    }
    rest.is_empty()
}

/// Whether the units are one name that is no word (ES3 7.6). It takes no memory.
#[tactic(auto, using(crate::proofs::Names::name_text_is))]
pub fn is_name(u: &Units) -> bool
    ensures { result ≡ spec.is_name u.now }
{
    let units = u.items();
    begins(units) && goes_on(units) && word_of(units).is_none()
}
