ghost use Rattle.std.specs.Prelude.{◌≡◌, ◌<◌, ◌++◌, IfOk, OnOk};
ghost use Rattle.std.specs.Char.{digit_char};
ghost use Rattle.dl_text.specs.Quote.{quoted, quoted_unit, numbered_unit};

use crate::text::Text;
use crate::units::Units;
use std::alloc::{AllocError, Global};

fn hex_digit(value: u16) -> u8
    requires { value < 16 }
    ensures { result ≡ digit_char value }
{
    if value < 10 {
        b'0' + value as u8
    } else {
        b'a' + (value - 10) as u8
    }
}

fn numbered(unit: u16) -> [u8; 6]
    ensures { result ≡ numbered_unit unit }
{
    [
        b'\\',
        b'u',
        hex_digit(unit / 4096),
        hex_digit(unit / 256 % 16),
        hex_digit(unit / 16 % 16),
        hex_digit(unit % 16),
    ]
}

/// Adds a unit as it stands in a shown string.
pub fn push_quoted_unit(text: &mut Text, unit: u16) -> Result<(), AllocError>
    ensures { OnOk result (text.new ≡ text.old ++ quoted_unit unit) }
{
    match unit {
        0x22 => text.extend(b"\\\""),
        0x5c => text.extend(b"\\\\"),
        0x20..=0x7e => text.push(unit as u8),
        _ => text.extend(&numbered(unit)),
    }
}

/// The shown string of a text: in double quotes, units from 0x20 to 0x7E as they are, with a
/// backslash before `"` and before the backslash, and every other unit as `\u` and four lower-case
/// hexadecimal digits.
pub fn quote_units(alloc: Global, units: &Units) -> Result<Text, AllocError>
    ensures { IfOk result (λ text. text ≡ quoted units.now) }
{
    let mut text = Text::new(alloc);
    text.push(b'"')?;
    for unit in units.items() {
        push_quoted_unit(&mut text, *unit)?;
    }
    text.push(b'"')?;
    Ok(text)
}
