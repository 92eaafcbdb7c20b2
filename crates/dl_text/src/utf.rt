ghost use Rattle.std.specs.Prelude.{◌≡◌, ◌↔◌, IfOk, IfErr, IsErrOf, string_bytes};
ghost use Rattle.std.specs.Str.{chars, IsUtf8};
ghost use Rattle.std.specs.Str.Lossy.{utf8_valid_len};
ghost use Rattle.dl_text.specs.Utf16.{utf16};
ghost use Rattle.dl_text.specs.Fault.{IsFaultOf};

use crate::units::Units;
use std::alloc::{AllocError, Global};

/// Why bytes gave no text.
#[derive(Clone, Copy, Debug, PartialEq, Eq)]
pub enum TextError {
    /// The bytes are not UTF-8. The longest of their prefixes that is has this length.
    NotUtf8(u64),
    OutOfMemory,
}

/// The text that the bytes spell in UTF-8. Bytes that spell none are refused before any memory is
/// taken.
pub fn text_of(alloc: Global, bytes: &[u8]) -> Result<String, TextError>
    ensures ok { IfOk result (λ text. string_bytes text ≡ bytes.now) }
    ensures err { IfErr result (IsFaultOf bytes.now) }
    ensures not_utf8 { IsErrOf result (TextError.NotUtf8 (utf8_valid_len bytes.now))
        ↔ (¬ (IsUtf8 bytes.now)) }
{
    match str::from_utf8(bytes) {
        Ok(text) => String::from_str(alloc, text).map_err(|_| TextError::OutOfMemory),
        Err(fault) => Err(TextError::NotUtf8(fault.valid_up_to() as u64)),
    }
}

/// The UTF-16 units of a text. A character past U+FFFF gives two.
pub fn units_of(alloc: Global, text: &str) -> Result<Units, AllocError>
    ensures { IfOk result (λ units. units ≡ utf16 (chars text.now)) }
{
    let mut units = Units::new(alloc);
    for character in text.chars() {
        units.push_code_point(u32::from(character))?;
    }
    Ok(units)
}
