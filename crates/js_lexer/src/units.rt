ghost use Rattle.std.specs.Prelude.{◌≡◌, IfOk};
ghost use Rattle.dl_text.specs.Utf16.{utf16};

use dl_text::Units;
use std::alloc::{AllocError, Global};

/// The UTF-16 units of the characters.
pub fn units_of_characters(alloc: Global, characters: &[char]) -> Result<Units, AllocError>
    ensures { IfOk result (λ units. units ≡ utf16 characters.now) }
{
    let mut units = Units::new(alloc);
    for character in characters {
        units.push_code_point(u32::from(*character))?;
    }
    Ok(units)
}
