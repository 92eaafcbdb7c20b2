ghost use Rattle.std.specs.Prelude.{◌≡◌};
ghost use Rattle.first_grammar.specs.FirstReader as reader;
ghost use Rattle.text_reader.specs.Gives.{Gives};

use dl_text::Text;
use js_tree::LAST_FUNCTION_NUMBER;
use std::alloc::Global;
use text_reader::{Cursor, Refusal};

fn is_letter(byte: u8) -> bool
    ensures { result ≡ reader.is_letter byte }
{
    byte >= b'a' && byte <= b'z'
}

fn is_plain(byte: u8) -> bool
    ensures { result ≡ reader.is_plain byte }
{
    byte >= b' ' && byte <= b'~' && byte != b'"' && byte != b'\\'
}

/// Takes a lower-case letter.
pub fn letter(text: &mut Cursor<'_>) -> Result<u8, Refusal>
    ensures { Gives (reader.letter text.old) result text.new }
{
    text.one(is_letter)
}

/// Takes the characters of a string, as many as come.
pub fn characters(alloc: Global, text: &mut Cursor<'_>) -> Result<Text, Refusal>
    ensures { Gives (reader.characters text.old) result text.new }
{
    let front = text.run(is_plain);
    let mut characters = Text::new(alloc);
    characters.extend(front)?;
    Ok(characters)
}

/// Takes a function number.
#[tactic(auto, unfolding(crate::specs::FirstReader::number))]
pub fn number(text: &mut Cursor<'_>) -> Result<u32, Refusal>
    ensures { Gives (reader.number text.old) result text.new }
{
    let number = text.decimal()?;
    if 1 <= number && number <= LAST_FUNCTION_NUMBER {
        Ok(number)
    } else {
        Err(Refusal::NotOfForm)
    }
}
