ghost use Rattle.std.specs.Prelude.{◌≡◌, Option};
ghost use Rattle.text_reader.specs.Reader.{Reader, list_after};
ghost use Rattle.text_reader.specs.Gives.{Gives, or_none};

use crate::cursor::{Cursor, Refusal};
use sqlite_items::Items;
use std::alloc::AllocError;

/// A reader of the items of a list.
pub trait ListReader<T> {
    ghost next_item: { Self → Reader (Option T) };

    /// The next item, or None where the list ends.
    fn next_item(&self, text: &mut Cursor<'_>) -> Result<Option<T>, Refusal>
        ensures { Gives (next_item self.now text.old) result text.new };
}

impl<'a> Cursor<'a> {
    /// Takes items up to the end of their list, and puts them behind those found before.
    pub fn list<T: Drop, R: ListReader<T>>(
        &mut self,
        mut found: Items<T>,
        items: &R,
    ) -> Result<Items<T>, Refusal>
        ensures { Gives (list_after found (R.next_item items.now) self.old) result self.new }
    {
        let turns = self.turns();
        for _turn in 0..turns {
            match items.next_item(self)? {
                Some(item) => found.push(item)?,
                None => return Ok(found),
            }
        }
        Err(Refusal::NotOfForm)
    }
}

/// What was read, or None where the text is not of the form.
pub fn or_none<T>(read: Result<T, Refusal>) -> Result<Option<T>, AllocError>
    ensures { result ≡ or_none read }
{
    match read {
        Ok(value) => Ok(Some(value)),
        Err(Refusal::NotOfForm) => Ok(None),
        Err(Refusal::OutOfMemory) => Err(AllocError),
    }
}
