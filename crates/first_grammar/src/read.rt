ghost use Rattle.first_grammar.specs.FirstReader as reader;
ghost use Rattle.text_reader.specs.Gives.{Gives};

use crate::bytes::{characters, letter, number};
use crate::script::{
    FirstBody, FirstEntries, FirstEntry, FirstFunction, FirstItem, FirstItems, FirstScript,
    FirstStatement, FirstStatements,
};
use sqlite_items::Items;
use std::alloc::Global;
use text_reader::{Cursor, ListReader, Refusal};

#[tactic(auto, unfolding(crate::specs::FirstReader::statement))]
fn statement(alloc: Global, text: &mut Cursor<'_>) -> Result<FirstStatement, Refusal>
    ensures { Gives (reader.statement text.old) result text.new }
{
    if text.eat(b"host.out(\"") {
        let characters = characters(alloc, text)?;
        text.skip(b"\");")?;
        return Ok(FirstStatement::Out(characters));
    }
    let name = letter(text)?;
    text.skip(b"();")?;
    Ok(FirstStatement::Call(name))
}

#[derive(Drop)]
struct NextStatement {
    alloc: Global,
}

#[tactic(auto, unfolding(text_reader::specs::Reader::up_to))]
impl ListReader<FirstStatement> for NextStatement {
    ghost next_item = { λ _. reader.next_statement };

    fn next_item(&self, text: &mut Cursor<'_>) -> Result<Option<FirstStatement>, Refusal> {
        if text.eat(b"}") {
            return Ok(None);
        }
        let statement = statement(self.alloc, text)?;
        Ok(Some(statement))
    }
}

/// Statements, and the `}` after them.
#[tactic(auto, unfolding(crate::specs::FirstReader::statements))]
fn statements(alloc: Global, text: &mut Cursor<'_>) -> Result<FirstStatements, Refusal>
    ensures { Gives (reader.statements text.old) result text.new }
{
    text.list(Items::new(alloc), &NextStatement { alloc })
}

/// A body, and the `}` after it.
#[tactic(auto, unfolding(crate::specs::FirstReader::body))]
fn body(alloc: Global, text: &mut Cursor<'_>) -> Result<FirstBody, Refusal>
    ensures { Gives (reader.body text.old) result text.new }
{
    if text.eat(b"return eval($dl_get(") {
        let entry = number(text)?;
        text.skip(b")).apply(this,arguments);}")?;
        return Ok(FirstBody::Stub(entry));
    }
    let plain = statements(alloc, text)?;
    Ok(FirstBody::Statements(plain))
}

#[tactic(auto, unfolding(crate::specs::FirstReader::function))]
fn function(alloc: Global, text: &mut Cursor<'_>) -> Result<FirstFunction, Refusal>
    ensures { Gives (reader.function text.old) result text.new }
{
    let name = letter(text)?;
    text.skip(b"(){")?;
    let body = body(alloc, text)?;
    Ok(FirstFunction { name, body })
}

#[tactic(auto, unfolding(crate::specs::FirstReader::item))]
fn item(alloc: Global, text: &mut Cursor<'_>) -> Result<FirstItem, Refusal>
    ensures { Gives (reader.item text.old) result text.new }
{
    if text.eat(b"function ") {
        let function = function(alloc, text)?;
        return Ok(FirstItem::Function(function));
    }
    let statement = statement(alloc, text)?;
    Ok(FirstItem::Statement(statement))
}

#[derive(Drop)]
struct NextItem {
    alloc: Global,
}

#[tactic(auto, unfolding(text_reader::specs::Reader::up_to))]
impl ListReader<FirstItem> for NextItem {
    ghost next_item = { λ _. reader.next_item };

    fn next_item(&self, text: &mut Cursor<'_>) -> Result<Option<FirstItem>, Refusal> {
        if text.eat(b"\n") {
            return Ok(None);
        }
        let item = item(self.alloc, text)?;
        Ok(Some(item))
    }
}

/// Items, and the line feed after them.
#[tactic(auto, unfolding(crate::specs::FirstReader::items))]
fn items(alloc: Global, text: &mut Cursor<'_>) -> Result<FirstItems, Refusal>
    ensures { Gives (reader.items text.old) result text.new }
{
    text.list(Items::new(alloc), &NextItem { alloc })
}

#[tactic(auto, unfolding(crate::specs::FirstReader::script))]
pub fn script(alloc: Global, text: &mut Cursor<'_>) -> Result<FirstScript, Refusal>
    ensures { Gives (reader.script text.old) result text.new }
{
    let items = items(alloc, text)?;
    if text.is_at_end() {
        Ok(FirstScript { items })
    } else {
        Err(Refusal::NotOfForm)
    }
}

#[tactic(auto, unfolding(crate::specs::FirstReader::entry))]
fn entry(alloc: Global, text: &mut Cursor<'_>) -> Result<FirstEntry, Refusal>
    ensures { Gives (reader.entry text.old) result text.new }
{
    let number = number(text)?;
    text.skip(b" (function(){")?;
    let body = statements(alloc, text)?;
    text.skip(b")\n")?;
    Ok(FirstEntry { number, body })
}

#[derive(Drop)]
struct NextEntry {
    alloc: Global,
}

#[tactic(auto, unfolding(text_reader::specs::Reader::up_to))]
impl ListReader<FirstEntry> for NextEntry {
    ghost next_item = { λ _. reader.next_entry };

    fn next_item(&self, text: &mut Cursor<'_>) -> Result<Option<FirstEntry>, Refusal> {
        if text.is_at_end() {
            return Ok(None);
        }
        let entry = entry(self.alloc, text)?;
        Ok(Some(entry))
    }
}

/// Entries, up to the end of the text.
#[tactic(auto, unfolding(crate::specs::FirstReader::entries))]
pub fn entries(alloc: Global, text: &mut Cursor<'_>) -> Result<FirstEntries, Refusal>
    ensures { Gives (reader.entries text.old) result text.new }
{
    text.list(Items::new(alloc), &NextEntry { alloc })
}
