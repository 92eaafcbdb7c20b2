//! From the bytes of a file to the tree of its script.

ghost use Rattle.std.specs.Prelude.{◌≤◌, IsErrOf};
ghost use Rattle.std.specs.Option.{ForSome};
ghost use Rattle.dl_ports.specs.Stores.{OnlyReads};
ghost use Rattle.js_tree.specs.Tree as tree;
ghost use Rattle.source_files.specs.Reading.{FileGives, Gives, IsTree};
ghost use Rattle.source_files.specs.Sources.{Fits, IsSource, most_source_bytes};

use crate::fault::{ScriptFault, SourceError};
use crate::room::SourceRoom;
use dl_ports::Store;
use js_lexer::lex;
use js_parser::{Form, parse};
use js_tree::Script;
use std::alloc::Global;
use std::str;

/// The tree of the script of this text.
#[tactic(auto, using(js_parser::proofs::ClosedTokens::closed))]
fn script_of(alloc: Global, text: &str, room: SourceRoom) -> Result<Script, SourceError>
    requires bounded { room.bytes ≤ most_source_bytes }
    requires fits { Fits room text.now }
    ensures gives { Gives room text.now result }
{
    let tokens = lex(alloc, text)?;
    let script = parse(alloc, &tokens, &room.limits(), Form::Source)?;
    Ok(script)
}

/// The tree of the source script that the bytes are the text of, or why they are refused.
pub fn source_of(alloc: Global, bytes: &[u8], room: SourceRoom) -> Result<Script, SourceError>
    requires bounded { room.bytes ≤ most_source_bytes }
    ensures gives { Gives room bytes.now result }
    ensures exactly { (tree : tree.Script) → IsSource room bytes.now tree → IsTree tree result }
{
    let text = match str::from_utf8(bytes) {
        Ok(text) => text,
        Err(fault) => {
            let valid = fault.valid_up_to() as u64;
            return Err(SourceError::Refused(ScriptFault::NotUtf8(valid)));
        }
    };
    if bytes.len() > room.bytes {
        return Err(SourceError::Refused(ScriptFault::TooLong));
    }
    script_of(alloc, text, room)
}

/// Reads the file of this name, and gives the tree of its source script.
pub fn read_source<S: Store>(
    alloc: Global,
    name: &str,
    room: SourceRoom,
    store: &mut S,
) -> Result<Script, SourceError>
    requires bounded { room.bytes ≤ most_source_bytes }
    ensures gives { ForSome (S.files store.old) (λ files.
        FileGives files name.now room (S.asked store.old) (S.asked store.new) result) }
    ensures reads { OnlyReads S.Store store.old store.new (IsErrOf result SourceError.ReadFault) }
{
    match store.read(name)? {
        None => Err(SourceError::Missing),
        Some(bytes) => source_of(alloc, bytes.as_slice(), room),
    }
}
