ghost use Rattle.std.specs.Prelude.{◌≡◌, ℕ, IfOk, Some, All, List};
ghost use Rattle.std.specs.Option.{option_map};
ghost use Rattle.js_tree.specs.Plain as plain;
ghost use Rattle.js_tree.specs.Tree as trees;
ghost use Rattle.first_grammar.specs.declared.script.FirstScript as script;
ghost use Rattle.first_grammar.specs.declared.script.FirstEntry as entry;
ghost use Rattle.first_grammar.specs.First.{IsItem, IsEntry, script_text, cluster_text};
ghost use Rattle.first_grammar.specs.First.{IsScriptOf, IsClusterOf, IsTextOf};
ghost use Rattle.text_reader.specs.Gives.{IfRead, IsRead};
ghost use Rattle.first_grammar.specs.FirstReader.{read_script, read_cluster};

use crate::script::{FirstEntries, FirstScript};
use crate::{read, tree};
use js_tree::Script;
use std::alloc::{AllocError, Global};
use text_reader::{Cursor, or_none};

#[tactic(auto, unfolding(crate::specs::FirstReader::read_script))]
fn script_of(alloc: Global, text: &[u8]) -> Result<Option<FirstScript>, AllocError>
    ensures { IfOk result (λ found. found ≡ read_script text.now) }
{
    or_none(read::script(alloc, &mut Cursor::new(text)))
}

#[tactic(auto, unfolding(crate::specs::FirstReader::read_cluster))]
fn entries_of(alloc: Global, text: &[u8]) -> Result<Option<FirstEntries>, AllocError>
    ensures { IfOk result (λ found. found ≡ read_cluster text.now) }
{
    or_none(read::entries(alloc, &mut Cursor::new(text)))
}

/// The script of the first grammar that the bytes are the text of, and None where they are that of
/// none.
pub fn read_first_script(alloc: Global, text: &[u8]) -> Result<Option<FirstScript>, AllocError>
    ensures value { IfOk result (λ found. found ≡ read_script text.now) }
    ensures sound { IfRead result (IsScriptOf text.now) }
    ensures complete { (s : script.FirstScript) → IsScriptOf text.now s → IsRead result s }
{
    script_of(alloc, text)
}

/// The entries of the cluster file that the bytes are, and None where they are no cluster file of
/// the first grammar.
pub fn read_first_cluster(alloc: Global, text: &[u8]) -> Result<Option<FirstEntries>, AllocError>
    ensures value { IfOk result (λ found. found ≡ read_cluster text.now) }
    ensures sound { IfRead result (IsClusterOf text.now) }
    ensures complete { (es : List entry.FirstEntry) → IsClusterOf text.now es → IsRead result es }
{
    entries_of(alloc, text)
}

/// The tree that the text is of by the first grammar, and None where it is of none.
pub fn parse_first(alloc: Global, text: &str) -> Result<Option<Script>, AllocError>
    ensures found { IfRead result (λ tree. IsTextOf (plain.script tree) text.now) }
    ensures exact { (t : trees.Script) → IsTextOf t text.now
        → IfOk result (λ found. option_map plain.script found ≡ Some t) }
{
    match read_first_script(alloc, text.as_bytes())? {
        Some(script) => Ok(Some(tree::script(alloc, &script)?)),
        None => Ok(None),
    }
}

/// Each script of the first grammar is read from its text, and what is read is a script with this
/// text.
pub fn scripts_read_back()
    ensures read { (s : script.FirstScript) → All IsItem s.items
        → read_script (script_text s) ≡ Some s }
    ensures written { (bytes : List ℕ) → (s : script.FirstScript) → read_script bytes ≡ Some s
        → IsScriptOf bytes s }
{}

/// Each cluster file of the first grammar is read from its text, and what is read is a cluster file
/// with this text.
pub fn clusters_read_back()
    ensures read { (es : List entry.FirstEntry) → All IsEntry es
        → read_cluster (cluster_text es) ≡ Some es }
    ensures written { (bytes : List ℕ) → (es : List entry.FirstEntry) → read_cluster bytes ≡ Some es
        → IsClusterOf bytes es }
{}
