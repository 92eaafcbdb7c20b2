ghost use Rattle.std.specs.Prelude.{◌≡◌, List, IfOk, MatchOption, map, Some, string_bytes};
ghost use Rattle.std.specs.Str.{bytes_eq};
ghost use Rattle.first_grammar.specs.declared.script.FirstEntry.{FirstEntry as AnEntry};
ghost use Rattle.play.specs.Site.{cluster_name, cluster_of_bytes, Refused, Accepted};
ghost use Rattle.play.specs.Tables.{loaded_entry};

use crate::code::Code;
use crate::manifest::ClusterLine;
use crate::table::{Entries, Entry};
use first_grammar::{FirstEntries, FirstEntry, read_first_cluster};
use sqlite_items::Items;
use std::alloc::{AllocError, Global};

/// The name of a cluster's file.
pub fn cluster_name(alloc: Global, folder: &str, cluster: u32) -> Result<String, AllocError>
    ensures { IfOk result (λ name. string_bytes name ≡ cluster_name folder.now cluster) }
{
    format!(in alloc; "{folder}/c{cluster}.txt")
}

/// Whether these are the entries with these numbers, in their order.
fn is_listed_as(entries: &[FirstEntry], numbers: &[u32]) -> bool
    ensures { result ≡ bytes_eq (map (λ (e : AnEntry). e.number) entries.now) numbers.now }
{
    if entries.len() != numbers.len() {
        return false;
    }
    for (at, entry) in entries.iter().enumerate() {
        if entry.number != numbers[at] {
            return false;
        }
    }
    true
}

fn load_entry(alloc: Global, entry: FirstEntry) -> Result<Entry, AllocError>
    ensures { IfOk result (λ loaded. loaded ≡ loaded_entry entry) }
{
    let FirstEntry { number, body } = entry;
    Ok(Entry {
        number,
        code: Code::new(alloc, body)?,
    })
}

/// The entries of a cluster, whose calls share their statements.
fn load_entries(alloc: Global, entries: FirstEntries) -> Result<Entries, AllocError>
    ensures { IfOk result (λ loaded. loaded ≡ map loaded_entry entries) }
{
    // A list hands its items out from its end.
    let mut loaded = Vec::new(alloc);
    let mut rest = entries;
    while let Some(entry) = rest.pop() {
        loaded.push(load_entry(alloc, entry)?)?;
    }
    loaded.reverse();
    Ok(Items::from_vec(loaded))
}

/// The entries of a cluster's file, where it is accepted: it has the length and the entries of its
/// line in the manifest.
pub fn read_cluster(
    alloc: Global,
    line: &ClusterLine,
    bytes: &[u8],
) -> Result<Option<Entries>, AllocError>
    ensures { IfOk result (λ entries. MatchOption entries
        (cluster_of_bytes line.now (Some bytes.now) ≡ Refused)
        (λ es. (read : List AnEntry)
        × (cluster_of_bytes line.now (Some bytes.now) ≡ Accepted read)
        × (es ≡ map loaded_entry read))) }
{
    if bytes.len() != line.bytes as usize {
        return Ok(None);
    }
    let Some(entries) = read_first_cluster(alloc, bytes)? else {
        return Ok(None);
    };
    if !is_listed_as(entries.as_slice(), line.entries.as_slice()) {
        return Ok(None);
    }
    Ok(Some(load_entries(alloc, entries)?))
}
