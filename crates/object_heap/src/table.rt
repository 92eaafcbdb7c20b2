//! The calls of `Properties`, where these are in a table.
ghost use Rattle.std.specs.Prelude.{◌≡◌, not};
ghost use Rattle.std.specs.Option.{option_copied, option_map};
ghost use Rattle.object_heap.specs.Arrays as arrays;
ghost use Rattle.object_heap.specs.Arrays.{cut};
ghost use Rattle.object_heap.specs.Names as names;
ghost use Rattle.object_heap.specs.Objects.{own_in};
ghost use Rattle.object_heap.specs.Stored.{property_of, properties_of_entries};
ghost use Rattle.object_heap.specs.Writes.{properties_after, with_length, written_own};

use crate::entry::{Entry, Written};
use crate::names::{index_of, is_between};
use dl_text::Units;
use indexmap::IndexMap;
use js_values::{Num, Value};

pub(crate) type Table = IndexMap<Units, Entry>;

/// What is stored for a name.
#[tactic(auto, using(crate::proofs::Tables::found_in_table))]
pub(crate) fn get<'a>(table: &'a Table, name: &Units) -> Option<&'a Entry>
    ensures { option_map (property_of name.now) (option_copied result)
        ≡ own_in (properties_of_entries table.now.entries) name.now }
{
    table.get(name)
}

/// Writes to the property of this name, unless it is read-only or shares its value.
pub(crate) fn write(table: &mut Table, name: &Units, v: Value) -> Written
    ensures what { result
        ≡ written_own (own_in (properties_of_entries table.old.entries) name.now) v }
    ensures after { properties_of_entries table.new.entries
        ≡ properties_after result (properties_of_entries table.old.entries) name.now v }
{
    match table.get_mut(name) {
        None => Written::Absent(v),
        Some(entry) => entry.write(v),
    }
}

/// Takes out the indices from the new length of an array up to its old one.
pub(crate) fn cut_indices(table: &mut Table, length: u32, old: u32)
    ensures { properties_of_entries table.new.entries
        ≡ cut length old (properties_of_entries table.old.entries) }
{
    table.retain(
        |name: &Units, _entry: &mut Entry| -> bool
            ensures kept { result ≡ not (arrays.is_between length old (names.index_of name.now)) }
            ensures same { _entry.new ≡ _entry.old }
        { !is_between(length, old, index_of(name.items())) },
    );
}

/// Makes the first property hold a length; it keeps its attributes.
pub(crate) fn set_first_length(table: &mut Table, n: u32)
    ensures { properties_of_entries table.new.entries
        ≡ with_length (properties_of_entries table.old.entries) n }
{
    if let Some(entry) = table.get_index_mut(0) {
        entry.hold(Value::Num(Num::from(n)));
    }
}
