ghost use Rattle.std.specs.Prelude.{◌≡◌, ◌<◌, [], length, slice_get, Some, OnOk, OnErr};
ghost use Rattle.std.specs.Option.{option_copied, option_map};
ghost use Rattle.object_heap.specs.Arrays as arrays;
ghost use Rattle.object_heap.specs.Arrays.{cut};
ghost use Rattle.object_heap.specs.Changes.{put_property, without};
ghost use Rattle.object_heap.specs.Names as names;
ghost use Rattle.object_heap.specs.Objects.{own_in};
ghost use Rattle.object_heap.specs.Stored.{property_of};
ghost use Rattle.object_heap.specs.Writes as writes;
ghost use Rattle.object_heap.specs.Writes.{properties_after, with_length, written_own};

use crate::answer::HeapError;
use crate::entry::{Entry, Written, length_value};
use crate::table;
use crate::table::Table;
use dl_text::{TryCopy, Units};
use indexmap::IndexMap;
use js_values::{Num, Value};
use std::alloc::{AllocError, Global};
use std::marker::Model;

/// The properties of an object, in the order in which they were made. An object without any takes
/// no memory for them.
#[derive(Drop)]
pub(crate) struct Properties {
    table: Option<Box<Table>>,
}

impl Model for Properties {
    ghost use Rattle.std.specs.Prelude.{List};
    ghost use Rattle.object_heap.specs.Objects.{Property};

    ghost Value = { List Property };

    ghost use Rattle.object_heap.specs.Stored.{entries_of, properties_of_entries};

    ghost view = { λ properties. properties_of_entries (entries_of properties.table) };
}

impl Properties {
    /// No properties.
    pub(crate) fn new() -> Properties
        ensures { result ≡ [] }
    {
        Properties { table: None }
    }

    /// What is held for a name.
    pub(crate) fn get(&self, name: &Units) -> Option<&Entry>
        ensures { option_map (property_of name.now) (option_copied result)
            ≡ own_in self.now name.now }
    {
        match &self.table {
            Some(table) => table::get(table, name),
            None => None,
        }
    }

    /// Puts a property in the place of the one that has its name, or last.
    #[tactic(auto, using(crate::proofs::Tables::put_in_table))]
    pub(crate) fn put_property(
        &mut self,
        alloc: Global,
        name: &Units,
        entry: Entry,
    ) -> Result<(), AllocError>
        ensures ok { OnOk result (self.new ≡ put_property self.old (property_of name.now entry)) }
        ensures err { OnErr result (self.new ≡ self.old) }
    {
        let name = name.copy(alloc)?;
        if let Some(table) = &mut self.table {
            table.insert(name, entry)?;
            return Ok(());
        }
        let mut table = IndexMap::new(alloc);
        table.insert(name, entry)?;
        self.table = Some(Box::new(alloc, table)?);
        Ok(())
    }

    /// Takes the property of this name out; the others keep their order.
    #[tactic(auto, using(crate::proofs::Tables::removed_from_table))]
    pub(crate) fn remove(&mut self, name: &Units)
        ensures { self.new ≡ without self.old name.now }
    {
        if let Some(table) = &mut self.table {
            let _gone = table.shift_remove(name);
        }
    }

    /// Writes to the property of this name, unless it is read-only or shares its value.
    pub(crate) fn write(&mut self, name: &Units, v: Value) -> Written
        ensures what { result ≡ written_own (own_in self.old name.now) v }
        ensures after { self.new ≡ properties_after result self.old name.now v }
    {
        match &mut self.table {
            Some(table) => table::write(table, name, v),
            None => Written::Absent(v),
        }
    }

    /// Takes out the indices from the new length of an array up to its old one.
    pub(crate) fn cut(&mut self, length: u32, old: u32)
        ensures { self.new ≡ cut length old self.old }
    {
        if let Some(table) = &mut self.table {
            table::cut_indices(table, length, old);
        }
    }

    /// How many there are.
    pub(crate) fn len(&self) -> usize
        ensures { result ≡ length self.now }
    {
        match &self.table {
            Some(table) => table.len(),
            None => 0,
        }
    }

    /// The property at a place, counted from 0, by its name.
    pub(crate) fn at(&self, place: usize) -> (&Units, &Entry)
        requires { place < length self.now }
        ensures { slice_get self.now place ≡ Some (property_of result.0.now result.1.now) }
    {
        match &self.table {
            Some(table) => table.get_index(place).unwrap(),
            None => unreachable!(),
        }
    }

    /// The first property by its name, if there is one.
    fn first(&self) -> Option<(&Units, &Entry)>
        ensures { option_map (λ p. property_of p.0.now p.1.now) result ≡ slice_get self.now 0 }
    {
        match &self.table {
            Some(table) => table.get_index(0),
            None => None,
        }
    }

    /// The length that the first property holds, and 0 where it holds none.
    pub(crate) fn first_length(&self) -> u32
        ensures { result ≡ writes.first_length self.now }
    {
        match self.first() {
            Some((_, Entry::Holds(_, v))) => length_value(v).unwrap_or(0),
            _ => 0,
        }
    }

    /// Makes the first property hold a length; it keeps its attributes.
    pub(crate) fn set_first_length(&mut self, n: u32)
        ensures { self.new ≡ with_length self.old n }
    {
        if let Some(table) = &mut self.table {
            table::set_first_length(table, n);
        }
    }

    /// Whether the first property is read-only.
    pub(crate) fn is_first_read_only(&self) -> bool
        ensures { result ≡ writes.is_first_read_only self.now }
    {
        match self.first() {
            Some((_, entry)) => entry.attributes().read_only,
            None => false,
        }
    }

    /// Writes to the `length` of an array, which is the first property (ES3 15.4.5.1, steps 12 to
    /// 15).
    #[tactic(auto, using(crate::proofs::Writing::nothing_cut))]
    pub(crate) fn put_length(&mut self, v: &Value) -> Result<Written, HeapError>
        ensures what { result ≡ writes.length_answer
            (writes.is_first_read_only self.old) (arrays.length_value v.now) }
        ensures after { self.new ≡ writes.length_after (writes.is_first_read_only self.old) self.old
            (arrays.length_value v.now) }
    {
        if self.is_first_read_only() {
            return Ok(Written::ReadOnly);
        }
        let Some(n) = length_value(v) else {
            return Err(HeapError::BadLength);
        };
        let old = self.first_length();
        if n < old {
            self.cut(n, old);
        }
        self.set_first_length(n);
        Ok(Written::Done)
    }
}
