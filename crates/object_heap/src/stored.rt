ghost use Rattle.std.specs.Prelude.{◌≡◌, ◌<◌, if◌then◌else◌, is_some, length, slice_get, None, Some, OnOk, OnErr};
ghost use Rattle.std.specs.Option.{option_copied, option_map};
ghost use Rattle.object_heap.specs.Answers.{IsPlainName};
ghost use Rattle.object_heap.specs.Changes.{is_deletable, put_property, without};
ghost use Rattle.object_heap.specs.Invariant.{HasLength};
ghost use Rattle.object_heap.specs.Names as names;
ghost use Rattle.object_heap.specs.Objects.{own_in, with_properties};
ghost use Rattle.object_heap.specs.Stored.{property_of};
ghost use Rattle.object_heap.specs.Writes.{added, grown_by, own_after, own_answer};

use crate::answer::HeapError;
use crate::entry::{Entry, NO_ATTRIBUTES, Written};
use crate::names::{index_of, is_length};
use crate::object::Class;
use crate::properties::Properties;
use dl_text::Units;
use js_values::Value;
use std::alloc::{AllocError, Global};
use std::marker::Model;
use std::mem::size_of;

/// An object as the heap keeps it.
#[derive(Drop)]
pub(crate) struct StoredObject {
    pub(crate) properties: Properties,
    pub(crate) prototype: Option<u32>,
    pub(crate) class: Class,
}

// A heap has many.
const _: () = prove!(size_of::<StoredObject>() <= 32);

impl Model for StoredObject {
    ghost use Rattle.object_heap.specs.Objects as objects;

    ghost Value = { objects.Object };

    ghost view = { λ o. record {
      class = o.class;
      prototype = o.prototype;
      properties = o.properties;
    } };
}

impl StoredObject {
    /// What is stored for an own name.
    pub(crate) fn get(&self, name: &Units) -> Option<&Entry>
        ensures { option_map (property_of name.now) (option_copied result)
            ≡ own_in self.now.properties name.now }
    {
        self.properties.get(name)
    }

    /// Whether it has a property itself.
    pub(crate) fn has(&self, name: &Units) -> bool
        ensures { result ≡ is_some (own_in self.now.properties name.now) }
    {
        self.properties.get(name).is_some()
    }

    /// [[Prototype]].
    pub(crate) fn prototype(&self) -> Option<u32>
        ensures { result ≡ self.now.prototype }
    {
        self.prototype
    }

    /// How many properties it has.
    pub(crate) fn len(&self) -> usize
        ensures { result ≡ length self.now.properties }
    {
        self.properties.len()
    }

    /// The property at a place, counted from 0, by its name.
    pub(crate) fn at(&self, place: usize) -> (&Units, &Entry)
        requires { place < length self.now.properties }
        ensures { slice_get self.now.properties place
            ≡ Some (property_of result.0.now result.1.now) }
    {
        self.properties.at(place)
    }

    /// Puts a property in the place of the one that has its name, or last.
    pub(crate) fn put_property(
        &mut self,
        alloc: Global,
        name: &Units,
        entry: Entry,
    ) -> Result<(), AllocError>
        requires has_length { HasLength self.old.class self.old.properties }
        requires plain { IsPlainName (Some self.old.class) name.now }
        ensures ok { OnOk result (self.new ≡ with_properties self.old
            (put_property self.old.properties (property_of name.now entry))) }
        ensures err { OnErr result (self.new ≡ self.old) }
        ensures has_length { HasLength self.new.class self.new.properties }
    {
        self.properties.put_property(alloc, name, entry)
    }

    /// [[Delete]] (ES3 8.6.2.5): whether the property is not there then.
    #[tactic(auto, using(crate::proofs::Writing::absent_stays))]
    pub(crate) fn delete(&mut self, name: &Units) -> bool
        requires { HasLength self.old.class self.old.properties }
        ensures what { result ≡ is_deletable (own_in self.old.properties name.now) }
        ensures after { self.new ≡ with_properties self.old
            (if result then without self.old.properties name.now else self.old.properties) }
        ensures has_length { HasLength self.new.class self.new.properties }
    {
        if let Some(entry) = self.properties.get(name) {
            if entry.attributes().fixed {
                return false;
            }
            self.properties.remove(name);
        }
        true
    }

    /// Makes an array longer, where its property of this name is an index at or behind its length.
    fn grow(&mut self, name: &Units)
        requires { HasLength self.old.class self.old.properties }
        ensures { self.new ≡ with_properties self.old
            (grown_by self.old.class (names.index_of name.now) self.old.properties) }
    {
        if self.class == Class::Array {
            if let Some(k) = index_of(name.items()) {
                if k >= self.properties.first_length() {
                    self.properties.set_first_length(k + 1);
                }
            }
        }
    }

    /// The [[Put]] of the object where it has the property itself (ES3 8.6.2.2, 15.4.5.1).
    pub(crate) fn put_own(&mut self, name: &Units, v: Value) -> Result<Written, HeapError>
        requires { HasLength self.old.class self.old.properties }
        ensures what { result ≡ own_answer self.old name.now v }
        ensures after { self.new ≡ with_properties self.old (own_after self.old name.now v) }
        ensures has_length { HasLength self.new.class self.new.properties }
    {
        if self.class == Class::Array && is_length(name.items()) {
            return self.properties.put_length(&v);
        }
        let written = self.properties.write(name, v);
        if let Written::Done = written {
            self.grow(name);
        }
        Ok(written)
    }

    /// The [[Put]] of the object where it has no such property.
    pub(crate) fn add(&mut self, alloc: Global, name: &Units, v: Value) -> Result<(), AllocError>
        requires has_length { HasLength self.old.class self.old.properties }
        requires absent { own_in self.old.properties name.now ≡ None }
        ensures ok { OnOk result (self.new ≡ with_properties self.old
            (added self.old.class self.old.properties name.now v)) }
        ensures err { OnErr result (self.new ≡ self.old) }
        ensures has_length { HasLength self.new.class self.new.properties }
    {
        self.properties
            .put_property(alloc, name, Entry::Holds(NO_ATTRIBUTES, v))?;
        self.grow(name);
        Ok(())
    }
}
