ghost use Rattle.std.specs.Prelude.{◌≡◌, ◌<◌, length, map, nat_lt, slice_get, OnOk, OnErr, IfOk, Some, None};
ghost use Rattle.std.specs.Option.{option_copied, option_map};
ghost use Rattle.object_heap.specs.Answers.{IsAnswer, IsPlainName, IsUnshared, number};
ghost use Rattle.object_heap.specs.Answers.{slot_shown, told, visit_shown};
ghost use Rattle.object_heap.specs.declared.built_in.BuiltIn.TheVariants as built_in;
ghost use Rattle.object_heap.specs.declared.object.Class.TheVariants as class;
ghost use Rattle.object_heap.specs.BuiltIns as built;
ghost use Rattle.object_heap.specs.Changes as changes;
ghost use Rattle.object_heap.specs.Get as reads;
ghost use Rattle.object_heap.specs.Laws.{IsThere};
ghost use Rattle.object_heap.specs.Names as names;
ghost use Rattle.object_heap.specs.Objects as objects;
ghost use Rattle.object_heap.specs.Put as writes;
ghost use Rattle.object_heap.specs.Start.{heap_at_start};
ghost use Rattle.object_heap.specs.Stored.{property_of};
ghost use Rattle.object_heap.specs.Visited as visited;

use crate::answer::{HeapError, Prop, Put};
use crate::built_in::{BUILT_INS, BuiltIn, built_in_at};
use crate::entry::{Entry, HIDDEN_AND_FIXED, Written};
use crate::names::decimal;
use crate::object::{Attrs, Class};
use crate::properties::Properties;
use crate::start::units_of_name;
use crate::start_objects::objects;
use crate::stored::StoredObject;
use crate::visited::Visit;
use crate::{chain, visited};
use dl_text::Units;
use js_values::{Num, ObjectId, Value};
use std::alloc::{AllocError, Global};
use std::marker::Model;

/// How many objects there may be: 2^32 - 1.
const MOST_OBJECTS: u64 = 0xffff_ffff;

/// The objects of a run, numbered in the order in which they are made (ES3 8.6). An object that is
/// not there has no prototype and no properties: nothing is read of it, and a write does nothing.
#[derive(Drop)]
pub struct Heap {
    alloc: Global,
    /// `length`, the name that arrays share.
    length: Units,
    objects: Vec<StoredObject>,
}

impl Model for Heap {
    ghost use Rattle.std.specs.Prelude.{List};
    ghost use Rattle.object_heap.specs.Objects.{Object};

    ghost Value = { List Object };

    ghost use Rattle.object_heap.specs.Invariant.{IsHeap};

    ghost view = { λ heap. heap.objects.items };

    ghost invariant = { λ heap. IsHeap heap.objects.items heap.length };
}

impl Heap {
    /// The objects that are there at the start (ES3 15).
    pub fn new(alloc: Global) -> Result<Heap, AllocError>
        ensures { IfOk result (λ heap. heap ≡ heap_at_start) }
    {
        let objects = objects(alloc, BUILT_INS.as_slice())?;
        let length = units_of_name(alloc, b"length")?;
        Ok(Heap {
            alloc,
            length,
            objects,
        })
    }

    /// Whether an object is there.
    fn is_there(&self, o: ObjectId) -> bool
        ensures { result ≡ nat_lt o.0 (length self.now) }
    {
        o.0 < self.objects.len() as u64
    }

    /// The class of an object.
    pub fn class(&self, o: ObjectId) -> Option<Class>
        ensures { result ≡ objects.class_of self.now o.0 }
    {
        match self.objects.get(o.0 as usize) {
            Some(object) => Some(object.class),
            None => None,
        }
    }

    /// The prototype of an object.
    pub fn proto(&self, o: ObjectId) -> Option<ObjectId>
        ensures { number result ≡ objects.prototype_of self.now o.0 }
    {
        match chain::prototype(self.objects.as_slice(), o.0) {
            Some(prototype) => Some(ObjectId(u64::from(prototype))),
            None => None,
        }
    }

    /// The attributes of an own property.
    pub fn own(&self, o: ObjectId, name: &Units) -> Option<Attrs>
        ensures { result ≡ objects.attributes_of self.now o.0 name.now }
    {
        let entry = self.objects.get(o.0 as usize)?.get(name)?;
        Some(entry.attributes())
    }

    /// What is stored for the property that is met first along the prototypes.
    fn met(&self, o: ObjectId, name: &Units) -> Option<&Entry>
        ensures { option_map (property_of name.now) (option_copied result)
            ≡ reads.met self.now o.0 name.now }
    {
        chain::met(self.objects.as_slice(), o.0, name)
    }

    /// [[Get]] (ES3 8.6.2.1): where the value of a property is; None for undefined.
    pub fn get(&self, o: ObjectId, name: &Units) -> Option<Prop<'_>>
        ensures { option_map slot_shown result ≡ reads.get self.now o.0 name.now }
    {
        match self.met(o, name) {
            Some(Entry::Holds(_, v)) => Some(Prop::Own(v)),
            Some(Entry::Shares(scope, place)) => Some(Prop::Shared(*scope, *place)),
            None => None,
        }
    }

    /// [[HasProperty]] (ES3 8.6.2.4).
    pub fn has(&self, o: ObjectId, name: &Units) -> bool
        ensures { result ≡ reads.has_property self.now o.0 name.now }
    {
        self.met(o, name).is_some()
    }

    /// [[CanPut]] (ES3 8.6.2.3).
    pub fn can_put(&self, o: ObjectId, name: &Units) -> bool
        ensures { result ≡ reads.can_put self.now o.0 name.now }
    {
        match self.met(o, name) {
            Some(entry) => !entry.attributes().read_only,
            None => true,
        }
    }

    /// Whether an object stands behind another along its prototypes (ES3 15.2.4.6, 15.3.5.3).
    pub fn is_behind(&self, o: ObjectId, target: ObjectId) -> bool
        ensures { result ≡ objects.is_behind self.now o.0 target.0 }
    {
        let prototype = chain::prototype(self.objects.as_slice(), o.0);
        chain::is_among(self.objects.as_slice(), prototype, target.0)
    }

    /// [[Put]] (ES3 8.6.2.2, 15.4.5.1). Where it fails, and where it did nothing, the heap stays.
    pub fn put(&mut self, o: ObjectId, name: &Units, v: Value) -> Result<Put, HeapError>
        ensures answer { IsAnswer result (told (writes.put self.old o.0 name.now v)) }
        ensures ok { OnOk result (self.new ≡ writes.written self.old o.0 name.now v) }
        ensures err { OnErr result (self.new ≡ self.old) }
    {
        if !self.is_there(o) {
            return Ok(Put::Ignored);
        }
        match self.objects[o.0 as usize].put_own(name, v)? {
            Written::Done => Ok(Put::Done),
            Written::ReadOnly => Ok(Put::Ignored),
            Written::Shared(scope, place) => Ok(Put::Shared(scope, place)),
            Written::Absent(v) => self.put_new(o, name, v),
        }
    }

    /// The same where the object has no such property.
    fn put_new(&mut self, o: ObjectId, name: &Units, v: Value) -> Result<Put, HeapError>
        requires there { o.0 < length self.old }
        requires absent { objects.own_of self.old o.0 name.now ≡ None }
        ensures answer { IsAnswer result (told (writes.put self.old o.0 name.now v)) }
        ensures ok { OnOk result (self.new ≡ writes.written self.old o.0 name.now v) }
        ensures err { OnErr result (self.new ≡ self.old) }
    {
        let prototype = chain::prototype(self.objects.as_slice(), o.0);
        if !chain::is_writable(self.objects.as_slice(), prototype, name) {
            return Ok(Put::Ignored);
        }
        let alloc = self.alloc;
        self.objects[o.0 as usize].add(alloc, name, v)?;
        Ok(Put::Done)
    }

    /// Puts a property in the place of the one that has its name, or last.
    fn put_property(&mut self, o: ObjectId, name: &Units, entry: Entry) -> Result<(), AllocError>
        requires { IsPlainName (objects.class_of self.old o.0) name.now }
        ensures ok { OnOk result
            (self.new ≡ changes.with_property o.0 (property_of name.now entry) self.old) }
        ensures err { OnErr result (self.new ≡ self.old) }
    {
        if !self.is_there(o) {
            return Ok(());
        }
        let alloc = self.alloc;
        self.objects[o.0 as usize].put_property(alloc, name, entry)
    }

    /// Defines a property, in the place of the one that has its name, or last.
    pub fn define(
        &mut self,
        o: ObjectId,
        name: &Units,
        v: Value,
        attrs: Attrs,
    ) -> Result<(), AllocError>
        requires unshared { IsUnshared (objects.own_of self.old o.0 name.now) }
        requires plain { IsPlainName (objects.class_of self.old o.0) name.now }
        ensures ok { OnOk result (self.new ≡ changes.defined o.0 name.now v attrs self.old) }
        ensures err { OnErr result (self.new ≡ self.old) }
    {
        self.put_property(o, name, Entry::Holds(attrs, v))
    }

    /// [[Delete]] (ES3 8.6.2.5): whether the property is not there then. It stays where it is
    /// DontDelete.
    pub fn delete(&mut self, o: ObjectId, name: &Units) -> bool
        ensures what { result ≡ changes.can_delete self.old o.0 name.now }
        ensures after { self.new ≡ changes.deleted o.0 name.now self.old }
    {
        if !self.is_there(o) {
            return true;
        }
        self.objects[o.0 as usize].delete(name)
    }

    /// Makes an index of an `arguments` share its value with a place of a scope (ES3 10.1.8).
    pub fn share(
        &mut self,
        o: ObjectId,
        index: u64,
        scope: u64,
        slot: u64,
    ) -> Result<(), AllocError>
        requires class { objects.class_of self.old o.0 ≡ Some class.Arguments }
        requires absent { objects.own_of self.old o.0 (names.decimal index) ≡ None }
        ensures ok { OnOk result (self.new ≡ changes.shared o.0 index scope slot self.old) }
        ensures err { OnErr result (self.new ≡ self.old) }
    {
        let name = decimal(self.alloc, index)?;
        self.put_property(o, &name, Entry::Shares(scope, slot))
    }

    /// Makes an object, which comes last. An array begins with `length` 0 (ES3 15.4.5.2). It finds
    /// no memory also where numbers end, at 2^32 - 1 objects.
    pub fn make(&mut self, class: Class, proto: Option<ObjectId>) -> Result<ObjectId, AllocError>
        requires { IsThere self.old (number proto) }
        ensures number { IfOk result (λ o. o.0 ≡ length self.old) }
        ensures ok { OnOk result (self.new ≡ changes.made class (number proto) self.old) }
        ensures err { OnErr result (self.new ≡ self.old) }
    {
        let count = self.objects.len() as u64;
        if count >= MOST_OBJECTS {
            return Err(AllocError);
        }
        let mut properties = Properties::new();
        if class == Class::Array {
            let length = Value::Num(Num::from(0u32));
            properties.put_property(
                self.alloc,
                &self.length,
                Entry::Holds(HIDDEN_AND_FIXED, length),
            )?;
        }
        let prototype = match proto {
            Some(o) => Some(o.0 as u32),
            None => None,
        };
        self.objects.push(StoredObject {
            properties,
            prototype,
            class,
        })?;
        Ok(ObjectId(count))
    }

    /// The own names that are not hidden, in the order in which they were made.
    pub fn keys(&self, o: ObjectId) -> Result<Vec<Units>, AllocError>
        ensures { IfOk result (λ names. names.items ≡ visited.keys self.now o.0) }
    {
        match self.objects.get(o.0 as usize) {
            Some(object) => visited::keys(self.alloc, object),
            None => Ok(Vec::new(self.alloc)),
        }
    }

    /// What a `for-in` visits when it begins (ES3 12.6.4): names of the object and of its
    /// prototypes, but for those that an object before has.
    pub fn visits(&self, o: ObjectId) -> Result<Vec<Visit>, AllocError>
        ensures { IfOk result (λ list. map visit_shown list.items ≡ visited.visits self.now o.0) }
    {
        if !self.is_there(o) {
            return Ok(Vec::new(self.alloc));
        }
        visited::visits(self.alloc, self.objects.as_slice(), o.0 as u32)
    }

    /// The number of one of the objects that are there at the start. The global object and
    /// `host` are plain.
    pub fn built_in(&self, b: BuiltIn) -> ObjectId
        ensures number { result.0 ≡ built.number_of b }
        ensures there { built.number_of b < length self.now }
        ensures global { objects.class_of self.now (built.number_of built_in.Global)
            ≡ Some class.Plain }
        ensures host { objects.class_of self.now (built.number_of built_in.Host)
            ≡ Some class.Plain }
    {
        // Reading the heap tells the check what holds of it.
        let _objects = &self.objects;
        ObjectId(b as u64)
    }

    /// Which of the objects that are there at the start an object is.
    pub fn which(&self, o: ObjectId) -> Option<BuiltIn>
        ensures { result ≡ built.which o.0 }
    {
        built_in_at(BUILT_INS.as_slice(), o.0)
    }
}
