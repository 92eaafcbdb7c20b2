//! The names that a `for-in` visits (ES3 12.6.4).
ghost use Rattle.std.specs.Prelude.{◌≡◌, ◌<◌, [], ◌∷◌, ◌++◌, length, map, take, is_some, OnOk, IfOk};
ghost use Rattle.object_heap.specs.Answers.{properties_along, visit_shown};
ghost use Rattle.object_heap.specs.Laws.{PrototypesComeBefore};
ghost use Rattle.object_heap.specs.Objects.{chain_of, own_in, properties_of};
ghost use Rattle.object_heap.specs.Stored.{property_of};
ghost use Rattle.object_heap.specs.Visited as spec;

use crate::entry::Entry;
use crate::names::is_reserved;
use crate::stored::StoredObject;
use dl_text::{TryCopy, Units};
use js_values::ObjectId;
use std::alloc::{AllocError, Global};

/// A name that a `for-in` visits, and the object that gives it.
#[derive(Debug, Drop)]
pub struct Visit {
    pub object: ObjectId,
    pub name: Units,
}

/// Whether no `for-in` visits a property.
fn is_unseen(name: &Units, entry: &Entry) -> bool
    ensures { result ≡ spec.is_unseen (property_of name.now entry.now) }
{
    entry.attributes().hidden || is_reserved(name.items())
}

/// Adds the name of a property that is seen.
fn push_key(
    alloc: Global,
    name: &Units,
    entry: &Entry,
    names: &mut Vec<Units>,
) -> Result<(), AllocError>
    ensures { OnOk result (names.new.items
        ≡ names.old.items ++ spec.keys_in (property_of name.now entry.now ∷ [])) }
{
    if !is_unseen(name, entry) {
        names.push(name.copy(alloc)?)?;
    }
    Ok(())
}

/// The own names of an object that are not hidden, in order.
pub(crate) fn keys(alloc: Global, object: &StoredObject) -> Result<Vec<Units>, AllocError>
    ensures { IfOk result (λ names. names.items ≡ spec.keys_in object.now.properties) }
{
    let mut names = Vec::new(alloc);
    for place in 0..object.len() {
        let (name, entry) = object.at(place);
        push_key(alloc, name, entry, &mut names)?;
    }
    Ok(names)
}

/// Whether one of the first objects of a chain, so many of them, has a property.
fn is_covered(objects: &[StoredObject], first: u32, count: usize, name: &Units) -> bool
    requires before { PrototypesComeBefore objects.now }
    requires there { first < length objects.now }
    ensures { result ≡ is_some (own_in
        (properties_along objects.now (take count (chain_of objects.now first))) name.now) }
{
    let mut next = Some(first);
    for _passed in 0..count {
        let Some(o) = next else {
            return false;
        };
        let object = &objects[o as usize];
        if object.has(name) {
            return true;
        }
        next = object.prototype();
    }
    false
}

/// An object on a chain, and how many stand before it there.
#[derive(Clone, Copy)]
struct Passed {
    first: u32,
    count: usize,
    object: u32,
}

/// Adds the visit of a property that is seen, and that no object before covers.
fn push_visit(
    alloc: Global,
    objects: &[StoredObject],
    passed: Passed,
    name: &Units,
    entry: &Entry,
    visits: &mut Vec<Visit>,
) -> Result<(), AllocError>
    requires before { PrototypesComeBefore objects.now }
    requires there { passed.first < length objects.now }
    ensures { OnOk result (map visit_shown visits.new.items ≡ map visit_shown visits.old.items
        ++ spec.visits_in passed.object
        (properties_along objects.now (take passed.count (chain_of objects.now passed.first)))
        (property_of name.now entry.now ∷ [])) }
{
    if !is_unseen(name, entry) && !is_covered(objects, passed.first, passed.count, name) {
        let object = ObjectId(u64::from(passed.object));
        let name = name.copy(alloc)?;
        visits.push(Visit { object, name })?;
    }
    Ok(())
}

/// Adds the visits that an object gives.
fn push_visits(
    alloc: Global,
    objects: &[StoredObject],
    passed: Passed,
    visits: &mut Vec<Visit>,
) -> Result<(), AllocError>
    requires before { PrototypesComeBefore objects.now }
    requires there { passed.first < length objects.now }
    requires visited { passed.object < length objects.now }
    ensures { OnOk result (map visit_shown visits.new.items ≡ map visit_shown visits.old.items
        ++ spec.visits_in passed.object
        (properties_along objects.now (take passed.count (chain_of objects.now passed.first)))
        (properties_of objects.now passed.object)) }
{
    let object = &objects[passed.object as usize];
    for place in 0..object.len() {
        let (name, entry) = object.at(place);
        push_visit(alloc, objects, passed, name, entry, visits)?;
    }
    Ok(())
}

/// What a `for-in` over an object visits.
pub(crate) fn visits(
    alloc: Global,
    objects: &[StoredObject],
    first: u32,
) -> Result<Vec<Visit>, AllocError>
    requires before { PrototypesComeBefore objects.now }
    requires there { first < length objects.now }
    ensures { IfOk result
        (λ visits. map visit_shown visits.items ≡ spec.visits objects.now first) }
{
    let mut visits = Vec::new(alloc);
    let mut next = Some(first);
    let mut count = 0;
    while let Some(o) = next {
        let passed = Passed {
            first,
            count,
            object: o,
        };
        push_visits(alloc, objects, passed, &mut visits)?;
        next = objects[o as usize].prototype();
        count += 1;
    }
    Ok(visits)
}
