//! Walks along the prototypes of an object.
ghost use Rattle.std.specs.Prelude.{◌≡◌, nat_eq};
ghost use Rattle.std.specs.List.{list_any};
ghost use Rattle.std.specs.Option.{option_copied, option_map};
ghost use Rattle.object_heap.specs.Get as reads;
ghost use Rattle.object_heap.specs.Get.{is_writable, met_along};
ghost use Rattle.object_heap.specs.Laws.{IsThere, PrototypesComeBefore};
ghost use Rattle.object_heap.specs.Objects.{chain_of, chain_on, prototype_of};
ghost use Rattle.object_heap.specs.Stored.{property_of};

use crate::entry::Entry;
use crate::stored::StoredObject;
use dl_text::Units;

/// The prototype of an object.
pub(crate) fn prototype(objects: &[StoredObject], o: u64) -> Option<u32>
    requires { PrototypesComeBefore objects.now }
    ensures value { result ≡ prototype_of objects.now o }
    ensures there { IsThere objects.now result }
{
    match objects.get(o as usize) {
        Some(object) => object.prototype(),
        None => None,
    }
}

/// What is stored for the property of an object that is met first along its prototypes.
pub(crate) fn met<'a>(objects: &'a [StoredObject], o: u64, name: &Units) -> Option<&'a Entry>
    requires { PrototypesComeBefore objects.now }
    ensures { option_map (property_of name.now) (option_copied result)
        ≡ reads.met objects.now o name.now }
{
    let object = objects.get(o as usize)?;
    match object.get(name) {
        Some(entry) => Some(entry),
        None => find(objects, object.prototype(), name),
    }
}

/// What the first object that has the property stores for it, from an object on.
fn find<'a>(objects: &'a [StoredObject], first: Option<u32>, name: &Units) -> Option<&'a Entry>
    requires before { PrototypesComeBefore objects.now }
    requires there { IsThere objects.now first }
    ensures { option_map (property_of name.now) (option_copied result)
        ≡ met_along objects.now (chain_on first (chain_of objects.now)) name.now }
{
    let mut next = first;
    while let Some(o) = next {
        let object = &objects[o as usize];
        if let Some(entry) = object.get(name) {
            return Some(entry);
        }
        next = object.prototype();
    }
    None
}

/// Whether the property that is met first from an object on, if any, can be written (ES3 8.6.2.3).
pub(crate) fn is_writable(objects: &[StoredObject], first: Option<u32>, name: &Units) -> bool
    requires before { PrototypesComeBefore objects.now }
    requires there { IsThere objects.now first }
    ensures { result
        ≡ is_writable (met_along objects.now (chain_on first (chain_of objects.now)) name.now) }
{
    match find(objects, first, name) {
        Some(entry) => !entry.attributes().read_only,
        None => true,
    }
}

/// Whether an object is among these, from an object on.
pub(crate) fn is_among(objects: &[StoredObject], first: Option<u32>, target: u64) -> bool
    requires before { PrototypesComeBefore objects.now }
    requires there { IsThere objects.now first }
    ensures { result ≡ list_any (λ p. nat_eq p target) (chain_on first (chain_of objects.now)) }
{
    let mut next = first;
    while let Some(o) = next {
        if u64::from(o) == target {
            return true;
        }
        next = objects[o as usize].prototype();
    }
    false
}
