use super::*;
use dl_text::{Units, units_of};
use js_values::{Num, ObjectId, Value};
use std::alloc::{AllocError, Global};
use std::test::Fail;

/// The whole number that a property is, or None.
fn number(found: Option<Prop<'_>>) -> Option<i64> {
    match found {
        Some(Prop::Own(Value::Num(n))) => n.value(),
        _ => None,
    }
}

fn whole(n: u32) -> Value {
    Value::Num(Num::from(n))
}

/// Where a property shares its value.
fn place(found: Option<Prop<'_>>) -> Option<(u64, u64)> {
    match found {
        Some(Prop::Shared(scope, place)) => Some((scope, place)),
        _ => None,
    }
}

/// A heap of which contracts know nothing, so that no proof computes the objects of the start.
fn start(alloc: Global) -> Result<Heap, AllocError> {
    Heap::new(alloc)
}

/// A plain object, and one behind which it stands.
fn two_plain(alloc: Global) -> Result<(Heap, ObjectId, ObjectId), AllocError> {
    let mut heap = start(alloc)?;
    let o = heap.make(Class::Plain, None)?;
    let p = heap.make(Class::Plain, Some(o))?;
    Ok((heap, o, p))
}

/// An object with a property that holds 2.
fn with_property(
    alloc: Global,
    name: &Units,
    attrs: Attrs,
) -> Result<(Heap, ObjectId), AllocError> {
    let mut heap = start(alloc)?;
    let o = heap.make(Class::Plain, None)?;
    heap.define(o, name, whole(2), attrs)?;
    Ok((heap, o))
}

/// An object whose index 10 shares its value with place 2 of scope 4.
fn with_shared(alloc: Global) -> Result<(Heap, ObjectId), AllocError> {
    let mut heap = start(alloc)?;
    let o = heap.make(Class::Arguments, None)?;
    heap.share(o, 10, 4, 2)?;
    Ok((heap, o))
}

/// 15.5.3.1: the `prototype` of `String` is ReadOnly.
#[test]
fn what_a_prototype_has_is_not_written(rt: HostRuntime) -> Result<(), Fail> {
    let alloc = rt.alloc();
    let name = units_of(alloc, "prototype")?;
    let mut heap = start(alloc)?;
    let string = heap.built_in(BuiltIn::String);
    let o = heap.make(Class::Plain, Some(string))?;
    let put = heap.put(o, &name, whole(3))?;
    assert_eq!(rt; put, Put::Ignored);
    assert!(rt; heap.is_behind(o, string) && heap.proto(o) == Some(string));
    assert!(rt; heap.has(o, &name) && !heap.can_put(o, &name) && heap.own(o, &name).is_none());
    Ok(())
}

/// 8.6.1: a property with all three attributes.
#[test]
fn attributes_are_kept(rt: HostRuntime) -> Result<(), Fail> {
    let alloc = rt.alloc();
    let a = units_of(alloc, "a")?;
    let all = Attrs {
        read_only: true,
        hidden: true,
        fixed: true,
    };
    let (mut heap, o) = with_property(alloc, &a, all)?;
    assert_eq!(rt; heap.own(o, &a), Some(all));
    assert!(rt; !heap.delete(o, &a));
    let keys = heap.keys(o)?;
    assert!(rt; keys.is_empty());
    assert_eq!(rt; number(heap.get(o, &a)), Some(2));
    Ok(())
}

/// The names that are visited, each behind a star where the object itself has it, or a space.
fn visited(alloc: Global, visits: &[Visit], o: ObjectId) -> Result<Vec<u16>, AllocError> {
    let mut text = Vec::new(alloc);
    for visit in visits {
        text.push(if visit.object == o { 0x2a } else { 0x20 })?;
        text.extend_from_slice(visit.name.items())?;
    }
    Ok(text)
}

/// Puts 1 in each property.
fn put_all(heap: &mut Heap, o: ObjectId, alloc: Global, names: &[&str]) -> Result<(), HeapError> {
    for name in names {
        let _put = heap.put(o, &units_of(alloc, name)?, whole(1))?;
    }
    Ok(())
}

/// 12.6.4: a name of a prototype is visited where no object before has it.
#[test]
fn names_keep_their_order(rt: HostRuntime) -> Result<(), Fail> {
    let alloc = rt.alloc();
    let (mut heap, o, p) = two_plain(alloc)?;
    put_all(
        &mut heap,
        o,
        alloc,
        ["a", "b", "c", "$dl_x", "d"].as_slice(),
    )?;
    assert!(rt; heap.delete(o, &units_of(alloc, "b")?));
    put_all(&mut heap, o, alloc, ["b"].as_slice())?;
    put_all(&mut heap, p, alloc, ["c"].as_slice())?;
    let text = visited(alloc, heap.visits(p)?.as_slice(), p)?;
    assert_eq!(rt; text.as_slice(), units_of(alloc, "*c a d b")?.items());
    Ok(())
}

/// The length of an array behind these writes.
fn length_after(alloc: Global, names: &[&str]) -> Result<Option<i64>, HeapError> {
    let mut heap = start(alloc)?;
    let o = heap.make(Class::Array, None)?;
    put_all(&mut heap, o, alloc, names)?;
    Ok(number(heap.get(o, &units_of(alloc, "length")?)))
}

/// 15.4, 15.4.5.1
#[test]
fn the_length_of_an_array_follows(rt: HostRuntime) -> Result<(), Fail> {
    let alloc = rt.alloc();
    let few = length_after(alloc, ["1", "02", "3.0", "4294967295"].as_slice())?;
    assert_eq!(rt; few, Some(2));
    let most = length_after(alloc, ["4294967294"].as_slice())?;
    assert_eq!(rt; most, Some(0xffff_ffff));
    let cut = length_after(alloc, ["7", "length", "0"].as_slice())?;
    assert_eq!(rt; cut, Some(1));
    Ok(())
}

/// 10.1.8
#[test]
fn an_index_shares_until_it_is_deleted(rt: HostRuntime) -> Result<(), Fail> {
    let alloc = rt.alloc();
    let ten = units_of(alloc, "10")?;
    let (mut heap, o) = with_shared(alloc)?;
    assert_eq!(rt; place(heap.get(o, &ten)), Some((4, 2)));
    let shared = heap.put(o, &ten, whole(7))?;
    assert_eq!(rt; shared, Put::Shared(4, 2));
    assert!(rt; heap.delete(o, &ten));
    let put = heap.put(o, &ten, whole(7))?;
    assert_eq!(rt; put, Put::Done);
    Ok(())
}

/// The object of the start that a property is.
fn member(
    alloc: Global,
    heap: &Heap,
    o: ObjectId,
    name: &str,
) -> Result<Option<BuiltIn>, AllocError> {
    match heap.get(o, &units_of(alloc, name)?) {
        Some(Prop::Own(Value::Object(found))) => Ok(heap.which(*found)),
        _ => Ok(None),
    }
}

/// 15.1.4.2, 15.4.3
#[test]
fn the_start_has_its_objects(rt: HostRuntime) -> Result<(), Fail> {
    let alloc = rt.alloc();
    let heap = start(alloc)?;
    let global = heap.built_in(BuiltIn::Global);
    let array = heap.built_in(BuiltIn::Array);
    let found = member(alloc, &heap, global, "Array")?;
    assert_eq!(rt; found, Some(BuiltIn::Array));
    let prototype = member(alloc, &heap, array, "prototype")?;
    assert_eq!(rt; prototype, Some(BuiltIn::ArrayPrototype));
    let call = member(alloc, &heap, array, "call")?;
    assert_eq!(rt; call, Some(BuiltIn::Call));
    Ok(())
}

/// Whether no object has this number: there is no class, no prototype and no property.
fn is_missing(heap: &Heap, o: ObjectId, name: &Units) -> bool {
    heap.class(o).is_none()
        && heap.proto(o).is_none()
        && heap.own(o, name).is_none()
        && heap.get(o, name).is_none()
        && !heap.has(o, name)
        && heap.can_put(o, name)
        && heap.which(o).is_none()
}

/// The last 32 bits of 2^32 are those of 0, the number of Object.prototype, which has this name.
#[test]
fn a_number_that_no_object_has(rt: HostRuntime) -> Result<(), Fail> {
    let alloc = rt.alloc();
    let name = units_of(alloc, "toString")?;
    let mut heap = start(alloc)?;
    for o in [ObjectId(65), ObjectId(1 << 32), ObjectId(u64::MAX)] {
        let put = heap.put(o, &name, whole(1))?;
        assert_eq!(rt; put, Put::Ignored);
        assert!(rt; heap.delete(o, &name) && is_missing(&heap, o, &name));
        let keys = heap.keys(o)?;
        let visits = heap.visits(o)?;
        assert!(rt; keys.is_empty() && visits.is_empty());
    }
    let first = heap.built_in(BuiltIn::ObjectPrototype);
    assert!(rt;
        heap.has(first, &name) && !heap.is_behind(heap.built_in(BuiltIn::Math), ObjectId(1 << 32))
    );
    Ok(())
}
