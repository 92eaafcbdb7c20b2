//! The host calls of a page, by their objects.

ghost use Rattle.std.specs.Prelude.{◌≡◌, [], ◌∷◌, ◌++◌, length, IfOk, is_some, map, reverse};
ghost use Rattle.std.specs.Prelude.{MatchOption, None, Some};
ghost use Rattle.js_machine.specs.Globals.{host_body};
ghost use Rattle.js_machine.specs.HostCalls.{HostHolds, heap_with_host, host_name, state_with};
ghost use Rattle.js_machine.specs.Page.{host_function, with_host_calls};
ghost use Rattle.js_machine.specs.State.{body_in};

use dl_text::{Listed, Names, TryCopy, Units, units_of};
use js_values::{Num, ObjectId, Value};
use object_heap::{Attrs, BuiltIn, Class, Heap};
use std::alloc::{AllocError, Global};
use std::marker::Model;

/// A host call is a function object that a page has.
#[derive(Drop)]
pub struct HostCall {
    pub object: u64,
    pub name: Units,
}

/// The host calls, the newest first.
#[derive(Drop)]
pub struct Hosts {
    calls: Vec<HostCall>,
}

impl Model for Hosts {
    ghost use Rattle.std.specs.Prelude.{List, reverse};
    ghost use Rattle.js_machine.specs.declared.hosts.HostCall as h;

    ghost Value = { List h.HostCall };

    ghost view = { λ hosts. reverse hosts.calls.items };
}

/// The name of the newest call that an object has.
#[tactic(auto, using(crate::proofs::HostLaws::name_laws))]
fn newest_name(calls: &[HostCall], o: u64) -> Option<&Units>
    ensures { MatchOption result (host_name (reverse calls.now) o ≡ None)
        (λ name. host_name (reverse calls.now) o ≡ Some name.now) }
{
    let mut left = calls.len();
    'calls: while left > 0 {
        left -= 1;
        let call = &calls[left];
        if call.object == o {
            return Some(&call.name);
        }
    }
    None
}

impl Hosts {
    /// The name of the host call that an object is, if it is one.
    pub fn name(&self, o: u64) -> Option<&Units>
        ensures { MatchOption result (host_name self.now o ≡ None)
            (λ name. host_name self.now o ≡ Some name.now) }
    {
        newest_name(self.calls.as_slice(), o)
    }

    /// Whether an object is one of them.
    #[tactic(auto, using(crate::proofs::HostLaws::has_laws))]
    pub fn has(&self, o: u64) -> bool
        ensures { result ≡ is_some (body_in (map host_body self.now) o) }
    {
        self.name(o).is_some()
    }

    /// One more.
    pub fn push(&mut self, call: HostCall) -> Result<(), AllocError>
        ensures { IfOk result (λ _. self.new ≡ call ∷ self.old) }
    {
        self.calls.push(call)?;
        Ok(())
    }

    /// No host call.
    pub fn new(alloc: Global) -> Hosts
        ensures { result ≡ [] }
    {
        Hosts {
            calls: Vec::new(alloc),
        }
    }
}

/// The attributes of the `length` of a host call.
const ALL_THREE: Attrs = Attrs {
    read_only: true,
    hidden: true,
    fixed: true,
};

/// The attributes of a host call as a property of `host`.
const HIDDEN: Attrs = Attrs {
    read_only: false,
    hidden: true,
    fixed: false,
};

/// A function of `length` 0 without a `prototype`.
#[tactic(auto, using(crate::proofs::HostLaws::function_laws))]
fn make_function(alloc: Global, heap: &mut Heap) -> Result<ObjectId, AllocError>
    ensures number { IfOk result (λ o. o.0 ≡ length heap.old) }
    ensures made { IfOk result (λ _. heap.new ≡ heap.old ++ host_function ∷ []) }
{
    let prototype = heap.built_in(BuiltIn::FunctionPrototype);
    let function = heap.make(Class::Function, Some(prototype))?;
    let length = units_of(alloc, "length")?;
    heap.define(function, &length, Value::Num(Num::from(0u32)), ALL_THREE)?;
    Ok(function)
}

/// Makes a host call, which `host` has as a property.
#[tactic(auto, using(crate::proofs::HostLaws::host_laws))]
fn add_host(
    alloc: Global,
    heap: &mut Heap,
    hosts: &mut Hosts,
    name: &Units,
) -> Result<(), AllocError>
    requires { HostHolds heap.old }
    ensures heap { IfOk result (λ _. heap.new ≡ heap_with_host name.now heap.old) }
    ensures holds { IfOk result (λ _. HostHolds heap.new) }
    ensures hosts { IfOk result (λ _. hosts.new ≡ (record {
      object = length heap.old;
      name = name.now;
    }) ∷ hosts.old) }
{
    let host = heap.built_in(BuiltIn::Host);
    let function = make_function(alloc, heap)?;
    heap.define(host, name, Value::Object(function), HIDDEN)?;
    hosts.push(HostCall {
        object: function.0,
        name: name.copy(alloc)?,
    })
}

/// Makes the host calls of a page, in order.
pub(crate) fn add_hosts(
    alloc: Global,
    heap: &mut Heap,
    hosts: &mut Hosts,
    names: &Names,
) -> Result<(), AllocError>
    requires { HostHolds heap.old }
    ensures { IfOk result (λ _. state_with heap.new (map host_body hosts.new)
        ≡ with_host_calls names.now (state_with heap.old (map host_body hosts.old))) }
{
    for name in names.items() {
        add_host(alloc, heap, hosts, name)?;
    }
    Ok(())
}
