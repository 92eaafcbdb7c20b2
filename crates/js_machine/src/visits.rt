//! The visits of a `for-in` (ES3 12.6.4), which stand on the stack: each is an object over a name.

ghost use Rattle.std.specs.Prelude.{◌≡◌, ◌∷◌, [], length, IfOk};
ghost use Rattle.object_heap.specs.Visited.{visits};
ghost use Rattle.js_machine.specs.Literals.{object_number};
ghost use Rattle.js_machine.specs.Loops as loops;
ghost use Rattle.js_machine.specs.Members.{text_in};
ghost use Rattle.js_machine.specs.Stacks.{top};
ghost use Rattle.js_machine.specs.Visiting as spec;

use crate::machine::Machine;
use dl_text::Units;
use js_values::{ObjectId, Value};
use object_heap::{BuiltIn, Visit};
use std::alloc::{AllocError, Global};

/// A name that stood on the stack.
pub(crate) fn name_in(alloc: Global, v: Value) -> Units
    ensures { result ≡ text_in v }
{
    match v {
        Value::Str(text) => text,
        Value::Undefined => Units::new(alloc),
        Value::Null => Units::new(alloc),
        Value::Bool(_) => Units::new(alloc),
        Value::Num(_) => Units::new(alloc),
        Value::Object(_) => Units::new(alloc),
    }
}

impl Machine {
    /// The object that is the newest value.
    pub(crate) fn newest_object(&self) -> ObjectId
        ensures { result.0 ≡ object_number (top self.now.values) }
    {
        match self.values.newest() {
            Some(Value::Object(o)) => *o,
            _ => ObjectId(0),
        }
    }

    /// The object whose names are visited; of a primitive value it is the prototype.
    pub(crate) fn visited_object(&self, v: &Value) -> ObjectId
        ensures { result.0 ≡ loops.visited_object v.now }
    {
        match v {
            Value::Object(o) => *o,
            Value::Str(_) => self.heap.built_in(BuiltIn::StringPrototype),
            Value::Num(_) => self.heap.built_in(BuiltIn::NumberPrototype),
            Value::Bool(_) => self.heap.built_in(BuiltIn::BooleanPrototype),
            Value::Null => self.heap.built_in(BuiltIn::ObjectPrototype),
            Value::Undefined => self.heap.built_in(BuiltIn::ObjectPrototype),
        }
    }

    /// One visit more, which is the next.
    fn push_visit(&mut self, visit: Visit) -> Result<(), AllocError>
        ensures { IfOk result (λ _. self.new ≡ record self.old {
          values = spec.with_visits ((visit.object.0, visit.name) ∷ []) self.old.values;
        }) }
    {
        self.values.push(Value::Str(visit.name))?;
        self.values.push(Value::Object(visit.object))
    }

    /// What a `for-in` over an object visits stands on the stack; their count.
    #[tactic(auto, using(crate::proofs::VisitLaws::push_laws))]
    pub(crate) fn push_visits(&mut self, o: ObjectId) -> Result<u32, AllocError>
        ensures count { IfOk result (λ count. count ≡ length (visits self.old.heap o.0)) }
        ensures pushed { IfOk result (λ count. self.new ≡ record self.old {
          values = spec.with_visits (visits self.old.heap o.0) self.old.values;
        }) }
    {
        let mut visits = self.heap.visits(o)?;
        let Ok(count) = u32::try_from(visits.len()) else {
            return Err(AllocError);
        };
        while let Some(visit) = visits.pop() {
            self.push_visit(visit)?;
        }
        Ok(count)
    }

    /// Drops so many visits.
    #[tactic(auto, using(crate::proofs::VisitLaws::forgotten))]
    pub(crate) fn forget_visits(&mut self, count: u32)
        ensures { self.new ≡ record self.old {
          values = spec.without_visits count self.old.values;
        } }
    {
        self.values.forget(2 * count as usize);
    }

    /// Whether the object of the next visit has its name.
    fn is_visit_there(&self) -> bool
        ensures { result ≡ spec.is_there self.now.heap (spec.visit_on self.now.values) }
    {
        let object = self.newest_object();
        match self.values.under(1) {
            Some(Value::Str(name)) => self.heap.own(object, name).is_some(),
            _ => self.heap.own(object, &Units::new(self.alloc)).is_some(),
        }
    }

    /// Drops the visits up to the next one that is still there; how many are left.
    #[tactic(auto, using(crate::proofs::VisitLaws::skip_laws))]
    pub(crate) fn skip_visits(&mut self, count: u32) -> u32
        ensures visits { spec.visits_on result self.new.values
            ≡ spec.from_next self.old.heap (spec.visits_on count self.old.values) }
        ensures below { spec.without_visits result self.new.values
            ≡ spec.without_visits count self.old.values }
        ensures stays { self.new ≡ record self.old { values = self.new.values } }
    {
        let mut left = count;
        while left > 0 && !self.is_visit_there() {
            self.values.forget(2);
            left -= 1;
        }
        left
    }
}
