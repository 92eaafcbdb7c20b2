//! `for-in` (ES3 12.6.4). What it visits is listed when it begins; at each turn the target is begun
//! anew, and the name is written to it.

ghost use Rattle.std.specs.Prelude.{◌≡◌, ◌∷◌, ◌++◌, ◌≤◌, ◌<◌, ◌+◌, ◌*◌, [], length, IfOk};
ghost use Rattle.js_machine.specs.NotBuilt.{StopsRightly};
ghost use Rattle.js_machine.specs.References.{error_object, global_value};
ghost use Rattle.js_machine.specs.Rest.{Falls, Same, in_for_in, in_named, in_object, in_value};
ghost use Rattle.js_machine.specs.Rest.{in_visit, in_visit_key, in_visit_put, in_visits, rest};
ghost use Rattle.js_machine.specs.Stacks.{below, top, without};
ghost use Rattle.js_machine.specs.State.{object_value};
ghost use Rattle.js_machine.specs.Visiting.{without_visits};

use crate::begin::is_target;
use crate::frame::{Control, End, Frame, Unbuilt};
use crate::machine::Machine;
use crate::members::{dot_of, index_of, is_base, object_of};
use crate::names::name_of;
use crate::operators::text;
use crate::visits::name_in;
use dl_text::{TryCopy, Units};
use js_code::{ForTargetNode, StmtCode};
use js_values::{Reason, Value};
use object_heap::{BuiltIn, is_reserved};
use std::alloc::AllocError;

impl Machine {
    /// The initialiser of a `var` is begun, where there is one, and then the object.
    #[inline]
    #[tactic(auto, using(crate::proofs::ForInLaws::begun_laws))]
    pub(crate) fn begin_for_in(&mut self, s: StmtCode) -> Result<Control, AllocError>
        ensures same { IfOk result (λ next. Same (in_for_in s) self.old next self.new) }
        ensures falls { IfOk result (λ next. Falls self.old next self.new) }
        ensures rightly { IfOk result (λ next. StopsRightly next self.new) }
    {
        let Some(parts) = s.as_for_in() else {
            return Ok(Control::Done);
        };
        match parts.target {
            ForTargetNode::Target(_) => self.begin_visits(s),
            ForTargetNode::Var(item) => match &item.value {
                None => self.begin_visits(s),
                Some(value) => {
                    let value = value.share()?;
                    self.wait(Frame::VisitsFrom(s), Control::Expr(value))
                }
            },
        }
    }

    /// The object is begun.
    #[tactic(auto, using(crate::proofs::ForInLaws::object_laws))]
    fn begin_visits(&mut self, s: StmtCode) -> Result<Control, AllocError>
        ensures same { IfOk result (λ next. Same (in_object s) self.old next self.new) }
        ensures falls { IfOk result (λ next. Falls self.old next self.new) }
        ensures rightly { IfOk result (λ next. StopsRightly next self.new) }
    {
        let Some(parts) = s.as_for_in() else {
            return Ok(Control::Done);
        };
        let object = parts.object.share()?;
        self.wait(Frame::Visits(s), Control::Expr(object))
    }

    #[inline]
    #[tactic(auto, using(crate::proofs::ForInLaws::from_laws))]
    pub(crate) fn give_visits_from(&mut self, s: StmtCode) -> Result<Control, AllocError>
        ensures same { IfOk result (λ next.
            Same (in_value (Frame.VisitsFrom s)) self.old next self.new) }
        ensures falls { IfOk result (λ next. Falls self.old next self.new) }
        ensures rightly { IfOk result (λ next. StopsRightly next self.new) }
    {
        let v = self.values.pop();
        let Some(parts) = s.as_for_in() else {
            return Ok(Control::Done);
        };
        let ForTargetNode::Var(item) = parts.target else {
            return self.begin_visits(s);
        };
        if self.write_name(&item.name, v)? {
            self.begin_visits(s)
        } else {
            self.throw_error(BuiltIn::RangeErrorPrototype)
        }
    }

    #[inline]
    #[tactic(auto, using(crate::proofs::ForInLaws::visits_laws))]
    pub(crate) fn give_visits(&mut self, s: StmtCode) -> Result<Control, AllocError>
        ensures same { IfOk result (λ next.
            Same (in_value (Frame.Visits s)) self.old next self.new) }
        ensures falls { IfOk result (λ next. Falls self.old next self.new) }
        ensures rightly { IfOk result (λ next. StopsRightly next self.new) }
    {
        let v = self.values.pop();
        if !is_base(&v) {
            return self.throw_error(BuiltIn::TypeErrorPrototype);
        }
        let object = self.visited_object(&v);
        let count = self.push_visits(object)?;
        self.next_visit(count, s)
    }

    /// The next turn begins, of so many visits.
    #[tactic(auto, using(crate::proofs::ForInLaws::next_laws))]
    pub(crate) fn next_visit(&mut self, count: u32, s: StmtCode) -> Result<Control, AllocError>
        ensures same { IfOk result (λ next. Same (in_visits count s) self.old next self.new) }
        ensures falls { IfOk result (λ next. Falls self.old next self.new) }
        ensures rightly { IfOk result (λ next. StopsRightly next self.new) }
    {
        let left = self.skip_visits(count);
        if left == 0 {
            return Ok(Control::Done);
        }
        let _object = self.values.pop();
        self.begin_visit(left - 1, s)
    }

    /// The target of a turn is begun, whose name is the newest value.
    #[tactic(auto, using(crate::proofs::ForInLaws::visit_laws))]
    fn begin_visit(&mut self, left: u32, s: StmtCode) -> Result<Control, AllocError>
        ensures same { IfOk result (λ next. Same (in_visit left s) self.old next self.new) }
        ensures falls { IfOk result (λ next. Falls self.old next self.new) }
        ensures rightly { IfOk result (λ next. StopsRightly next self.new) }
    {
        let Some(parts) = s.as_for_in() else {
            return self.pass_visits(1, left, Control::Done);
        };
        let target = match parts.target {
            ForTargetNode::Target(target) => target,
            ForTargetNode::Var(item) => {
                let name = item.name.copy(self.alloc)?;
                return self.write_visit(left, s, &name);
            }
        };
        if !is_target(target) {
            let target = target.share()?;
            return self.wait(Frame::VisitBase(left, s), Control::Expr(target));
        }
        if !self.clock.tick() {
            return Ok(Control::End(End::OutOfSteps));
        }
        if let Some(name) = name_of(target) {
            let name = name.copy(self.alloc)?;
            return self.write_visit(left, s, &name);
        }
        let object = object_of(target).share()?;
        self.wait(Frame::VisitBase(left, s), Control::Expr(object))
    }

    /// The name of a turn is written to a name.
    #[tactic(auto, using(crate::proofs::ForInLaws::write_laws))]
    fn write_visit(&mut self, left: u32, s: StmtCode, x: &Units) -> Result<Control, AllocError>
        ensures same { IfOk result (λ next.
            Same (in_visit_put left s global_value x.now) self.old next self.new) }
        ensures falls { IfOk result (λ next. Falls self.old next self.new) }
        ensures rightly { IfOk result (λ next. StopsRightly next self.new) }
    {
        let global = Value::Object(self.heap.built_in(BuiltIn::Global));
        self.put_visit(left, s, &global, x)
    }

    #[inline]
    #[tactic(auto, using(crate::proofs::ForInLaws::base_laws))]
    pub(crate) fn give_visit_base(&mut self, left: u32, s: StmtCode) -> Result<Control, AllocError>
        ensures same { IfOk result (λ next.
            Same (in_value (Frame.VisitBase left s)) self.old next self.new) }
        ensures falls { IfOk result (λ next. Falls self.old next self.new) }
        ensures rightly { IfOk result (λ next. StopsRightly next self.new) }
    {
        let Some(parts) = s.as_for_in() else {
            return self.pass_visits(2, left, Control::Done);
        };
        let ForTargetNode::Target(target) = parts.target else {
            return self.throw_at_visit(2, left, BuiltIn::ReferenceErrorPrototype);
        };
        if let Some((_, key)) = index_of(target) {
            let key = key.share()?;
            return self.wait(Frame::VisitKey(left, s), Control::Expr(key));
        }
        let Some((_, x)) = dot_of(target) else {
            return self.throw_at_visit(2, left, BuiltIn::ReferenceErrorPrototype);
        };
        let base = self.values.pop();
        if !is_base(&base) {
            return self.throw_at_visit(1, left, BuiltIn::TypeErrorPrototype);
        }
        let x = x.copy(self.alloc)?;
        self.put_visit(left, s, &base, &x)
    }

    #[inline]
    #[tactic(auto, using(crate::proofs::ForInLaws::key_laws))]
    pub(crate) fn give_visit_key(&mut self, left: u32, s: StmtCode) -> Result<Control, AllocError>
        ensures same { IfOk result (λ next.
            Same (in_value (Frame.VisitKey left s)) self.old next self.new) }
        ensures falls { IfOk result (λ next. Falls self.old next self.new) }
        ensures rightly { IfOk result (λ next. StopsRightly next self.new) }
    {
        let key = self.values.pop();
        let base = self.values.pop();
        if !is_base(&base) {
            return self.throw_at_visit(1, left, BuiltIn::TypeErrorPrototype);
        }
        match text(self.alloc, &key)? {
            Some(x) => self.use_visit_key(left, s, &base, &x),
            None => {
                if !self.enters_for_text(&key)? {
                    return self.throw_at_visit(1, left, BuiltIn::TypeErrorPrototype);
                }
                self.values.push(base)?;
                self.values.push(key)?;
                self.wait(Frame::VisitKey(left, s), Control::Unbuilt(Unbuilt::Give))
            }
        }
    }

    /// A computed name is written to, unless it begins as scripts may not write.
    #[tactic(auto, using(crate::proofs::ForInLaws::name_laws))]
    fn use_visit_key(
        &mut self,
        left: u32,
        s: StmtCode,
        base: &Value,
        x: &Units,
    ) -> Result<Control, AllocError>
        ensures same { IfOk result (λ next.
            Same (in_visit_key left s base.now x.now) self.old next self.new) }
        ensures falls { IfOk result (λ next. Falls self.old next self.new) }
        ensures rightly { IfOk result (λ next. StopsRightly next self.new) }
    {
        if is_reserved(x.items()) {
            return Ok(Control::End(End::Stopped(Reason::ReservedName)));
        }
        self.put_visit(left, s, base, x)
    }

    /// The name of a turn, which is the newest value, is written to a property of a base.
    #[tactic(auto, using(crate::proofs::ForInLaws::put_laws))]
    fn put_visit(
        &mut self,
        left: u32,
        s: StmtCode,
        base: &Value,
        x: &Units,
    ) -> Result<Control, AllocError>
        ensures same { IfOk result (λ next.
            Same (in_visit_put left s base.now x.now) self.old next self.new) }
        ensures falls { IfOk result (λ next. Falls self.old next self.new) }
        ensures rightly { IfOk result (λ next. StopsRightly next self.new) }
    {
        let name = name_in(self.alloc, self.values.pop());
        if self.put_on(base, x, Value::Str(name))? {
            self.begin_turn(left, s)
        } else {
            self.throw_at_visit(0, left, BuiltIn::RangeErrorPrototype)
        }
    }

    /// The body of a turn is begun.
    #[tactic(auto, using(crate::proofs::ForInLaws::turn_laws))]
    fn begin_turn(&mut self, left: u32, s: StmtCode) -> Result<Control, AllocError>
        ensures same { IfOk result (λ next. Same (in_named left s) self.old next self.new) }
        ensures falls { IfOk result (λ next. Falls self.old next self.new) }
        ensures rightly { IfOk result (λ next. StopsRightly next self.new) }
    {
        let Some(parts) = s.as_for_in() else {
            return self.pass_visits(0, left, Control::Done);
        };
        let body = parts.body.share()?;
        self.wait(Frame::Visit(left, s), Control::Body(body))
    }

    /// A `for-in` goes with so many values and under them so many visits.
    pub(crate) fn pass_visits(
        &mut self,
        above: u32,
        left: u32,
        next: Control,
    ) -> Result<Control, AllocError>
        ensures { IfOk result (λ c. (c ≡ next) × (self.new ≡ record self.old {
          values = without_visits left (without above self.old.values);
        })) }
    {
        self.values.forget(above as usize);
        self.forget_visits(left);
        Ok(next)
    }

    /// An error is thrown in the place of so many values and under them so many visits.
    fn throw_at_visit(
        &mut self,
        above: u32,
        left: u32,
        prototype: BuiltIn,
    ) -> Result<Control, AllocError>
        ensures { IfOk result (λ c. (c ≡ Control.Throw) × (self.new ≡ record self.old {
          heap = self.old.heap ++ error_object prototype ∷ [];
          values = object_value (length self.old.heap)
              ∷ without_visits left (without above self.old.values);
        })) }
    {
        self.values.forget(above as usize);
        self.forget_visits(left);
        self.throw_error(prototype)
    }

    /// An exception passes over so many values and under them so many visits.
    pub(crate) fn throw_over_visits(&mut self, above: u32, left: u32) -> Result<Control, AllocError>
        ensures { IfOk result (λ c. (c ≡ Control.Throw) × (self.new ≡ record self.old {
          values = top self.old.values
              ∷ without_visits left (without above (below self.old.values));
        })) }
    {
        let v = self.values.pop();
        self.values.forget(above as usize);
        self.forget_visits(left);
        self.values.push(v)?;
        Ok(Control::Throw)
    }
}
