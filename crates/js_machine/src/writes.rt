//! Writes to members, and members that change by one (ES3 11.3, 11.4.4, 11.4.5, 11.13).

ghost use Rattle.std.specs.Prelude.{◌≡◌, ◌∷◌, ◌≤◌, ◌<◌, ◌+◌, ◌*◌, length, IfOk};
ghost use Rattle.object_heap.specs.Put.{put, written};
ghost use Rattle.js_values.specs.declared.value.Value.{Value};
ghost use Rattle.js_tree.specs.Plain.{expr};
ghost use Rattle.js_tree.specs.Tree as tree;
ghost use Rattle.js_machine.specs.Members as spec;
ghost use Rattle.js_machine.specs.NotBuilt.{StopsRightly};
ghost use Rattle.js_machine.specs.Rest.{Falls, Same, in_change_of, in_changed_to};
ghost use Rattle.js_machine.specs.Rest.{in_number, in_put};
ghost use Rattle.js_machine.specs.Rest.{in_put_with, in_putting, in_value, rest};
ghost use Rattle.js_machine.specs.State.{is_length};

use crate::assignments::{changed, number_value};
use crate::frame::{Control, End, Frame, Unbuilt};
use crate::machine::Machine;
use crate::operators::{number, operate};
use crate::visits::name_in;
use dl_text::{TryCopy, Units};
use js_code::ExprCode;
use js_tree::{BinaryOp, PostfixOp};
use js_values::{Num, ObjectId, Value};
use object_heap::{BuiltIn, HeapError};
use std::alloc::AllocError;

impl Machine {
    /// [[Put]], and whether no RangeError is due.
    #[tactic(auto, using(crate::proofs::NameLaws::write_laws))]
    pub(crate) fn put(&mut self, o: ObjectId, name: &Units, v: Value) -> Result<bool, AllocError>
        ensures told { IfOk result (λ is_written.
            is_written ≡ is_length (put self.old.heap o.0 name.now v)) }
        ensures after { IfOk result (λ is_written. self.new
            ≡ record self.old { heap = written self.old.heap o.0 name.now v }) }
    {
        match self.heap.put(o, name, v) {
            Ok(_done) => Ok(true),
            Err(HeapError::BadLength) => Ok(false),
            Err(HeapError::OutOfMemory) => Err(AllocError),
        }
    }

    /// [[Put]] to a base. To a property of a primitive value a write has no effect.
    pub(crate) fn put_on(
        &mut self,
        base: &Value,
        name: &Units,
        v: Value,
    ) -> Result<bool, AllocError>
        ensures told { IfOk result (λ is_written.
            is_written ≡ spec.is_put self.old.heap base.now name.now v) }
        ensures after { IfOk result (λ is_written. self.new
            ≡ record self.old { heap = spec.heap_put self.old.heap base.now name.now v }) }
    {
        match base {
            Value::Object(o) => self.put(*o, name, v),
            Value::Undefined => Ok(true),
            Value::Null => Ok(true),
            Value::Bool(_) => Ok(true),
            Value::Num(_) => Ok(true),
            Value::Str(_) => Ok(true),
        }
    }

    /// A value is written to a property of a base, and another given.
    #[tactic(auto, using(crate::proofs::MemberLaws::put_done))]
    fn put_member(
        &mut self,
        base: &Value,
        name: &Units,
        v: Value,
        given: Value,
    ) -> Result<Control, AllocError>
        ensures same { IfOk result (λ next.
            Same (in_put base.now name.now v given) self.old next self.new) }
        ensures falls { IfOk result (λ next. Falls self.old next self.new) }
        ensures rightly { IfOk result (λ next. StopsRightly next self.new) }
    {
        if self.put_on(base, name, v)? {
            self.answer(given)
        } else {
            self.throw_error(BuiltIn::RangeErrorPrototype)
        }
    }

    /// The right side of an assignment to a member is begun.
    #[inline]
    #[tactic(auto, using(crate::proofs::MemberLaws::put_begun))]
    pub(crate) fn begin_put(
        &mut self,
        base: Value,
        name: Units,
        right: &ExprCode,
    ) -> Result<Control, AllocError>
        ensures same { IfOk result (λ next.
            Same (in_putting base name (expr right.now)) self.old next self.new) }
        ensures falls { IfOk result (λ next. Falls self.old next self.new) }
        ensures rightly { IfOk result (λ next. StopsRightly next self.new) }
    {
        self.values.push(base)?;
        self.values.push(Value::Str(name))?;
        self.first(Frame::Put, right)
    }

    /// The left value of an assignment with an operator is read, and the right side begun.
    #[inline]
    #[tactic(auto, using(crate::proofs::MemberLaws::put_with_begun))]
    pub(crate) fn begin_put_with(
        &mut self,
        op: BinaryOp,
        base: Value,
        name: Units,
        right: &ExprCode,
    ) -> Result<Control, AllocError>
        ensures same { IfOk result (λ next.
            Same (in_put_with op base name (expr right.now)) self.old next self.new) }
        ensures falls { IfOk result (λ next. Falls self.old next self.new) }
        ensures rightly { IfOk result (λ next. StopsRightly next self.new) }
    {
        let left = self.property(&base, &name)?;
        self.values.push(base)?;
        self.values.push(Value::Str(name))?;
        self.values.push(left)?;
        self.first(Frame::PutWith(op), right)
    }

    #[inline]
    #[tactic(auto, using(crate::proofs::MemberLaws::v_put))]
    pub(crate) fn give_put(&mut self) -> Result<Control, AllocError>
        ensures same { IfOk result (λ next. Same (in_value Frame.Put) self.old next self.new) }
        ensures falls { IfOk result (λ next. Falls self.old next self.new) }
        ensures rightly { IfOk result (λ next. StopsRightly next self.new) }
    {
        let v = self.values.pop();
        let name = name_in(self.alloc, self.values.pop());
        let base = self.values.pop();
        let given = v.copy(self.alloc)?;
        self.put_member(&base, &name, v, given)
    }

    #[inline]
    #[tactic(auto, using(crate::proofs::MemberLaws::put_with_laws))]
    pub(crate) fn give_put_with(&mut self, op: BinaryOp) -> Result<Control, AllocError>
        ensures same { IfOk result (λ next.
            Same (in_value (Frame.PutWith op)) self.old next self.new) }
        ensures falls { IfOk result (λ next. Falls self.old next self.new) }
        ensures rightly { IfOk result (λ next. StopsRightly next self.new) }
    {
        let right = self.values.pop();
        let left = self.values.pop();
        match operate(self.alloc, op, &left, &right)? {
            Some(Ok(v)) => {
                let name = name_in(self.alloc, self.values.pop());
                let base = self.values.pop();
                let given = v.copy(self.alloc)?;
                self.put_member(&base, &name, v, given)
            }
            Some(Err(reason)) => Ok(Control::End(End::Stopped(reason))),
            None => {
                if !self.enters_operated(op, &left, &right)? {
                    let _name = self.values.pop();
                    let _base = self.values.pop();
                    return self.throw_error(BuiltIn::TypeErrorPrototype);
                }
                self.values.push(left)?;
                self.values.push(right)?;
                self.frames.push(Frame::PutWith(op))?;
                Ok(Control::Unbuilt(Unbuilt::Give))
            }
        }
    }

    /// The number before is read of a member that changes by one.
    #[tactic(auto, using(crate::proofs::MemberLaws::change_read))]
    pub(crate) fn change_member(
        &mut self,
        op: PostfixOp,
        gives_new: bool,
        base: Value,
        name: Units,
    ) -> Result<Control, AllocError>
        ensures same { IfOk result (λ next.
            Same (in_change_of op gives_new base name) self.old next self.new) }
        ensures falls { IfOk result (λ next. Falls self.old next self.new) }
        ensures rightly { IfOk result (λ next. StopsRightly next self.new) }
    {
        let old = self.property(&base, &name)?;
        self.change_number(op, gives_new, base, name, old)
    }

    #[inline]
    #[tactic(auto, using(crate::proofs::MemberLaws::v_changed))]
    pub(crate) fn give_changed(
        &mut self,
        op: PostfixOp,
        gives_new: bool,
    ) -> Result<Control, AllocError>
        ensures same { IfOk result (λ next.
            Same (in_value (Frame.Changed op gives_new)) self.old next self.new) }
        ensures falls { IfOk result (λ next. Falls self.old next self.new) }
        ensures rightly { IfOk result (λ next. StopsRightly next self.new) }
    {
        let old = self.values.pop();
        let name = name_in(self.alloc, self.values.pop());
        let base = self.values.pop();
        self.change_number(op, gives_new, base, name, old)
    }

    /// The value before becomes a number.
    #[tactic(auto, using(crate::proofs::MemberLaws::number_laws))]
    fn change_number(
        &mut self,
        op: PostfixOp,
        gives_new: bool,
        base: Value,
        name: Units,
        old: Value,
    ) -> Result<Control, AllocError>
        ensures same { IfOk result (λ next.
            Same (in_number op gives_new base name old) self.old next self.new) }
        ensures falls { IfOk result (λ next. Falls self.old next self.new) }
        ensures rightly { IfOk result (λ next. StopsRightly next self.new) }
    {
        match number(&old) {
            Some(Ok(before)) => self.write_changed(op, gives_new, &base, &name, before),
            Some(Err(reason)) => Ok(Control::End(End::Stopped(reason))),
            None => {
                if !self.enters_for_number(&old)? {
                    return self.throw_error(BuiltIn::TypeErrorPrototype);
                }
                self.values.push(base)?;
                self.values.push(Value::Str(name))?;
                self.values.push(old)?;
                self.wait(
                    Frame::Changed(op, gives_new),
                    Control::Unbuilt(Unbuilt::Give),
                )
            }
        }
    }

    /// The number after is written.
    #[tactic(auto, using(crate::proofs::MemberLaws::changed_laws))]
    fn write_changed(
        &mut self,
        op: PostfixOp,
        gives_new: bool,
        base: &Value,
        name: &Units,
        before: Num,
    ) -> Result<Control, AllocError>
        ensures same { IfOk result (λ next.
            Same (in_changed_to op gives_new base.now name.now before) self.old next self.new) }
        ensures falls { IfOk result (λ next. Falls self.old next self.new) }
        ensures rightly { IfOk result (λ next. StopsRightly next self.new) }
    {
        let after = match changed(op, before) {
            Ok(after) => after,
            Err(reason) => return Ok(Control::End(End::Stopped(reason))),
        };
        let given = if gives_new { &after } else { &before };
        self.put_member(base, name, number_value(&after), number_value(given))
    }
}
