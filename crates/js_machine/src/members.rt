//! Members of objects, which are dots and indices (ES3 11.2.1). A node that works on a member
//! begins its base and, for an index, its key; then it reads, writes to, changes or deletes the
//! property.

ghost use Rattle.std.specs.Prelude.{◌≡◌, ◌∷◌, ◌≤◌, ◌<◌, ◌+◌, ◌*◌};
ghost use Rattle.std.specs.Prelude.{length, true, false, IfOk, MatchOption, None, Some};
ghost use Rattle.js_tree.specs.Plain.{expr};
ghost use Rattle.js_tree.specs.Tree as tree;
ghost use Rattle.js_machine.specs.Members as spec;
ghost use Rattle.js_machine.specs.NotBuilt.{StopsRightly};
ghost use Rattle.js_machine.specs.Rest.{Falls, Same, in_expr, in_member, in_name};
ghost use Rattle.js_machine.specs.Rest.{in_has, in_type_of, in_value, rest};

use crate::frame::{Control, End, Frame, Unbuilt};
use crate::machine::Machine;
use crate::operators::text;
use dl_text::{TryCopy, Units};
use js_code::{ExprCode, ExprNode};
use js_tree::{PostfixOp, PrefixOp};
use js_values::{Num, ObjectId, Reason, Value};
use object_heap::{BuiltIn, Prop, is_length, is_reserved};
use std::alloc::AllocError;

/// Whether an expression is a dot or an index.
pub(crate) fn is_member(e: &ExprCode) -> bool
    ensures { result ≡ spec.is_member (expr e.now) }
{
    match e.node() {
        ExprNode::Dot(_, _) => true,
        ExprNode::Index(_, _) => true,
        ExprNode::Num(_) => false,
        ExprNode::Str(_) => false,
        ExprNode::Bool(_) => false,
        ExprNode::Null => false,
        ExprNode::This => false,
        ExprNode::Name(_) => false,
        ExprNode::Array(_) => false,
        ExprNode::Object(_) => false,
        ExprNode::Func(_) => false,
        ExprNode::Call(_, _) => false,
        ExprNode::New(_, _) => false,
        ExprNode::Postfix(_, _) => false,
        ExprNode::Prefix(_, _, _) => false,
        ExprNode::Binary(_, _, _, _) => false,
        ExprNode::And(_, _) => false,
        ExprNode::Or(_, _) => false,
        ExprNode::Comma(_, _) => false,
        ExprNode::Cond(_, _, _) => false,
        ExprNode::Assign(_, _, _) => false,
        ExprNode::Late(_) => false,
    }
}

/// The object and the name of a dot.
pub(crate) fn dot_of(e: &ExprCode) -> Option<(&ExprCode, &Units)>
    ensures { MatchOption result (spec.dot_name (expr e.now) ≡ None)
        (λ dot. expr e.now ≡ tree.Dot (expr dot.0.now) dot.1.now) }
{
    match e.node() {
        ExprNode::Dot(object, name) => Some((object, name)),
        ExprNode::Num(_) => None,
        ExprNode::Str(_) => None,
        ExprNode::Bool(_) => None,
        ExprNode::Null => None,
        ExprNode::This => None,
        ExprNode::Name(_) => None,
        ExprNode::Array(_) => None,
        ExprNode::Object(_) => None,
        ExprNode::Func(_) => None,
        ExprNode::Index(_, _) => None,
        ExprNode::Call(_, _) => None,
        ExprNode::New(_, _) => None,
        ExprNode::Postfix(_, _) => None,
        ExprNode::Prefix(_, _, _) => None,
        ExprNode::Binary(_, _, _, _) => None,
        ExprNode::And(_, _) => None,
        ExprNode::Or(_, _) => None,
        ExprNode::Comma(_, _) => None,
        ExprNode::Cond(_, _, _) => None,
        ExprNode::Assign(_, _, _) => None,
        ExprNode::Late(_) => None,
    }
}

/// The object and the key of an index.
pub(crate) fn index_of(e: &ExprCode) -> Option<(&ExprCode, &ExprCode)>
    ensures { MatchOption result (spec.is_index (expr e.now) ≡ false)
        (λ index. expr e.now ≡ tree.Index (expr index.0.now) (expr index.1.now)) }
{
    match e.node() {
        ExprNode::Index(object, key) => Some((object, key)),
        ExprNode::Num(_) => None,
        ExprNode::Str(_) => None,
        ExprNode::Bool(_) => None,
        ExprNode::Null => None,
        ExprNode::This => None,
        ExprNode::Name(_) => None,
        ExprNode::Array(_) => None,
        ExprNode::Object(_) => None,
        ExprNode::Func(_) => None,
        ExprNode::Dot(_, _) => None,
        ExprNode::Call(_, _) => None,
        ExprNode::New(_, _) => None,
        ExprNode::Postfix(_, _) => None,
        ExprNode::Prefix(_, _, _) => None,
        ExprNode::Binary(_, _, _, _) => None,
        ExprNode::And(_, _) => None,
        ExprNode::Or(_, _) => None,
        ExprNode::Comma(_, _) => None,
        ExprNode::Cond(_, _, _) => None,
        ExprNode::Assign(_, _, _) => None,
        ExprNode::Late(_) => None,
    }
}

/// The target of a node that has one, and any other node itself.
fn target_of(e: &ExprCode) -> &ExprCode
    ensures { expr result.now ≡ spec.target_of (expr e.now) }
{
    match e.node() {
        ExprNode::Assign(_, target, _) => target,
        ExprNode::Postfix(target, _) => target,
        ExprNode::Prefix(_, _, target) => target,
        ExprNode::Num(_) => e,
        ExprNode::Str(_) => e,
        ExprNode::Bool(_) => e,
        ExprNode::Null => e,
        ExprNode::This => e,
        ExprNode::Name(_) => e,
        ExprNode::Array(_) => e,
        ExprNode::Object(_) => e,
        ExprNode::Func(_) => e,
        ExprNode::Dot(_, _) => e,
        ExprNode::Index(_, _) => e,
        ExprNode::Call(_, _) => e,
        ExprNode::New(_, _) => e,
        ExprNode::Binary(_, _, _, _) => e,
        ExprNode::And(_, _) => e,
        ExprNode::Or(_, _) => e,
        ExprNode::Comma(_, _) => e,
        ExprNode::Cond(_, _, _) => e,
        ExprNode::Late(_) => e,
    }
}

/// Whether an operator works on a target.
fn is_on_target(op: PrefixOp) -> bool
    ensures { result ≡ spec.is_on_target op }
{
    match op {
        PrefixOp::Delete | PrefixOp::TypeOf | PrefixOp::Increment | PrefixOp::Decrement => true,
        PrefixOp::Void | PrefixOp::Plus | PrefixOp::Minus | PrefixOp::BitNot | PrefixOp::Not => {
            false
        }
    }
}

/// Whether a node has a member for its target.
pub(crate) fn has_member(e: &ExprCode) -> bool
    ensures { result ≡ spec.has_member (expr e.now) }
{
    match e.node() {
        ExprNode::Assign(_, target, _) => is_member(target),
        ExprNode::Postfix(target, _) => is_member(target),
        ExprNode::Prefix(op, _, target) => is_on_target(*op) && is_member(target),
        ExprNode::Num(_) => false,
        ExprNode::Str(_) => false,
        ExprNode::Bool(_) => false,
        ExprNode::Null => false,
        ExprNode::This => false,
        ExprNode::Name(_) => false,
        ExprNode::Array(_) => false,
        ExprNode::Object(_) => false,
        ExprNode::Func(_) => false,
        ExprNode::Dot(_, _) => false,
        ExprNode::Index(_, _) => false,
        ExprNode::Call(_, _) => false,
        ExprNode::New(_, _) => false,
        ExprNode::Binary(_, _, _, _) => false,
        ExprNode::And(_, _) => false,
        ExprNode::Or(_, _) => false,
        ExprNode::Comma(_, _) => false,
        ExprNode::Cond(_, _, _) => false,
        ExprNode::Late(_) => false,
    }
}

/// The object of a member.
pub(crate) fn object_of(e: &ExprCode) -> &ExprCode
    ensures { expr result.now ≡ spec.object_of (expr e.now) }
{
    match e.node() {
        ExprNode::Dot(object, _) => object,
        ExprNode::Index(object, _) => object,
        ExprNode::Num(_) => e,
        ExprNode::Str(_) => e,
        ExprNode::Bool(_) => e,
        ExprNode::Null => e,
        ExprNode::This => e,
        ExprNode::Name(_) => e,
        ExprNode::Array(_) => e,
        ExprNode::Object(_) => e,
        ExprNode::Func(_) => e,
        ExprNode::Call(_, _) => e,
        ExprNode::New(_, _) => e,
        ExprNode::Postfix(_, _) => e,
        ExprNode::Prefix(_, _, _) => e,
        ExprNode::Binary(_, _, _, _) => e,
        ExprNode::And(_, _) => e,
        ExprNode::Or(_, _) => e,
        ExprNode::Comma(_, _) => e,
        ExprNode::Cond(_, _, _) => e,
        ExprNode::Assign(_, _, _) => e,
        ExprNode::Late(_) => e,
    }
}

/// Whether a value has properties.
pub(crate) fn is_base(v: &Value) -> bool
    ensures { result ≡ spec.is_base v.now }
{
    match v {
        Value::Undefined => false,
        Value::Null => false,
        Value::Bool(_) => true,
        Value::Num(_) => true,
        Value::Str(_) => true,
        Value::Object(_) => true,
    }
}

impl Machine {
    /// The property of an object.
    #[tactic(auto, using(crate::proofs::MemberLaws::property_laws))]
    pub(crate) fn property_of(&self, o: ObjectId, name: &Units) -> Result<Value, AllocError>
        ensures { IfOk result (λ v. v ≡ spec.property_of self.now.heap o.0 name.now) }
    {
        match self.heap.get(o, name) {
            Some(Prop::Own(v)) => v.copy(self.alloc),
            Some(Prop::Shared(_, _)) => Ok(Value::Undefined),
            None => Ok(Value::Undefined),
        }
    }

    /// The property of a text: its `length`, or one of String.prototype (ES3 15.5.5.1). It finds no
    /// memory for a length of 2^32 and above.
    #[tactic(auto, using(crate::proofs::MemberLaws::text_laws))]
    fn property_of_text(&self, text: &Units, name: &Units) -> Result<Value, AllocError>
        ensures { IfOk result (λ v. v ≡ spec.property_of_text self.now.heap text.now name.now) }
    {
        if is_length(name.items()) {
            let Ok(length) = u32::try_from(text.items().len()) else {
                return Err(AllocError);
            };
            return Ok(Value::Num(Num::from(length)));
        }
        self.property_of(self.heap.built_in(BuiltIn::StringPrototype), name)
    }

    /// The property of a value, which of a primitive one is that of its prototype (ES3 8.7.1).
    #[tactic(auto, using(crate::proofs::MemberLaws::base_laws))]
    pub(crate) fn property(&self, base: &Value, name: &Units) -> Result<Value, AllocError>
        ensures { IfOk result (λ v. v ≡ spec.property_in self.now.heap base.now name.now) }
    {
        match base {
            Value::Object(o) => self.property_of(*o, name),
            Value::Str(text) => self.property_of_text(text, name),
            Value::Num(_) => self.property_of(self.heap.built_in(BuiltIn::NumberPrototype), name),
            Value::Bool(_) => self.property_of(self.heap.built_in(BuiltIn::BooleanPrototype), name),
            Value::Null => Ok(Value::Undefined),
            Value::Undefined => Ok(Value::Undefined),
        }
    }

    /// The base of a dot or an index is begun.
    #[inline]
    #[tactic(auto, using(crate::proofs::MemberLaws::read_begun))]
    pub(crate) fn begin_member(&mut self, e: ExprCode) -> Result<Control, AllocError>
        requires { spec.is_member (expr e) ≡ true }
        ensures same { IfOk result (λ next. Same (in_expr (expr e)) self.old next self.new) }
        ensures falls { IfOk result (λ next. Falls self.old next self.new) }
        ensures rightly { IfOk result (λ next. StopsRightly next self.new) }
    {
        let object = object_of(&e).share()?;
        self.wait(Frame::Base(e), Control::Expr(object))
    }

    /// The base of a target is begun, behind the step of that target.
    #[inline]
    #[tactic(auto, using(crate::proofs::MemberLaws::target_laws))]
    pub(crate) fn begin_target(&mut self, e: ExprCode) -> Result<Control, AllocError>
        requires { spec.has_member (expr e) ≡ true }
        ensures same { IfOk result (λ next. Same (in_expr (expr e)) self.old next self.new) }
        ensures falls { IfOk result (λ next. Falls self.old next self.new) }
        ensures rightly { IfOk result (λ next. StopsRightly next self.new) }
    {
        if !self.clock.tick() {
            return Ok(Control::End(End::OutOfSteps));
        }
        let object = object_of(target_of(&e)).share()?;
        self.wait(Frame::Base(e), Control::Expr(object))
    }

    #[inline]
    #[tactic(auto, using(crate::proofs::MemberLaws::based_laws))]
    pub(crate) fn give_base(&mut self, e: ExprCode) -> Result<Control, AllocError>
        ensures same { IfOk result (λ next. Same (in_value (Frame.Base e)) self.old next self.new) }
        ensures falls { IfOk result (λ next. Falls self.old next self.new) }
        ensures rightly { IfOk result (λ next. StopsRightly next self.new) }
    {
        if let Some((_, name)) = dot_of(target_of(&e)) {
            let base = self.values.pop();
            if !is_base(&base) {
                return self.throw_error(BuiltIn::TypeErrorPrototype);
            }
            let name = name.copy(self.alloc)?;
            return self.use_member(&e, base, name);
        }
        let Some((_, key)) = index_of(target_of(&e)) else {
            let _base = self.values.pop();
            return Ok(Control::Done);
        };
        let key = key.share()?;
        self.wait(Frame::Key(e), Control::Expr(key))
    }

    #[inline]
    #[tactic(auto, using(crate::proofs::MemberLaws::keyed_laws))]
    pub(crate) fn give_key(&mut self, e: ExprCode) -> Result<Control, AllocError>
        ensures same { IfOk result (λ next. Same (in_value (Frame.Key e)) self.old next self.new) }
        ensures falls { IfOk result (λ next. Falls self.old next self.new) }
        ensures rightly { IfOk result (λ next. StopsRightly next self.new) }
    {
        let key = self.values.pop();
        let base = self.values.pop();
        if !is_base(&base) {
            return self.throw_error(BuiltIn::TypeErrorPrototype);
        }
        match text(self.alloc, &key)? {
            Some(name) => self.use_name(&e, base, name),
            None => {
                if !self.enters_for_text(&key)? {
                    return self.throw_error(BuiltIn::TypeErrorPrototype);
                }
                self.values.push(base)?;
                self.values.push(key)?;
                self.wait(Frame::Key(e), Control::Unbuilt(Unbuilt::Give))
            }
        }
    }

    /// A computed name is used, unless it begins as scripts may not write.
    #[inline]
    #[tactic(auto, using(crate::proofs::MemberLaws::name_laws))]
    fn use_name(&mut self, e: &ExprCode, base: Value, name: Units) -> Result<Control, AllocError>
        ensures same { IfOk result (λ next.
            Same (in_name (expr e.now) base name) self.old next self.new) }
        ensures falls { IfOk result (λ next. Falls self.old next self.new) }
        ensures rightly { IfOk result (λ next. StopsRightly next self.new) }
    {
        if is_reserved(name.items()) {
            return Ok(Control::End(End::Stopped(Reason::ReservedName)));
        }
        self.use_member(e, base, name)
    }

    /// A node does what it does with its member.
    #[tactic(auto, using(crate::proofs::MemberLaws::used_laws))]
    fn use_member(&mut self, e: &ExprCode, base: Value, name: Units) -> Result<Control, AllocError>
        ensures same { IfOk result (λ next.
            Same (in_member (expr e.now) base name) self.old next self.new) }
        ensures falls { IfOk result (λ next. Falls self.old next self.new) }
        ensures rightly { IfOk result (λ next. StopsRightly next self.new) }
    {
        match e.node() {
            ExprNode::Dot(_, _) => self.read_member(&base, &name),
            ExprNode::Index(_, _) => self.read_member(&base, &name),
            ExprNode::Assign(None, _, right) => self.begin_put(base, name, right),
            ExprNode::Assign(Some(op), _, right) => self.begin_put_with(*op, base, name, right),
            ExprNode::Postfix(_, op) => self.change_member(*op, false, base, name),
            ExprNode::Prefix(PrefixOp::Increment, _, _) => self.change_member(
                PostfixOp::Increment,
                true,
                base,
                name,
            ),
            ExprNode::Prefix(PrefixOp::Decrement, _, _) => self.change_member(
                PostfixOp::Decrement,
                true,
                base,
                name,
            ),
            ExprNode::Prefix(PrefixOp::Delete, _, _) => self.delete_member(&base, &name),
            ExprNode::Prefix(PrefixOp::TypeOf, _, _) => self.type_of_member(&base, &name),
            ExprNode::Prefix(PrefixOp::Void, _, _) => Ok(Control::Done),
            ExprNode::Prefix(PrefixOp::Plus, _, _) => Ok(Control::Done),
            ExprNode::Prefix(PrefixOp::Minus, _, _) => Ok(Control::Done),
            ExprNode::Prefix(PrefixOp::BitNot, _, _) => Ok(Control::Done),
            ExprNode::Prefix(PrefixOp::Not, _, _) => Ok(Control::Done),
            ExprNode::Num(_) => Ok(Control::Done),
            ExprNode::Str(_) => Ok(Control::Done),
            ExprNode::Bool(_) => Ok(Control::Done),
            ExprNode::Null => Ok(Control::Done),
            ExprNode::This => Ok(Control::Done),
            ExprNode::Name(_) => Ok(Control::Done),
            ExprNode::Array(_) => Ok(Control::Done),
            ExprNode::Object(_) => Ok(Control::Done),
            ExprNode::Func(_) => Ok(Control::Done),
            ExprNode::Call(_, _) => Ok(Control::Done),
            ExprNode::New(_, _) => Ok(Control::Done),
            ExprNode::Binary(_, _, _, _) => Ok(Control::Done),
            ExprNode::And(_, _) => Ok(Control::Done),
            ExprNode::Or(_, _) => Ok(Control::Done),
            ExprNode::Comma(_, _) => Ok(Control::Done),
            ExprNode::Cond(_, _, _) => Ok(Control::Done),
            ExprNode::Late(_) => Ok(Control::Done),
        }
    }

    /// The property is the value of the node.
    #[inline]
    fn read_member(&mut self, base: &Value, name: &Units) -> Result<Control, AllocError>
        ensures { IfOk result (λ next. (next ≡ Control.Give) × (self.new ≡ record self.old {
          values = spec.property_in self.old.heap base.now name.now ∷ self.old.values;
        })) }
    {
        let v = self.property(base, name)?;
        self.answer(v)
    }

    /// Its type is the value of the node.
    #[tactic(auto, using(crate::proofs::MemberLaws::type_read))]
    fn type_of_member(&mut self, base: &Value, name: &Units) -> Result<Control, AllocError>
        ensures same { IfOk result (λ next.
            Same (in_type_of base.now name.now) self.old next self.new) }
        ensures falls { IfOk result (λ next. Falls self.old next self.new) }
        ensures rightly { IfOk result (λ next. StopsRightly next self.new) }
    {
        let v = self.property(base, name)?;
        self.answer_type(&v)
    }

    /// [[Delete]], and whether the property is not there then (ES3 11.4.1).
    fn delete_member(&mut self, base: &Value, name: &Units) -> Result<Control, AllocError>
        ensures { IfOk result (λ next. (next ≡ Control.Give) × (self.new ≡ record self.old {
          heap = spec.heap_deleted self.old.heap base.now name.now;
          values = Value.Bool (spec.deletes self.old.heap base.now name.now) ∷ self.old.values;
        })) }
    {
        let deletes = match base {
            Value::Object(o) => self.heap.delete(*o, name),
            Value::Str(_) => !is_length(name.items()),
            Value::Num(_) => true,
            Value::Bool(_) => true,
            Value::Null => true,
            Value::Undefined => true,
        };
        self.answer(Value::Bool(deletes))
    }

    /// Whether an object has a property (ES3 11.8.7).
    #[inline]
    #[tactic(auto, using(crate::proofs::MemberLaws::in_laws))]
    pub(crate) fn give_in(&mut self) -> Result<Control, AllocError>
        ensures same { IfOk result (λ next. Same (in_value Frame.In) self.old next self.new) }
        ensures falls { IfOk result (λ next. Falls self.old next self.new) }
        ensures rightly { IfOk result (λ next. StopsRightly next self.new) }
    {
        let right = self.values.pop();
        let left = self.values.pop();
        let Value::Object(o) = right else {
            return self.throw_error(BuiltIn::TypeErrorPrototype);
        };
        match text(self.alloc, &left)? {
            Some(name) => self.answer_has(o, &name),
            None => {
                if !self.enters_for_text(&left)? {
                    return self.throw_error(BuiltIn::TypeErrorPrototype);
                }
                self.values.push(left)?;
                self.values.push(Value::Object(o))?;
                self.wait(Frame::In, Control::Unbuilt(Unbuilt::Give))
            }
        }
    }

    #[inline]
    #[tactic(auto, using(crate::proofs::MemberLaws::has_laws))]
    fn answer_has(&mut self, o: ObjectId, name: &Units) -> Result<Control, AllocError>
        ensures same { IfOk result (λ next. Same (in_has o.0 name.now) self.old next self.new) }
        ensures falls { IfOk result (λ next. Falls self.old next self.new) }
        ensures rightly { IfOk result (λ next. StopsRightly next self.new) }
    {
        if is_reserved(name.items()) {
            return Ok(Control::End(End::Stopped(Reason::ReservedName)));
        }
        let has = self.heap.has(o, name);
        self.answer(Value::Bool(has))
    }
}
