//! Names of scripts, which are properties of the global object (ES3 8.7, 10.1.4, 11.1.2).

ghost use Rattle.std.specs.Prelude.{◌≡◌, ◌∷◌, ◌++◌, ◌≤◌, ◌<◌, ◌+◌, ◌*◌};
ghost use Rattle.std.specs.Prelude.{[], length, IfOk, MatchOption, None};
ghost use Rattle.object_heap.specs.Put.{put, written};
ghost use Rattle.js_tree.specs.Plain.{expr};
ghost use Rattle.js_tree.specs.Tree as tree;
ghost use Rattle.js_machine.specs.Globals.{name_in, value_of_global};
ghost use Rattle.js_machine.specs.NotBuilt.{StopsRightly};
ghost use Rattle.js_machine.specs.References.{error_object, global_object};
ghost use Rattle.js_machine.specs.Rest.{Falls, Same, in_expr, in_store, rest};
ghost use Rattle.js_machine.specs.State.{is_length, object_value};

use crate::frame::Control;
use crate::machine::Machine;
use dl_text::{TryCopy, Units};
use js_code::{ExprCode, ExprNode};
use js_values::Value;
use object_heap::{BuiltIn, Class, Prop};
use std::alloc::AllocError;

/// The name, where an expression is one.
pub(crate) fn name_of(e: &ExprCode) -> Option<&Units>
    ensures { MatchOption result (name_in (expr e.now) ≡ None)
        (λ name. expr e.now ≡ tree.Ident name.now) }
{
    match e.node() {
        ExprNode::Name(name) => Some(name),
        ExprNode::Num(_) => None,
        ExprNode::Str(_) => None,
        ExprNode::Bool(_) => None,
        ExprNode::Null => None,
        ExprNode::This => None,
        ExprNode::Array(_) => None,
        ExprNode::Object(_) => None,
        ExprNode::Func(_) => None,
        ExprNode::Dot(_, _) => None,
        ExprNode::Index(_, _) => None,
        ExprNode::Call(_, _) => None,
        ExprNode::New(_, _) => None,
        ExprNode::Postfix(_, _) => None,
        ExprNode::Prefix(_, _, _) => None,
        ExprNode::Binary(_, _, _, _) => None,
        ExprNode::And(_, _) => None,
        ExprNode::Or(_, _) => None,
        ExprNode::Comma(_, _) => None,
        ExprNode::Cond(_, _, _) => None,
        ExprNode::Assign(_, _, _) => None,
        ExprNode::Late(_) => None,
    }
}

impl Machine {
    /// The value of a name, if it is bound.
    #[inline]
    #[tactic(auto, using(crate::proofs::NameLaws::value_laws))]
    pub(crate) fn name_value(&self, name: &Units) -> Result<Option<Value>, AllocError>
        ensures { IfOk result (λ found. found ≡ value_of_global self.now.heap name.now) }
    {
        match self.heap.get(self.heap.built_in(BuiltIn::Global), name) {
            Some(Prop::Own(v)) => Ok(Some(v.copy(self.alloc)?)),
            Some(Prop::Shared(_, _)) => Ok(Some(Value::Undefined)),
            None => Ok(None),
        }
    }

    /// A new error with this prototype is thrown.
    pub(crate) fn throw_error(&mut self, prototype: BuiltIn) -> Result<Control, AllocError>
        ensures { IfOk result (λ next. (next ≡ Control.Throw)
            × (self.new ≡ record self.old {
              heap = self.old.heap ++ error_object prototype ∷ [];
              values = object_value (length self.old.heap) ∷ self.old.values;
            })) }
    {
        let prototype = self.heap.built_in(prototype);
        let error = self.heap.make(Class::Error, Some(prototype))?;
        self.values.push(Value::Object(error))?;
        Ok(Control::Throw)
    }

    #[inline]
    #[tactic(auto, using(crate::proofs::NameLaws::name_laws))]
    pub(crate) fn begin_name(&mut self, name: &Units) -> Result<Control, AllocError>
        ensures same { IfOk result (λ next.
            Same (in_expr (tree.Ident name.now)) self.old next self.new) }
        ensures falls { IfOk result (λ next. Falls self.old next self.new) }
        ensures rightly { IfOk result (λ next. StopsRightly next self.new) }
    {
        match self.name_value(name)? {
            Some(v) => self.answer(v),
            None => self.throw_error(BuiltIn::ReferenceErrorPrototype),
        }
    }

    /// Writes to a name, and tells whether no RangeError is due.
    #[inline]
    #[tactic(auto, using(crate::proofs::NameLaws::global_laws))]
    pub(crate) fn write_name(&mut self, name: &Units, v: Value) -> Result<bool, AllocError>
        ensures told { IfOk result (λ is_written.
            is_written ≡ is_length (put self.old.heap global_object name.now v)) }
        ensures after { IfOk result (λ is_written. self.new
            ≡ record self.old { heap = written self.old.heap global_object name.now v }) }
    {
        let global = self.heap.built_in(BuiltIn::Global);
        self.put(global, name, v)
    }

    /// A value is written to a name, and another given.
    #[inline]
    #[tactic(auto, using(crate::proofs::NameLaws::store_laws))]
    pub(crate) fn store(
        &mut self,
        target: &ExprCode,
        v: Value,
        given: Value,
    ) -> Result<Control, AllocError>
        ensures same { IfOk result (λ next.
            Same (in_store (name_in (expr target.now)) v given) self.old next self.new) }
        ensures falls { IfOk result (λ next. Falls self.old next self.new) }
        ensures rightly { IfOk result (λ next. StopsRightly next self.new) }
    {
        let Some(name) = name_of(target) else {
            return self.answer(given);
        };
        if self.write_name(name, v)? {
            self.answer(given)
        } else {
            self.throw_error(BuiltIn::RangeErrorPrototype)
        }
    }
}
