//! Expressions (ES3 11): each is begun once its step is taken.

ghost use Rattle.std.specs.Prelude.{◌≡◌, ◌∷◌, ◌≤◌, ◌<◌, ◌+◌, ◌*◌};
ghost use Rattle.std.specs.Prelude.{◌^◌, length, IfOk};
ghost use Rattle.js_tree.specs.Plain.{expr};
ghost use Rattle.js_tree.specs.Parts as parts;
ghost use Rattle.js_tree.specs.Tree as tree;
ghost use Rattle.js_machine.specs.NotBuilt.{StopsRightly};
ghost use Rattle.js_machine.specs.Rest.{Falls, Same, in_expr, rest};

use crate::frame::{Control, Frame, Unbuilt};
use crate::machine::Machine;
use dl_text::{TryCopy, Units};
use js_code::{ExprCode, ExprNode};
use js_tree::{BinaryOp, PrefixOp};
use js_values::{Num, Value, WholeNumber};
use object_heap::BuiltIn;
use std::alloc::AllocError;

impl Machine {
    #[inline]
    #[tactic(auto, using(crate::proofs::ExpressionLaws::in_num))]
    pub(crate) fn begin_num(&mut self, n: u64) -> Result<Control, AllocError>
        requires { n < 2 ^ 53 }
        ensures same { IfOk result (λ next. Same (in_expr (tree.Num n)) self.old next self.new) }
        ensures falls { IfOk result (λ next. Falls self.old next self.new) }
        ensures rightly { IfOk result (λ next. StopsRightly next self.new) }
    {
        let whole = WholeNumber::new(n as i64);
        self.answer(Value::Num(Num::Whole(whole)))
    }

    #[inline]
    #[tactic(auto, using(crate::proofs::ExpressionLaws::in_text))]
    pub(crate) fn begin_text(&mut self, text: &Units) -> Result<Control, AllocError>
        ensures same { IfOk result (λ next.
            Same (in_expr (tree.Str text.now)) self.old next self.new) }
        ensures falls { IfOk result (λ next. Falls self.old next self.new) }
        ensures rightly { IfOk result (λ next. StopsRightly next self.new) }
    {
        let text = text.copy(self.alloc)?;
        self.answer(Value::Str(text))
    }

    #[inline]
    #[tactic(auto, using(crate::proofs::ExpressionLaws::in_truth))]
    pub(crate) fn begin_truth(&mut self, b: bool) -> Result<Control, AllocError>
        ensures same { IfOk result (λ next. Same (in_expr (tree.Truth b)) self.old next self.new) }
        ensures falls { IfOk result (λ next. Falls self.old next self.new) }
        ensures rightly { IfOk result (λ next. StopsRightly next self.new) }
    {
        self.answer(Value::Bool(b))
    }

    #[inline]
    #[tactic(auto, using(crate::proofs::ExpressionLaws::in_null))]
    pub(crate) fn begin_null(&mut self) -> Result<Control, AllocError>
        ensures same { IfOk result (λ next. Same (in_expr tree.Null) self.old next self.new) }
        ensures falls { IfOk result (λ next. Falls self.old next self.new) }
        ensures rightly { IfOk result (λ next. StopsRightly next self.new) }
    {
        self.answer(Value::Null)
    }

    /// `this` of a script is the global object (ES3 10.2.1).
    #[inline]
    #[tactic(auto, using(crate::proofs::ExpressionLaws::in_this))]
    pub(crate) fn begin_this(&mut self) -> Result<Control, AllocError>
        ensures same { IfOk result (λ next. Same (in_expr tree.This) self.old next self.new) }
        ensures falls { IfOk result (λ next. Falls self.old next self.new) }
        ensures rightly { IfOk result (λ next. StopsRightly next self.new) }
    {
        let global = self.heap.built_in(BuiltIn::Global);
        self.answer(Value::Object(global))
    }

    #[inline]
    #[tactic(auto, using(crate::proofs::ExpressionLaws::in_binary))]
    pub(crate) fn begin_binary(
        &mut self,
        op: BinaryOp,
        left: &ExprCode,
        right: &ExprCode,
    ) -> Result<Control, AllocError>
        ensures same { IfOk result (λ next.
            Same (in_expr (tree.Binary op (expr left.now) (expr right.now)))
            self.old next self.new) }
        ensures falls { IfOk result (λ next. Falls self.old next self.new) }
        ensures rightly { IfOk result (λ next. StopsRightly next self.new) }
    {
        let right = right.share()?;
        self.first(Frame::Left(op, right), left)
    }

    #[inline]
    #[tactic(auto, using(crate::proofs::ExpressionLaws::in_and))]
    pub(crate) fn begin_and(
        &mut self,
        left: &ExprCode,
        right: &ExprCode,
    ) -> Result<Control, AllocError>
        ensures same { IfOk result (λ next.
            Same (in_expr (tree.And (expr left.now) (expr right.now))) self.old next self.new) }
        ensures falls { IfOk result (λ next. Falls self.old next self.new) }
        ensures rightly { IfOk result (λ next. StopsRightly next self.new) }
    {
        let right = right.share()?;
        self.first(Frame::And(right), left)
    }

    #[inline]
    #[tactic(auto, using(crate::proofs::ExpressionLaws::in_or))]
    pub(crate) fn begin_or(
        &mut self,
        left: &ExprCode,
        right: &ExprCode,
    ) -> Result<Control, AllocError>
        ensures same { IfOk result (λ next.
            Same (in_expr (tree.Or (expr left.now) (expr right.now))) self.old next self.new) }
        ensures falls { IfOk result (λ next. Falls self.old next self.new) }
        ensures rightly { IfOk result (λ next. StopsRightly next self.new) }
    {
        let right = right.share()?;
        self.first(Frame::Or(right), left)
    }

    #[inline]
    #[tactic(auto, using(crate::proofs::ExpressionLaws::in_comma))]
    pub(crate) fn begin_comma(
        &mut self,
        left: &ExprCode,
        right: &ExprCode,
    ) -> Result<Control, AllocError>
        ensures same { IfOk result (λ next.
            Same (in_expr (tree.Comma (expr left.now) (expr right.now))) self.old next self.new) }
        ensures falls { IfOk result (λ next. Falls self.old next self.new) }
        ensures rightly { IfOk result (λ next. StopsRightly next self.new) }
    {
        let right = right.share()?;
        self.first(Frame::Comma(right), left)
    }

    #[inline]
    #[tactic(auto, using(crate::proofs::ExpressionLaws::in_cond))]
    pub(crate) fn begin_cond(
        &mut self,
        test: &ExprCode,
        first: &ExprCode,
        second: &ExprCode,
    ) -> Result<Control, AllocError>
        ensures same { IfOk result (λ next.
            Same (in_expr (tree.Cond (expr test.now) (expr first.now) (expr second.now)))
            self.old next self.new) }
        ensures falls { IfOk result (λ next. Falls self.old next self.new) }
        ensures rightly { IfOk result (λ next. StopsRightly next self.new) }
    {
        let first = first.share()?;
        let second = second.share()?;
        self.first(Frame::Cond(first, second), test)
    }
}
