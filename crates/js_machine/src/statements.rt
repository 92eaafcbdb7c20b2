//! Statements (ES3 12): each is begun once its step is taken.

ghost use Rattle.std.specs.Prelude.{◌≡◌, ◌∷◌, ◌≤◌, ◌<◌, ◌+◌, ◌*◌};
ghost use Rattle.std.specs.Prelude.{length, None, IfOk};
ghost use Rattle.js_tree.specs.Plain.{expr, stmt};
ghost use Rattle.js_tree.specs.Plain as view;
ghost use Rattle.js_tree.specs.Tree as tree;
ghost use Rattle.js_machine.specs.NotBuilt.{StopsRightly};
ghost use Rattle.js_machine.specs.Built.{is_begun};
ghost use Rattle.js_machine.specs.Rest.{Falls, Same, in_list, in_stmt, in_value, rest};

use crate::frame::{Control, Frame, Unbuilt};
use crate::machine::Machine;
use js_code::{ExprCode, StmtCode, StmtCodes, StmtNode};
use js_values::to_boolean;
use std::alloc::AllocError;

/// Whether a statement of a list is begun: a declaration and `$dl_use` are not.
fn is_begun(s: &StmtCode) -> bool
    ensures { result ≡ is_begun (stmt s.now) }
{
    match s.node() {
        StmtNode::Declare(_) => false,
        StmtNode::Used(_) => false,
        StmtNode::Block(_) => true,
        StmtNode::Var(_) => true,
        StmtNode::Empty => true,
        StmtNode::Do(_) => true,
        StmtNode::If(_, _, _) => true,
        StmtNode::DoWhile(_, _) => true,
        StmtNode::While(_, _) => true,
        StmtNode::For(_, _, _, _) => true,
        StmtNode::ForIn(_, _, _) => true,
        StmtNode::Continue(_) => true,
        StmtNode::Break(_) => true,
        StmtNode::Return(_) => true,
        StmtNode::Switch(_, _) => true,
        StmtNode::Label(_, _) => true,
        StmtNode::Throw(_) => true,
        StmtNode::Try(_, _, _) => true,
    }
}

impl Machine {
    #[inline]
    #[tactic(auto, using(crate::proofs::StatementLaws::in_block))]
    pub(crate) fn begin_block(&mut self, body: &StmtCodes) -> Result<Control, AllocError>
        ensures same { IfOk result (λ next.
            Same (in_stmt (tree.Block (view.body body.now))) self.old next self.new) }
        ensures falls { IfOk result (λ next. Falls self.old next self.new) }
        ensures rightly { IfOk result (λ next. StopsRightly next self.new) }
    {
        let body = body.share()?;
        self.next_statement(body, 0)
    }

    /// A list of statements goes on from one on.
    #[inline]
    #[tactic(auto, using(crate::proofs::StatementLaws::list_laws))]
    pub(crate) fn next_statement(&mut self, list: StmtCodes, i: u32) -> Result<Control, AllocError>
        ensures same { IfOk result (λ next. Same (in_list list i) self.old next self.new) }
        ensures falls { IfOk result (λ next. Falls self.old next self.new) }
        ensures rightly { IfOk result (λ next. StopsRightly next self.new) }
    {
        let Some(s) = list.get(i as usize) else {
            return Ok(Control::Done);
        };
        if !is_begun(s) {
            return Ok(Control::Unbuilt(Unbuilt::List(list, i)));
        }
        let s = s.share()?;
        if list.get(i as usize + 1).is_none() {
            return Ok(Control::Stmt(s));
        }
        if i == u32::MAX {
            return Err(AllocError);
        }
        self.frames.push(Frame::Next(list, i + 1))?;
        Ok(Control::Stmt(s))
    }

    #[inline]
    #[tactic(auto, using(crate::proofs::StatementLaws::in_do))]
    pub(crate) fn begin_do(&mut self, e: &ExprCode) -> Result<Control, AllocError>
        ensures same { IfOk result (λ next.
            Same (in_stmt (tree.Do (expr e.now))) self.old next self.new) }
        ensures falls { IfOk result (λ next. Falls self.old next self.new) }
        ensures rightly { IfOk result (λ next. StopsRightly next self.new) }
    {
        self.first(Frame::Do, e)
    }

    #[inline]
    #[tactic(auto, using(crate::proofs::StatementLaws::if_laws))]
    pub(crate) fn give_if(&mut self, s: StmtCode) -> Result<Control, AllocError>
        ensures same { IfOk result (λ next. Same (in_value (Frame.If s)) self.old next self.new) }
        ensures falls { IfOk result (λ next. Falls self.old next self.new) }
        ensures rightly { IfOk result (λ next. StopsRightly next self.new) }
    {
        let v = self.values.pop();
        let Some(parts) = s.as_if() else {
            return Ok(Control::Done);
        };
        if to_boolean(&v) {
            Ok(Control::Stmt(parts.then.share()?))
        } else {
            match parts.other {
                Some(other) => Ok(Control::Stmt(other.share()?)),
                None => Ok(Control::Done),
            }
        }
    }
}
