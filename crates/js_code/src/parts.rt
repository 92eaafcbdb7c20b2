//! The parts of nodes of one kind, for a frame that holds a whole node.

ghost use Rattle.std.specs.Prelude.{◌≡◌, MatchOption, Some, None};
ghost use Rattle.std.specs.Option.{option_copied};
ghost use Rattle.js_tree.specs.Parts as parts;
ghost use Rattle.js_tree.specs.Plain as view;
ghost use Rattle.js_code.specs.Projections.{cond_parts, declaration, for_in_parts, if_parts};
ghost use Rattle.js_code.specs.Projections.{loop_parts, try_parts};
ghost use Rattle.js_code.specs.View.{for_target_tree};

use crate::exprs::{ExprCode, ExprNode};
use crate::funcs::FuncCode;
use crate::stmts::{ForTargetNode, StmtCode, StmtNode};
use dl_text::Units;

/// The parts of a conditional expression (ES3 11.12).
#[derive(Clone, Copy)]
pub struct CondParts<'a> {
    pub test: &'a ExprCode,
    pub then: &'a ExprCode,
    pub other: &'a ExprCode,
}

/// The parts of an `if` (ES3 12.5).
#[derive(Clone, Copy)]
pub struct IfParts<'a> {
    pub test: &'a ExprCode,
    pub then: &'a StmtCode,
    pub other: Option<&'a StmtCode>,
}

/// What a loop does in each turn (ES3 12.6.1 to 12.6.3).
#[derive(Clone, Copy)]
pub struct LoopParts<'a> {
    pub test: Option<&'a ExprCode>,
    /// What is done between two turns.
    pub update: Option<&'a ExprCode>,
    pub body: &'a StmtCode,
}

/// The parts of a `for-in` (ES3 12.6.4).
#[derive(Clone, Copy)]
pub struct ForInParts<'a> {
    pub target: &'a ForTargetNode,
    pub object: &'a ExprCode,
    pub body: &'a StmtCode,
}

/// The parts of a `try` (ES3 12.14).
#[derive(Clone, Copy)]
pub struct TryParts<'a> {
    pub block: &'a StmtCode,
    pub handler: Option<&'a (Units, StmtCode)>,
    pub last: Option<&'a StmtCode>,
}

impl ExprCode {
    /// The parts, if it is a conditional expression.
    #[inline]
    pub fn as_cond(&self) -> Option<CondParts<'_>>
        ensures { MatchOption result
            (cond_parts (view.expr self.now) ≡ None)
            (λ p. cond_parts (view.expr self.now) ≡ Some (record {
              test = view.expr p.test.now;
              first = view.expr p.then.now;
              second = view.expr p.other.now;
            })) }
    {
        match self.node() {
            ExprNode::Cond(test, then, other) => Some(CondParts { test, then, other }),
            ExprNode::Num(_)
            | ExprNode::Str(_)
            | ExprNode::Bool(_)
            | ExprNode::Null
            | ExprNode::This
            | ExprNode::Name(_)
            | ExprNode::Array(_)
            | ExprNode::Object(_)
            | ExprNode::Func(_)
            | ExprNode::Dot(_, _)
            | ExprNode::Index(_, _)
            | ExprNode::Call(_, _)
            | ExprNode::New(_, _)
            | ExprNode::Postfix(_, _)
            | ExprNode::Prefix(_, _, _)
            | ExprNode::Binary(_, _, _, _)
            | ExprNode::And(_, _)
            | ExprNode::Or(_, _)
            | ExprNode::Comma(_, _)
            | ExprNode::Assign(_, _, _)
            | ExprNode::Late(_) => None,
        }
    }
}

impl StmtCode {
    /// The parts, if it is an `if`.
    #[inline]
    pub fn as_if(&self) -> Option<IfParts<'_>>
        ensures { MatchOption result
            (if_parts (view.stmt self.now) ≡ None)
            (λ p. if_parts (view.stmt self.now) ≡ Some (record {
              test = view.expr p.test.now;
              first = view.stmt p.then.now;
              second = parts.maybe_stmt (option_copied p.other);
            })) }
    {
        match self.node() {
            StmtNode::If(test, then, other) => Some(IfParts {
                test,
                then,
                other: other.as_ref(),
            }),
            StmtNode::Block(_)
            | StmtNode::Var(_)
            | StmtNode::Empty
            | StmtNode::Do(_)
            | StmtNode::DoWhile(_, _)
            | StmtNode::While(_, _)
            | StmtNode::For(_, _, _, _)
            | StmtNode::ForIn(_, _, _)
            | StmtNode::Continue(_)
            | StmtNode::Break(_)
            | StmtNode::Return(_)
            | StmtNode::Switch(_, _)
            | StmtNode::Label(_, _)
            | StmtNode::Throw(_)
            | StmtNode::Try(_, _, _)
            | StmtNode::Declare(_)
            | StmtNode::Used(_) => None,
        }
    }

    /// What it does in each turn, if it is a `do`, a `while` or a `for`.
    #[inline]
    pub fn as_loop(&self) -> Option<LoopParts<'_>>
        ensures { MatchOption result
            (loop_parts (view.stmt self.now) ≡ None)
            (λ p. loop_parts (view.stmt self.now) ≡ Some (record {
              test = parts.maybe_expr (option_copied p.test);
              update = parts.maybe_expr (option_copied p.update);
              body = view.stmt p.body.now;
            })) }
    {
        match self.node() {
            StmtNode::DoWhile(body, test) | StmtNode::While(test, body) => Some(LoopParts {
                test: Some(test),
                update: None,
                body,
            }),
            StmtNode::For(_, test, update, body) => Some(LoopParts {
                test: test.as_ref(),
                update: update.as_ref(),
                body,
            }),
            StmtNode::Block(_)
            | StmtNode::Var(_)
            | StmtNode::Empty
            | StmtNode::Do(_)
            | StmtNode::If(_, _, _)
            | StmtNode::ForIn(_, _, _)
            | StmtNode::Continue(_)
            | StmtNode::Break(_)
            | StmtNode::Return(_)
            | StmtNode::Switch(_, _)
            | StmtNode::Label(_, _)
            | StmtNode::Throw(_)
            | StmtNode::Try(_, _, _)
            | StmtNode::Declare(_)
            | StmtNode::Used(_) => None,
        }
    }

    /// The parts, if it is a `for-in`.
    #[inline]
    pub fn as_for_in(&self) -> Option<ForInParts<'_>>
        ensures { MatchOption result
            (for_in_parts (view.stmt self.now) ≡ None)
            (λ p. for_in_parts (view.stmt self.now) ≡ Some (record {
              target = for_target_tree p.target.now;
              object = view.expr p.object.now;
              body = view.stmt p.body.now;
            })) }
    {
        match self.node() {
            StmtNode::ForIn(target, object, body) => Some(ForInParts {
                target,
                object,
                body,
            }),
            StmtNode::Block(_)
            | StmtNode::Var(_)
            | StmtNode::Empty
            | StmtNode::Do(_)
            | StmtNode::If(_, _, _)
            | StmtNode::DoWhile(_, _)
            | StmtNode::While(_, _)
            | StmtNode::For(_, _, _, _)
            | StmtNode::Continue(_)
            | StmtNode::Break(_)
            | StmtNode::Return(_)
            | StmtNode::Switch(_, _)
            | StmtNode::Label(_, _)
            | StmtNode::Throw(_)
            | StmtNode::Try(_, _, _)
            | StmtNode::Declare(_)
            | StmtNode::Used(_) => None,
        }
    }

    /// The parts, if it is a `try`.
    #[inline]
    pub fn as_try(&self) -> Option<TryParts<'_>>
        ensures { MatchOption result
            (try_parts (view.stmt self.now) ≡ None)
            (λ p. try_parts (view.stmt self.now) ≡ Some (record {
              block = view.stmt p.block.now;
              handler = parts.handler (option_copied p.handler);
              last = parts.maybe_stmt (option_copied p.last);
            })) }
    {
        match self.node() {
            StmtNode::Try(block, handler, last) => Some(TryParts {
                block,
                handler: handler.as_ref(),
                last: last.as_ref(),
            }),
            StmtNode::Block(_)
            | StmtNode::Var(_)
            | StmtNode::Empty
            | StmtNode::Do(_)
            | StmtNode::If(_, _, _)
            | StmtNode::DoWhile(_, _)
            | StmtNode::While(_, _)
            | StmtNode::For(_, _, _, _)
            | StmtNode::ForIn(_, _, _)
            | StmtNode::Continue(_)
            | StmtNode::Break(_)
            | StmtNode::Return(_)
            | StmtNode::Switch(_, _)
            | StmtNode::Label(_, _)
            | StmtNode::Throw(_)
            | StmtNode::Declare(_)
            | StmtNode::Used(_) => None,
        }
    }

    /// The function, if it is a declaration.
    #[inline]
    pub fn as_declaration(&self) -> Option<&FuncCode>
        ensures { MatchOption result
            (declaration (view.stmt self.now) ≡ None)
            (λ f. declaration (view.stmt self.now) ≡ Some (view.func f.now)) }
    {
        match self.node() {
            StmtNode::Declare(func) => Some(func),
            StmtNode::Block(_)
            | StmtNode::Var(_)
            | StmtNode::Empty
            | StmtNode::Do(_)
            | StmtNode::If(_, _, _)
            | StmtNode::DoWhile(_, _)
            | StmtNode::While(_, _)
            | StmtNode::For(_, _, _, _)
            | StmtNode::ForIn(_, _, _)
            | StmtNode::Continue(_)
            | StmtNode::Break(_)
            | StmtNode::Return(_)
            | StmtNode::Switch(_, _)
            | StmtNode::Label(_, _)
            | StmtNode::Throw(_)
            | StmtNode::Try(_, _, _)
            | StmtNode::Used(_) => None,
        }
    }
}
