//! Nodes of trees from their parts.

ghost use Rattle.js_tree.specs.Levels as levels;
ghost use Rattle.js_parser.specs.Reads.{Makes};
ghost use Rattle.js_parser.specs.View as view;
ghost use Rattle.js_tree.specs.Plain.{expr, func, stmt};
ghost use Rattle.js_tree.specs.Tree as tree;

use crate::operators::Operator;
use crate::stop::Stop;
use js_tree::{BinaryOp, Boxed, Expr, Func, PostfixOp, PrefixOp, Stmt};
use std::alloc::Global;

/// A conditional (ES3 11.12).
pub fn conditional(
    alloc: Global,
    test: Boxed<Expr>,
    then: Boxed<Expr>,
    other: Boxed<Expr>,
) -> Result<Boxed<Expr>, Stop>
    ensures { Makes expr (tree.Cond (expr test) (expr then) (expr other)) result }
{
    Ok(Boxed::new(alloc, Expr::Cond(test, then, other))?)
}

/// The operator `,` (ES3 11.14).
pub fn comma(alloc: Global, first: Boxed<Expr>, last: Boxed<Expr>) -> Result<Boxed<Expr>, Stop>
    ensures { Makes expr (tree.Comma (expr first) (expr last)) result }
{
    Ok(Boxed::new(alloc, Expr::Comma(first, last))?)
}

/// An assignment (ES3 11.13); an operator of None is `=`.
pub fn assignment(
    alloc: Global,
    op: Option<BinaryOp>,
    target: Boxed<Expr>,
    value: Boxed<Expr>,
) -> Result<Boxed<Expr>, Stop>
    ensures { Makes expr (tree.Assign op (expr target) (expr value)) result }
{
    Ok(Boxed::new(alloc, Expr::Assign(op, target, value))?)
}

/// An operation with this operator between its operands (ES3 11.5 to 11.11).
pub fn joined(
    alloc: Global,
    op: Operator,
    left: Boxed<Expr>,
    right: Boxed<Expr>,
) -> Result<Boxed<Expr>, Stop>
    ensures { Makes expr (levels.joined (view.operator op) (expr left) (expr right)) result }
{
    match op {
        Operator::LogicalOr => Ok(Boxed::new(alloc, Expr::Or(left, right))?),
        Operator::LogicalAnd => Ok(Boxed::new(alloc, Expr::And(left, right))?),
        Operator::Operation(op) => Ok(Boxed::new(alloc, Expr::Binary(op, left, right))?),
    }
}

/// An operation with a prefix operator (ES3 11.4).
pub fn prefix(alloc: Global, op: PrefixOp, operand: Boxed<Expr>) -> Result<Boxed<Expr>, Stop>
    ensures { Makes expr (tree.Prefix op (expr operand)) result }
{
    Ok(Boxed::new(alloc, Expr::Prefix(op, operand))?)
}

/// An operation with a postfix operator (ES3 11.3).
pub fn postfix(alloc: Global, target: Boxed<Expr>, op: PostfixOp) -> Result<Boxed<Expr>, Stop>
    ensures { Makes expr (tree.Postfix (expr target) op) result }
{
    Ok(Boxed::new(alloc, Expr::Postfix(target, op))?)
}

/// A function declaration (ES3 section 13).
pub fn declaration(alloc: Global, function: Boxed<Func>) -> Result<Boxed<Stmt>, Stop>
    ensures { Makes stmt (tree.Declare (func function)) result }
{
    Ok(Boxed::new(alloc, Stmt::Declare(function.into_inner()))?)
}
