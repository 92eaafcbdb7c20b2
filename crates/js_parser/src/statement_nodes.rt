//! Nodes of statements from their parts (ES3 section 12).

ghost use Rattle.std.specs.Prelude.{◌≡◌, [], ◌∷◌, Some};
ghost use Rattle.js_parser.specs.ForParts as parts;
ghost use Rattle.js_parser.specs.ListViews as view;
ghost use Rattle.js_parser.specs.Reads.{Makes};
ghost use Rattle.js_parser.specs.StatementKinds as kinds;
ghost use Rattle.js_tree.specs.Plain.{body as statements, expr, stmt};
ghost use Rattle.js_tree.specs.Tree as tree;

use crate::for_parts::{ForRest, Iteration};
use crate::stop::Stop;
use dl_text::{TryCopy, Units};
use js_tree::{Boxed, Cases, Expr, ForInit, ForTarget, Stmt, Stmts, VarItem, VarItems};
use std::alloc::Global;

/// Statements in braces (ES3 12.1).
pub fn block(alloc: Global, body: Stmts) -> Result<Boxed<Stmt>, Stop>
    ensures { Makes stmt (tree.Block (statements body)) result }
{
    Ok(Boxed::new(alloc, Stmt::Block(body))?)
}

/// A `var` statement (ES3 12.2).
pub fn variables(alloc: Global, items: VarItems) -> Result<Boxed<Stmt>, Stop>
    ensures { Makes stmt (tree.Variables (view.var_items items)) result }
{
    Ok(Boxed::new(alloc, Stmt::Var(items))?)
}

/// The empty statement (ES3 12.3).
pub fn empty(alloc: Global) -> Result<Boxed<Stmt>, Stop>
    ensures { Makes stmt tree.Empty result }
{
    Ok(Boxed::new(alloc, Stmt::Empty)?)
}

/// An expression statement (ES3 12.4).
pub fn stated(alloc: Global, value: Boxed<Expr>) -> Result<Boxed<Stmt>, Stop>
    ensures { Makes stmt (tree.Do (expr value)) result }
{
    Ok(Boxed::new(alloc, Stmt::Do(value.into_inner()))?)
}

/// An `if` statement with no `else` (ES3 12.5).
pub fn if_then(alloc: Global, test: Boxed<Expr>, then: Boxed<Stmt>) -> Result<Boxed<Stmt>, Stop>
    ensures { Makes stmt (tree.If (expr test) (stmt then) tree.NoStmt) result }
{
    Ok(Boxed::new(alloc, Stmt::If(test.into_inner(), then, None))?)
}

/// An `if` statement with its `else` (ES3 12.5).
pub fn if_else(
    alloc: Global,
    test: Boxed<Expr>,
    then: Boxed<Stmt>,
    other: Boxed<Stmt>,
) -> Result<Boxed<Stmt>, Stop>
    ensures { Makes stmt (tree.If (expr test) (stmt then) (tree.AStmt (stmt other))) result }
{
    Ok(Boxed::new(alloc, Stmt::If(test.into_inner(), then, Some(other)))?)
}

/// A `do` statement (ES3 12.6.1).
pub fn do_while(alloc: Global, body: Boxed<Stmt>, test: Boxed<Expr>) -> Result<Boxed<Stmt>, Stop>
    ensures { Makes stmt (tree.DoWhile (stmt body) (expr test)) result }
{
    Ok(Boxed::new(alloc, Stmt::DoWhile(body, test.into_inner()))?)
}

/// A `while` statement (ES3 12.6.2).
pub fn while_loop(alloc: Global, test: Boxed<Expr>, body: Boxed<Stmt>) -> Result<Boxed<Stmt>, Stop>
    ensures { Makes stmt (tree.While (expr test) (stmt body)) result }
{
    Ok(Boxed::new(alloc, Stmt::While(test.into_inner(), body))?)
}

/// A `return` statement with no value (ES3 12.9).
pub fn return_nothing(alloc: Global) -> Result<Boxed<Stmt>, Stop>
    ensures { Makes stmt (tree.Return tree.NoExpr) result }
{
    Ok(Boxed::new(alloc, Stmt::Return(None))?)
}

/// A `return` statement with its value (ES3 12.9).
pub fn return_value(alloc: Global, value: Boxed<Expr>) -> Result<Boxed<Stmt>, Stop>
    ensures { Makes stmt (tree.Return (tree.AnExpr (expr value))) result }
{
    Ok(Boxed::new(alloc, Stmt::Return(Some(value.into_inner())))?)
}

/// A `throw` statement (ES3 12.13).
pub fn throw(alloc: Global, value: Boxed<Expr>) -> Result<Boxed<Stmt>, Stop>
    ensures { Makes stmt (tree.Throw (expr value)) result }
{
    Ok(Boxed::new(alloc, Stmt::Throw(value.into_inner()))?)
}

/// A `switch` statement (ES3 12.11).
pub fn switch(alloc: Global, value: Boxed<Expr>, cases: Cases) -> Result<Boxed<Stmt>, Stop>
    ensures { Makes stmt (tree.Switch (expr value) (view.clauses cases)) result }
{
    Ok(Boxed::new(alloc, Stmt::Switch(value.into_inner(), cases))?)
}

/// An expression out of its box.
fn unboxed(value: Option<Boxed<Expr>>) -> Option<Expr>
    ensures { result ≡ value }
{
    match value {
        Some(value) => Some(value.into_inner()),
        None => None,
    }
}

/// A `for` statement with nothing first (ES3 12.6.3).
pub fn for_nothing(alloc: Global, rest: ForRest) -> Result<Boxed<Stmt>, Stop>
    ensures { Makes stmt (kinds.loop_of tree.Nothing (parts.for_rest rest)) result }
{
    let ForRest { test, step, body } = rest;
    Ok(Boxed::new(
        alloc,
        Stmt::For(ForInit::Nothing, unboxed(test), unboxed(step), body),
    )?)
}

/// A `for` statement with an expression first (ES3 12.6.3).
pub fn for_first(alloc: Global, first: Boxed<Expr>, rest: ForRest) -> Result<Boxed<Stmt>, Stop>
    ensures { Makes stmt (kinds.loop_of (tree.First (expr first)) (parts.for_rest rest)) result }
{
    let ForRest { test, step, body } = rest;
    let init = ForInit::First(first.into_inner());
    Ok(Boxed::new(alloc, Stmt::For(init, unboxed(test), unboxed(step), body))?)
}

/// A `for` statement with these declarators first (ES3 12.6.3).
fn for_items(alloc: Global, items: VarItems, rest: ForRest) -> Result<Boxed<Stmt>, Stop>
    ensures { Makes stmt
        (kinds.loop_of (tree.Vars (view.var_items items)) (parts.for_rest rest)) result }
{
    let ForRest { test, step, body } = rest;
    let init = ForInit::Vars(items);
    Ok(Boxed::new(alloc, Stmt::For(init, unboxed(test), unboxed(step), body))?)
}

/// The list of this declarator alone (ES3 12.2).
fn only(alloc: Global, item: Boxed<VarItem>) -> Result<VarItems, Stop>
    ensures { Makes (λ items. items) (item ∷ []) result }
{
    let mut items = VarItems::new(alloc);
    items.push(item.into_inner())?;
    Ok(items)
}

/// A `for` statement with one declarator first (ES3 12.6.3).
pub fn for_variable(alloc: Global, item: Boxed<VarItem>, rest: ForRest) -> Result<Boxed<Stmt>, Stop>
    ensures { Makes stmt
        (kinds.loop_of (kinds.and_more (view.var_item item) tree.NoVarItems) (parts.for_rest rest))
        result }
{
    let items = only(alloc, item)?;
    for_items(alloc, items, rest)
}

/// A `for` statement with this and further declarators first (ES3 12.6.3).
pub fn for_variables(
    alloc: Global,
    item: Boxed<VarItem>,
    more: VarItems,
    rest: ForRest,
) -> Result<Boxed<Stmt>, Stop>
    ensures { Makes stmt
        (kinds.loop_of (kinds.and_more (view.var_item item) (view.var_items more))
        (parts.for_rest rest)) result }
{
    let mut items = only(alloc, item)?;
    items.append(more)?;
    for_items(alloc, items, rest)
}

/// A `for-in` statement with a declarator (ES3 12.6.4).
pub fn for_in_variable(
    alloc: Global,
    item: Boxed<VarItem>,
    iteration: Iteration,
) -> Result<Boxed<Stmt>, Stop>
    ensures { let i = parts.iteration iteration in
        Makes stmt (tree.ForIn (kinds.a_var (view.var_item item)) i.object i.body) result }
{
    let Iteration { object, body } = iteration;
    let target = ForTarget::Var(item.into_inner());
    Ok(Boxed::new(alloc, Stmt::ForIn(target, object.into_inner(), body))?)
}

/// A `for-in` statement with a target (ES3 12.6.4).
pub fn for_in_target(
    alloc: Global,
    target: Boxed<Expr>,
    iteration: Iteration,
) -> Result<Boxed<Stmt>, Stop>
    ensures { let i = parts.iteration iteration in
        Makes stmt (tree.ForIn (tree.Target (expr target)) i.object i.body) result }
{
    let Iteration { object, body } = iteration;
    let target = ForTarget::Target(target.into_inner());
    Ok(Boxed::new(alloc, Stmt::ForIn(target, object.into_inner(), body))?)
}

/// A `continue` statement (ES3 12.7).
pub fn continue_to(alloc: Global, label: Option<Units>) -> Result<Boxed<Stmt>, Stop>
    ensures { Makes stmt (tree.Continue label) result }
{
    Ok(Boxed::new(alloc, Stmt::Continue(label))?)
}

/// A `break` statement (ES3 12.8).
pub fn break_to(alloc: Global, label: Option<Units>) -> Result<Boxed<Stmt>, Stop>
    ensures { Makes stmt (tree.Break label) result }
{
    Ok(Boxed::new(alloc, Stmt::Break(label))?)
}

/// A labelled statement (ES3 12.12).
pub fn labelled(alloc: Global, name: &Units, body: Boxed<Stmt>) -> Result<Boxed<Stmt>, Stop>
    ensures { Makes stmt (tree.Label name.now (stmt body)) result }
{
    let name = name.copy(alloc)?;
    Ok(Boxed::new(alloc, Stmt::Label(name, body))?)
}

/// A `try` statement with `finally` alone (ES3 12.14).
pub fn try_finally(
    alloc: Global,
    tried: Boxed<Stmt>,
    last: Boxed<Stmt>,
) -> Result<Boxed<Stmt>, Stop>
    ensures { Makes stmt (tree.Try (stmt tried) tree.NoHandler (tree.AStmt (stmt last))) result }
{
    Ok(Boxed::new(alloc, Stmt::Try(tried, None, Some(last)))?)
}

/// A `try` statement with `catch` alone (ES3 12.14).
pub fn try_catch(
    alloc: Global,
    tried: Boxed<Stmt>,
    name: Units,
    handler: Boxed<Stmt>,
) -> Result<Boxed<Stmt>, Stop>
    ensures { Makes stmt (tree.Try (stmt tried) (tree.ACatch name (stmt handler)) tree.NoStmt)
        result }
{
    Ok(Boxed::new(alloc, Stmt::Try(tried, Some((name, handler)), None))?)
}

/// A `try` statement with `catch` and `finally` (ES3 12.14).
pub fn try_both(
    alloc: Global,
    tried: Boxed<Stmt>,
    name: Units,
    handler: Boxed<Stmt>,
    last: Boxed<Stmt>,
) -> Result<Boxed<Stmt>, Stop>
    ensures { Makes stmt
        (tree.Try (stmt tried) (tree.ACatch name (stmt handler)) (tree.AStmt (stmt last))) result }
{
    Ok(Boxed::new(alloc, Stmt::Try(tried, Some((name, handler)), Some(last)))?)
}

/// A label that is shared.
pub fn label(alloc: Global, name: &Units) -> Result<Option<Units>, Stop>
    ensures { Makes (λ copy. copy) (Some name.now) result }
{
    Ok(Some(name.copy(alloc)?))
}
