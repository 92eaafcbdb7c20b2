//! How deep trees are.

ghost use Rattle.std.specs.Prelude.{◌≡◌, max};
ghost use Rattle.js_tree.specs.Depth as spec;
ghost use Rattle.js_tree.specs.Depth.{by_nodes, told};
ghost use Rattle.js_tree.specs.Heights as heights;
ghost use Rattle.js_tree.specs.Parts as parts;
ghost use Rattle.js_tree.specs.Plain as view;

use crate::lists::Boxed;
use crate::tree::{
    Case, Cases, Elements, Expr, Exprs, ForInit, ForTarget, Func, Pair, Pairs, Script, Stmt, Stmts,
    VarItem, VarItems,
};
use dl_text::{Listed, Units};

/// How deep a script is: how many nodes stand in one another at most, where its own statements are
/// at depth 1. Of a depth above 2^32 - 1 it tells that.
pub fn depth(script: &Script) -> u32
    ensures { result ≡ told (spec.depth (view.script script.now)) }
{
    stmts_depth(&script.body)
}

#[cycle(depth)]
fn expr_depth(expr: &Expr) -> u32
    ensures { result ≡ told (heights.expr_height by_nodes (view.expr expr.now)) }
{
    match expr {
        Expr::Num(_)
        | Expr::Str(_)
        | Expr::Bool(_)
        | Expr::Null
        | Expr::This
        | Expr::Name(_)
        | Expr::Late(_) => 1,
        Expr::Array(elements) => elements_depth(elements).saturating_add(1),
        Expr::Object(pairs) => pairs_depth(pairs).saturating_add(1),
        Expr::Func(func) => func_depth(func.get()).saturating_add(1),
        Expr::Dot(operand, _) | Expr::Postfix(operand, _) | Expr::Prefix(_, operand) => {
            expr_depth(operand.get()).saturating_add(1)
        }
        Expr::Call(callee, arguments) | Expr::New(callee, arguments) => {
            let callee = expr_depth(callee.get());
            callee.max(exprs_depth(arguments)).saturating_add(1)
        }
        Expr::Index(left, right)
        | Expr::Binary(_, left, right)
        | Expr::And(left, right)
        | Expr::Or(left, right)
        | Expr::Comma(left, right)
        | Expr::Assign(_, left, right) => {
            let left = expr_depth(left.get());
            left.max(expr_depth(right.get())).saturating_add(1)
        }
        Expr::Cond(test, then, other) => {
            let test = expr_depth(test.get());
            let then = expr_depth(then.get());
            let branches = then.max(expr_depth(other.get()));
            test.max(branches).saturating_add(1)
        }
    }
}

/// An expression that may be left out.
#[cycle(depth)]
fn maybe_expr_depth(expr: &Option<Expr>) -> u32
    ensures { result ≡ told (heights.maybe_expr_height by_nodes (parts.maybe_expr expr.now)) }
{
    match expr {
        None => 0,
        Some(expr) => expr_depth(expr),
    }
}

#[cycle(depth)]
fn exprs_depth(exprs: &Exprs) -> u32
    ensures { result ≡ told (heights.exprs_height by_nodes (parts.exprs exprs.now)) }
{
    let mut most = 0u32;
    for expr in exprs.items() {
        most = most.max(expr_depth(expr));
    }
    most
}

/// A hole has no depth.
#[cycle(depth)]
fn elements_depth(elements: &Elements) -> u32
    ensures { result ≡ told (heights.elements_height by_nodes (parts.elements elements.now)) }
{
    let mut most = 0u32;
    for element in elements.items() {
        if let Some(expr) = element {
            most = most.max(expr_depth(expr));
        }
    }
    most
}

#[cycle(depth)]
fn pair_depth(pair: &Pair) -> u32
    ensures { result ≡ told (heights.expr_height by_nodes (parts.pair pair.now).value) }
{
    expr_depth(&pair.value)
}

#[cycle(depth)]
fn pairs_depth(pairs: &Pairs) -> u32
    ensures { result ≡ told (heights.pairs_height by_nodes (parts.pairs pairs.now)) }
{
    let mut most = 0u32;
    for pair in pairs.items() {
        most = most.max(pair_depth(pair));
    }
    most
}

#[cycle(depth)]
fn stmt_depth(stmt: &Stmt) -> u32
    ensures { result ≡ told (heights.stmt_height by_nodes (view.stmt stmt.now)) }
{
    match stmt {
        Stmt::Empty | Stmt::Continue(_) | Stmt::Break(_) | Stmt::Used(_) => 1,
        Stmt::Block(body) => stmts_depth(body).saturating_add(1),
        Stmt::Var(items) => var_items_depth(items).saturating_add(1),
        Stmt::Do(expr) | Stmt::Throw(expr) => expr_depth(expr).saturating_add(1),
        Stmt::If(test, then, other) => {
            let test = expr_depth(test);
            let then = stmt_depth(then.get());
            let branches = then.max(maybe_stmt_depth(other));
            test.max(branches).saturating_add(1)
        }
        Stmt::DoWhile(body, test) | Stmt::While(test, body) => {
            let test = expr_depth(test);
            test.max(stmt_depth(body.get())).saturating_add(1)
        }
        Stmt::For(first, test, next, body) => {
            let first = for_init_depth(first);
            let test = maybe_expr_depth(test);
            let next = maybe_expr_depth(next);
            let body = next.max(stmt_depth(body.get()));
            first.max(test.max(body)).saturating_add(1)
        }
        Stmt::ForIn(target, object, body) => {
            let target = for_target_depth(target);
            let object = expr_depth(object);
            let body = object.max(stmt_depth(body.get()));
            target.max(body).saturating_add(1)
        }
        Stmt::Return(value) => maybe_expr_depth(value).saturating_add(1),
        Stmt::Switch(value, cases) => {
            let value = expr_depth(value);
            value.max(cases_depth(cases)).saturating_add(1)
        }
        Stmt::Label(_, body) => stmt_depth(body.get()).saturating_add(1),
        Stmt::Try(block, handler, last) => {
            let block = stmt_depth(block.get());
            let handler = handler_depth(handler);
            let behind = handler.max(maybe_stmt_depth(last));
            block.max(behind).saturating_add(1)
        }
        Stmt::Declare(func) => func_depth(func).saturating_add(1),
    }
}

/// An `else` or a `finally`.
#[cycle(depth)]
fn maybe_stmt_depth(stmt: &Option<Boxed<Stmt>>) -> u32
    ensures { result ≡ told (heights.maybe_stmt_height by_nodes (parts.maybe_stmt stmt.now)) }
{
    match stmt {
        None => 0,
        Some(stmt) => stmt_depth(stmt.get()),
    }
}

/// A `catch` with its name.
#[cycle(depth)]
fn handler_depth(handler: &Option<(Units, Boxed<Stmt>)>) -> u32
    ensures { result ≡ told (heights.handler_height by_nodes (parts.handler handler.now)) }
{
    match handler {
        None => 0,
        Some((_, block)) => stmt_depth(block.get()),
    }
}

#[cycle(depth)]
fn stmts_depth(stmts: &Stmts) -> u32
    ensures { result ≡ told (heights.stmts_height by_nodes (view.body stmts.now)) }
{
    let mut most = 0u32;
    for stmt in stmts.items() {
        most = most.max(stmt_depth(stmt));
    }
    most
}

#[cycle(depth)]
fn for_init_depth(first: &ForInit) -> u32
    ensures { result ≡ told (heights.for_init_height by_nodes (parts.for_init first.now)) }
{
    match first {
        ForInit::Nothing => 0,
        ForInit::Vars(items) => var_items_depth(items),
        ForInit::First(expr) => expr_depth(expr),
    }
}

#[cycle(depth)]
fn for_target_depth(target: &ForTarget) -> u32
    ensures { result ≡ told (heights.for_target_height by_nodes (parts.for_target target.now)) }
{
    match target {
        ForTarget::Var(item) => var_item_depth(item),
        ForTarget::Target(expr) => expr_depth(expr),
    }
}

/// A declarator is no node.
#[cycle(depth)]
fn var_item_depth(item: &VarItem) -> u32
    ensures { result ≡ told (heights.maybe_expr_height by_nodes (parts.var_item item.now).value) }
{
    maybe_expr_depth(&item.value)
}

#[cycle(depth)]
fn var_items_depth(items: &VarItems) -> u32
    ensures { result ≡ told (heights.var_items_height by_nodes (parts.var_items items.now)) }
{
    let mut most = 0u32;
    for item in items.items() {
        most = most.max(var_item_depth(item));
    }
    most
}

/// A clause of a `switch` is no node.
#[cycle(depth)]
fn case_depth(case: &Case) -> u32
    ensures { result ≡ told (max
        (heights.maybe_expr_height by_nodes (parts.case case.now).test)
        (heights.stmts_height by_nodes (parts.case case.now).body)) }
{
    let test = maybe_expr_depth(&case.test);
    test.max(stmts_depth(&case.body))
}

#[cycle(depth)]
fn cases_depth(cases: &Cases) -> u32
    ensures { result ≡ told (heights.cases_height by_nodes (parts.cases cases.now)) }
{
    let mut most = 0u32;
    for case in cases.items() {
        most = most.max(case_depth(case));
    }
    most
}

#[cycle(depth)]
fn func_depth(func: &Func) -> u32
    ensures { result ≡ told (heights.func_height by_nodes (view.func func.now)) }
{
    stmts_depth(&func.body)
}
