//! Whether trees are low enough.

ghost use Rattle.std.specs.Prelude.{◌≡◌, nat_le};
ghost use Rattle.js_tree.specs.Plain as view;
ghost use Rattle.js_tree.specs.Depth.{by_nodes};
ghost use Rattle.js_parser.specs.Fitting as spec;
ghost use Rattle.js_tree.specs.Heights as heights;

use dl_text::{Listed, Units};
use js_tree::{
    Boxed, Case, Cases, Elements, Expr, Exprs, ForInit, ForTarget, Func, Pair, Pairs, Stmt, Stmts,
    VarItem, VarItems,
};

/// Whether the tree of an expression has at most this height.
#[cycle(fits)]
pub fn expr_fits(expr: &Expr, most: u32) -> bool
    ensures { result ≡ nat_le (heights.expr_height by_nodes (view.expr expr.now)) most }
{
    let Some(inside) = most.checked_sub(1) else {
        return false;
    };
    match expr {
        Expr::Num(_)
        | Expr::Str(_)
        | Expr::Bool(_)
        | Expr::Null
        | Expr::This
        | Expr::Name(_)
        | Expr::Late(_) => true,
        Expr::Array(elements) => elements_fit(elements, inside),
        Expr::Object(pairs) => pairs_fit(pairs, inside),
        Expr::Func(func) => func_fits(func.get(), inside),
        Expr::Dot(operand, _) | Expr::Postfix(operand, _) | Expr::Prefix(_, operand) => {
            expr_fits(operand.get(), inside)
        }
        Expr::Call(callee, arguments) | Expr::New(callee, arguments) => {
            expr_fits(callee.get(), inside) && exprs_fit(arguments, inside)
        }
        Expr::Index(left, right)
        | Expr::Binary(_, left, right)
        | Expr::And(left, right)
        | Expr::Or(left, right)
        | Expr::Comma(left, right)
        | Expr::Assign(_, left, right) => {
            expr_fits(left.get(), inside) && expr_fits(right.get(), inside)
        }
        Expr::Cond(test, then, other) => {
            expr_fits(test.get(), inside)
                && (expr_fits(then.get(), inside) && expr_fits(other.get(), inside))
        }
    }
}

/// An expression that may be left out.
#[cycle(fits)]
fn maybe_expr_fits(expr: &Option<Expr>, most: u32) -> bool
    ensures { result ≡ spec.maybe_expr_fits expr.now most }
{
    match expr {
        None => true,
        Some(expr) => expr_fits(expr, most),
    }
}

/// Arguments (ES3 11.2.4).
#[cycle(fits)]
fn exprs_fit(exprs: &Exprs, most: u32) -> bool
    ensures { result ≡ spec.exprs_fit exprs.now most }
{
    for expr in exprs.items() {
        if !expr_fits(expr, most) {
            return false;
        }
    }
    true
}

/// The elements of an array literal; a hole has no height (ES3 11.1.4).
#[cycle(fits)]
fn elements_fit(elements: &Elements, most: u32) -> bool
    ensures { result ≡ spec.elements_fit elements.now most }
{
    for element in elements.items() {
        let Some(expr) = element else {
            continue;
        };
        if !expr_fits(expr, most) {
            return false;
        }
    }
    true
}

/// The value of a key (ES3 11.1.5).
#[cycle(fits)]
fn pair_fits(pair: &Pair, most: u32) -> bool
    ensures { result ≡ spec.pair_fits pair.now most }
{
    expr_fits(&pair.value, most)
}

/// The keys and values of an object literal (ES3 11.1.5).
#[cycle(fits)]
fn pairs_fit(pairs: &Pairs, most: u32) -> bool
    ensures { result ≡ spec.pairs_fit pairs.now most }
{
    for pair in pairs.items() {
        if !pair_fits(pair, most) {
            return false;
        }
    }
    true
}

/// Whether the tree of a statement has at most this height.
#[cycle(fits)]
fn stmt_fits(stmt: &Stmt, most: u32) -> bool
    ensures { result ≡ nat_le (heights.stmt_height by_nodes (view.stmt stmt.now)) most }
{
    let Some(inside) = most.checked_sub(1) else {
        return false;
    };
    match stmt {
        Stmt::Empty | Stmt::Continue(_) | Stmt::Break(_) | Stmt::Used(_) => true,
        Stmt::Block(body) => stmts_fit(body, inside),
        Stmt::Var(items) => var_items_fit(items, inside),
        Stmt::Do(expr) | Stmt::Throw(expr) => expr_fits(expr, inside),
        Stmt::If(test, then, other) => {
            expr_fits(test, inside)
                && (stmt_fits(then.get(), inside) && maybe_stmt_fits(other, inside))
        }
        Stmt::DoWhile(body, test) | Stmt::While(test, body) => {
            expr_fits(test, inside) && stmt_fits(body.get(), inside)
        }
        Stmt::For(first, test, next, body) => {
            for_init_fits(first, inside)
                && (maybe_expr_fits(test, inside)
                    && (maybe_expr_fits(next, inside) && stmt_fits(body.get(), inside)))
        }
        Stmt::ForIn(target, object, body) => {
            for_target_fits(target, inside)
                && (expr_fits(object, inside) && stmt_fits(body.get(), inside))
        }
        Stmt::Return(value) => maybe_expr_fits(value, inside),
        Stmt::Switch(value, cases) => expr_fits(value, inside) && cases_fit(cases, inside),
        Stmt::Label(_, body) => stmt_fits(body.get(), inside),
        Stmt::Try(block, handler, last) => {
            stmt_fits(block.get(), inside)
                && (handler_fits(handler, inside) && maybe_stmt_fits(last, inside))
        }
        Stmt::Declare(func) => func_fits(func, inside),
    }
}

/// An `else` or a `finally`.
#[cycle(fits)]
fn maybe_stmt_fits(stmt: &Option<Boxed<Stmt>>, most: u32) -> bool
    ensures { result ≡ spec.maybe_stmt_fits stmt.now most }
{
    match stmt {
        None => true,
        Some(stmt) => stmt_fits(stmt.get(), most),
    }
}

/// A `catch` with its name.
#[cycle(fits)]
fn handler_fits(handler: &Option<(Units, Boxed<Stmt>)>, most: u32) -> bool
    ensures { result ≡ spec.handler_fits handler.now most }
{
    match handler {
        None => true,
        Some((_, block)) => stmt_fits(block.get(), most),
    }
}

/// Each of these statements.
#[cycle(fits)]
fn stmts_fit(stmts: &Stmts, most: u32) -> bool
    ensures { result ≡ spec.stmts_fit stmts.now most }
{
    for stmt in stmts.items() {
        if !stmt_fits(stmt, most) {
            return false;
        }
    }
    true
}

/// The first part of a `for` header (ES3 12.6.3).
#[cycle(fits)]
fn for_init_fits(first: &ForInit, most: u32) -> bool
    ensures { result ≡ spec.for_init_fits first.now most }
{
    match first {
        ForInit::Nothing => true,
        ForInit::Vars(items) => var_items_fit(items, most),
        ForInit::First(expr) => expr_fits(expr, most),
    }
}

/// What a `for-in` assigns to (ES3 12.6.4).
#[cycle(fits)]
fn for_target_fits(target: &ForTarget, most: u32) -> bool
    ensures { result ≡ spec.for_target_fits target.now most }
{
    match target {
        ForTarget::Var(item) => var_item_fits(item, most),
        ForTarget::Target(expr) => expr_fits(expr, most),
    }
}

/// A declarator, which is no node (ES3 12.2).
#[cycle(fits)]
fn var_item_fits(item: &VarItem, most: u32) -> bool
    ensures { result ≡ spec.var_item_fits item.now most }
{
    maybe_expr_fits(&item.value, most)
}

/// The declarators of a `var` list (ES3 12.2).
#[cycle(fits)]
fn var_items_fit(items: &VarItems, most: u32) -> bool
    ensures { result ≡ spec.var_items_fit items.now most }
{
    for item in items.items() {
        if !var_item_fits(item, most) {
            return false;
        }
    }
    true
}

/// A clause of a `switch`, which is no node (ES3 12.11).
#[cycle(fits)]
fn case_fits(case: &Case, most: u32) -> bool
    ensures { result ≡ spec.case_fits case.now most }
{
    maybe_expr_fits(&case.test, most) && stmts_fit(&case.body, most)
}

/// The clauses of a `switch` (ES3 12.11).
#[cycle(fits)]
fn cases_fit(cases: &Cases, most: u32) -> bool
    ensures { result ≡ spec.cases_fit cases.now most }
{
    for case in cases.items() {
        if !case_fits(case, most) {
            return false;
        }
    }
    true
}

/// Whether the tree of a function has at most this height.
#[cycle(fits)]
fn func_fits(func: &Func, most: u32) -> bool
    ensures { result ≡ spec.func_fits func.now most }
{
    stmts_fit(&func.body, most)
}
