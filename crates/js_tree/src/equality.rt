//! Whether two trees are equal.

ghost use Rattle.std.specs.Prelude.{◌≡◌, ◌↔◌, IsTrue};
ghost use Rattle.js_tree.specs.Plain as view;

use crate::lists::Boxed;
use crate::tree::{Case, Expr, ForInit, ForTarget, Func, Pair, Script, Stmt, VarItem};
use dl_text::{Listed, Units};

/// Whether two scripts are the same tree, with the same numbers and roles of functions.
pub fn same(left: &Script, right: &Script) -> bool
    ensures { IsTrue result ↔ (view.script left.now ≡ view.script right.now) }
{
    same_stmts(left.body.items(), right.body.items())
}

fn same_units(left: &Units, right: &Units) -> bool
    ensures { IsTrue result ↔ (left.now ≡ right.now) }
{
    left.items() == right.items()
}

fn same_names(left: &[Units], right: &[Units]) -> bool
    ensures { IsTrue result ↔ (left.now ≡ right.now) }
{
    if left.len() != right.len() {
        return false;
    }
    for (at, name) in left.iter().enumerate() {
        if !same_units(name, &right[at]) {
            return false;
        }
    }
    true
}

/// The name of a function, or the label of a `break` or a `continue`.
fn same_maybe_name(left: &Option<Units>, right: &Option<Units>) -> bool
    ensures { IsTrue result ↔ (left.now ≡ right.now) }
{
    match (left, right) {
        (None, None) => true,
        (Some(name), Some(other)) => same_units(name, other),
        _ => false,
    }
}

#[cycle(same)]
fn same_expr(left: &Expr, right: &Expr) -> bool
    ensures { IsTrue result ↔ (left.now ≡ right.now) }
{
    match (left, right) {
        (Expr::Num(n), Expr::Num(m)) => n == m,
        (Expr::Str(a), Expr::Str(b)) => same_units(a, b),
        (Expr::Bool(a), Expr::Bool(b)) => a == b,
        (Expr::Null, Expr::Null) => true,
        (Expr::This, Expr::This) => true,
        (Expr::Name(a), Expr::Name(b)) => same_units(a, b),
        (Expr::Array(a), Expr::Array(b)) => same_elements(a.items(), b.items()),
        (Expr::Object(a), Expr::Object(b)) => same_pairs(a.items(), b.items()),
        (Expr::Func(a), Expr::Func(b)) => same_func(a.get(), b.get()),
        (Expr::Dot(a, n), Expr::Dot(b, m)) => same_expr(a.get(), b.get()) && same_units(n, m),
        (Expr::Index(a, p), Expr::Index(b, q)) => {
            same_expr(a.get(), b.get()) && same_expr(p.get(), q.get())
        }
        (Expr::Call(a, p), Expr::Call(b, q)) => {
            same_expr(a.get(), b.get()) && same_exprs(p.items(), q.items())
        }
        (Expr::New(a, p), Expr::New(b, q)) => {
            same_expr(a.get(), b.get()) && same_exprs(p.items(), q.items())
        }
        (Expr::Postfix(a, op), Expr::Postfix(b, by)) => same_expr(a.get(), b.get()) && op == by,
        (Expr::Prefix(op, a), Expr::Prefix(by, b)) => op == by && same_expr(a.get(), b.get()),
        (Expr::Binary(op, a, p), Expr::Binary(by, b, q)) => {
            op == by && same_expr(a.get(), b.get()) && same_expr(p.get(), q.get())
        }
        (Expr::And(a, p), Expr::And(b, q)) => {
            same_expr(a.get(), b.get()) && same_expr(p.get(), q.get())
        }
        (Expr::Or(a, p), Expr::Or(b, q)) => {
            same_expr(a.get(), b.get()) && same_expr(p.get(), q.get())
        }
        (Expr::Comma(a, p), Expr::Comma(b, q)) => {
            same_expr(a.get(), b.get()) && same_expr(p.get(), q.get())
        }
        (Expr::Cond(a, p, x), Expr::Cond(b, q, y)) => {
            same_expr(a.get(), b.get())
                && same_expr(p.get(), q.get())
                && same_expr(x.get(), y.get())
        }
        (Expr::Assign(op, a, p), Expr::Assign(by, b, q)) => {
            op == by && same_expr(a.get(), b.get()) && same_expr(p.get(), q.get())
        }
        (Expr::Late(n), Expr::Late(m)) => n == m,
        _ => false,
    }
}

/// An expression that may be left out.
#[cycle(same)]
fn same_maybe_expr(left: &Option<Expr>, right: &Option<Expr>) -> bool
    ensures { IsTrue result ↔ (left.now ≡ right.now) }
{
    match (left, right) {
        (None, None) => true,
        (Some(a), Some(b)) => same_expr(a, b),
        _ => false,
    }
}

#[cycle(same)]
fn same_exprs(left: &[Expr], right: &[Expr]) -> bool
    ensures { IsTrue result ↔ (left.now ≡ right.now) }
{
    if left.len() != right.len() {
        return false;
    }
    for (at, expr) in left.iter().enumerate() {
        if !same_expr(expr, &right[at]) {
            return false;
        }
    }
    true
}

#[cycle(same)]
fn same_elements(left: &[Option<Expr>], right: &[Option<Expr>]) -> bool
    ensures { IsTrue result ↔ (left.now ≡ right.now) }
{
    if left.len() != right.len() {
        return false;
    }
    for (at, element) in left.iter().enumerate() {
        // The match stands here, since a call on `element` has no measure that the check finds.
        let is_same = match (element, &right[at]) {
            (None, None) => true,
            (Some(a), Some(b)) => same_expr(a, b),
            _ => false,
        };
        if !is_same {
            return false;
        }
    }
    true
}

#[cycle(same)]
fn same_pair(left: &Pair, right: &Pair) -> bool
    ensures { IsTrue result ↔ (left.now ≡ right.now) }
{
    same_units(&left.key, &right.key) && same_expr(&left.value, &right.value)
}

#[cycle(same)]
fn same_pairs(left: &[Pair], right: &[Pair]) -> bool
    ensures { IsTrue result ↔ (left.now ≡ right.now) }
{
    if left.len() != right.len() {
        return false;
    }
    for (at, pair) in left.iter().enumerate() {
        if !same_pair(pair, &right[at]) {
            return false;
        }
    }
    true
}

#[cycle(same)]
fn same_stmt(left: &Stmt, right: &Stmt) -> bool
    ensures { IsTrue result ↔ (left.now ≡ right.now) }
{
    match (left, right) {
        (Stmt::Block(a), Stmt::Block(b)) => same_stmts(a.items(), b.items()),
        (Stmt::Var(a), Stmt::Var(b)) => same_var_items(a.items(), b.items()),
        (Stmt::Empty, Stmt::Empty) => true,
        (Stmt::Do(a), Stmt::Do(b)) => same_expr(a, b),
        (Stmt::If(a, p, x), Stmt::If(b, q, y)) => {
            same_expr(a, b) && same_stmt(p.get(), q.get()) && same_maybe_stmt(x, y)
        }
        (Stmt::DoWhile(a, p), Stmt::DoWhile(b, q)) => {
            same_stmt(a.get(), b.get()) && same_expr(p, q)
        }
        (Stmt::While(a, p), Stmt::While(b, q)) => same_expr(a, b) && same_stmt(p.get(), q.get()),
        (Stmt::For(a, p, x, r), Stmt::For(b, q, y, s)) => {
            same_for_init(a, b)
                && same_maybe_expr(p, q)
                && same_maybe_expr(x, y)
                && same_stmt(r.get(), s.get())
        }
        (Stmt::ForIn(a, p, x), Stmt::ForIn(b, q, y)) => {
            same_for_target(a, b) && same_expr(p, q) && same_stmt(x.get(), y.get())
        }
        (Stmt::Continue(a), Stmt::Continue(b)) => same_maybe_name(a, b),
        (Stmt::Break(a), Stmt::Break(b)) => same_maybe_name(a, b),
        (Stmt::Return(a), Stmt::Return(b)) => same_maybe_expr(a, b),
        (Stmt::Switch(a, p), Stmt::Switch(b, q)) => {
            same_expr(a, b) && same_cases(p.items(), q.items())
        }
        (Stmt::Label(n, a), Stmt::Label(m, b)) => same_units(n, m) && same_stmt(a.get(), b.get()),
        (Stmt::Throw(a), Stmt::Throw(b)) => same_expr(a, b),
        (Stmt::Try(a, p, x), Stmt::Try(b, q, y)) => {
            same_stmt(a.get(), b.get()) && same_handler(p, q) && same_maybe_stmt(x, y)
        }
        (Stmt::Declare(a), Stmt::Declare(b)) => same_func(a, b),
        (Stmt::Used(n), Stmt::Used(m)) => n == m,
        _ => false,
    }
}

/// An `else` or a `finally`.
#[cycle(same)]
fn same_maybe_stmt(left: &Option<Boxed<Stmt>>, right: &Option<Boxed<Stmt>>) -> bool
    ensures { IsTrue result ↔ (left.now ≡ right.now) }
{
    match (left, right) {
        (None, None) => true,
        (Some(a), Some(b)) => same_stmt(a.get(), b.get()),
        _ => false,
    }
}

/// A `catch` with its name.
#[cycle(same)]
fn same_handler(left: &Option<(Units, Boxed<Stmt>)>, right: &Option<(Units, Boxed<Stmt>)>) -> bool
    ensures { IsTrue result ↔ (left.now ≡ right.now) }
{
    match (left, right) {
        (None, None) => true,
        (Some((n, a)), Some((m, b))) => same_units(n, m) && same_stmt(a.get(), b.get()),
        _ => false,
    }
}

#[cycle(same)]
fn same_stmts(left: &[Stmt], right: &[Stmt]) -> bool
    ensures { IsTrue result ↔ (left.now ≡ right.now) }
{
    if left.len() != right.len() {
        return false;
    }
    for (at, stmt) in left.iter().enumerate() {
        if !same_stmt(stmt, &right[at]) {
            return false;
        }
    }
    true
}

#[cycle(same)]
fn same_for_init(left: &ForInit, right: &ForInit) -> bool
    ensures { IsTrue result ↔ (left.now ≡ right.now) }
{
    match (left, right) {
        (ForInit::Nothing, ForInit::Nothing) => true,
        (ForInit::Vars(a), ForInit::Vars(b)) => same_var_items(a.items(), b.items()),
        (ForInit::First(a), ForInit::First(b)) => same_expr(a, b),
        _ => false,
    }
}

#[cycle(same)]
fn same_for_target(left: &ForTarget, right: &ForTarget) -> bool
    ensures { IsTrue result ↔ (left.now ≡ right.now) }
{
    match (left, right) {
        (ForTarget::Var(a), ForTarget::Var(b)) => same_var_item(a, b),
        (ForTarget::Target(a), ForTarget::Target(b)) => same_expr(a, b),
        _ => false,
    }
}

#[cycle(same)]
fn same_var_item(left: &VarItem, right: &VarItem) -> bool
    ensures { IsTrue result ↔ (left.now ≡ right.now) }
{
    same_units(&left.name, &right.name) && same_maybe_expr(&left.value, &right.value)
}

#[cycle(same)]
fn same_var_items(left: &[VarItem], right: &[VarItem]) -> bool
    ensures { IsTrue result ↔ (left.now ≡ right.now) }
{
    if left.len() != right.len() {
        return false;
    }
    for (at, item) in left.iter().enumerate() {
        if !same_var_item(item, &right[at]) {
            return false;
        }
    }
    true
}

#[cycle(same)]
fn same_case(left: &Case, right: &Case) -> bool
    ensures { IsTrue result ↔ (left.now ≡ right.now) }
{
    same_maybe_expr(&left.test, &right.test) && same_stmts(left.body.items(), right.body.items())
}

#[cycle(same)]
fn same_cases(left: &[Case], right: &[Case]) -> bool
    ensures { IsTrue result ↔ (left.now ≡ right.now) }
{
    if left.len() != right.len() {
        return false;
    }
    for (at, case) in left.iter().enumerate() {
        if !same_case(case, &right[at]) {
            return false;
        }
    }
    true
}

#[cycle(same)]
fn same_func(left: &Func, right: &Func) -> bool
    ensures { IsTrue result ↔ (left.now ≡ right.now) }
{
    left.number == right.number
        && left.role == right.role
        && same_maybe_name(&left.name, &right.name)
        && same_names(left.formals.items(), right.formals.items())
        && same_stmts(left.body.items(), right.body.items())
}
