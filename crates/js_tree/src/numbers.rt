//! Numbers for the functions of scripts, given where they lie.

ghost use Rattle.std.specs.Prelude.{◌≡◌, ◌≤◌, ◌<◌, ◌^◌, ◌++◌, length, map};
ghost use Rattle.js_tree.specs.Numbering.{functions, last_function_number};
ghost use Rattle.js_tree.specs.Numbering as numbering;
ghost use Rattle.js_tree.specs.Parts as parts;
ghost use Rattle.js_tree.specs.Plain as view;
ghost use Rattle.js_tree.specs.Renumbering as given;
ghost use Rattle.js_tree.specs.Renumbering.{behind, counted, renumbered};

use crate::lists::Boxed;
use crate::tree::{
    Case, Cases, Elements, Expr, Exprs, ForInit, ForTarget, Func, Pair, Pairs, Script, Stmt, Stmts,
    VarItem, VarItems,
};
use dl_text::{Listed, Units};

/// Of two parts the left one has the first numbers: its call is the argument of the other's.
#[cycle(number)]
fn number_expr(expr: &mut Expr, next: u32) -> u32
    requires { behind next (numbering.in_expr (view.expr expr.old)) < 2 ^ 32 }
    ensures tree { view.expr expr.new ≡ given.expr counted next (view.expr expr.old) }
    ensures next { result ≡ behind next (numbering.in_expr (view.expr expr.old)) }
{
    match expr {
        Expr::Num(_) => next,
        Expr::Str(_) => next,
        Expr::Bool(_) => next,
        Expr::Null => next,
        Expr::This => next,
        Expr::Name(_) => next,
        Expr::Array(elements) => number_elements(elements, next),
        Expr::Object(pairs) => number_pairs(pairs, next),
        Expr::Func(func) => number_func(func.get_mut(), next),
        Expr::Dot(object, _) => number_expr(object.get_mut(), next),
        Expr::Index(object, key) => number_expr(key.get_mut(), number_expr(object.get_mut(), next)),
        Expr::Call(callee, values) => number_exprs(values, number_expr(callee.get_mut(), next)),
        Expr::New(callee, values) => number_exprs(values, number_expr(callee.get_mut(), next)),
        Expr::Postfix(target, _) => number_expr(target.get_mut(), next),
        Expr::Prefix(_, operand) => number_expr(operand.get_mut(), next),
        Expr::Binary(_, left, right) => number_expr(
            right.get_mut(),
            number_expr(left.get_mut(), next),
        ),
        Expr::And(left, right) => number_expr(right.get_mut(), number_expr(left.get_mut(), next)),
        Expr::Or(left, right) => number_expr(right.get_mut(), number_expr(left.get_mut(), next)),
        Expr::Comma(left, right) => number_expr(right.get_mut(), number_expr(left.get_mut(), next)),
        Expr::Cond(test, then, other) => {
            let next = number_expr(test.get_mut(), next);
            number_expr(other.get_mut(), number_expr(then.get_mut(), next))
        }
        Expr::Assign(_, to, value) => number_expr(value.get_mut(), number_expr(to.get_mut(), next)),
        Expr::Late(_) => next,
    }
}

/// An expression that may be left out.
#[cycle(number)]
fn number_maybe_expr(expr: &mut Option<Expr>, next: u32) -> u32
    requires { behind next (numbering.in_maybe_expr (parts.maybe_expr expr.old)) < 2 ^ 32 }
    ensures tree { parts.maybe_expr expr.new
        ≡ given.maybe_expr counted next (parts.maybe_expr expr.old) }
    ensures next { result ≡ behind next (numbering.in_maybe_expr (parts.maybe_expr expr.old)) }
{
    match expr {
        None => next,
        Some(expr) => number_expr(expr, next),
    }
}

#[cycle(number)]
fn number_exprs(exprs: &mut Exprs, mut next: u32) -> u32
    requires { behind next (numbering.in_exprs (parts.exprs exprs.old)) < 2 ^ 32 }
    ensures tree { parts.exprs exprs.new ≡ given.exprs counted next (parts.exprs exprs.old) }
    ensures next { result ≡ behind next (numbering.in_exprs (parts.exprs exprs.old)) }
{
    for at in 0..exprs.items().len() {
        next = number_expr(exprs.get_mut(at), next);
    }
    next
}

/// A hole of an array literal has no function.
#[cycle(number)]
fn number_elements(elements: &mut Elements, mut next: u32) -> u32
    requires { behind next (numbering.in_elements (parts.elements elements.old)) < 2 ^ 32 }
    ensures tree { parts.elements elements.new
        ≡ given.elements counted next (parts.elements elements.old) }
    ensures next { result ≡ behind next (numbering.in_elements (parts.elements elements.old)) }
{
    for at in 0..elements.items().len() {
        next = number_maybe_expr(elements.get_mut(at), next);
    }
    next
}

#[cycle(number)]
fn number_pair(pair: &mut Pair, next: u32) -> u32
    requires { behind next (numbering.in_expr (parts.pair pair.old).value) < 2 ^ 32 }
    ensures key { (parts.pair pair.new).key ≡ (parts.pair pair.old).key }
    ensures value { (parts.pair pair.new).value
        ≡ given.expr counted next (parts.pair pair.old).value }
    ensures next { result ≡ behind next (numbering.in_expr (parts.pair pair.old).value) }
{
    number_expr(&mut pair.value, next)
}

#[cycle(number)]
fn number_pairs(pairs: &mut Pairs, mut next: u32) -> u32
    requires { behind next (numbering.in_pairs (parts.pairs pairs.old)) < 2 ^ 32 }
    ensures tree { parts.pairs pairs.new ≡ given.pairs counted next (parts.pairs pairs.old) }
    ensures next { result ≡ behind next (numbering.in_pairs (parts.pairs pairs.old)) }
{
    for at in 0..pairs.items().len() {
        next = number_pair(pairs.get_mut(at), next);
    }
    next
}

#[cycle(number)]
fn number_stmt(stmt: &mut Stmt, next: u32) -> u32
    requires { behind next (numbering.in_stmt (view.stmt stmt.old)) < 2 ^ 32 }
    ensures tree { view.stmt stmt.new ≡ given.stmt counted next (view.stmt stmt.old) }
    ensures next { result ≡ behind next (numbering.in_stmt (view.stmt stmt.old)) }
{
    match stmt {
        Stmt::Block(body) => number_stmts(body, next),
        Stmt::Var(items) => number_var_items(items, next),
        Stmt::Empty => next,
        Stmt::Do(expr) => number_expr(expr, next),
        Stmt::If(test, then, other) => {
            let next = number_expr(test, next);
            let next = number_stmt(then.get_mut(), next);
            number_maybe_stmt(other, next)
        }
        Stmt::DoWhile(body, test) => {
            let next = number_stmt(body.get_mut(), next);
            number_expr(test, next)
        }
        Stmt::While(test, body) => {
            let next = number_expr(test, next);
            number_stmt(body.get_mut(), next)
        }
        Stmt::For(first, test, step, body) => {
            let next = number_for_init(first, next);
            let next = number_maybe_expr(test, next);
            let next = number_maybe_expr(step, next);
            number_stmt(body.get_mut(), next)
        }
        Stmt::ForIn(target, object, body) => {
            let next = number_for_target(target, next);
            let next = number_expr(object, next);
            number_stmt(body.get_mut(), next)
        }
        Stmt::Continue(_) => next,
        Stmt::Break(_) => next,
        Stmt::Return(value) => number_maybe_expr(value, next),
        Stmt::Switch(value, cases) => {
            let next = number_expr(value, next);
            number_cases(cases, next)
        }
        Stmt::Label(_, body) => number_stmt(body.get_mut(), next),
        Stmt::Throw(expr) => number_expr(expr, next),
        Stmt::Try(block, handler, last) => {
            let next = number_stmt(block.get_mut(), next);
            let next = number_handler(handler, next);
            number_maybe_stmt(last, next)
        }
        Stmt::Declare(func) => number_func(func, next),
        Stmt::Used(_) => next,
    }
}

/// An `else` or a `finally`.
#[cycle(number)]
fn number_maybe_stmt(stmt: &mut Option<Boxed<Stmt>>, next: u32) -> u32
    requires { behind next (numbering.in_maybe_stmt (parts.maybe_stmt stmt.old)) < 2 ^ 32 }
    ensures tree { parts.maybe_stmt stmt.new
        ≡ given.maybe_stmt counted next (parts.maybe_stmt stmt.old) }
    ensures next { result ≡ behind next (numbering.in_maybe_stmt (parts.maybe_stmt stmt.old)) }
{
    match stmt {
        None => next,
        Some(stmt) => number_stmt(stmt.get_mut(), next),
    }
}

/// A `catch` with its name.
#[cycle(number)]
fn number_handler(handler: &mut Option<(Units, Boxed<Stmt>)>, next: u32) -> u32
    requires { behind next (numbering.in_handler (parts.handler handler.old)) < 2 ^ 32 }
    ensures tree { parts.handler handler.new
        ≡ given.handler counted next (parts.handler handler.old) }
    ensures next { result ≡ behind next (numbering.in_handler (parts.handler handler.old)) }
{
    match handler {
        None => next,
        Some((_, block)) => number_stmt(block.get_mut(), next),
    }
}

#[cycle(number)]
fn number_stmts(stmts: &mut Stmts, mut next: u32) -> u32
    requires { behind next (numbering.in_stmts (view.body stmts.old)) < 2 ^ 32 }
    ensures tree { view.body stmts.new ≡ given.stmts counted next (view.body stmts.old) }
    ensures next { result ≡ behind next (numbering.in_stmts (view.body stmts.old)) }
{
    for at in 0..stmts.items().len() {
        next = number_stmt(stmts.get_mut(at), next);
    }
    next
}

#[cycle(number)]
fn number_for_init(first: &mut ForInit, next: u32) -> u32
    requires { behind next (numbering.in_for_init (parts.for_init first.old)) < 2 ^ 32 }
    ensures tree { parts.for_init first.new
        ≡ given.for_init counted next (parts.for_init first.old) }
    ensures next { result ≡ behind next (numbering.in_for_init (parts.for_init first.old)) }
{
    match first {
        ForInit::Nothing => next,
        ForInit::Vars(items) => number_var_items(items, next),
        ForInit::First(expr) => number_expr(expr, next),
    }
}

#[cycle(number)]
fn number_for_target(target: &mut ForTarget, next: u32) -> u32
    requires { behind next (numbering.in_for_target (parts.for_target target.old)) < 2 ^ 32 }
    ensures tree { parts.for_target target.new
        ≡ given.for_target counted next (parts.for_target target.old) }
    ensures next { result ≡ behind next (numbering.in_for_target (parts.for_target target.old)) }
{
    match target {
        ForTarget::Var(item) => number_var_item(item, next),
        ForTarget::Target(expr) => number_expr(expr, next),
    }
}

#[cycle(number)]
fn number_var_item(item: &mut VarItem, next: u32) -> u32
    requires { behind next (numbering.in_maybe_expr (parts.var_item item.old).value) < 2 ^ 32 }
    ensures name { (parts.var_item item.new).name ≡ (parts.var_item item.old).name }
    ensures value { (parts.var_item item.new).value
        ≡ given.maybe_expr counted next (parts.var_item item.old).value }
    ensures next { result
        ≡ behind next (numbering.in_maybe_expr (parts.var_item item.old).value) }
{
    number_maybe_expr(&mut item.value, next)
}

#[cycle(number)]
fn number_var_items(items: &mut VarItems, mut next: u32) -> u32
    requires { behind next (numbering.in_var_items (parts.var_items items.old)) < 2 ^ 32 }
    ensures tree { parts.var_items items.new
        ≡ given.var_items counted next (parts.var_items items.old) }
    ensures next { result ≡ behind next (numbering.in_var_items (parts.var_items items.old)) }
{
    for at in 0..items.items().len() {
        next = number_var_item(items.get_mut(at), next);
    }
    next
}

#[cycle(number)]
fn number_case(case: &mut Case, next: u32) -> u32
    requires { behind next
        (numbering.in_maybe_expr (parts.case case.old).test
        ++ numbering.in_stmts (parts.case case.old).body) < 2 ^ 32 }
    ensures test { (parts.case case.new).test
        ≡ given.maybe_expr counted next (parts.case case.old).test }
    ensures body { (parts.case case.new).body
        ≡ given.stmts counted (behind next (numbering.in_maybe_expr (parts.case case.old).test))
        (parts.case case.old).body }
    ensures next { result ≡ behind next
        (numbering.in_maybe_expr (parts.case case.old).test
        ++ numbering.in_stmts (parts.case case.old).body) }
{
    let next = number_maybe_expr(&mut case.test, next);
    number_stmts(&mut case.body, next)
}

#[cycle(number)]
fn number_cases(cases: &mut Cases, mut next: u32) -> u32
    requires { behind next (numbering.in_cases (parts.cases cases.old)) < 2 ^ 32 }
    ensures tree { parts.cases cases.new ≡ given.cases counted next (parts.cases cases.old) }
    ensures next { result ≡ behind next (numbering.in_cases (parts.cases cases.old)) }
{
    for at in 0..cases.items().len() {
        next = number_case(cases.get_mut(at), next);
    }
    next
}

/// The function, and then those in it.
#[cycle(number)]
fn number_func(func: &mut Func, next: u32) -> u32
    requires { behind next (numbering.in_func (view.func func.old)) < 2 ^ 32 }
    ensures tree { view.func func.new ≡ given.func counted next (view.func func.old) }
    ensures next { result ≡ behind next (numbering.in_func (view.func func.old)) }
{
    func.number = next;
    number_stmts(&mut func.body, next + 1)
}

/// Gives the functions of all scripts the numbers 1, 2, .. over the scripts in order, by the place
/// of each one's word `function`, and answers their count. No memory is taken.
pub fn number_functions(scripts: &mut Vec<Script>) -> u32
    requires { length (functions (map view.script scripts.old.items)) ≤ last_function_number }
    ensures numbered { map view.script scripts.new.items
        ≡ renumbered 1 (map view.script scripts.old.items) }
    ensures count { result ≡ length (functions (map view.script scripts.old.items)) }
{
    let mut next = 1;
    for at in 0..scripts.len() {
        let script = &mut scripts[at];
        next = number_stmts(&mut script.body, next);
    }
    next - 1
}
