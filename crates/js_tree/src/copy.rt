//! Copies of whole trees.
ghost use Rattle.std.specs.Prelude.{◌≡◌, IfOk};

use crate::lists::Boxed;
use crate::tree::{
    Case, Cases, Elements, Expr, Exprs, ForInit, ForTarget, Func, Pair, Pairs, Script, Stmt, Stmts,
    VarItem, VarItems,
};
use dl_text::{Listed, TryCopy, Units};
use std::alloc::{AllocError, Global};

impl TryCopy for Script {
    fn copy(&self, alloc: Global) -> Result<Script, AllocError> {
        Ok(Script {
            body: copy_stmts(&self.body, alloc)?,
        })
    }
}

impl TryCopy for Func {
    fn copy(&self, alloc: Global) -> Result<Func, AllocError> {
        copy_func(self, alloc)
    }
}

/// The name of a function, or the label of a `break` or a `continue`.
fn copy_name(name: &Option<Units>, alloc: Global) -> Result<Option<Units>, AllocError>
    ensures { IfOk result (λ copy. copy ≡ name.now) }
{
    match name {
        None => Ok(None),
        Some(name) => Ok(Some(name.copy(alloc)?)),
    }
}

#[cycle(copy)]
fn copy_func(func: &Func, alloc: Global) -> Result<Func, AllocError>
    ensures { IfOk result (λ copy. copy ≡ func.now) }
{
    Ok(Func {
        number: func.number,
        name: copy_name(&func.name, alloc)?,
        formals: func.formals.copy(alloc)?,
        body: copy_stmts(&func.body, alloc)?,
        role: func.role,
    })
}

#[cycle(copy)]
fn copy_boxed_func(func: &Boxed<Func>, alloc: Global) -> Result<Boxed<Func>, AllocError>
    ensures { IfOk result (λ copy. copy ≡ func.now) }
{
    Boxed::new(alloc, copy_func(func.get(), alloc)?)
}

#[cycle(copy)]
fn copy_expr(expr: &Expr, alloc: Global) -> Result<Expr, AllocError>
    ensures { IfOk result (λ copy. copy ≡ expr.now) }
{
    match expr {
        Expr::Num(number) => Ok(Expr::Num(*number)),
        Expr::Str(text) => Ok(Expr::Str(text.copy(alloc)?)),
        Expr::Bool(value) => Ok(Expr::Bool(*value)),
        Expr::Null => Ok(Expr::Null),
        Expr::This => Ok(Expr::This),
        Expr::Name(name) => Ok(Expr::Name(name.copy(alloc)?)),
        Expr::Array(elements) => Ok(Expr::Array(copy_elements(elements, alloc)?)),
        Expr::Object(pairs) => Ok(Expr::Object(copy_pairs(pairs, alloc)?)),
        Expr::Func(func) => Ok(Expr::Func(copy_boxed_func(func, alloc)?)),
        Expr::Dot(object, name) => Ok(Expr::Dot(copy_boxed(object, alloc)?, name.copy(alloc)?)),
        Expr::Index(object, key) => {
            Ok(Expr::Index(copy_boxed(object, alloc)?, copy_boxed(key, alloc)?))
        }
        Expr::Call(callee, arguments) => {
            Ok(Expr::Call(copy_boxed(callee, alloc)?, copy_exprs(arguments, alloc)?))
        }
        Expr::New(callee, arguments) => {
            Ok(Expr::New(copy_boxed(callee, alloc)?, copy_exprs(arguments, alloc)?))
        }
        Expr::Postfix(target, op) => Ok(Expr::Postfix(copy_boxed(target, alloc)?, *op)),
        Expr::Prefix(op, operand) => Ok(Expr::Prefix(*op, copy_boxed(operand, alloc)?)),
        Expr::Binary(op, left, right) => {
            Ok(Expr::Binary(*op, copy_boxed(left, alloc)?, copy_boxed(right, alloc)?))
        }
        Expr::And(left, right) => Ok(Expr::And(
            copy_boxed(left, alloc)?,
            copy_boxed(right, alloc)?,
        )),
        Expr::Or(left, right) => Ok(Expr::Or(copy_boxed(left, alloc)?, copy_boxed(right, alloc)?)),
        Expr::Comma(left, right) => {
            Ok(Expr::Comma(copy_boxed(left, alloc)?, copy_boxed(right, alloc)?))
        }
        Expr::Cond(test, then, other) => Ok(Expr::Cond(
            copy_boxed(test, alloc)?,
            copy_boxed(then, alloc)?,
            copy_boxed(other, alloc)?,
        )),
        Expr::Assign(op, target, value) => {
            Ok(Expr::Assign(*op, copy_boxed(target, alloc)?, copy_boxed(value, alloc)?))
        }
        Expr::Late(entry) => Ok(Expr::Late(*entry)),
    }
}

#[cycle(copy)]
fn copy_boxed(expr: &Boxed<Expr>, alloc: Global) -> Result<Boxed<Expr>, AllocError>
    ensures { IfOk result (λ copy. copy ≡ expr.now) }
{
    Boxed::new(alloc, copy_expr(expr.get(), alloc)?)
}

#[cycle(copy)]
fn copy_maybe(expr: &Option<Expr>, alloc: Global) -> Result<Option<Expr>, AllocError>
    ensures { IfOk result (λ copy. copy ≡ expr.now) }
{
    match expr {
        None => Ok(None),
        Some(expr) => Ok(Some(copy_expr(expr, alloc)?)),
    }
}

#[cycle(copy)]
fn copy_exprs(exprs: &Exprs, alloc: Global) -> Result<Exprs, AllocError>
    ensures { IfOk result (λ copy. copy ≡ exprs.now) }
{
    let mut copy = Exprs::new(alloc);
    for expr in exprs.items() {
        copy.push(copy_expr(expr, alloc)?)?;
    }
    Ok(copy)
}

#[cycle(copy)]
fn copy_elements(elements: &Elements, alloc: Global) -> Result<Elements, AllocError>
    ensures { IfOk result (λ copy. copy ≡ elements.now) }
{
    let mut copy = Elements::new(alloc);
    for element in elements.items() {
        // The match stands here, since a call on `element` has no measure that the check finds.
        let element = match element {
            None => None,
            Some(expr) => Some(copy_expr(expr, alloc)?),
        };
        copy.push(element)?;
    }
    Ok(copy)
}

#[cycle(copy)]
fn copy_pair(pair: &Pair, alloc: Global) -> Result<Pair, AllocError>
    ensures { IfOk result (λ copy. copy ≡ pair.now) }
{
    Ok(Pair {
        key: pair.key.copy(alloc)?,
        value: copy_expr(&pair.value, alloc)?,
    })
}

#[cycle(copy)]
fn copy_pairs(pairs: &Pairs, alloc: Global) -> Result<Pairs, AllocError>
    ensures { IfOk result (λ copy. copy ≡ pairs.now) }
{
    let mut copy = Pairs::new(alloc);
    for pair in pairs.items() {
        copy.push(copy_pair(pair, alloc)?)?;
    }
    Ok(copy)
}

#[cycle(copy)]
fn copy_stmt(stmt: &Stmt, alloc: Global) -> Result<Stmt, AllocError>
    ensures { IfOk result (λ copy. copy ≡ stmt.now) }
{
    match stmt {
        Stmt::Block(body) => Ok(Stmt::Block(copy_stmts(body, alloc)?)),
        Stmt::Var(items) => Ok(Stmt::Var(copy_var_items(items, alloc)?)),
        Stmt::Empty => Ok(Stmt::Empty),
        Stmt::Do(expr) => Ok(Stmt::Do(copy_expr(expr, alloc)?)),
        Stmt::If(test, then, other) => Ok(Stmt::If(
            copy_expr(test, alloc)?,
            copy_boxed_stmt(then, alloc)?,
            copy_maybe_stmt(other, alloc)?,
        )),
        Stmt::DoWhile(body, test) => {
            Ok(Stmt::DoWhile(copy_boxed_stmt(body, alloc)?, copy_expr(test, alloc)?))
        }
        Stmt::While(test, body) => {
            Ok(Stmt::While(copy_expr(test, alloc)?, copy_boxed_stmt(body, alloc)?))
        }
        Stmt::For(first, test, next, body) => Ok(Stmt::For(
            copy_for_init(first, alloc)?,
            copy_maybe(test, alloc)?,
            copy_maybe(next, alloc)?,
            copy_boxed_stmt(body, alloc)?,
        )),
        Stmt::ForIn(target, object, body) => Ok(Stmt::ForIn(
            copy_for_target(target, alloc)?,
            copy_expr(object, alloc)?,
            copy_boxed_stmt(body, alloc)?,
        )),
        Stmt::Continue(label) => Ok(Stmt::Continue(copy_name(label, alloc)?)),
        Stmt::Break(label) => Ok(Stmt::Break(copy_name(label, alloc)?)),
        Stmt::Return(value) => Ok(Stmt::Return(copy_maybe(value, alloc)?)),
        Stmt::Switch(value, cases) => {
            Ok(Stmt::Switch(copy_expr(value, alloc)?, copy_cases(cases, alloc)?))
        }
        Stmt::Label(name, body) => Ok(Stmt::Label(
            name.copy(alloc)?,
            copy_boxed_stmt(body, alloc)?,
        )),
        Stmt::Throw(expr) => Ok(Stmt::Throw(copy_expr(expr, alloc)?)),
        Stmt::Try(block, handler, last) => Ok(Stmt::Try(
            copy_boxed_stmt(block, alloc)?,
            copy_handler(handler, alloc)?,
            copy_maybe_stmt(last, alloc)?,
        )),
        Stmt::Declare(func) => Ok(Stmt::Declare(copy_func(func, alloc)?)),
        Stmt::Used(entry) => Ok(Stmt::Used(*entry)),
    }
}

#[cycle(copy)]
fn copy_boxed_stmt(stmt: &Boxed<Stmt>, alloc: Global) -> Result<Boxed<Stmt>, AllocError>
    ensures { IfOk result (λ copy. copy ≡ stmt.now) }
{
    Boxed::new(alloc, copy_stmt(stmt.get(), alloc)?)
}

/// An `else` or a `finally`.
#[cycle(copy)]
fn copy_maybe_stmt(
    stmt: &Option<Boxed<Stmt>>,
    alloc: Global,
) -> Result<Option<Boxed<Stmt>>, AllocError>
    ensures { IfOk result (λ copy. copy ≡ stmt.now) }
{
    match stmt {
        None => Ok(None),
        Some(stmt) => Ok(Some(Boxed::new(alloc, copy_stmt(stmt.get(), alloc)?)?)),
    }
}

/// A `catch` with its name.
#[cycle(copy)]
fn copy_handler(
    handler: &Option<(Units, Boxed<Stmt>)>,
    alloc: Global,
) -> Result<Option<(Units, Boxed<Stmt>)>, AllocError>
    ensures { IfOk result (λ copy. copy ≡ handler.now) }
{
    match handler {
        None => Ok(None),
        Some((name, block)) => {
            let name = name.copy(alloc)?;
            let block = Boxed::new(alloc, copy_stmt(block.get(), alloc)?)?;
            Ok(Some((name, block)))
        }
    }
}

#[cycle(copy)]
fn copy_stmts(stmts: &Stmts, alloc: Global) -> Result<Stmts, AllocError>
    ensures { IfOk result (λ copy. copy ≡ stmts.now) }
{
    let mut copy = Stmts::new(alloc);
    for stmt in stmts.items() {
        copy.push(copy_stmt(stmt, alloc)?)?;
    }
    Ok(copy)
}

#[cycle(copy)]
fn copy_for_init(first: &ForInit, alloc: Global) -> Result<ForInit, AllocError>
    ensures { IfOk result (λ copy. copy ≡ first.now) }
{
    match first {
        ForInit::Nothing => Ok(ForInit::Nothing),
        ForInit::Vars(items) => Ok(ForInit::Vars(copy_var_items(items, alloc)?)),
        ForInit::First(expr) => Ok(ForInit::First(copy_expr(expr, alloc)?)),
    }
}

#[cycle(copy)]
fn copy_for_target(target: &ForTarget, alloc: Global) -> Result<ForTarget, AllocError>
    ensures { IfOk result (λ copy. copy ≡ target.now) }
{
    match target {
        ForTarget::Var(item) => Ok(ForTarget::Var(copy_var_item(item, alloc)?)),
        ForTarget::Target(expr) => Ok(ForTarget::Target(copy_expr(expr, alloc)?)),
    }
}

#[cycle(copy)]
fn copy_var_item(item: &VarItem, alloc: Global) -> Result<VarItem, AllocError>
    ensures { IfOk result (λ copy. copy ≡ item.now) }
{
    Ok(VarItem {
        name: item.name.copy(alloc)?,
        value: copy_maybe(&item.value, alloc)?,
    })
}

#[cycle(copy)]
fn copy_var_items(items: &VarItems, alloc: Global) -> Result<VarItems, AllocError>
    ensures { IfOk result (λ copy. copy ≡ items.now) }
{
    let mut copy = VarItems::new(alloc);
    for item in items.items() {
        copy.push(copy_var_item(item, alloc)?)?;
    }
    Ok(copy)
}

#[cycle(copy)]
fn copy_case(case: &Case, alloc: Global) -> Result<Case, AllocError>
    ensures { IfOk result (λ copy. copy ≡ case.now) }
{
    Ok(Case {
        test: copy_maybe(&case.test, alloc)?,
        body: copy_stmts(&case.body, alloc)?,
    })
}

#[cycle(copy)]
fn copy_cases(cases: &Cases, alloc: Global) -> Result<Cases, AllocError>
    ensures { IfOk result (λ copy. copy ≡ cases.now) }
{
    let mut copy = Cases::new(alloc);
    for case in cases.items() {
        copy.push(copy_case(case, alloc)?)?;
    }
    Ok(copy)
}
