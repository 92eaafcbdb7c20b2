//! What a body binds: its functions and its variables, listed once when its code is made.

ghost use Rattle.std.specs.Prelude.{◌≡◌, ◌∷◌, ◌++◌, [], IfOk, OnOk, map};
ghost use Rattle.js_tree.specs.Parts as parts;
ghost use Rattle.js_tree.specs.Plain as view;
ghost use Rattle.js_calls.specs.Declared as spec;
ghost use Rattle.js_calls.specs.Declared.{functions_of, vars_in, vars_in_all};

use crate::funcs::FuncCode;
use crate::stmts::StmtCodes;
use dl_text::{Listed, Names, TryCopy, Units};
use js_tree::{Boxed, Case, Cases, ForInit, ForTarget, Stmt, Stmts, VarItem, VarItems};
use std::alloc::{AllocError, Global};

/// The functions that stand directly in a list of statements.
pub(crate) fn functions_in(
    alloc: Global,
    statements: &StmtCodes,
) -> Result<Vec<FuncCode>, AllocError>
    ensures { IfOk result
        (λ functions. map view.func functions.items ≡ functions_of (view.body statements.now)) }
{
    let mut functions = Vec::new(alloc);
    for stmt in statements.items() {
        if let Some(func) = stmt.as_declaration() {
            functions.push(func.share()?)?;
        }
    }
    Ok(functions)
}

/// The names of the `var` statements in a list of statements.
pub(crate) fn variables_in(alloc: Global, body: &Stmts) -> Result<Names, AllocError>
    ensures { IfOk result (λ names. names ≡ vars_in_all (view.body body.now)) }
{
    let mut names = Names::new(alloc);
    add_all(body, &mut names, alloc)?;
    Ok(names)
}

#[cycle(variables)]
fn add_all(body: &Stmts, names: &mut Names, alloc: Global) -> Result<(), AllocError>
    ensures { OnOk result (names.new ≡ names.old ++ vars_in_all (view.body body.now)) }
{
    for stmt in body.items() {
        add_in(stmt, names, alloc)?;
    }
    Ok(())
}

#[cycle(variables)]
fn add_in(stmt: &Stmt, names: &mut Names, alloc: Global) -> Result<(), AllocError>
    ensures { OnOk result (names.new ≡ names.old ++ vars_in (view.stmt stmt.now)) }
{
    match stmt {
        Stmt::Block(body) => add_all(body, names, alloc),
        Stmt::Var(items) => add_items(items, names, alloc),
        Stmt::If(_, then, other) => {
            add_in(then.get(), names, alloc)?;
            add_in_other(other, names, alloc)
        }
        Stmt::DoWhile(body, _) | Stmt::While(_, body) | Stmt::Label(_, body) => {
            add_in(body.get(), names, alloc)
        }
        Stmt::For(first, _, _, body) => {
            add_in_first(first, names, alloc)?;
            add_in(body.get(), names, alloc)
        }
        Stmt::ForIn(target, _, body) => {
            add_in_target(target, names, alloc)?;
            add_in(body.get(), names, alloc)
        }
        Stmt::Switch(_, cases) => add_in_cases(cases, names, alloc),
        Stmt::Try(block, handler, last) => {
            add_in(block.get(), names, alloc)?;
            add_in_handler(handler, names, alloc)?;
            add_in_other(last, names, alloc)
        }
        Stmt::Empty
        | Stmt::Do(_)
        | Stmt::Continue(_)
        | Stmt::Break(_)
        | Stmt::Return(_)
        | Stmt::Throw(_)
        | Stmt::Declare(_)
        | Stmt::Used(_) => Ok(()),
    }
}

/// In an `else` or a `finally`.
#[cycle(variables)]
fn add_in_other(
    stmt: &Option<Boxed<Stmt>>,
    names: &mut Names,
    alloc: Global,
) -> Result<(), AllocError>
    ensures { OnOk result
        (names.new ≡ names.old ++ spec.vars_in_other (parts.maybe_stmt stmt.now)) }
{
    match stmt {
        None => Ok(()),
        Some(stmt) => add_in(stmt.get(), names, alloc),
    }
}

/// In a `catch`.
#[cycle(variables)]
fn add_in_handler(
    handler: &Option<(Units, Boxed<Stmt>)>,
    names: &mut Names,
    alloc: Global,
) -> Result<(), AllocError>
    ensures { OnOk result
        (names.new ≡ names.old ++ spec.vars_in_handler (parts.handler handler.now)) }
{
    match handler {
        None => Ok(()),
        Some((_, block)) => add_in(block.get(), names, alloc),
    }
}

#[cycle(variables)]
fn add_in_cases(cases: &Cases, names: &mut Names, alloc: Global) -> Result<(), AllocError>
    ensures { OnOk result (names.new ≡ names.old ++ spec.vars_in_cases (parts.cases cases.now)) }
{
    for case in cases.items() {
        add_in_case(case, names, alloc)?;
    }
    Ok(())
}

#[cycle(variables)]
fn add_in_case(case: &Case, names: &mut Names, alloc: Global) -> Result<(), AllocError>
    ensures { OnOk result (names.new ≡ names.old ++ vars_in_all (parts.case case.now).body) }
{
    add_all(&case.body, names, alloc)
}

/// In the first part of a `for` header.
fn add_in_first(first: &ForInit, names: &mut Names, alloc: Global) -> Result<(), AllocError>
    ensures { OnOk result
        (names.new ≡ names.old ++ spec.vars_in_first (parts.for_init first.now)) }
{
    match first {
        ForInit::Vars(items) => add_items(items, names, alloc),
        ForInit::Nothing | ForInit::First(_) => Ok(()),
    }
}

/// In what a `for-in` assigns to.
fn add_in_target(target: &ForTarget, names: &mut Names, alloc: Global) -> Result<(), AllocError>
    ensures { OnOk result
        (names.new ≡ names.old ++ spec.vars_in_target (parts.for_target target.now)) }
{
    match target {
        ForTarget::Var(item) => add_item(item, names, alloc),
        ForTarget::Target(_) => Ok(()),
    }
}

fn add_items(items: &VarItems, names: &mut Names, alloc: Global) -> Result<(), AllocError>
    ensures { OnOk result
        (names.new ≡ names.old ++ spec.vars_in_items (parts.var_items items.now)) }
{
    for item in items.items() {
        add_item(item, names, alloc)?;
    }
    Ok(())
}

fn add_item(item: &VarItem, names: &mut Names, alloc: Global) -> Result<(), AllocError>
    ensures { OnOk result (names.new ≡ names.old ++ (parts.var_item item.now).name ∷ []) }
{
    names.push(item.name.copy(alloc)?)
}
