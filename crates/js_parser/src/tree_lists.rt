//! Lists of trees from their items.

ghost use Rattle.std.specs.Prelude.{◌∷◌, [], ◌++◌, map};
ghost use Rattle.js_parser.specs.Grammar.{code};
ghost use Rattle.js_parser.specs.ListViews.{maybe_expr, var_item, var_parts, clause_parts};
ghost use Rattle.js_parser.specs.Reads.{Makes};
ghost use Rattle.js_tree.specs.Plain.{stmt, func};
ghost use Rattle.js_tree.specs.Plain as plain;
ghost use Rattle.js_tree.specs.Tree as tree;

use crate::names;
use crate::stop::Stop;
use dl_text::{Names, Units};
use js_tree::{Boxed, Case, Cases, Expr, Func, Role, Stmt, Stmts, VarItem, VarItems};
use std::alloc::Global;

/// A declarator (ES3 12.2).
pub fn declarator(
    alloc: Global,
    name: Units,
    value: Option<Boxed<Expr>>,
) -> Result<Boxed<VarItem>, Stop>
    ensures { Makes var_item (record { name = name; value = maybe_expr value }) result }
{
    match value {
        None => Ok(Boxed::new(alloc, VarItem { name, value: None })?),
        Some(value) => {
            let value = Some(value.into_inner());
            Ok(Boxed::new(alloc, VarItem { name, value })?)
        }
    }
}

/// The declarators with one more.
pub fn with_declarator(before: VarItems, item: Boxed<VarItem>) -> Result<VarItems, Stop>
    ensures { Makes var_parts (var_parts before ++ (var_item item ∷ [])) result }
{
    let mut items = before;
    items.push(item.into_inner())?;
    Ok(items)
}

/// The statements with one more.
pub fn with_statement(before: Stmts, item: Boxed<Stmt>) -> Result<Stmts, Stop>
    ensures { Makes (map stmt) (map stmt before ++ (stmt item ∷ [])) result }
{
    let mut items = before;
    items.push(item.into_inner())?;
    Ok(items)
}

/// The statements with one more, which declares this function (ES3 section 13).
pub fn with_declared(before: Stmts, function: Boxed<Func>) -> Result<Stmts, Stop>
    ensures { Makes (map stmt) (map stmt before ++ (tree.Declare (func function) ∷ [])) result }
{
    let mut items = before;
    items.push(Stmt::Declare(function.into_inner()))?;
    Ok(items)
}

/// The clauses with one more (ES3 12.11).
pub fn with_clause(before: Cases, test: Option<Boxed<Expr>>, body: Stmts) -> Result<Cases, Stop>
    ensures { Makes clause_parts
        (clause_parts before ++ (record { test = maybe_expr test; body = plain.body body } ∷ []))
        result }
{
    let mut items = before;
    match test {
        None => items.push(Case { test: None, body })?,
        Some(test) => {
            let test = Some(test.into_inner());
            items.push(Case { test, body })?;
        }
    }
    Ok(items)
}

/// The names with one more.
pub fn with_name(alloc: Global, before: Names, name: &Units) -> Result<Names, Stop>
    ensures { Makes (λ names. names) (before ++ (name.now ∷ [])) result }
{
    let mut names = before;
    names.push(names::share(alloc, name)?)?;
    Ok(names)
}

/// A function of a text, which says no number and no role (ES3 section 13).
pub fn function(
    alloc: Global,
    name: Option<Units>,
    formals: Names,
    body: Stmts,
) -> Result<Boxed<Func>, Stop>
    ensures { Makes func (code name formals (plain.body body)) result }
{
    let function = Func {
        number: 0,
        name,
        formals,
        body,
        role: Role::Plain,
    };
    Ok(Boxed::new(alloc, function)?)
}
