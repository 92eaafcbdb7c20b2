ghost use Rattle.std.specs.Prelude.{◌≡◌, [], ◌∷◌, IfOk};
ghost use Rattle.js_tree.specs.Plain as plain;
ghost use Rattle.first_grammar.specs.First as first;

use crate::script::{FirstBody, FirstFunction, FirstItem, FirstScript, FirstStatement};
use dl_text::{Names, Units};
use js_tree::{Boxed, Expr, Exprs, Func, Role, Script, Stmt, Stmts};
use std::alloc::{AllocError, Global};

fn units(alloc: Global, bytes: &[u8]) -> Result<Units, AllocError>
    ensures { IfOk result (λ text. text ≡ bytes.now) }
{
    let mut text = Units::new(alloc);
    for byte in bytes {
        text.push(u16::from(*byte))?;
    }
    Ok(text)
}

fn letter_name(alloc: Global, letter: u8) -> Result<Units, AllocError>
    ensures { IfOk result (λ name. name ≡ letter ∷ []) }
{
    let mut name = Units::new(alloc);
    name.push(u16::from(letter))?;
    Ok(name)
}

/// `host.out`
fn host_out(alloc: Global) -> Result<Expr, AllocError>
    ensures { IfOk result (λ e. plain.expr e ≡ first.host_out) }
{
    let host = Boxed::new(alloc, Expr::Name(units(alloc, b"host")?))?;
    Ok(Expr::Dot(host, units(alloc, b"out")?))
}

fn statement(alloc: Global, statement: &FirstStatement) -> Result<Stmt, AllocError>
    ensures { IfOk result (λ tree. plain.stmt tree ≡ first.statement_tree statement.now) }
{
    match statement {
        FirstStatement::Call(letter) => {
            let callee = Boxed::new(alloc, Expr::Name(letter_name(alloc, *letter)?))?;
            Ok(Stmt::Do(Expr::Call(callee, Exprs::new(alloc))))
        }
        FirstStatement::Out(characters) => {
            let callee = Boxed::new(alloc, host_out(alloc)?)?;
            let mut arguments = Exprs::new(alloc);
            arguments.push(Expr::Str(units(alloc, characters.items())?))?;
            Ok(Stmt::Do(Expr::Call(callee, arguments)))
        }
    }
}

fn statements(alloc: Global, statements: &[FirstStatement]) -> Result<Stmts, AllocError>
    ensures { IfOk result (λ tree. plain.body tree ≡ first.statements_tree statements.now) }
{
    let mut tree = Stmts::new(alloc);
    for one in statements {
        tree.push(statement(alloc, one)?)?;
    }
    Ok(tree)
}

/// `return eval($dl_get(number)).apply(this,arguments);`
fn stub(alloc: Global, number: u32) -> Result<Stmts, AllocError>
    ensures { IfOk result (λ tree. plain.body tree ≡ first.stub_tree number) }
{
    let late = Boxed::new(alloc, Expr::Late(number))?;
    let callee = Boxed::new(alloc, Expr::Dot(late, units(alloc, b"apply")?))?;
    let mut arguments = Exprs::new(alloc);
    arguments.push(Expr::This)?;
    arguments.push(Expr::Name(units(alloc, b"arguments")?))?;
    let mut tree = Stmts::new(alloc);
    tree.push(Stmt::Return(Some(Expr::Call(callee, arguments))))?;
    Ok(tree)
}

fn body(alloc: Global, body: &FirstBody) -> Result<Stmts, AllocError>
    ensures { IfOk result (λ tree. plain.body tree ≡ first.body_tree body.now) }
{
    match body {
        FirstBody::Statements(inner) => statements(alloc, inner.as_slice()),
        FirstBody::Stub(number) => stub(alloc, *number),
    }
}

fn function(alloc: Global, function: &FirstFunction) -> Result<Func, AllocError>
    ensures { IfOk result (λ tree. plain.func tree ≡ first.function_tree function.now) }
{
    Ok(Func {
        number: 0,
        name: Some(letter_name(alloc, function.name)?),
        formals: Names::new(alloc),
        body: body(alloc, &function.body)?,
        role: Role::Plain,
    })
}

fn item(alloc: Global, item: &FirstItem) -> Result<Stmt, AllocError>
    ensures { IfOk result (λ tree. plain.stmt tree ≡ first.item_tree item.now) }
{
    match item {
        FirstItem::Statement(inner) => statement(alloc, inner),
        FirstItem::Function(inner) => Ok(Stmt::Declare(function(alloc, inner)?)),
    }
}

fn items(alloc: Global, items: &[FirstItem]) -> Result<Stmts, AllocError>
    ensures { IfOk result (λ tree. plain.body tree ≡ first.items_tree items.now) }
{
    let mut tree = Stmts::new(alloc);
    for one in items {
        tree.push(item(alloc, one)?)?;
    }
    Ok(tree)
}

/// The tree of a script of the first grammar.
pub fn script(alloc: Global, script: &FirstScript) -> Result<Script, AllocError>
    ensures { IfOk result (λ tree. plain.script tree ≡ first.items_tree script.now.items) }
{
    Ok(Script {
        body: items(alloc, script.items.as_slice())?,
    })
}
