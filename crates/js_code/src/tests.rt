use crate::{BodyCode, ExprCode, FuncCode, StmtCode};
use dl_text::{Listed, Names};
use js_tree::{Expr, Func, Role, Script, Stmt, Stmts};
use std::test::Fail;

#[test]
fn a_number_takes_one_step(rt: HostRuntime) -> Result<(), Fail> {
    let code = ExprCode::of(rt.alloc(), &Expr::Num(7))?;
    assert_eq!(rt; code.cost(), 1);
    Ok(())
}

#[test]
fn an_empty_statement_is_no_loop(rt: HostRuntime) -> Result<(), Fail> {
    let code = StmtCode::of(rt.alloc(), &Stmt::Empty)?.share()?;
    assert!(rt; code.as_loop().is_none());
    Ok(())
}

#[test]
fn a_function_keeps_its_number(rt: HostRuntime) -> Result<(), Fail> {
    let alloc = rt.alloc();
    let func = Func {
        number: 3,
        name: None,
        formals: Names::new(alloc),
        body: Stmts::new(alloc),
        role: Role::Plain,
    };
    let code = FuncCode::of(alloc, &func)?;
    assert_eq!(rt; code.number(), 3);
    assert!(rt; code.name().is_none());
    Ok(())
}

#[test]
fn a_script_has_its_statements(rt: HostRuntime) -> Result<(), Fail> {
    let alloc = rt.alloc();
    let mut body = Stmts::new(alloc);
    body.push(Stmt::Empty)?;
    let code = BodyCode::of_script(alloc, &Script { body })?;
    assert_eq!(rt; code.statements().items().len(), 1);
    assert!(rt; code.functions().is_empty());
    assert!(rt; code.variables().items().is_empty());
    Ok(())
}
