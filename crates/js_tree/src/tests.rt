use crate::{
    Boxed, Case, Cases, Elements, Expr, Exprs, ForInit, Func, Pair, Pairs, Role, Script, Scripts,
    Stmt, Stmts, VarItem, VarItems, depth, same,
};
use dl_text::{Listed, Names, TryCopy, units_of};
use std::alloc::{AllocError, Global};
use std::test::Fail;

/// `{ }`
fn empty_block(alloc: Global) -> Result<Boxed<Stmt>, AllocError> {
    Boxed::new(alloc, Stmt::Block(Stmts::new(alloc)))
}

/// `function f(x) { g(7); }`
fn declaration(alloc: Global) -> Result<Stmt, AllocError> {
    let mut arguments = Exprs::new(alloc);
    arguments.push(Expr::Num(7))?;
    let callee = Boxed::new(alloc, Expr::Name(units_of(alloc, "g")?))?;
    let mut body = Stmts::new(alloc);
    body.push(Stmt::Do(Expr::Call(callee, arguments)))?;
    let mut formals = Names::new(alloc);
    formals.push(units_of(alloc, "x")?)?;
    Ok(Stmt::Declare(Func {
        number: 3,
        name: Some(units_of(alloc, "f")?),
        formals,
        body,
        role: Role::Stub,
    }))
}

/// `for (var i = 1; ; ) { }`
fn counting(alloc: Global) -> Result<Stmt, AllocError> {
    let mut items = VarItems::new(alloc);
    items.push(VarItem {
        name: units_of(alloc, "i")?,
        value: Some(Expr::Num(1)),
    })?;
    Ok(Stmt::For(ForInit::Vars(items), None, None, empty_block(alloc)?))
}

/// `({ a: [, 2] });`
fn literals(alloc: Global) -> Result<Stmt, AllocError> {
    let mut elements = Elements::new(alloc);
    elements.push(None)?;
    elements.push(Some(Expr::Num(2)))?;
    let mut pairs = Pairs::new(alloc);
    pairs.push(Pair {
        key: units_of(alloc, "a")?,
        value: Expr::Array(elements),
    })?;
    Ok(Stmt::Do(Expr::Object(pairs)))
}

/// `try { } catch (e) { } finally { switch (5) { default: } }`
fn attempt(alloc: Global) -> Result<Stmt, AllocError> {
    let mut cases = Cases::new(alloc);
    cases.push(Case {
        test: None,
        body: Stmts::new(alloc),
    })?;
    let mut last = Stmts::new(alloc);
    last.push(Stmt::Switch(Expr::Num(5), cases))?;
    let last = Boxed::new(alloc, Stmt::Block(last))?;
    let caught = (units_of(alloc, "e")?, empty_block(alloc)?);
    Ok(Stmt::Try(empty_block(alloc)?, Some(caught), Some(last)))
}

fn script(alloc: Global) -> Result<Script, AllocError> {
    let mut body = Stmts::new(alloc);
    body.push(declaration(alloc)?)?;
    body.push(counting(alloc)?)?;
    body.push(literals(alloc)?)?;
    body.push(attempt(alloc)?)?;
    Ok(Script { body })
}

fn number(expr: &Expr) -> Option<u64> {
    match expr {
        Expr::Num(number) => Some(*number),
        _ => None,
    }
}

fn declared(stmt: &Stmt) -> Option<&Func> {
    match stmt {
        Stmt::Declare(func) => Some(func),
        _ => None,
    }
}

/// The first argument of a call.
fn argument(stmt: &Stmt) -> Option<u64> {
    match stmt {
        Stmt::Do(Expr::Call(_, arguments)) => number(arguments.items().first()?),
        _ => None,
    }
}

/// What the first variable of a `for` begins with.
fn beginning(stmt: &Stmt) -> Option<u64> {
    match stmt {
        Stmt::For(ForInit::Vars(items), None, None, _) => {
            number(items.items().first()?.value.as_ref()?)
        }
        _ => None,
    }
}

/// The array of the first pair of an object literal.
fn array(stmt: &Stmt) -> Option<&Elements> {
    match stmt {
        Stmt::Do(Expr::Object(pairs)) => match &pairs.items().first()?.value {
            Expr::Array(elements) => Some(elements),
            _ => None,
        },
        _ => None,
    }
}

/// The block of a `finally`.
fn last(stmt: &Stmt) -> Option<&Stmts> {
    match stmt {
        Stmt::Try(_, Some(_), Some(last)) => match last.get() {
            Stmt::Block(body) => Some(body),
            _ => None,
        },
        _ => None,
    }
}

fn clauses(stmt: &Stmt) -> Option<&Cases> {
    match stmt {
        Stmt::Switch(_, cases) => Some(cases),
        _ => None,
    }
}

#[test]
fn a_copy_of_a_function_has_its_parts(rt: HostRuntime) -> Result<(), Fail> {
    let alloc = rt.alloc();
    let stmt = declaration(alloc)?;
    let copy = declared(&stmt).ok_or("no function")?.copy(alloc)?;
    assert_eq!(rt; copy.number, 3);
    assert_eq!(rt;
        copy.name.as_ref().ok_or("no name")?.items(),
        [0x66].as_slice()
    );
    assert_eq!(rt; copy.formals.items().len(), 1);
    assert_eq!(rt; copy.role, Role::Stub);
    assert_eq!(rt;
        argument(copy.body.items().first().ok_or("no statement")?),
        Some(7)
    );
    Ok(())
}

#[test]
fn a_copy_of_a_script_has_its_parts(rt: HostRuntime) -> Result<(), Fail> {
    let alloc = rt.alloc();
    let mut scripts = Scripts::new(alloc);
    scripts.push(script(alloc)?)?;
    let copy = scripts.items().first().ok_or("no script")?.copy(alloc)?;
    let body = copy.body.items();
    assert_eq!(rt; body.len(), 4);
    assert_eq!(rt; declared(&body[0]).ok_or("no function")?.number, 3);
    assert_eq!(rt; beginning(&body[1]), Some(1));
    let elements = array(&body[2]).ok_or("no array")?.items();
    assert_eq!(rt; elements.len(), 2);
    assert!(rt; elements[0].is_none());
    assert_eq!(rt; number(elements[1].as_ref().ok_or("no element")?), Some(2));
    let last = last(&body[3]).ok_or("no `finally`")?.items();
    let cases = clauses(last.first().ok_or("no statement")?)
        .ok_or("no `switch`")?
        .items();
    assert_eq!(rt; cases.len(), 1);
    assert!(rt; cases[0].test.is_none());
    Ok(())
}

#[test]
fn a_script_has_a_depth_and_is_the_same_as_its_copy(rt: HostRuntime) -> Result<(), Fail> {
    let alloc = rt.alloc();
    let whole = script(alloc)?;
    // the argument of the call in the function, the number in the array, and the value of `switch`
    assert_eq!(rt; depth(&whole), 4);
    let mut copy = whole.copy(alloc)?;
    assert!(rt; same(&whole, &copy));
    copy.body.push(Stmt::Empty)?;
    assert!(rt; !same(&whole, &copy));
    Ok(())
}
