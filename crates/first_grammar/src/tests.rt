use crate::script::{FirstBody, FirstItem};
use crate::{parse_first, read_first_cluster, read_first_script};
use dl_text::Listed;
use js_tree::{Expr, Stmt};
use std::alloc::{AllocError, Global};
use std::test::Fail;

const SCRIPT: &str =
    "function f(){host.out(\"one\");}function g(){return eval($dl_get(2)).apply(this,arguments);}\
    f();g();host.out(\"three\");\n";

fn late(e: &Expr) -> Option<u32> {
    match e {
        Expr::Late(number) => Some(*number),
        _ => None,
    }
}

fn applied(e: &Expr) -> Option<u32> {
    match e {
        Expr::Dot(object, _) => late(object.get()),
        _ => None,
    }
}

/// The entry whose stub a function's statement is.
fn returned(statement: &Stmt) -> Option<u32> {
    match statement {
        Stmt::Return(Some(Expr::Call(callee, _))) => applied(callee.get()),
        _ => None,
    }
}

/// The entry whose stub a declaration is.
fn entry_of(statement: &Stmt) -> Option<u32> {
    match statement {
        Stmt::Declare(function) => returned(function.body.items().first()?),
        _ => None,
    }
}

fn is_script(alloc: Global, text: &str) -> Result<bool, AllocError> {
    Ok(parse_first(alloc, text)?.is_some())
}

#[test]
fn a_script_has_its_tree(rt: HostRuntime) -> Result<(), Fail> {
    let tree = parse_first(rt.alloc(), SCRIPT)?.ok_or("no script")?;
    assert_eq!(rt; tree.body.items().len(), 5);
    let first = tree.body.items().first().ok_or("no first item")?;
    assert_eq!(rt; entry_of(first), None);
    let second = tree.body.items().get(1).ok_or("no second item")?;
    assert_eq!(rt; entry_of(second), Some(2));
    assert!(rt; is_script(rt.alloc(), "f();\n")?);
    assert!(rt; is_script(rt.alloc(), "\n")?);
    Ok(())
}

#[test]
fn a_script_has_its_items(rt: HostRuntime) -> Result<(), Fail> {
    let script = read_first_script(rt.alloc(), SCRIPT.as_bytes())?.ok_or("no script")?;
    assert_eq!(rt; script.items.len(), 5);
    let number = match script.items.get(1) {
        Some(FirstItem::Function(function)) => match &function.body {
            FirstBody::Stub(number) => *number,
            FirstBody::Statements(_) => 0,
        },
        _ => 0,
    };
    assert_eq!(rt; number, 2);
    Ok(())
}

#[test]
fn a_cluster_file_has_its_entries(rt: HostRuntime) -> Result<(), Fail> {
    let text = b"2 (function(){host.out(\"two\");})\n";
    let entries = read_first_cluster(rt.alloc(), text)?.ok_or("no cluster file")?;
    assert_eq!(rt; entries.len(), 1);
    let entry = entries.get(0).ok_or("no entry")?;
    assert_eq!(rt; entry.number, 2);
    assert_eq!(rt; entry.body.len(), 1);
    Ok(())
}

#[test]
fn other_texts_are_refused(rt: HostRuntime) -> Result<(), Fail> {
    let texts = [
        "",
        "x=1;\n",
        "f(); \n",
        "f(); g();\n",
        "f();",
        "f();\n\n",
        "F();\n",
        "host.out(\"a\"b\");\n",
        "host.out(\"a\\b\");\n",
        "function g(){return eval($dl_get(02)).apply(this,arguments);}\n",
        "function g(){return eval($dl_get(65536)).apply(this,arguments);}\n",
    ];
    for text in texts {
        assert!(rt; !is_script(rt.alloc(), text)?, "{text}");
    }
    Ok(())
}
