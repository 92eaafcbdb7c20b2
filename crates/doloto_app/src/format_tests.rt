use crate::status::Status;
use crate::top::doloto_top;
use dl_ports::{MemorySink, MemoryStore};
use std::alloc::Global;
use std::test::Fail;

fn words_of(alloc: Global, text: &str) -> Result<Vec<String>, Fail> {
    let mut words = Vec::new(alloc);
    for word in text.split(' ') {
        words.push(String::from_str(alloc, word)?)?;
    }
    Ok(words)
}

// What `format a.js` answers over a store with this script, which fails at these calls.
fn formatted(
    alloc: Global,
    script: &[u8],
    fail: Vec<u64>,
    out: &mut MemorySink,
) -> Result<Status, Fail> {
    let mut store = MemoryStore::new(alloc, fail)?;
    store.put_file("a.js", script)?;
    let words = words_of(alloc, "format a.js")?;
    Ok(doloto_top(alloc, words.as_slice(), &mut store, out))
}

// Whether this script is written so, and what is written is written so again.
fn gives(alloc: Global, script: &str, text: &str) -> Result<bool, Fail> {
    let mut out = MemorySink::new(alloc, 4096, Vec::new(alloc))?;
    let status = formatted(alloc, script.as_bytes(), Vec::new(alloc), &mut out)?;
    let mut again = MemorySink::new(alloc, 4096, Vec::new(alloc))?;
    let second = formatted(alloc, out.written(), Vec::new(alloc), &mut again)?;
    Ok(
        matches!(status, Status::Ended)
            && matches!(second, Status::Ended)
            && out.written() == text.as_bytes()
            && again.written() == text.as_bytes(),
    )
}

#[test]
fn scripts_are_written(rt: HostRuntime) -> Result<(), Fail> {
    let alloc = rt.alloc();
    let texts: [(&str, &str); 9] = [
        ("a\n++\nb", "a;++b;\n"),
        ("function f(){return\nx}", "function f(){return;x;}\n"),
        ("a\n(b)", "a(b);\n"),
        ("x=- -a+ +0x1F", "x=- -a+ +31;\n"),
        ("new (a().b)(1)", "new(a().b)(1);\n"),
        (
            "var a=[1,,2,],o={\"if\":1,\"b\":2}",
            "var a=[1,,2],o={\"if\":1,b:2};\n",
        ),
        ("for(var i=(1 in x);;);", "for(var i=(1 in x);;);\n"),
        ("", "\n"),
        (
            "\u{feff}// a comment\nif (a) { b } else c // and one more",
            "if(a){b;}else c;\n",
        ),
    ];
    for (script, text) in &texts {
        assert!(rt; gives(alloc, script, text)?);
    }
    Ok(())
}

// Whether this script is refused with this text, and nothing is written.
fn is_refused(alloc: Global, script: &[u8], text: &str) -> Result<bool, Fail> {
    let mut out = MemorySink::new(alloc, 4096, Vec::new(alloc))?;
    let status = formatted(alloc, script, Vec::new(alloc), &mut out)?;
    let told = format!(in alloc; "{status}")?;
    Ok(told.as_str() == text && status.number() == 2 && out.written().is_empty())
}

#[test]
fn scripts_are_refused(rt: HostRuntime) -> Result<(), Fail> {
    let alloc = rt.alloc();
    let texts: [(&[u8], &str); 6] = [
        (b"var a;\nvar b;\na=1;with(b){}", "script 1: With at 3:5"),
        (b"a b", "script 1: Syntax at 1:3"),
        (b"x=$dl_x", "script 1: DlName at 1:3"),
        (b"x=\"ab", "script 1: OpenString at 1:3"),
        (b"\x61\xff", "script 1: NotUtf8 at byte 1"),
        (b"x=\"$dl_\\q\"+\"", "script 1: OpenString at 1:12"),
    ];
    for (script, text) in &texts {
        assert!(rt; is_refused(alloc, script, text)?);
    }
    Ok(())
}

// So many times this byte, and then these.
fn repeated(alloc: Global, byte: u8, count: usize, rest: &[u8]) -> Result<Vec<u8>, Fail> {
    let mut bytes = vec![in alloc; byte; count]?;
    bytes.extend_from_slice(rest)?;
    Ok(bytes)
}

#[test]
fn a_script_may_be_so_deep_and_so_long(rt: HostRuntime) -> Result<(), Fail> {
    let alloc = rt.alloc();
    let mut out = MemorySink::new(alloc, 4096, Vec::new(alloc))?;
    let nots = repeated(alloc, b'!', 398, b"1")?;
    let status = formatted(alloc, nots.as_slice(), Vec::new(alloc), &mut out)?;
    assert!(rt; matches!(status, Status::Ended));
    let deep = repeated(alloc, b'!', 399, b"1")?;
    assert!(rt; is_refused(alloc, deep.as_slice(), "script 1: TooDeep at 1:1")?);
    let mut empty = MemorySink::new(alloc, 4096, Vec::new(alloc))?;
    let blanks = repeated(alloc, b' ', 8_388_608, b"")?;
    let status = formatted(alloc, blanks.as_slice(), Vec::new(alloc), &mut empty)?;
    assert!(rt; matches!(status, Status::Ended));
    assert_eq!(rt; empty.written(), b"\n".as_slice());
    let long = repeated(alloc, b' ', 8_388_609, b"")?;
    assert!(rt; is_refused(alloc, long.as_slice(), "script 1: TooLong")?);
    let broken = repeated(alloc, b' ', 8_388_608, b"\xff")?;
    assert!(rt;
        is_refused(
            alloc,
            broken.as_slice(),
            "script 1: NotUtf8 at byte 8388608"
        )?
    );
    Ok(())
}

#[test]
fn the_script_is_missing_or_not_read(rt: HostRuntime) -> Result<(), Fail> {
    let alloc = rt.alloc();
    let mut store = MemoryStore::new(alloc, Vec::new(alloc))?;
    let mut out = MemorySink::new(alloc, 4096, Vec::new(alloc))?;
    let words = words_of(alloc, "format a.js")?;
    let status = doloto_top(alloc, words.as_slice(), &mut store, &mut out);
    let told = format!(in alloc; "{status}")?;
    assert_eq!(rt; told.as_str(), "missing: a.js");
    assert_eq!(rt; store.asked().len(), 1);
    let status = formatted(alloc, b"a", vec![in alloc; 1u64]?, &mut out)?;
    assert!(rt; matches!(status, Status::ReadFault));
    assert!(rt; out.written().is_empty());
    Ok(())
}

#[test]
fn the_second_put_of_a_script_fails(rt: HostRuntime) -> Result<(), Fail> {
    let alloc = rt.alloc();
    let mut out = MemorySink::new(alloc, 2, vec![in alloc; 2u64]?)?;
    let status = formatted(alloc, b"a=1", Vec::new(alloc), &mut out)?;
    assert!(rt; matches!(status, Status::WriteFault));
    assert_eq!(rt; out.written(), b"a=".as_slice());
    Ok(())
}
