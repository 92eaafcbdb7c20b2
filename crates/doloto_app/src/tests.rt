use crate::status::{Refusal, Status};
use crate::top::doloto_top;
use crate::words::WordFault;
use dl_ports::{MemorySink, MemoryStore};
use dl_text::Text;
use play::FirstFile;
use std::alloc::Global;
use std::test::Fail;

const PAGE: &str = "{\"host\":[\"out\"]}";

const SITE: &str = "doloto site 1\nform 1\nscript 1 117 1\ncluster 1 33\nentry 2 -\nend\n";

const SCRIPT: &str =
    "function f(){host.out(\"one\");}function g(){return eval($dl_get(2)).apply(this,arguments);}f();g();host.out(\"three\");\n";

const CLUSTER: &str = "2 (function(){host.out(\"two\");})\n";

// A store with these files, which fails at these calls.
fn store_of(
    alloc: Global,
    page: &str,
    site: &str,
    script: &str,
    cluster: &str,
    fail: Vec<u64>,
) -> Result<MemoryStore, Fail> {
    let mut store = MemoryStore::new(alloc, fail)?;
    store.put_file("page.json", page.as_bytes())?;
    store.put_file("site/site.txt", site.as_bytes())?;
    store.put_file("site/s1.js", script.as_bytes())?;
    store.put_file("site/c1.txt", cluster.as_bytes())?;
    Ok(store)
}

fn words_of(alloc: Global, text: &str) -> Result<Vec<String>, Fail> {
    let mut words = Vec::new(alloc);
    for word in text.split(' ') {
        words.push(String::from_str(alloc, word)?)?;
    }
    Ok(words)
}

// What `play site page.json` answers over a store, and what it writes.
fn played(alloc: Global, store: &mut MemoryStore) -> Result<(Status, MemorySink), Fail> {
    let mut out = MemorySink::new(alloc, 4096, Vec::new(alloc))?;
    let words = words_of(alloc, "play site page.json")?;
    let status = doloto_top(alloc, words.as_slice(), store, &mut out);
    Ok((status, out))
}

// Whether a site is refused at a file, with nothing written.
fn is_refused_at(alloc: Global, store: &mut MemoryStore, file: FirstFile) -> Result<bool, Fail> {
    let (status, out) = played(alloc, store)?;
    Ok(match status {
        Status::Refused(Refusal::First(refused)) => refused == file && out.written().is_empty(),
        _ => false,
    })
}

// Whether the file of this name is told as missing, with nothing written.
fn is_missing(alloc: Global, store: &mut MemoryStore, file: &str) -> Result<bool, Fail> {
    let (status, out) = played(alloc, store)?;
    Ok(match status {
        Status::Missing(name) => name.items() == file.as_bytes() && out.written().is_empty(),
        _ => false,
    })
}

// A store of the page and these files of the folder `site`.
fn site_of(alloc: Global, site: &str, script: &str) -> Result<MemoryStore, Fail> {
    let mut store = MemoryStore::new(alloc, Vec::new(alloc))?;
    store.put_file("page.json", PAGE.as_bytes())?;
    store.put_file("site/site.txt", site.as_bytes())?;
    store.put_file("site/s1.js", script.as_bytes())?;
    Ok(store)
}

#[test]
fn a_cluster_is_missing(rt: HostRuntime) -> Result<(), Fail> {
    let alloc = rt.alloc();
    let mut store = site_of(alloc, SITE, SCRIPT)?;
    assert!(rt; is_missing(alloc, &mut store, "site/c1.txt")?);
    Ok(())
}

#[test]
fn a_manifest_is_missing(rt: HostRuntime) -> Result<(), Fail> {
    let alloc = rt.alloc();
    let mut store = MemoryStore::new(alloc, Vec::new(alloc))?;
    store.put_file("page.json", PAGE.as_bytes())?;
    assert!(rt; is_missing(alloc, &mut store, "site/site.txt")?);
    Ok(())
}

#[test]
fn a_call_of_no_function_is_uncaught(rt: HostRuntime) -> Result<(), Fail> {
    let alloc = rt.alloc();
    let site = "doloto site 1\nform 1\nscript 1 5 -\nend\n";
    let mut store = site_of(alloc, site, "q();\n")?;
    let (status, out) = played(alloc, &mut store)?;
    assert!(rt; matches!(status, Status::Ended));
    assert_eq!(rt;
        out.written(),
        b"uncaught #1\nidle\nend ended 4\n".as_slice()
    );
    Ok(())
}

#[test]
fn a_script_of_another_grammar_is_refused(rt: HostRuntime) -> Result<(), Fail> {
    let alloc = rt.alloc();
    let site = "doloto site 1\nform 1\nscript 1 5 -\nend\n";
    let mut store = site_of(alloc, site, "x=1;\n")?;
    assert!(rt; is_refused_at(alloc, &mut store, FirstFile::Script)?);
    Ok(())
}

#[test]
fn a_page_may_end_with_one_line_feed(rt: HostRuntime) -> Result<(), Fail> {
    let alloc = rt.alloc();
    let mut store = store_of(
        alloc,
        "{\"host\":[\"out\"]}\n",
        SITE,
        SCRIPT,
        CLUSTER,
        Vec::new(alloc),
    )?;
    let (status, _) = played(alloc, &mut store)?;
    assert!(rt; matches!(status, Status::Ended));
    let mut store = store_of(
        alloc,
        "{\"host\":[\"out\"]}\n\n",
        SITE,
        SCRIPT,
        CLUSTER,
        Vec::new(alloc),
    )?;
    assert!(rt; is_refused_at(alloc, &mut store, FirstFile::Page)?);
    Ok(())
}

#[test]
fn a_manifest_that_is_cut_is_refused(rt: HostRuntime) -> Result<(), Fail> {
    let alloc = rt.alloc();
    for length in [14usize, 21, 36, 49, 59] {
        let Some(front) = SITE.as_bytes().get(..length) else {
            continue;
        };
        let mut store = site_of(alloc, SITE, SCRIPT)?;
        store.put_file("site/site.txt", front)?;
        assert!(rt; is_refused_at(alloc, &mut store, FirstFile::Manifest)?);
    }
    Ok(())
}

#[test]
fn a_cluster_of_another_length_is_refused(rt: HostRuntime) -> Result<(), Fail> {
    let alloc = rt.alloc();
    let short = "2 (function(){host.out(\"two\");})";
    let mut store = store_of(alloc, PAGE, SITE, SCRIPT, short, Vec::new(alloc))?;
    assert!(rt; is_refused_at(alloc, &mut store, FirstFile::Cluster(1))?);
    let long = "2 (function(){host.out(\"two\");})\n3 (function(){})\n";
    let mut store = store_of(alloc, PAGE, SITE, SCRIPT, long, Vec::new(alloc))?;
    assert!(rt; is_refused_at(alloc, &mut store, FirstFile::Cluster(1))?);
    Ok(())
}

#[test]
fn each_read_fails_in_turn(rt: HostRuntime) -> Result<(), Fail> {
    let alloc = rt.alloc();
    for call in [1u64, 2, 3, 4] {
        let mut store = store_of(alloc, PAGE, SITE, SCRIPT, CLUSTER, vec![in alloc; call]?)?;
        let (status, out) = played(alloc, &mut store)?;
        assert!(rt; matches!(status, Status::ReadFault));
        assert!(rt; out.written().is_empty());
    }
    Ok(())
}

#[test]
fn a_small_site_plays(rt: HostRuntime) -> Result<(), Fail> {
    let alloc = rt.alloc();
    let mut store = store_of(alloc, PAGE, SITE, SCRIPT, CLUSTER, Vec::new(alloc))?;
    let mut out = MemorySink::new(alloc, 4096, Vec::new(alloc))?;
    let words = words_of(alloc, "play site page.json")?;
    let status = doloto_top(alloc, words.as_slice(), &mut store, &mut out);
    assert!(rt; matches!(status, Status::Ended));
    let report =
        "call out \"one\"\nwait 1\nask 1\nhere 1\ncall out \"two\"\ncall out \"three\"\nidle\nend ended 35\n";
    assert_eq!(rt; out.written(), report.as_bytes());
    Ok(())
}

#[test]
fn other_words_are_refused(rt: HostRuntime) -> Result<(), Fail> {
    let alloc = rt.alloc();
    let mut store = store_of(alloc, PAGE, SITE, SCRIPT, CLUSTER, Vec::new(alloc))?;
    let mut out = MemorySink::new(alloc, 4096, Vec::new(alloc))?;
    let words = words_of(alloc, "fly")?;
    let status = doloto_top(alloc, words.as_slice(), &mut store, &mut out);
    assert!(rt; matches!(status, Status::Words(WordFault::First)));
    assert_eq!(rt; store.asked().len(), 0);
    assert_eq!(rt; out.written().len(), 0);
    Ok(())
}

#[test]
fn the_second_put_fails(rt: HostRuntime) -> Result<(), Fail> {
    let alloc = rt.alloc();
    let mut store = store_of(alloc, PAGE, SITE, SCRIPT, CLUSTER, Vec::new(alloc))?;
    let mut out = MemorySink::new(alloc, 8, vec![in alloc; 2]?)?;
    let words = words_of(alloc, "play site page.json")?;
    let status = doloto_top(alloc, words.as_slice(), &mut store, &mut out);
    assert!(rt; matches!(status, Status::WriteFault));
    assert_eq!(rt; out.written(), b"call out".as_slice());
    Ok(())
}

#[test]
fn a_function_calls_itself_until_the_steps_are_over(rt: HostRuntime) -> Result<(), Fail> {
    let alloc = rt.alloc();
    let site = "doloto site 1\nform 1\nscript 1 23 1\nend\n";
    let mut store = store_of(
        alloc,
        PAGE,
        site,
        "function f(){f();}f();\n",
        CLUSTER,
        Vec::new(alloc),
    )?;
    let mut out = MemorySink::new(alloc, 4096, Vec::new(alloc))?;
    let words = words_of(alloc, "play site page.json")?;
    let status = doloto_top(alloc, words.as_slice(), &mut store, &mut out);
    assert!(rt; matches!(status, Status::OutOfSteps));
    assert_eq!(rt; out.written(), b"end out-of-steps 10000000\n".as_slice());
    Ok(())
}

// Whether a status has this text and this number.
fn is_told(alloc: Global, status: &Status, text: &str, number: u8) -> Result<bool, Fail> {
    let told = format!(in alloc; "{status}")?;
    Ok(told.as_str() == text && status.number() == number)
}

#[test]
fn each_status_has_its_text_and_number(rt: HostRuntime) -> Result<(), Fail> {
    let alloc = rt.alloc();
    let mut name = Text::new(alloc);
    name.extend(b"site/c1.txt")?;
    let told: [(Status, &str, u8); 10] = [
        (Status::Words(WordFault::First), "words: First", 1),
        (
            Status::Refused(Refusal::First(FirstFile::Page)),
            "form page",
            2,
        ),
        (
            Status::Refused(Refusal::First(FirstFile::Manifest)),
            "form site.txt",
            2,
        ),
        (
            Status::Refused(Refusal::First(FirstFile::Script)),
            "form s1.js",
            2,
        ),
        (
            Status::Refused(Refusal::First(FirstFile::Cluster(7))),
            "form c7.txt",
            2,
        ),
        (Status::OutOfSteps, "out of steps", 3),
        (Status::ReadFault, "read fault", 6),
        (Status::WriteFault, "write fault", 7),
        (Status::OutOfMemory, "out of memory", 8),
        (Status::Missing(name), "missing: site/c1.txt", 10),
    ];
    for (status, text, number) in &told {
        assert!(rt; is_told(alloc, status, text, *number)?);
    }
    Ok(())
}
