use super::*;
use std::io::{Read, Write};
use std::net::{Ipv4Addr, Shutdown, TcpListener, TcpStream};
use std::process::Abort;
use std::test::Fail;

// Renames a file that is there.
fn rename(rt: &impl Abort, store: &mut MemoryStore, from: &str, to: &str) -> Result<(), PortError> {
    assert!(rt; store.file(from).is_some());
    store.publish(from, to)
}

#[test]
fn a_store_in_memory_keeps_files_and_names(rt: HostRuntime) -> Result<(), Fail> {
    let alloc = rt.alloc();
    let mut store = MemoryStore::new(alloc, Vec::new(alloc))?;
    store.put_file("a", b"old")?;
    store.put_file("a", b"1")?;
    store.write("b", b"2")?;
    store.write("b", b"22")?;
    let read = store.read("a")?.ok_or("no file")?;
    assert_eq!(rt; read.as_slice(), b"1".as_slice());
    assert!(rt; store.read("c")?.is_none());
    rename(&rt, &mut store, "b", "c")?;
    rename(&rt, &mut store, "c", "c")?;
    rename(&rt, &mut store, "c", "a")?;
    assert_eq!(rt; store.file("a").ok_or("no file")?, b"22".as_slice());
    assert!(rt; store.file("b").is_none());
    assert!(rt; store.file("c").is_none());
    let asked = store.asked();
    assert_eq!(rt; asked.len(), 2);
    assert_eq!(rt; asked[0].as_str(), "a");
    assert_eq!(rt; asked[1].as_str(), "c");
    Ok(())
}

#[test]
fn a_store_fails_where_it_was_told_to(rt: HostRuntime) -> Result<(), Fail> {
    let alloc = rt.alloc();
    let mut store = MemoryStore::new(alloc, vec![in alloc; 2, 3, 4]?)?;
    store.put_file("a", b"1")?;
    assert!(rt; store.read("a")?.is_some());
    assert!(rt; matches!(store.read("a"), Err(PortError::Failed)));
    assert!(rt; matches!(store.write("a", b"2"), Err(PortError::Failed)));
    assert!(rt; matches!(rename(&rt, &mut store, "a", "b"), Err(PortError::Failed)));
    let read = store.read("a")?.ok_or("no file")?;
    assert_eq!(rt; read.as_slice(), b"1".as_slice());
    assert_eq!(rt; store.asked().len(), 3);
    Ok(())
}

#[test]
fn a_sink_in_memory_takes_all_in_pieces(rt: HostRuntime) -> Result<(), Fail> {
    let alloc = rt.alloc();
    let mut sink = MemorySink::new(alloc, 8, Vec::new(alloc))?;
    assert_eq!(rt; sink.put(b"0123456789")?, 8);
    put_all(&mut sink, b"abcdefghijklmnopq")?;
    assert_eq!(rt; sink.written(), b"01234567abcdefghijklmnopq".as_slice());
    let mut failing = MemorySink::new(alloc, 8, vec![in alloc; 2]?)?;
    assert_eq!(rt;
        put_all(&mut failing, b"0123456789"),
        Err(PortError::Failed)
    );
    assert_eq!(rt; failing.written(), b"01234567".as_slice());
    put_all(&mut failing, b"89")?;
    assert_eq!(rt; failing.written(), b"0123456789".as_slice());
    let mut full = MemorySink::new(alloc, 0, Vec::new(alloc))?;
    put_all(&mut full, b"")?;
    assert_eq!(rt; put_all(&mut full, b"0"), Err(PortError::Failed));
    Ok(())
}

#[test]
fn a_folder_keeps_files(rt: HostRuntime) -> Result<(), Fail> {
    let mut store = FolderStore::new(&rt, rt.alloc());
    assert!(rt; store.read("site/a.js")?.is_none());
    store.write("site/a.js", b"1;")?;
    store.write("b.js", b"22;")?;
    let read = store.read("site/a.js")?.ok_or("no file")?;
    assert_eq!(rt; read.as_slice(), b"1;".as_slice());
    store.publish("b.js", "site/a.js")?;
    let read = store.read("site/a.js")?.ok_or("no file")?;
    assert_eq!(rt; read.as_slice(), b"22;".as_slice());
    assert!(rt; store.read("b.js")?.is_none());
    // A folder in place of a file, a file in place of a folder, and a file that isn't there.
    assert!(rt; matches!(store.read("site"), Err(PortError::Failed)));
    assert!(rt; matches!(store.read("site/a.js/b"), Err(PortError::Failed)));
    assert!(rt; matches!(store.write("site/a.js/b", b""), Err(PortError::Failed)));
    assert!(rt; matches!(store.publish("none", "site/c"), Err(PortError::Failed)));
    Ok(())
}

#[test]
fn standard_output_takes_bytes(rt: HostRuntime) -> Result<(), Fail> {
    let mut sink = StdoutSink::new(&rt);
    put_all(&mut sink, b"done\n")?;
    assert_eq!(rt; sink.put(b"")?, 0);
    Ok(())
}

#[test]
fn a_link_in_memory_gives_its_bytes_and_takes_others(rt: HostRuntime) -> Result<(), Fail> {
    let alloc = rt.alloc();
    let mut link = MemoryLink::new(alloc, b"hello".to_vec(alloc)?, vec![in alloc; 2, 5]?)?;
    let mut room = [0u8; 3];
    assert_eq!(rt; link.take(&mut room)?, 3);
    assert_eq!(rt; room.as_slice(), b"hel".as_slice());
    assert_eq!(rt; link.take(&mut room), Err(PortError::Failed));
    assert_eq!(rt; link.take(&mut room)?, 2);
    assert_eq!(rt; room[0], b'l');
    assert_eq!(rt; room[1], b'o');
    assert_eq!(rt; link.take(&mut room)?, 0);
    assert_eq!(rt; put_all(&mut link, b"lost"), Err(PortError::Failed));
    put_all(&mut link, b"kept")?;
    assert_eq!(rt; link.written(), b"kept".as_slice());
    Ok(())
}

// Takes up to 8 bytes of a link and puts them back on it.
fn echo<L: Source + Sink>(link: &mut L) -> Result<usize, PortError> {
    let mut room = [0u8; 8];
    let count = link.take(&mut room)?;
    if count <= room.len() {
        put_all(link, &room[..count])?;
    }
    Ok(count)
}

#[test]
fn a_door_in_memory_lends_links_and_keeps_what_they_took(rt: HostRuntime) -> Result<(), Fail> {
    let alloc = rt.alloc();
    let mut inputs = Vec::new(alloc);
    inputs.push((b"one".to_vec(alloc)?, Vec::new(alloc)))?;
    inputs.push((b"two".to_vec(alloc)?, vec![in alloc; 1]?))?;
    let mut door = MemoryDoor::new(alloc, inputs, vec![in alloc; 2]?)?;
    let mut first = door.accept()?.ok_or("no link")?;
    assert!(rt; matches!(door.accept(), Err(PortError::Failed)));
    let mut second = door.accept()?.ok_or("no link")?;
    assert!(rt; door.accept()?.is_none());
    assert_eq!(rt; echo(&mut first)?, 3);
    assert_eq!(rt; echo(&mut second), Err(PortError::Failed));
    assert_eq!(rt; echo(&mut second)?, 3);
    assert_eq!(rt; echo(&mut second)?, 0);
    put_all(&mut second, b"!")?;
    door.close(second);
    door.close(first);
    assert_eq!(rt; door.written(0), Some(b"two!".as_slice()));
    assert_eq!(rt; door.written(1), Some(b"one".as_slice()));
    assert!(rt; door.written(2).is_none());
    Ok(())
}

#[test]
fn a_port_of_the_machine_answers_itself(rt: HostRuntime) -> Result<(), Fail> {
    let free = TcpListener::bind(&rt, (Ipv4Addr::LOCALHOST, 0))?
        .local_addr()?
        .port();
    let mut door = TcpDoor::new(&rt, Some(free));
    let mut peer = TcpStream::connect(&rt, (Ipv4Addr::LOCALHOST, free))?;
    peer.write_all(b"hello")?;
    peer.shutdown(Shutdown::Write)?;
    let mut link = door.accept()?.ok_or("no link")?;
    assert_eq!(rt; echo(&mut link)?, 5);
    assert_eq!(rt; echo(&mut link)?, 0);
    door.close(link);
    let mut reply = Vec::new(rt.alloc());
    peer.read_to_end(&mut reply)?;
    assert_eq!(rt; reply.as_slice(), b"hello".as_slice());
    let mut shut = TcpDoor::new(&rt, None);
    assert!(rt; matches!(shut.accept(), Err(PortError::Failed)));
    Ok(())
}
