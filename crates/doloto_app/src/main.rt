//! The program: its commands over the ports of the system.
//!
//! `doloto_top` reads the words of the command and runs it: `playing` plays a site over a store,
//! and `formatting` prints a script, each to a sink. They may know what `play_page`, `read_source`
//! and `print_script` promise. Main alone makes the ports of the system, prints why a command was
//! refused, and ends with the status's number.
#![tactic(auto)]

mod formatting;
mod playing;
mod status;
mod top;
mod words;

use dl_ports::{FolderStore, StdoutSink};
use status::Status;
use std::alloc::Global;
use std::env;
use std::io::{self, ErrorKind};
use std::process::ExitCode;
use top::doloto_top;
use words::WordFault;

/// The words after the program's name, where they are UTF-8.
fn program_words(rt: &HostRuntime, alloc: Global) -> io::Result<Vec<String>> {
    let mut words = Vec::new(alloc);
    for word in env::args(rt)?.skip(1) {
        words.push(word)?;
    }
    Ok(words)
}

fn main(rt: HostRuntime) -> ExitCode {
    let alloc = rt.alloc();
    let status = match program_words(&rt, alloc) {
        Err(error) if error.kind() == ErrorKind::OutOfMemory => Status::OutOfMemory,
        Err(_) => Status::Words(WordFault::First),
        Ok(words) => doloto_top(
            alloc,
            words.as_slice(),
            &mut FolderStore::new(&rt, alloc),
            &mut StdoutSink::new(&rt),
        ),
    };
    if !matches!(status, Status::Ended) {
        // There is nobody to tell where standard error fails too.
        let _ = eprintln!(&rt; "doloto: {status}");
    }
    ExitCode::from(status.number())
}

#[cfg(test)]
mod format_tests;
#[cfg(test)]
mod tests;
