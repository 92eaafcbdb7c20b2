// Files of the system.
ghost use Rattle.std.specs.Prelude.{◌≡◌, None};

use crate::plan::counted;
use crate::{Port, PortError, Store};
use std::alloc::Global;
use std::fs::File;
use std::io::{ErrorKind, Read};
use std::path::Path;
use std::rt::Files;
use std::{fs, io};

/// The most bytes that a file may have to be read.
const MOST_BYTES: u64 = 1 << 30;

/// The system's files, by their paths. It tells nothing.
#[derive(Drop)]
pub struct FolderStore<R: Files> {
    rt: R,
    alloc: Global,
    faults: u64,
    write_faults: u64,
}

impl<R: Files> FolderStore<R> {
    /// The files of the program's runtime. Paths are as the system takes them.
    pub fn new(rt: R, alloc: Global) -> FolderStore<R>
        ensures faults { ⟦<FolderStore<R> as Port>⟧.faults result ≡ 0 }
        ensures write_faults { ⟦<FolderStore<R> as Store>⟧.write_faults result ≡ 0 }
    {
        FolderStore {
            rt,
            alloc,
            faults: 0,
            write_faults: 0,
        }
    }
}

// The bytes of a file, or `None` where there is none. A file that goes on past the limit is an
// error.
fn read_file<R: Files>(rt: &R, alloc: Global, name: &str) -> io::Result<Option<Vec<u8>>> {
    let file = match File::open(rt, name) {
        Ok(file) => file,
        Err(error) => {
            return match error.kind() {
                ErrorKind::NotFound => Ok(None),
                _ => Err(error),
            };
        }
    };
    let mut bytes = Vec::new(alloc);
    let count = file.take(MOST_BYTES + 1).read_to_end(&mut bytes)?;
    if count as u64 > MOST_BYTES {
        return Err(io::Error::from(ErrorKind::FileTooLarge));
    }
    Ok(Some(bytes))
}

// Makes or replaces a file, with the folders that its name needs.
fn write_file<R: Files>(rt: &R, name: &str, bytes: &[u8]) -> io::Result<()> {
    if let Some(folder) = Path::new(name).parent() {
        fs::create_dir_all(rt, folder)?;
    }
    fs::write(rt, name, bytes)
}

impl<R: Files> Port for FolderStore<R> {
    ghost faults = { λ store. store.faults };

    ghost left = { λ _. None };

    ghost written = { λ _. None };
}

impl<R: Files> Store for FolderStore<R> {
    ghost files = { λ _. None };

    ghost asked = { λ _. None };

    ghost write_faults = { λ store. store.write_faults };

    fn read(&mut self, name: &str) -> Result<Option<Vec<u8>>, PortError> {
        counted(&mut self.faults, read_file(&self.rt, self.alloc, name))
    }

    fn write(&mut self, name: &str, bytes: &[u8]) -> Result<(), PortError> {
        counted(&mut self.write_faults, write_file(&self.rt, name, bytes))
    }

    fn publish(&mut self, from: &str, to: &str) -> Result<(), PortError> {
        counted(&mut self.write_faults, fs::rename(&self.rt, from, to))
    }
}
