// A store whose files are in memory.
ghost use Rattle.std.specs.Prelude.{◌≡◌, ◌⊎◌, IsErrOf, [], None, Some, map, string_bytes, IfOk, IsSome, OnOk, OnErr};
ghost use Rattle.std.specs.Option.{option_copied, ForSome};
ghost use Rattle.dl_ports.specs.Counts.{HasCause};
ghost use Rattle.dl_ports.specs.Files.{bytes_of, and_name, SameBut, Writes, Renames};
ghost use Rattle.dl_ports.specs.Memory.{files_in};
ghost use Rattle.dl_ports.specs.Plans.{GoesByPlan, IsFresh};
ghost use Rattle.dl_ports.specs.Told.{WhereTold};

use crate::plan::{Plan, count_fault};
use crate::{Port, PortError, Store};
use std::alloc::{AllocError, Global};
use std::collections::BTreeMap;

/// A store in memory, which tells everything and fails at the calls that it was told to.
#[derive(Drop)]
pub struct MemoryStore {
    alloc: Global,
    plan: Plan,
    files: BTreeMap<String, Vec<u8>>,
    asked: Vec<String>,
    faults: u64,
    write_faults: u64,
}

impl MemoryStore {
    ghost use Rattle.dl_ports.specs.Memory.{stored_files, stored_asked, store_faults, store_write_faults, store_plan};

    /// A store without files. The calls of `Store` whose numbers, counted from 1, are in `fail`
    /// are to fail.
    pub fn new(alloc: Global, fail: Vec<u64>) -> Result<MemoryStore, AllocError>
        ensures files { IfOk result (λ store. (name : _) → stored_files store name ≡ None) }
        ensures asked { IfOk result (λ store. stored_asked store ≡ []) }
        ensures faults { IfOk result (λ store. store_faults store ≡ 0) }
        ensures plan { IfOk result (λ store. IsFresh (store_plan store) fail.items) }
        ensures write_faults { IfOk result (λ store. store_write_faults store ≡ 0) }
    {
        Ok(MemoryStore {
            alloc,
            plan: Plan::new(fail),
            files: BTreeMap::new(alloc),
            asked: Vec::new(alloc),
            faults: 0,
            write_faults: 0,
        })
    }

    /// Sets a file. This is no call of `Store` and isn't counted.
    pub fn put_file(&mut self, name: &str, bytes: &[u8]) -> Result<(), AllocError>
        ensures ok { OnOk result
            (Writes name.now bytes.now (stored_files self.old) (stored_files self.new)) }
        ensures err { OnErr result ((other : _) → stored_files self.new other
            ≡ stored_files self.old other) }
        ensures same_asked { stored_asked self.new ≡ stored_asked self.old }
        ensures same_plan { store_plan self.new ≡ store_plan self.old }
        ensures same_faults { store_faults self.new ≡ store_faults self.old }
        ensures same_write_faults { store_write_faults self.new ≡ store_write_faults self.old }
    {
        set_file(self.alloc, &mut self.files, name, bytes)
    }

    /// The bytes of a file, or `None` exactly where there is none.
    pub fn file(&self, name: &str) -> Option<&[u8]>
        ensures { option_copied result ≡ stored_files self.now name.now }
    {
        match self.files.get(name) {
            Some(bytes) => Some(bytes.as_slice()),
            None => None,
        }
    }

    /// The names that `read` was asked for, in order.
    pub fn asked(&self) -> &[String]
        ensures { map string_bytes result.now ≡ stored_asked self.now }
    {
        self.asked.as_slice()
    }
}

// Makes or replaces a file.
fn set_file(
    alloc: Global,
    files: &mut BTreeMap<String, Vec<u8>>,
    name: &str,
    bytes: &[u8],
) -> Result<(), AllocError>
    ensures ok { OnOk result (Writes name.now bytes.now (files_in files.old) (files_in files.new)) }
    ensures err { OnErr result (files.new.entries ≡ files.old.entries) }
{
    let key = String::from_str(alloc, name)?;
    let contents = Vec::from_slice(alloc, bytes)?;
    files.insert(key, contents)?;
    Ok(())
}

// Renames a file. The place at the new name is made before anything moves.
fn rename_file(
    alloc: Global,
    files: &mut BTreeMap<String, Vec<u8>>,
    from: &str,
    to: &str,
) -> Result<(), AllocError>
    requires { IsSome (files_in files.old from.now) }
    ensures ok { OnOk result (Renames from.now to.now (files_in files.old) (files_in files.new)) }
    ensures err { OnErr result (files.new.entries ≡ files.old.entries) }
{
    if from == to {
        return Ok(());
    }
    let key = String::from_str(alloc, to)?;
    files.insert(key, Vec::new(alloc))?;
    if let Some(contents) = files.remove(from) {
        replace_file(files, to, contents);
    }
    Ok(())
}

// Replaces a file that is there.
fn replace_file(files: &mut BTreeMap<String, Vec<u8>>, name: &str, contents: Vec<u8>)
    requires { IsSome (files_in files.old name.now) }
    ensures { Writes name.now contents.items (files_in files.old) (files_in files.new) }
{
    if let Some(place) = files.get_mut(name) {
        *place = contents;
    }
}

impl Port for MemoryStore {
    ghost faults = { λ store. store.faults };

    ghost left = { λ _. None };

    ghost written = { λ _. None };
}

impl Store for MemoryStore {
    ghost use Rattle.dl_ports.specs.Memory.{stored_files, told_files, told_asked, store_faults, store_write_faults, store_plan};

    ghost files = { told_files };

    ghost asked = { told_asked };

    ghost write_faults = { store_write_faults };

    fn read(&mut self, name: &str) -> Result<Option<Vec<u8>>, PortError>
        ensures file { IfOk result (λ file. bytes_of file ≡ stored_files self.old name.now) }
        ensures asked { OnOk result (told_asked self.new
            ≡ and_name (told_asked self.old) name.now) }
        ensures asked_failed { IsErrOf result PortError.Failed
            → told_asked self.new ≡ and_name (told_asked self.old) name.now }
        ensures asked_or_not { (told_asked self.new ≡ told_asked self.old)
            ⊎ (told_asked self.new ≡ and_name (told_asked self.old) name.now) }
        ensures same_files { told_files self.new ≡ told_files self.old }
        ensures cause { HasCause (store_faults self.old) (store_faults self.new) result }
        ensures same_write_faults { store_write_faults self.new ≡ store_write_faults self.old }
        ensures same_left { ⟦<MemoryStore as Port>⟧.left self.new
            ≡ ⟦<MemoryStore as Port>⟧.left self.old }
        ensures same_written { ⟦<MemoryStore as Port>⟧.written self.new
            ≡ ⟦<MemoryStore as Port>⟧.written self.old }
        ensures plan { GoesByPlan (store_plan self.old) (store_plan self.new) result }
    {
        let fails = self.plan.fails_now();
        let asked = String::from_str(self.alloc, name)?;
        self.asked.push(asked)?;
        if fails {
            return Err(count_fault(&mut self.faults));
        }
        match self.files.get(name) {
            Some(bytes) => Ok(Some(Vec::from_slice(self.alloc, bytes.as_slice())?)),
            None => Ok(None),
        }
    }

    fn write(&mut self, name: &str, bytes: &[u8]) -> Result<(), PortError>
        ensures written { OnOk result
            (WhereTold (Writes name.now bytes.now) (told_files self.old) (told_files self.new)) }
        ensures refused { OnErr result
            (WhereTold (SameBut name.now) (told_files self.old) (told_files self.new)) }
        ensures cause { HasCause
            (store_write_faults self.old) (store_write_faults self.new) result }
        ensures same_asked { told_asked self.new ≡ told_asked self.old }
        ensures same_faults { store_faults self.new ≡ store_faults self.old }
        ensures same_left { ⟦<MemoryStore as Port>⟧.left self.new
            ≡ ⟦<MemoryStore as Port>⟧.left self.old }
        ensures same_written { ⟦<MemoryStore as Port>⟧.written self.new
            ≡ ⟦<MemoryStore as Port>⟧.written self.old }
        ensures plan { GoesByPlan (store_plan self.old) (store_plan self.new) result }
    {
        if self.plan.fails_now() {
            return Err(count_fault(&mut self.write_faults));
        }
        Ok(set_file(self.alloc, &mut self.files, name, bytes)?)
    }

    fn publish(&mut self, from: &str, to: &str) -> Result<(), PortError>
        requires { ForSome (told_files self.old) (λ files. IsSome (files from.now)) }
        ensures renamed { OnOk result
            (WhereTold (Renames from.now to.now) (told_files self.old) (told_files self.new)) }
        ensures refused { OnErr result ((told_files self.new
            ≡ told_files self.old)
            ⊎ WhereTold (Renames from.now to.now) (told_files self.old) (told_files self.new)) }
        ensures cause { HasCause
            (store_write_faults self.old) (store_write_faults self.new) result }
        ensures same_asked { told_asked self.new ≡ told_asked self.old }
        ensures same_faults { store_faults self.new ≡ store_faults self.old }
        ensures same_left { ⟦<MemoryStore as Port>⟧.left self.new
            ≡ ⟦<MemoryStore as Port>⟧.left self.old }
        ensures same_written { ⟦<MemoryStore as Port>⟧.written self.new
            ≡ ⟦<MemoryStore as Port>⟧.written self.old }
        ensures plan { GoesByPlan (store_plan self.old) (store_plan self.new) result }
    {
        if self.plan.fails_now() {
            return Err(count_fault(&mut self.write_faults));
        }
        Ok(rename_file(self.alloc, &mut self.files, from, to)?)
    }
}
