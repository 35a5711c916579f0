//! A folder in memory, for tests.
ghost use Rattle.std.specs.Prelude.{◌≡◌, [], None, MatchResult};
ghost use Rattle.ledger_folder.specs.Counts.{FolderCounts};

use crate::failure::Failure;
use crate::folder::{Folder, FolderFault};
use crate::log;
use crate::log::Log;
use crate::name::Name;
use sol_base::{Blob, Items, OutOfMemory};
use std::alloc::Global;
use std::marker::Model;

#[derive(Drop)]
struct MemFile {
    name: Name,
    bytes: Blob,
}

/// A folder in memory. It makes so many steps and fails each one after, as where a crash came then.
#[derive(Drop)]
pub struct MemFolder {
    alloc: Global,
    files: Vec<MemFile>,
    beside: Vec<MemFile>,
    steps: u64,
    faults: u64,
    log: Log,
}

impl Model for MemFolder {
    ghost use Rattle.ledger_folder.specs.Counts.{FolderView};

    ghost Value = { FolderView };

    ghost view = { λ f. record { events = f.log.value; faults = f.faults } };
}

fn bytes_in(files: &[MemFile], name: Name) -> Result<Option<Blob>, OutOfMemory> {
    for file in files {
        if file.name == name {
            return Ok(Some(file.bytes.try_copy()?));
        }
    }
    Ok(None)
}

/// Takes a file out of a list.
fn take_out(files: &mut Vec<MemFile>, name: Name) -> Option<MemFile> {
    for at in 0..files.len() {
        if files[at].name == name {
            return Some(files.swap_remove(at));
        }
    }
    None
}

/// Puts a file into a list, in place of the one of its name.
fn put_in(files: &mut Vec<MemFile>, file: MemFile) -> Result<(), OutOfMemory> {
    let _before = take_out(files, file.name);
    files.push(file)?;
    Ok(())
}

impl MemFolder {
    /// An empty folder that makes so many steps.
    pub fn new(alloc: Global, steps: u64) -> MemFolder
        ensures { result ≡ record { events = []; faults = 0 } }
    {
        MemFolder {
            alloc,
            files: Vec::new(alloc),
            beside: Vec::new(alloc),
            steps,
            faults: 0,
            log: log::nothing(),
        }
    }

    /// Makes so many steps from now on, and fails each one after.
    pub fn allow(&mut self, steps: u64)
        ensures { self.new ≡ self.old }
    {
        self.steps = steps;
    }

    /// The bytes of a file, for a test to look at.
    pub fn bytes(&self, name: Name) -> Result<Option<Blob>, OutOfMemory> {
        bytes_in(&self.files, name)
    }

    /// Puts a file as a test wants it. This is no step.
    pub fn put(&mut self, name: Name, bytes: &[u8]) -> Result<(), OutOfMemory>
        ensures { self.new ≡ self.old }
    {
        let bytes = Blob::from_slice(self.alloc, bytes)?;
        put_in(&mut self.files, MemFile { name, bytes })
    }

    fn write_beside(&mut self, name: Name, bytes: &[u8]) -> Result<(), FolderFault>
        ensures events { self.new.events ≡ self.old.events }
        ensures counts { FolderCounts result self.old.faults self.new.faults }
    {
        spend(&mut self.steps, &mut self.faults)?;
        let bytes = Blob::from_slice(self.alloc, bytes)?;
        put_in(&mut self.beside, MemFile { name, bytes })?;
        Ok(())
    }

    fn move_there(&mut self, name: Name) -> Result<(), FolderFault>
        ensures events { self.new.events ≡ self.old.events }
        ensures counts { FolderCounts result self.old.faults self.new.faults }
    {
        spend(&mut self.steps, &mut self.faults)?;
        if let Some(file) = take_out(&mut self.beside, name) {
            put_in(&mut self.files, file)?;
        }
        Ok(())
    }

    /// Takes a file away as a test wants it. This is no step.
    pub fn remove(&mut self, name: Name)
        ensures { self.new ≡ self.old }
    {
        let _gone = take_out(&mut self.files, name);
    }
}

/// The slots whose blocks are in a list, ascending.
fn block_slots(alloc: Global, files: &[MemFile]) -> Result<Items<u64>, OutOfMemory> {
    let mut slots = Vec::new(alloc);
    for file in files {
        if let Name::Block { slot } = file.name {
            slots.push(slot)?;
        }
    }
    slots.sort_unstable();
    Ok(Items::from_vec(slots))
}

/// Makes one step of those that are left, or fails.
fn spend(steps: &mut u64, faults: &mut u64) -> Result<(), FolderFault>
    ensures { FolderCounts result faults.old faults.new }
{
    match steps.checked_sub(1) {
        Some(left) => {
            *steps = left;
            Ok(())
        }
        None => {
            *faults = faults.saturating_add(1);
            Err(FolderFault::Failed)
        }
    }
}

impl Folder for MemFolder {
    ghost events = { λ f. f.events };

    ghost faults = { λ f. f.faults };

    ghost failure = { λ _. None };

    /// No call of the system is made here.
    fn failure(&self) -> Option<Failure> {
        None
    }

    fn blocks(&mut self) -> Result<Items<u64>, FolderFault> {
        let slots = block_slots(self.alloc, &self.files)?;
        self.log = log::listed(&self.log, &slots);
        Ok(slots)
    }

    fn read(&mut self, name: Name) -> Result<Option<Blob>, FolderFault> {
        let found = bytes_in(&self.files, name)?;
        self.log = log::read(&self.log, name, &found);
        Ok(found)
    }

    fn write(&mut self, name: Name, bytes: &[u8]) -> Result<(), FolderFault> {
        match self.write_beside(name, bytes) {
            Ok(()) => {
                self.log = log::wrote(&self.log, name, bytes);
                Ok(())
            }
            Err(e) => {
                self.log = log::spoiled(&self.log, name);
                Err(e)
            }
        }
    }

    fn sync(&mut self, name: Name) -> Result<(), FolderFault> {
        match spend(&mut self.steps, &mut self.faults) {
            Ok(()) => {
                self.log = log::synced(&self.log, name);
                Ok(())
            }
            Err(e) => {
                self.log = log::spoiled(&self.log, name);
                Err(e)
            }
        }
    }

    fn rename(&mut self, name: Name) -> Result<(), FolderFault> {
        match self.move_there(name) {
            Ok(()) => {
                self.log = log::renamed(&self.log, name);
                Ok(())
            }
            Err(e) => {
                self.log = log::rename_failed(&self.log, name);
                Err(e)
            }
        }
    }

    fn sync_folder(&mut self) -> Result<(), FolderFault> {
        spend(&mut self.steps, &mut self.faults)?;
        self.log = log::folder_synced(&self.log);
        Ok(())
    }
}
