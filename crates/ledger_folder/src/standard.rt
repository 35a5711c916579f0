//! A folder of the system's files.
ghost use Rattle.std.specs.Prelude.{◌≡◌, [], IfOk, IfErr, None, Some};
ghost use Rattle.ledger_folder.specs.Counts.{FaultCounts};
ghost use Rattle.ledger_folder.specs.declared.folder.FolderFault.TheVariants.{Failed};

use crate::failure::{FailedAt, Failure};
use crate::folder::{Folder, FolderFault};
use crate::log;
use crate::log::Log;
use crate::name::{Name, slot_of_block};
use sol_base::{Blob, Items, OutOfMemory};
use std::alloc::Global;
use std::fs::{File, OpenFile};
use std::io::{ErrorKind, Read, Write};
use std::marker::Model;
use std::rt::Files;
use std::{fs, io};

/// A folder of the system's files. What a disk gave and keeps is trusted, not proved: each call
/// here makes the calls of the system that it notes.
#[derive(Drop)]
pub struct StdFolder<R: Files> {
    rt: R,
    path: String,
    open: Option<OpenNew<R::File>>,
    failure: Option<Failure>,
    faults: u64,
    log: Log,
}

/// A file `NAME.new` that was written and is still open.
#[derive(Drop)]
struct OpenNew<F> {
    name: Name,
    file: F,
}

impl<R: Files> Model for StdFolder<R> {
    ghost use Rattle.ledger_folder.specs.Counts.{StdFolderView};

    ghost Value = { StdFolderView };

    ghost view = { λ f. record { events = f.log.value; faults = f.faults; failure = f.failure } };
}

impl<R: Files + AllocGlobal + Clone + Drop> StdFolder<R> {
    /// The folder at the path. Nothing is opened yet.
    pub fn new(rt: &R, path: &str) -> Result<StdFolder<R>, OutOfMemory>
        ensures { IfOk result (λ folder. folder ≡ record { events = []; faults = 0; failure = None }) }
    {
        Ok(StdFolder {
            rt: rt.clone()?,
            path: String::from_str(rt.alloc(), path)?,
            open: None,
            failure: None,
            faults: 0,
            log: log::nothing(),
        })
    }
}

/// Makes the folder at the path, unless it is there, and sees to it that it is on the disk.
pub fn make_folder<R: Files + AllocGlobal>(rt: &R, path: &str) -> io::Result<()> {
    match fs::create_dir(rt, path) {
        Ok(()) => {}
        Err(e) if e.kind() == ErrorKind::AlreadyExists => {}
        Err(e) => return Err(e),
    }
    let above = format!(in rt.alloc(); "{path}/..")?;
    fs::open(rt, above.as_str())?.sync_all()
}

/// What the failure of a call of the system comes to. It is counted and kept, unless it is out of
/// memory.
fn refused(
    faults: &mut u64,
    failure: &mut Option<Failure>,
    at: FailedAt,
    error: io::Error,
) -> FolderFault
    ensures counts { FaultCounts result faults.old faults.new }
    ensures kept { result ≡ Failed → failure.new ≡ Some (record { at = at; error = error }) }
{
    if error.kind() == ErrorKind::OutOfMemory {
        return FolderFault::OutOfMemory;
    }
    *faults = faults.saturating_add(1);
    *failure = Some(Failure { at, error });
    FolderFault::Failed
}

/// The path of a file.
fn at<R: AllocGlobal>(rt: &R, path: &str, name: Name) -> io::Result<String> {
    Ok(format!(in rt.alloc(); "{path}/{name}")?)
}

/// The path of what is written beside a file.
fn beside<R: AllocGlobal>(rt: &R, path: &str, name: Name) -> io::Result<String> {
    Ok(format!(in rt.alloc(); "{path}/{name}.new")?)
}

fn list<R: Files + AllocGlobal + Clone + Drop>(rt: &R, path: &str) -> io::Result<Items<u64>> {
    let mut slots = Vec::new(rt.alloc());
    for entry in fs::read_dir(rt, path)? {
        if let Some(slot) = slot_of_block(entry?.file_name()) {
            slots.push(slot)?;
        }
    }
    slots.sort_unstable();
    Ok(Items::from_vec(slots))
}

/// How many bytes one read asks for.
const PIECE: usize = 65_536;

/// All bytes of an open file.
fn all_of<F: Read + Drop>(alloc: Global, file: F) -> io::Result<Blob> {
    let mut file = file;
    let mut bytes = Blob::new(alloc);
    let mut piece = [0u8; PIECE];
    for _ in 0..u64::MAX {
        let n = file.read(&mut piece)?;
        if n == 0 {
            break;
        }
        if let Err(OutOfMemory) = bytes.append(&piece[..n]) {
            return Err(io::Error::from(ErrorKind::OutOfMemory));
        }
    }
    Ok(bytes)
}

/// The whole file. None where there is none.
fn whole<R: Files + AllocGlobal>(rt: &R, path: &str, name: Name) -> io::Result<Option<Blob>> {
    match fs::open(rt, at(rt, path, name)?.as_str()) {
        Ok(file) => Ok(Some(all_of(rt.alloc(), file)?)),
        Err(e) if e.kind() == ErrorKind::NotFound => Ok(None),
        Err(e) => Err(e),
    }
}

/// Makes the file. What has its name was left by a writer that has ended, and is removed, a link
/// itself and not what it points to.
fn made_anew<R: Files>(rt: &R, path: &str) -> io::Result<R::File> {
    match File::create_new(rt, path) {
        Err(e) if e.kind() == ErrorKind::AlreadyExists => {
            fs::remove_file(rt, path)?;
            File::create_new(rt, path)
        }
        made => made,
    }
}

fn write_beside<R: Files + AllocGlobal>(
    rt: &R,
    path: &str,
    name: Name,
    bytes: &[u8],
) -> io::Result<OpenNew<R::File>> {
    let mut file = made_anew(rt, beside(rt, path, name)?.as_str())?;
    file.write_all(bytes)?;
    Ok(OpenNew { name, file })
}

/// Syncs the file by the descriptor that it was written with.
fn sync_beside<F: OpenFile + Drop>(open: Option<OpenNew<F>>, name: Name) -> io::Result<()> {
    match open {
        Some(open) if open.name == name => open.file.sync_all(),
        _ => Err(io::Error::other("it was not written")),
    }
}

fn move_there<R: Files + AllocGlobal>(rt: &R, path: &str, name: Name) -> io::Result<()> {
    let from = beside(rt, path, name)?;
    let to = at(rt, path, name)?;
    fs::rename(rt, from.as_str(), to.as_str())
}

fn sync_path<R: Files>(rt: &R, path: &str) -> io::Result<()> {
    fs::open(rt, path)?.sync_all()
}

impl<R: Files + AllocGlobal + Clone + Drop> Folder for StdFolder<R> {
    ghost events = { λ f. f.events };

    ghost faults = { λ f. f.faults };

    ghost failure = { λ f. f.failure };

    fn failure(&self) -> Option<Failure> {
        self.failure
    }

    fn blocks(&mut self) -> Result<Items<u64>, FolderFault> {
        match list(&self.rt, self.path.as_str()) {
            Ok(slots) => {
                self.log = log::listed(&self.log, &slots);
                Ok(slots)
            }
            Err(e) => Err(refused(&mut self.faults, &mut self.failure, FailedAt::Folder, e)),
        }
    }

    fn read(&mut self, name: Name) -> Result<Option<Blob>, FolderFault> {
        match whole(&self.rt, self.path.as_str(), name) {
            Ok(found) => {
                self.log = log::read(&self.log, name, &found);
                Ok(found)
            }
            Err(e) => Err(refused(
                &mut self.faults,
                &mut self.failure,
                FailedAt::File { name },
                e,
            )),
        }
    }

    fn write(&mut self, name: Name, bytes: &[u8]) -> Result<(), FolderFault> {
        match write_beside(&self.rt, self.path.as_str(), name, bytes) {
            Ok(open) => {
                self.open = Some(open);
                self.log = log::wrote(&self.log, name, bytes);
                Ok(())
            }
            Err(e) => {
                self.log = log::spoiled(&self.log, name);
                Err(refused(
                    &mut self.faults,
                    &mut self.failure,
                    FailedAt::New { name },
                    e,
                ))
            }
        }
    }

    fn sync(&mut self, name: Name) -> Result<(), FolderFault> {
        match sync_beside(self.open.take(), name) {
            Ok(()) => {
                self.log = log::synced(&self.log, name);
                Ok(())
            }
            Err(e) => {
                self.log = log::spoiled(&self.log, name);
                Err(refused(
                    &mut self.faults,
                    &mut self.failure,
                    FailedAt::New { name },
                    e,
                ))
            }
        }
    }

    fn rename(&mut self, name: Name) -> Result<(), FolderFault> {
        match move_there(&self.rt, self.path.as_str(), name) {
            Ok(()) => {
                self.log = log::renamed(&self.log, name);
                Ok(())
            }
            Err(e) => {
                self.log = log::rename_failed(&self.log, name);
                Err(refused(
                    &mut self.faults,
                    &mut self.failure,
                    FailedAt::File { name },
                    e,
                ))
            }
        }
    }

    fn sync_folder(&mut self) -> Result<(), FolderFault> {
        match sync_path(&self.rt, self.path.as_str()) {
            Ok(()) => {
                self.log = log::folder_synced(&self.log);
                Ok(())
            }
            Err(e) => Err(refused(&mut self.faults, &mut self.failure, FailedAt::Folder, e)),
        }
    }
}
