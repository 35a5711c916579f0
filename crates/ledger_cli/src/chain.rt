//! A chain's folder: what is opened, and the results where that is refused.
ghost use Rattle.std.specs.Prelude.{◌≡◌, ◌≤◌, IfOk};
ghost use Rattle.snapshot_codec.specs.Snapshot.{IsReadable};
ghost use Rattle.ledger_cli.specs.Given.{IfValue};
ghost use Rattle.ledger_cli.specs.Refusals.{refusal_status};

use crate::failures::{caused, failed};
use command_parts::{Answer, Given, INPUT_REFUSED, READ_FAILED, WRITE_FAILED, noted};
use ledger_folder::{Failure, Folder, FolderLock, LockFault, Name, StdFolder, lock_folder};
use ledger_store::{Head, LedgerFault, copy_snapshot, read_head, read_state};
use snapshot_codec::Snapshot;
use sol_base::OutOfMemory;
use std::alloc::Global;
use std::fs::File;
use std::io;
use std::io::ErrorKind;
use std::rt::Files;

/// A chain that is open to be read.
#[derive(Drop)]
pub(crate) struct OpenChain<R: Files + AllocGlobal + Clone + Drop> {
    pub(crate) files: StdFolder<R>,
    pub(crate) head: Head,
}

/// Opens a chain to be read, or tells why it is not.
pub(crate) fn open_chain<R: Files + AllocGlobal + Clone + Drop>(
    rt: &R,
    folder: &str,
) -> Result<Given<OpenChain<R>>, OutOfMemory>
    ensures { IfOk result (IfValue (λ chain. 1 ≤ chain.head.every)) }
{
    let mut files = StdFolder::new(rt, folder)?;
    match read_head(&mut files) {
        Ok(head) => Ok(Given::Value(OpenChain { files, head })),
        Err(fault) => {
            let told = unread(rt.alloc(), folder, fault, files.failure())?;
            Ok(Given::Nothing(told))
        }
    }
}

/// The state after so many blocks, or after all where there are fewer.
pub(crate) fn state_after<F: Folder>(
    alloc: Global,
    files: &mut F,
    head: &Head,
    count: usize,
) -> Result<Snapshot, LedgerFault>
    requires { 1 ≤ head.now.every }
    ensures { IfOk result IsReadable }
{
    read_state(alloc, files, head, count.min(head.slots.len()))
}

/// A copy of a snapshot.
pub(crate) fn copied(alloc: Global, snapshot: &Snapshot) -> Result<Snapshot, OutOfMemory>
    requires { IsReadable snapshot.now }
    ensures same { IfOk result (λ copy. copy ≡ snapshot.now) }
    ensures readable { IfOk result IsReadable }
{
    let copy = copy_snapshot(alloc, snapshot)?;
    Ok(copy)
}

/// The answer where a folder has no chain.
fn no_chain(alloc: Global, folder: &str) -> Result<Answer, OutOfMemory>
    ensures { IfOk result (λ told. told.status ≡ 3) }
{
    let text = format!(in alloc; "there is no chain (no file {folder}/chain)")?;
    noted(alloc, INPUT_REFUSED, folder, text.as_str())
}

/// The answer where a file of a chain is not what was written, or the folder fails, which has the
/// given status.
pub(crate) fn refused(
    alloc: Global,
    status: u8,
    folder: &str,
    fault: LedgerFault,
    failure: Option<Failure>,
) -> Result<Answer, OutOfMemory>
    ensures { IfOk result (λ told. told.status ≡ refusal_status status fault) }
{
    match fault {
        LedgerFault::OutOfMemory => Err(OutOfMemory),
        LedgerFault::Missing { name: Name::Chain } => no_chain(alloc, folder),
        LedgerFault::Failed => failed(alloc, status, folder, failure),
        fault => noted(
            alloc,
            INPUT_REFUSED,
            "chain",
            fault.to_string(alloc)?.as_str(),
        ),
    }
}

/// The answer where a chain is not read.
pub(crate) fn unread(
    alloc: Global,
    folder: &str,
    fault: LedgerFault,
    failure: Option<Failure>,
) -> Result<Answer, OutOfMemory> {
    refused(alloc, READ_FAILED, folder, fault, failure)
}

/// The answer where the chain has no block of a slot.
pub(crate) fn no_block(alloc: Global, slot: u64) -> Result<Answer, OutOfMemory> {
    let text = format!(in alloc; "it has no block of slot {slot}")?;
    noted(alloc, INPUT_REFUSED, "chain", text.as_str())
}

/// The answer where another process writes.
fn held(alloc: Global, process: Option<u32>) -> Result<Answer, OutOfMemory> {
    match process {
        Some(process) => {
            let text = format!(in alloc; "process {process} writes to it")?;
            noted(alloc, INPUT_REFUSED, "chain", text.as_str())
        }
        None => noted(
            alloc,
            INPUT_REFUSED,
            "chain",
            "another process writes to it",
        ),
    }
}

/// The answer where the file `lock` fails, or the folder is not there.
fn lock_failed(alloc: Global, folder: &str, error: &io::Error) -> Result<Answer, OutOfMemory> {
    match error.kind() {
        ErrorKind::NotFound => caused(alloc, WRITE_FAILED, folder, error),
        ErrorKind::NotADirectory => noted(alloc, WRITE_FAILED, folder, "it is no folder"),
        _ => {
            let path = format!(in alloc; "{folder}/lock")?;
            caused(alloc, WRITE_FAILED, path.as_str(), error)
        }
    }
}

/// The lock of the one who writes, or the answer where there is none to have.
pub(crate) fn locked<R: Files<File = File> + AllocGlobal + Clone + Drop>(
    rt: &R,
    folder: &str,
) -> Result<Given<FolderLock<R>>, OutOfMemory> {
    let alloc = rt.alloc();
    match lock_folder(rt, folder) {
        Ok(lock) => Ok(Given::Value(lock)),
        Err(LockFault::Held { process }) => Ok(Given::Nothing(held(alloc, process)?)),
        Err(LockFault::Failed { error }) => {
            Ok(Given::Nothing(lock_failed(alloc, folder, &error)?))
        }
        Err(LockFault::OutOfMemory) => Err(OutOfMemory),
    }
}
