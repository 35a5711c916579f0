//! The command `new`: a chain that begins with a snapshot.
ghost use Rattle.std.specs.Prelude.{◌≡◌, ◌≤◌, ◌∷◌, IfOk, Ok, OnOk};
ghost use Rattle.snapshot_codec.specs.Snapshot.{BeginsWith, HasWidths, IsReadable};
ghost use Rattle.snapshot_codec.specs.SnapshotReading.{prefix_of};
ghost use Rattle.ledger_folder.specs.declared.event.Event.TheVariants.{FolderSynced};
ghost use Rattle.ledger_store.specs.Adding.{beginning, begun as ledger_begun};
ghost use Rattle.ledger_store.specs.Reading.{IsOpen};
ghost use Rattle.ledger_cli.specs.Given.{IfValue, IsReadWhole};

use crate::chain::{locked, refused};
use crate::failures::unmade;
use crate::input::standard_input;
use command_parts::{Answer, Given, INPUT_REFUSED, WRITE_FAILED, noted, written};
use ledger_folder::{Folder, StdFolder, make_folder};
use ledger_store::{LedgerFault, create};
use snapshot_codec::{Prefix, Snapshot, SnapshotFault, read_snapshot};
use sol_base::OutOfMemory;
use std::alloc::Global;
use std::fs::File;
use std::rt::Files;

/// The snapshot that the bytes begin with, unless others follow it.
fn all_of(alloc: Global, bytes: &[u8], prefix: Prefix) -> Result<Given<Snapshot>, OutOfMemory>
    requires exact { prefix_of bytes.now ≡ Ok prefix }
    requires begins { BeginsWith bytes.now prefix }
    ensures readable { IfOk result (IfValue IsReadable) }
    ensures widths { IfOk result (IfValue HasWidths) }
    ensures whole { IfOk result (IfValue (IsReadWhole bytes.now)) }
{
    let Prefix { snapshot, length } = prefix;
    if length < bytes.len() {
        let text = format!(in alloc; "bytes follow it from byte {length} on")?;
        let told = noted(alloc, INPUT_REFUSED, "snapshot", text.as_str())?;
        return Ok(Given::Nothing(told));
    }
    Ok(Given::Value(snapshot))
}

/// The snapshot that the bytes are, all of them.
fn whole_snapshot(alloc: Global, bytes: &[u8]) -> Result<Given<Snapshot>, OutOfMemory>
    ensures readable { IfOk result (IfValue IsReadable) }
    ensures widths { IfOk result (IfValue HasWidths) }
    // It is what all the bytes are read as: nothing is behind it.
    ensures whole { IfOk result (IfValue (IsReadWhole bytes.now)) }
{
    match read_snapshot(alloc, bytes) {
        Ok(prefix) => all_of(alloc, bytes, prefix),
        Err(SnapshotFault::OutOfMemory) => Err(OutOfMemory),
        Err(fault) => {
            let text = fault.to_string(alloc)?;
            let told = noted(alloc, INPUT_REFUSED, "snapshot", text.as_str())?;
            Ok(Given::Nothing(told))
        }
    }
}

/// Begins a chain. What the folder's files are is on the disk before: whoever wrote last may have ended
/// between a move and the sync of the folder.
fn create_synced<F: Folder>(
    alloc: Global,
    files: &mut F,
    snapshot: &Snapshot,
    every: u32,
) -> Result<(), LedgerFault>
    requires every { 1 ≤ every }
    requires readable { IsReadable snapshot.now }
    requires widths { HasWidths snapshot.now }
    // What it does, step by step: the folder is synced first.
    ensures made { OnOk result
        (F.events files.new ≡ beginning snapshot.now every (FolderSynced ∷ F.events files.old)) }
    ensures opens { OnOk result (IsOpen (F.events files.new) (ledger_begun snapshot.now every)) }
{
    files.sync_folder()?;
    create(alloc, files, snapshot, every)
}

/// Begins a chain in a folder whose lock is held.
fn begin_in<F: Folder>(
    alloc: Global,
    folder: &str,
    files: &mut F,
    snapshot: &Snapshot,
    every: u32,
) -> Result<Answer, OutOfMemory>
    requires every { 1 ≤ every }
    requires readable { IsReadable snapshot.now }
    requires widths { HasWidths snapshot.now }
    // Status 0 says that each step was done.
    ensures stands { IfOk result (λ told. told.status ≡ 0 →
        (F.events files.new ≡ beginning snapshot.now every (FolderSynced ∷ F.events files.old))) }
    // Opening the folder then gives the chain.
    ensures opens { IfOk result (λ told. told.status ≡ 0 →
        IsOpen (F.events files.new) (ledger_begun snapshot.now every)) }
{
    match create_synced(alloc, files, snapshot, every) {
        Ok(()) => written(alloc, b""),
        Err(fault) => refused(alloc, WRITE_FAILED, folder, fault, files.failure()),
    }
}

/// Makes the folder, unless it is there, and what the chain begins with.
fn begin<R: Files<File = File> + AllocGlobal + Clone + Drop>(
    rt: &R,
    folder: &str,
    snapshot: &Snapshot,
    every: u32,
) -> Result<Answer, OutOfMemory>
    requires every { 1 ≤ every }
    requires readable { IsReadable snapshot.now }
    requires widths { HasWidths snapshot.now }
{
    let alloc = rt.alloc();
    match make_folder(rt, folder) {
        Ok(()) => {}
        Err(e) => return unmade(alloc, folder, &e),
    }
    let _lock = match locked(rt, folder)? {
        Given::Value(lock) => lock,
        Given::Nothing(told) => return Ok(told),
    };
    let mut files = StdFolder::new(rt, folder)?;
    begin_in(alloc, folder, &mut files, snapshot, every)
}

/// The answer to `new`.
pub(crate) fn begun<R: Files<File = File> + Input + AllocGlobal + Clone + Drop>(
    rt: &R,
    folder: &str,
    every: u32,
) -> Result<Answer, OutOfMemory>
    requires { 1 ≤ every }
{
    let input = match standard_input(rt)? {
        Given::Value(input) => input,
        Given::Nothing(told) => return Ok(told),
    };
    match whole_snapshot(rt.alloc(), input.as_slice())? {
        Given::Value(snapshot) => begin(rt, folder, &snapshot, every),
        Given::Nothing(told) => Ok(told),
    }
}
