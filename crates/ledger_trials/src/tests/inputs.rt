//! Snapshots and blocks without transactions, and chains of them.
ghost use Rattle.std.specs.Prelude.{◌≡◌, ◌≤◌, IfOk};
ghost use Rattle.snapshot_codec.specs.Snapshot.{IsReadable};
ghost use Rattle.block_record.specs.Record.{IsCounted};

use block_record::{Block, read_record};
use ledger_folder::{Folder, MemFolder};
use ledger_store::{Ledger, LedgerFault, add, create, follows, open_ledger};
use snapshot_codec::{
    Prefix, Snapshot, read_snapshot, readable_snapshots_are_writable, snapshot_bytes,
};
use sol_base::{Blob, OutOfMemory};
use std::alloc::Global;
use std::test::Fail;
use std::thread::Threads;

/// What follows the slot in a snapshot with the first limits.
const FIRST_LIMITS: [u8; 19] = [
    0x40, 0, 5, 0x00, 0x1b, 0xb7, 0, 0, 0, 0, 0, 0x00, 0x6c, 0xdc, 0x02, 0, 0, 0, 0,
];

/// The slot of the block of a number: every second one is left out.
pub(crate) fn slot_of(number: u8) -> u64 {
    100 + 2 * u64::from(number)
}

/// Adds the marks after the block of a number, newest first, each without messages.
fn append_marks(out: &mut Blob, number: u8) -> Result<(), OutOfMemory> {
    out.append(&u32::from(number).to_le_bytes())?;
    for at in 0..number {
        out.append(&[number - at; 32])?;
        out.append(&[0; 4])?;
    }
    Ok(())
}

/// The lamports of an account after the block of a number: those of one account change with it.
fn lamports_of(number: u8, at: u8) -> u64 {
    if u64::from(at) == (u64::from(number) + 4) % 9 {
        1000 + u64::from(number)
    } else {
        10 + u64::from(at)
    }
}

/// Adds an account with up to two bytes of data.
fn append_account(out: &mut Blob, number: u8, at: u8) -> Result<(), OutOfMemory> {
    let data = usize::from(at % 3);
    out.append(&[at; 32])?;
    out.append(&lamports_of(number, at).to_le_bytes())?;
    out.append(&[0; 33])?;
    out.append(&[at % 3, 0, 0, 0])?;
    out.append(&[at; 3][..data])
}

/// Adds the accounts after the block of a number: of nine keys one is gone, another with each block.
fn append_accounts(out: &mut Blob, number: u8) -> Result<(), OutOfMemory> {
    out.append(&[8, 0, 0, 0])?;
    for at in 0..9 {
        if at != number % 9 {
            append_account(out, number, at)?;
        }
    }
    Ok(())
}

/// The bytes of a snapshot of the slot, after the block of a number.
fn snapshot_bytes_of(alloc: Global, slot: u64, number: u8) -> Result<Blob, OutOfMemory> {
    let mut out = Blob::from_slice(alloc, b"SOLSNAP2")?;
    out.append(&slot.to_le_bytes())?;
    out.append(&FIRST_LIMITS)?;
    append_marks(&mut out, number)?;
    append_accounts(&mut out, number)?;
    Ok(out)
}

/// The snapshot of the slot, after the block of a number.
fn snapshot(alloc: Global, slot: u64, number: u8) -> Result<Snapshot, Fail>
    ensures { IfOk result IsReadable }
{
    let bytes = snapshot_bytes_of(alloc, slot, number)?;
    let Prefix { snapshot, .. } = read_snapshot(alloc, bytes.as_slice())?;
    Ok(snapshot)
}

/// The block of the slot, without entries.
fn block(alloc: Global, slot: u64, number: u8) -> Result<Block, Fail>
    ensures { IfOk result IsCounted }
{
    let mut bytes = Blob::from_slice(alloc, b"SOLBLCK1")?;
    bytes.append(&slot.to_le_bytes())?;
    bytes.append(&[7; 32])?;
    bytes.append(&[number; 32])?;
    bytes.append(&[0; 20])?;
    bytes.append(&[number; 64])?;
    Ok(read_record(alloc, bytes.as_slice())?)
}

/// Adds the block of a number to the chain of a folder, at the slot.
fn add_at<T: Threads, F: Folder>(
    threads: &T,
    alloc: Global,
    folder: &mut F,
    slot: u64,
    number: u8,
) -> Result<Result<(), LedgerFault>, Fail> {
    let mut ledger = open_ledger(threads, alloc, folder)?;
    let block = block(alloc, slot, number)?;
    let after = snapshot(alloc, slot, number)?;
    if follows(&ledger.newest, &block, &after) {
        let micros = u64::from(number);
        return Ok(add(threads, alloc, folder, &mut ledger, &block, after, micros));
    }
    let nothing: Option<Result<(), LedgerFault>> = None;
    Ok(nothing.ok_or("the block does not follow")?)
}

/// Adds the block of a number to the chain of a folder, at its own slot.
pub(crate) fn add_block<T: Threads, F: Folder>(
    threads: &T,
    alloc: Global,
    folder: &mut F,
    number: u8,
) -> Result<Result<(), LedgerFault>, Fail> {
    add_at(threads, alloc, folder, slot_of(number), number)
}

/// Begins a chain.
fn begin<F: Folder>(
    alloc: Global,
    folder: &mut F,
    every: u32,
) -> Result<Result<(), LedgerFault>, Fail>
    requires { 1 ≤ every }
{
    Ok(create(alloc, folder, &snapshot(alloc, slot_of(0), 0)?, every))
}

/// A chain of so many blocks.
pub(crate) fn chain<T: Threads>(
    threads: &T,
    alloc: Global,
    every: u32,
    blocks: u8,
) -> Result<MemFolder, Fail>
    requires { 1 ≤ every }
{
    let mut folder = MemFolder::new(alloc, 1000);
    begin(alloc, &mut folder, every)??;
    for before in 0..blocks {
        add_block(threads, alloc, &mut folder, before + 1)??;
    }
    Ok(folder)
}

/// Whether the snapshot is the one after the block of a number.
fn is_state(alloc: Global, state: &Snapshot, number: u8) -> Result<bool, Fail>
    requires { IsReadable state.now }
{
    readable_snapshots_are_writable();
    let found = snapshot_bytes(alloc, state)?;
    let wanted = snapshot_bytes_of(alloc, slot_of(number), number)?;
    Ok(found.as_slice() == wanted.as_slice())
}

/// Whether a chain that is open has so many blocks, and is as it was made.
pub(crate) fn stands_at(alloc: Global, ledger: &Ledger, number: u8) -> Result<bool, Fail>
    requires { IsReadable ledger.now.newest }
{
    Ok(is_state(alloc, &ledger.newest, number)? && ledger.head.slots.len() == usize::from(number))
}
