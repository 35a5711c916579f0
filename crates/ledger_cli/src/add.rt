//! The command `add`: a batch is run over the newest state, and the block is written.
ghost use Rattle.std.specs.Prelude.{◌≡◌, ◌≤◌, ◌<◌, ◌^◌, ◌∷◌, false, true, Ok, IfErr, IfOk, OnErr, OnOk, length, map};
ghost use Rattle.std.specs.List.{AllByRecursion};
ghost use Rattle.spec_base.specs.Bytes.{IsBytes};
ghost use Rattle.sol_base.specs.Keys.{IsKey};
ghost use Rattle.sol_base.specs.Limits.{max_senders, max_transactions};
ghost use Rattle.message_codec.specs.Parsing.{parsed_of};
ghost use Rattle.account_store.specs.State.{len};
ghost use Rattle.snapshot_codec.specs.Snapshot.{HasWidths, IsReadable, max_accounts};
ghost use Rattle.block_record.specs.Record.{IsCounted};
ghost use Rattle.block_run.specs.Answers.{IsBlockResult};
ghost use Rattle.block_run.specs.Blocks.{block_result};
ghost use Rattle.ledger_folder.specs.Crash.{LeavesOnly};
ghost use Rattle.ledger_folder.specs.declared.event.Event.TheVariants.{FolderSynced};
ghost use Rattle.ledger_store.specs.Adding.{OnlyReads};
ghost use Rattle.ledger_store.specs.Watching.{IsOpening, finished};
ghost use Rattle.snapshot_codec.specs.BatchReading.{batch_of};
ghost use Rattle.ledger_cli.specs.Batches.{IsAdded, IsWithBatchOrNot, Stands};
ghost use Rattle.ledger_cli.specs.Crew.{IsCrew};

use crate::chain::{copied, locked, refused};
use crate::clock::{now, since};
use crate::input::standard_input;
use crate::lines::{Times, added_line};
use admission::{Refused, refusal_text};
use bank_lanes::OpenGate;
use block_laws::next_blocks_can_be_run;
use block_record::Block;
use block_run::{BlockResult, run_parsed};
use command_parts::{Answer, Given, INPUT_REFUSED, READ_FAILED, WRITE_FAILED, noted};
use intake::{OpenSend, gather};
use ledger_folder::{Failure, Folder, StdFolder};
use ledger_store::{LedgerFault, Opening, add, begin_opening};
use message_codec::Parsed;
use side_by_side::call_both;
use snapshot_codec::{Batch, BatchFault, MAX_ACCOUNTS, Snapshot, read_batch};
use sol_base::{Blob, Items, OutOfMemory};
use std::alloc::Global;
use std::fs::File;
use std::mem::forget;
use std::rt::{Clock, Files};
use std::sync::Wait;
use std::thread::Threads;
use width_laws::snapshots_after_blocks_have_widths;

/// What runs a block.
#[derive(Clone, Copy)]
pub(crate) struct Crew {
    pub(crate) lanes: u32,
    pub(crate) senders: u32,
}

/// A line for each transaction that did not run.
fn refused_notes(alloc: Global, refused: &[Refused]) -> Result<Blob, OutOfMemory> {
    let mut notes = Blob::new(alloc);
    for one in refused {
        let position = one.position;
        let cause = refusal_text(alloc, &one.cause)?;
        notes.append(format!(in alloc; "refused {position}: ")?.as_bytes())?;
        notes.append(cause.as_slice())?;
        notes.append(b"\n")?;
    }
    Ok(notes)
}

/// The transactions of a batch as they are read, and beside that a copy of the state, since a run
/// takes its state away.
fn prepared<T: Threads + Wait + Sync>(
    threads: &T,
    alloc: Global,
    newest: &Snapshot,
    batch: &Batch,
    senders: u32,
) -> Result<(Items<Parsed>, Snapshot), OutOfMemory>
    requires senders { (1 ≤ senders) × (senders ≤ max_senders) }
    requires readable { IsReadable newest.now }
    requires few { length batch.now.wires ≤ max_transactions }
    ensures parsed { IfOk result (λ both. both.0 ≡ map parsed_of batch.now.wires) }
    ensures same { IfOk result (λ both. both.1 ≡ newest.now) }
{
    let (snapshot, parsed) = call_both(
        threads,
        || -> Result<Snapshot, OutOfMemory>
            requires { IsReadable newest.now }
            ensures { IfOk result (λ snapshot. snapshot ≡ newest.entry.now) }
        { copied(alloc, newest) },
        || -> Result<Items<Parsed>, OutOfMemory>
            requires { (1 ≤ senders) × (senders ≤ max_senders)
                × (length batch.now.wires ≤ max_transactions) }
            ensures { IfOk result (λ parsed. parsed ≡ map parsed_of batch.entry.now.wires) }
        { Ok(gather(threads, alloc, &batch.wires, senders, &OpenSend)?.parsed) },
    );
    Ok((parsed?, snapshot?))
}

/// Runs a batch over a state: what it comes to, and how many microseconds the run took.
fn run_batch<R: Clock + AllocGlobal, T: Threads + Wait + Sync>(
    rt: &R,
    threads: &T,
    newest: &Snapshot,
    batch: &Batch,
    crew: &Crew,
) -> Result<(BlockResult, u64), OutOfMemory>
    requires crew { IsCrew crew.now }
    requires readable { IsReadable newest.now }
    requires few { length batch.now.wires ≤ max_transactions }
    requires bytes { AllByRecursion IsBytes batch.now.wires }
    ensures { IfOk result (λ ran. IsBlockResult (block_result newest.now batch.now) ran.0) }
{
    let alloc = rt.alloc();
    let (parsed, snapshot) = prepared(threads, alloc, newest, batch, crew.senders)?;
    let began = now(rt);
    let ran = run_parsed(
        threads, alloc, snapshot, batch, parsed, crew.lanes, &OpenGate,
    )?;
    Ok((ran, since(rt, &began)))
}

/// The answer once a block was to be added: its line, or why it was not.
fn told(
    alloc: Global,
    folder: &str,
    added: Result<(), LedgerFault>,
    failure: Option<Failure>,
    block: &Block,
    unrun: &[Refused],
    times: &Times,
) -> Result<Answer, OutOfMemory>
    requires { IsCounted block.now }
    ensures { IfOk result (λ told. OnErr added (told.status ≡ 0 → ⊥)) }
{
    if let Err(fault) = added {
        return refused(alloc, WRITE_FAILED, folder, fault, failure);
    }
    let line = added_line(alloc, block, unrun.len(), times)?;
    Ok(Answer {
        status: 0,
        output: Blob::from_slice(alloc, line.as_bytes())?,
        notes: refused_notes(alloc, unrun)?,
    })
}

/// Whether a snapshot has no more accounts than it may.
fn has_room(after: &Snapshot) -> bool
    ensures fits { result ≡ true → len after.now.accounts ≤ max_accounts }
    ensures more { result ≡ false → max_accounts < len after.now.accounts }
{
    after.accounts.len() <= MAX_ACCOUNTS as usize
}

/// Runs a batch over the newest state of a chain, and adds the block once the chain's files are known to
/// be what was written. Nothing of the block is given back: a user waits for the answer, and the program
/// ends with it.
fn add_batch<R: Clock + AllocGlobal, F: Folder, T: Threads + Wait + Sync>(
    rt: &R,
    threads: &T,
    folder: &str,
    files: &mut F,
    opening: Opening,
    batch: &Batch,
    crew: &Crew,
    opened: u64,
) -> Result<Answer, OutOfMemory>
    requires crew { IsCrew crew.now }
    requires opening { IsOpening (F.events files.old) opening }
    requires every { 1 ≤ opening.ledger.head.every }
    requires readable { IsReadable opening.ledger.newest }
    requires widths { HasWidths opening.ledger.newest }
    requires few { length batch.now.wires ≤ max_transactions }
    requires bytes { AllByRecursion IsBytes batch.now.wires }
    requires fits { batch.now.slot < 2 ^ 64 }
    requires collector { IsKey batch.now.collector }
    // A crash at any moment leaves the chain before the block of the batch or after it.
    ensures any_moment { finished opening ≡ Ok opening.ledger →
        LeavesOnly (F.events files.old) (F.events files.new)
        (IsWithBatchOrNot opening.ledger batch.now) }
    // Status 0 says that the files are what was written, and that each crash leaves the chain with it.
    ensures stands { IfOk result (λ told. told.status ≡ 0 →
        (finished opening ≡ Ok opening.ledger)
        × Stands opening.ledger batch.now (F.events files.old) (F.events files.new)) }
    // Where the files are not what was written, nothing is done.
    ensures refused { IfErr (finished opening) (λ _. F.events files.new ≡ F.events files.old) }
{
    let alloc = rt.alloc();
    let (ran, run) = run_batch(rt, threads, &opening.ledger.newest, batch, crew)?;
    let waits = now(rt);
    let mut ledger = match opening.finish(threads) {
        Ok(ledger) => ledger,
        Err(fault) => return refused(alloc, READ_FAILED, folder, fault, files.failure()),
    };
    let open = opened.saturating_add(since(rt, &waits));
    let BlockResult {
        block,
        after,
        refused: unrun,
    } = ran;
    if !has_room(&after) {
        return noted(alloc, INPUT_REFUSED, "batch", "it leaves too many accounts");
    }
    next_blocks_can_be_run();
    snapshots_after_blocks_have_widths();
    let began = now(rt);
    let added = add(threads, alloc, files, &mut ledger, &block, after, run);
    let keep = since(rt, &began);
    let times = Times { open, run, keep };
    let failure = files.failure();
    let answer = told(
        alloc,
        folder,
        added,
        failure,
        &block,
        unrun.as_slice(),
        &times,
    )?;
    forget((ledger, block, unrun));
    Ok(answer)
}

/// Begins to open a chain that is to be written to. What its files are is then on the disk: whoever wrote
/// last may have ended between a move and the sync of the folder.
fn open_synced<F: Folder, T: Threads>(
    threads: &T,
    alloc: Global,
    files: &mut F,
) -> Result<Opening, LedgerFault>
    // The folder is synced, and behind that files are read alone.
    ensures synced { OnOk result
        (OnlyReads (FolderSynced ∷ F.events files.old) (F.events files.new)) }
    ensures opening { IfOk result (IsOpening (F.events files.new)) }
    ensures every { IfOk result (λ opening. 1 ≤ opening.ledger.head.every) }
    ensures readable { IfOk result (λ opening. IsReadable opening.ledger.newest) }
    ensures widths { IfOk result (λ opening. HasWidths opening.ledger.newest) }
{
    files.sync_folder()?;
    begin_opening(threads, alloc, files)
}

/// The slot of a batch, which is behind its first eight bytes.
fn slot_in(bytes: &[u8]) -> Option<u64> {
    let (slot, _) = bytes.get(8..)?.split_first_chunk::<8>()?;
    Some(u64::from_le_bytes(*slot))
}

/// Why a batch is refused by a chain whose newest slot is this.
fn batch_text(
    alloc: Global,
    bytes: &[u8],
    newest: u64,
    fault: BatchFault,
) -> Result<String, OutOfMemory> {
    match (fault, slot_in(bytes)) {
        (BatchFault::SlotNotLater, Some(slot)) => {
            Ok(format!(in alloc; "slot {slot}: the chain is at slot {newest} already")?)
        }
        (fault, _) => Ok(fault.to_string(alloc)?),
    }
}

/// The answer to a batch that is refused, unless the chain is: its files come before.
fn refused_batch<T: Threads>(
    threads: &T,
    alloc: Global,
    folder: &str,
    opening: Opening,
    bytes: &[u8],
    fault: BatchFault,
) -> Result<Answer, OutOfMemory>
    ensures { IfOk result (λ told. told.status ≡ 3) }
{
    if let BatchFault::OutOfMemory = fault {
        return Err(OutOfMemory);
    }
    let newest = opening.ledger.newest.slot;
    if let Err(fault) = opening.finish(threads) {
        return refused(alloc, READ_FAILED, folder, fault, None);
    }
    let text = batch_text(alloc, bytes, newest, fault)?;
    noted(alloc, INPUT_REFUSED, "batch", text.as_str())
}

/// The batch that the bytes are, for a block after a slot.
fn batch_in(alloc: Global, bytes: &[u8], before: u64) -> Result<Batch, BatchFault>
    ensures few { IfOk result (λ batch. length batch.wires ≤ max_transactions) }
    ensures bytes { IfOk result (λ batch. AllByRecursion IsBytes batch.wires) }
    ensures fits { IfOk result (λ batch. batch.slot < 2 ^ 64) }
    ensures collector { IfOk result (λ batch. IsKey batch.collector) }
    ensures same { IfOk result (λ batch. batch_of before bytes.now ≡ Ok batch) }
{
    let batch = read_batch(alloc, bytes, before)?;
    Ok(batch)
}

/// Adds a batch to the chain of a folder whose lock is held.
fn add_in<R: Clock + AllocGlobal, F: Folder, T: Threads + Wait + Sync>(
    rt: &R,
    threads: &T,
    folder: &str,
    files: &mut F,
    bytes: &[u8],
    crew: &Crew,
) -> Result<Answer, OutOfMemory>
    requires { IsCrew crew.now }
    // Status 0 says that the block stands: after every crash the chain has it.
    ensures stands { IfOk result (λ told. told.status ≡ 0 →
        IsAdded bytes.now (F.events files.old) (F.events files.new)) }
{
    let alloc = rt.alloc();
    let began = now(rt);
    let opening = match open_synced(threads, alloc, files) {
        Ok(opening) => opening,
        Err(fault) => return refused(alloc, READ_FAILED, folder, fault, files.failure()),
    };
    let opened = since(rt, &began);
    let batch = match batch_in(alloc, bytes, opening.ledger.newest.slot) {
        Ok(batch) => batch,
        Err(fault) => return refused_batch(threads, alloc, folder, opening, bytes, fault),
    };
    let answer = add_batch(rt, threads, folder, files, opening, &batch, crew, opened)?;
    forget(batch);
    Ok(answer)
}

/// The answer to `add`. The lock is held from before the chain is opened until the block is there.
pub(crate) fn added<
    R: Files<File = File> + Input + Clock + AllocGlobal + Clone + Drop,
    T: Threads + Wait + Sync,
>(rt: &R, threads: &T, folder: &str, crew: &Crew) -> Result<Answer, OutOfMemory>
    requires { IsCrew crew.now }
{
    let input = match standard_input(rt)? {
        Given::Value(input) => input,
        Given::Nothing(told) => return Ok(told),
    };
    let _lock = match locked(rt, folder)? {
        Given::Value(lock) => lock,
        Given::Nothing(told) => return Ok(told),
    };
    let mut files = StdFolder::new(rt, folder)?;
    add_in(rt, threads, folder, &mut files, input.as_slice(), crew)
}
