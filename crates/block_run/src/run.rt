//! The calls that run a block.
ghost use Rattle.std.specs.Prelude.{◌≡◌, ◌≤◌, [], All, IfOk, length, map};
ghost use Rattle.sol_base.specs.Limits.{max_lanes, max_stack_height, max_transactions};
ghost use Rattle.admission.specs.Admission.{AreParsed, admitted};
ghost use Rattle.admission.specs.Answers.{told_by};
ghost use Rattle.admission.specs.Chosen.{IsChosen};
ghost use Rattle.bank_core.specs.Counts.{max_lane_numbers};
ghost use Rattle.block_record.specs.Record.{IsCounted};
ghost use Rattle.block_record.specs.Replays.{IsReplayOf};
ghost use Rattle.snapshot_codec.specs.Snapshot.{IsReadable, IsUpTo};
ghost use Rattle.block_run.specs.Answers.{IsBlockResult, IsRecorded};
ghost use Rattle.block_end.specs.Answers.{IsClosed, IsClosedRecord};
ghost use Rattle.block_run.specs.Blocks.{before_refused, block_result, closed, head_of, is_halted, listed_result, start_in};
ghost use Rattle.block_end.specs.Ending.{AreOf};
ghost use Rattle.block_run.specs.SerialRun.{told_in};

use crate::admitting::admit_on;
use crate::block::{BlockResult, Decoded, Recorded, Spent};
use crate::order::work_of;
use admission::{Candidate, InLine, Refused, line_up, line_up_listed};
use bank_core::Core;
use bank_lanes::Gate;
use block_end::{
    Chain, Closed, ClosedRecord, Crew, Head, RecordParts, close, close_record, working_in,
};
use block_lanes::run_work;
use block_record::{Block, Entry, Listed};
use message_codec::Parsed;
use snapshot_codec::{Batch, Snapshot};
use sol_base::{Blob, Items, OutOfMemory};
use std::alloc::Global;
use std::sync::Wait;
use std::thread::Threads;
use tx_exec::TxWork;

/// A block before its transactions run: they as a work, a core over the accounts, and what else the
/// snapshot has.
#[derive(Drop)]
pub(crate) struct Opened {
    pub(crate) work: TxWork,
    pub(crate) core: Core<TxWork>,
    pub(crate) chain: Chain,
}

/// Opens a block of these transactions, in their order, over a snapshot, for so many lane numbers.
pub(crate) fn open<G: Gate, R: Threads + Sync>(
    crew: &Crew<'_, G, R>,
    lane_numbers: u32,
    snapshot: Snapshot,
    slot: u64,
    order: Items<Candidate>,
) -> Result<Opened, OutOfMemory>
    requires some { 1 ≤ lane_numbers }
    requires most { lane_numbers ≤ max_lane_numbers }
    requires few { length order ≤ max_transactions }
    requires height { IsUpTo max_stack_height snapshot.limits.height }
    requires chosen { All IsChosen order }
    ensures told { IfOk result (λ opened. opened.work.told ≡ told_in snapshot slot order) }
    ensures origin { IfOk result (λ opened. opened.core.origin.value
        ≡ record { start = snapshot.accounts; told = told_in snapshot slot order }) }
    ensures journal { IfOk result (λ opened. opened.core.journal.items ≡ []) }
    ensures lanes { IfOk result (λ opened. opened.core.lanes ≡ lane_numbers) }
    ensures chain { IfOk result (λ opened. opened.chain
        ≡ record { limits = snapshot.limits; recent = snapshot.recent }) }
{
    let (work, numbered) = work_of(crew, &snapshot, slot, order)?;
    let Snapshot {
        slot: _,
        limits,
        recent,
        accounts,
    } = snapshot;
    Ok(Opened {
        core: Core::over(crew.alloc, accounts, &work, lane_numbers, numbered)?,
        work,
        chain: Chain { limits, recent },
    })
}

/// Runs transactions in their order over a snapshot, and ends the block. Where few of them are work for
/// a lane only the lanes are fewer: what is before and after them is done on all threads.
fn run_order<G: Gate, R: Threads + Wait + Sync>(
    crew: &Crew<'_, G, R>,
    snapshot: Snapshot,
    head: &Head,
    wires: &Items<Blob>,
    order: Items<Candidate>,
) -> Result<Closed, OutOfMemory>
    requires readable { IsReadable snapshot }
    requires chosen { All IsChosen order }
    requires of { AreOf wires.now order }
    ensures { IfOk result (IsClosed (closed snapshot head.now wires.now order)) }
{
    let busy = crew.busy(working_in(order.as_slice()));
    let numbers = busy.lane_numbers();
    let Opened { work, core, chain } = open(crew, numbers, snapshot, head.slot, order)?;
    let parts = RecordParts {
        head,
        previous: chain.recent.newest(),
        wires: wires.as_slice(),
        order: work.chosen(),
        kept: false,
    };
    let room = Blob::new(crew.alloc);
    let (ended, outcomes, begun) = run_work(&busy, core, &work, parts, room)?;
    close(crew, chain, parts, ended, outcomes, begun)
}

/// Runs transactions in their order over a snapshot, and writes the record of the block in the room.
/// What the run leaves behind comes with it.
fn record_order<G: Gate, R: Threads + Wait + Sync>(
    crew: &Crew<'_, G, R>,
    snapshot: Snapshot,
    batch: Batch,
    order: Items<Candidate>,
    room: Blob,
) -> Result<(ClosedRecord, Spent), OutOfMemory>
    requires readable { IsReadable snapshot }
    requires chosen { All IsChosen order }
    requires of { AreOf batch.wires order }
    ensures { IfOk result (λ end. IsClosedRecord
        (closed snapshot (head_of batch) batch.wires order) end.0) }
{
    let busy = crew.busy(working_in(order.as_slice()));
    let numbers = busy.lane_numbers();
    let head = head_of(&batch);
    let Opened { work, core, chain } = open(crew, numbers, snapshot, head.slot, order)?;
    let parts = RecordParts {
        head: &head,
        previous: chain.recent.newest(),
        wires: batch.wires.as_slice(),
        order: work.chosen(),
        kept: true,
    };
    let (ended, outcomes, begun) = run_work(&busy, core, &work, parts, room)?;
    let end = close_record(crew, chain, parts, ended, &outcomes, begun)?;
    Ok((
        end,
        Spent {
            batch,
            work,
            outcomes,
        },
    ))
}

/// The head of the block of a batch.
pub(crate) fn head_of(batch: &Batch) -> Head
    ensures { result ≡ head_of batch.now }
{
    Head {
        slot: batch.slot,
        collector: batch.collector,
    }
}

/// Runs the transactions of a batch that are admitted.
fn run_admitted<G: Gate, R: Threads + Wait + Sync>(
    crew: &Crew<'_, G, R>,
    snapshot: Snapshot,
    batch: &Batch,
    answer: InLine,
) -> Result<BlockResult, OutOfMemory>
    requires readable { IsReadable snapshot }
    requires few { length batch.now.wires ≤ max_transactions }
    requires answer { told_by answer ≡ admitted (start_in snapshot) batch.now.wires }
    requires chosen { All IsChosen answer.order }
    ensures { IfOk result (IsBlockResult (block_result snapshot batch.now)) }
{
    let InLine { order, refused } = answer;
    let Closed { block, after } = run_order(crew, snapshot, &head_of(batch), &batch.wires, order)?;
    Ok(BlockResult {
        block,
        after,
        refused,
    })
}

/// Runs a batch over a snapshot on so many lanes: the record is that of executing the admitted
/// transactions one after another, by priority (Solana; the order and the formats are the project's
/// own).
pub fn run_block<G: Gate, R: Threads + Wait + Sync>(
    rt: &R,
    alloc: Global,
    snapshot: Snapshot,
    batch: &Batch,
    lanes: u32,
    gate: &G,
) -> Result<BlockResult, OutOfMemory>
    requires some { 1 ≤ lanes }
    requires most { lanes ≤ max_lanes }
    requires readable { IsReadable snapshot }
    requires few { length batch.now.wires ≤ max_transactions }
    ensures { IfOk result (IsBlockResult (block_result snapshot batch.now)) }
{
    let answer = line_up(
        alloc,
        &batch.wires,
        &snapshot.recent,
        &snapshot.accounts,
        &snapshot.limits,
    )?;
    let crew = Crew {
        rt,
        alloc,
        lanes,
        gate,
    };
    run_admitted(&crew, snapshot, batch, answer)
}

/// Runs a batch whose wires were read before over a snapshot, on so many lanes.
pub fn run_parsed<G: Gate, R: Threads + Wait + Sync>(
    rt: &R,
    alloc: Global,
    snapshot: Snapshot,
    batch: &Batch,
    parsed: Items<Parsed>,
    lanes: u32,
    gate: &G,
) -> Result<BlockResult, OutOfMemory>
    requires some { 1 ≤ lanes }
    requires most { lanes ≤ max_lanes }
    requires readable { IsReadable snapshot }
    requires few { length batch.now.wires ≤ max_transactions }
    requires read { AreParsed batch.now.wires parsed }
    ensures { IfOk result (IsBlockResult (block_result snapshot batch.now)) }
{
    let crew = Crew {
        rt,
        alloc,
        lanes,
        gate,
    };
    let answer = admit_on(&crew, &snapshot, &batch.wires, parsed)?;
    run_admitted(&crew, snapshot, batch, answer)
}

/// Runs a batch whose wires were read before over a snapshot, and writes the record of the block: no
/// entry of it is made, and no wire is copied.
pub fn record_parsed<G: Gate, R: Threads + Wait + Sync>(
    rt: &R,
    alloc: Global,
    snapshot: Snapshot,
    decoded: Decoded,
    lanes: u32,
    gate: &G,
) -> Result<Recorded, OutOfMemory>
    requires some { 1 ≤ lanes }
    requires most { lanes ≤ max_lanes }
    requires readable { IsReadable snapshot }
    requires few { length decoded.batch.wires ≤ max_transactions }
    requires read { AreParsed decoded.batch.wires decoded.parsed }
    ensures { IfOk result (IsRecorded (block_result snapshot decoded.batch)) }
{
    let crew = Crew {
        rt,
        alloc,
        lanes,
        gate,
    };
    let Decoded {
        batch,
        parsed,
        room,
    } = decoded;
    let InLine { order, refused } = admit_on(&crew, &snapshot, &batch.wires, parsed)?;
    let (ClosedRecord { record, after }, spent) = record_order(
        &crew, snapshot, batch, order, room,
    )?;
    Ok(Recorded {
        record,
        after,
        refused,
        spent,
    })
}

/// The transactions of a block as they came.
pub(crate) fn wires_of(alloc: Global, entries: &[Entry]) -> Result<Items<Blob>, OutOfMemory>
    ensures { IfOk result (λ wires. wires ≡ map (λ entry. entry.wire) entries.now) }
{
    let mut wires = Items::with_capacity(alloc, entries.len())?;
    for entry in entries {
        wires.push(entry.wire.try_copy()?)?;
    }
    Ok(wires)
}

/// The transactions before the first that is refused.
pub(crate) fn before_refused(order: Items<Candidate>, refused: &[Refused]) -> Items<Candidate>
    ensures { result ≡ before_refused refused.now order }
{
    let mut order = order.into_vec();
    if let Some(first) = refused.first() {
        order.truncate(first.position as usize);
    }
    Items::from_vec(order)
}

/// Whether one is refused.
pub(crate) fn is_halted(refused: &[Refused]) -> bool
    ensures { result ≡ is_halted refused.now }
{
    !refused.is_empty()
}

/// Runs the entries of a block again, in their order, up to the first that is not admitted.
pub fn run_listed<G: Gate, R: Threads + Wait + Sync>(
    rt: &R,
    alloc: Global,
    snapshot: Snapshot,
    given: &Block,
    lanes: u32,
    gate: &G,
) -> Result<Listed, OutOfMemory>
    requires some { 1 ≤ lanes }
    requires most { lanes ≤ max_lanes }
    requires readable { IsReadable snapshot }
    requires few { length given.now.entries ≤ max_transactions }
    ensures exact { IfOk result (λ answer. answer ≡ listed_result snapshot given.now) }
    ensures counted { IfOk result (λ answer. IsCounted answer.block) }
    ensures cut { IfOk result (IsReplayOf given.now) }
{
    let wires = wires_of(alloc, given.entries.as_slice())?;
    let InLine { order, refused } = line_up_listed(
        alloc,
        &wires,
        &snapshot.recent,
        &snapshot.accounts,
        &snapshot.limits,
    )?;
    let head = Head {
        slot: given.slot,
        collector: given.collector,
    };
    let order = before_refused(order, refused.as_slice());
    let crew = Crew {
        rt,
        alloc,
        lanes,
        gate,
    };
    let Closed { block, after: _ } = run_order(&crew, snapshot, &head, &wires, order)?;
    Ok(Listed {
        block,
        halted: is_halted(refused.as_slice()),
    })
}
