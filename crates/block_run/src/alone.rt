//! The calls that run a block on one lane, on the caller's thread. They wait for nobody.
ghost use Rattle.std.specs.Prelude.{◌≡◌, ◌≤◌, All, IfOk, length};
ghost use Rattle.sol_base.specs.Limits.{max_transactions};
ghost use Rattle.admission.specs.Chosen.{IsChosen};
ghost use Rattle.block_record.specs.Record.{IsCounted};
ghost use Rattle.block_record.specs.Replays.{IsReplayOf};
ghost use Rattle.snapshot_codec.specs.Snapshot.{IsReadable};
ghost use Rattle.block_end.specs.Answers.{IsClosed};
ghost use Rattle.block_end.specs.Ending.{AreOf};
ghost use Rattle.block_run.specs.Answers.{IsBlockResult};
ghost use Rattle.block_run.specs.Blocks.{block_result, closed, listed_result};

use crate::block::BlockResult;
use crate::run::{Opened, before_refused, head_of, is_halted, open, wires_of};
use admission::{Candidate, InLine, line_up, line_up_listed};
use bank_lanes::Gate;
use block_end::{Closed, Crew, Head, RecordParts, close};
use block_lanes::run_work_alone;
use block_record::{Block, Listed};
use snapshot_codec::{Batch, Snapshot};
use sol_base::{Blob, Items, OutOfMemory};
use std::alloc::Global;
use std::thread::Threads;

/// Runs transactions in their order over a snapshot on one lane, and ends the block.
fn run_order_alone<G: Gate, R: Threads + Sync>(
    crew: &Crew<'_, G, R>,
    snapshot: Snapshot,
    head: &Head,
    wires: &Items<Blob>,
    order: Items<Candidate>,
) -> Result<Closed, OutOfMemory>
    requires readable { IsReadable snapshot }
    requires chosen { All IsChosen order }
    requires of { AreOf wires.now order }
    ensures { IfOk result (IsClosed (closed snapshot head.now wires.now order)) }
{
    let Opened { work, core, chain } = open(crew, 1, snapshot, head.slot, order)?;
    let parts = RecordParts {
        head,
        previous: chain.recent.newest(),
        wires: wires.as_slice(),
        order: work.chosen(),
        kept: false,
    };
    let room = Blob::new(crew.alloc);
    let (ended, outcomes, begun) = run_work_alone(crew.gate, core, &work, parts, room)?;
    close(crew, chain, parts, ended, outcomes, begun)
}

/// Runs a batch over a snapshot on one lane, on the caller's thread. It returns what `run_block`
/// returns, and waits for nobody.
pub fn run_block_alone<G: Gate, R: Threads + Sync>(
    rt: &R,
    alloc: Global,
    snapshot: Snapshot,
    batch: &Batch,
    gate: &G,
) -> Result<BlockResult, OutOfMemory>
    requires readable { IsReadable snapshot }
    requires few { length batch.now.wires ≤ max_transactions }
    ensures { IfOk result (IsBlockResult (block_result snapshot batch.now)) }
{
    let InLine { order, refused } = line_up(
        alloc,
        &batch.wires,
        &snapshot.recent,
        &snapshot.accounts,
        &snapshot.limits,
    )?;
    let crew = Crew {
        rt,
        alloc,
        lanes: 1,
        gate,
    };
    let head = head_of(batch);
    let Closed { block, after } = run_order_alone(&crew, snapshot, &head, &batch.wires, order)?;
    Ok(BlockResult {
        block,
        after,
        refused,
    })
}

/// Runs the entries of a block again on one lane, on the caller's thread, in their order, up to the
/// first that is not admitted. It returns what `run_listed` returns, and waits for nobody.
pub fn run_listed_alone<G: Gate, R: Threads + Sync>(
    rt: &R,
    alloc: Global,
    snapshot: Snapshot,
    given: &Block,
    gate: &G,
) -> Result<Listed, OutOfMemory>
    requires readable { IsReadable snapshot }
    requires few { length given.now.entries ≤ max_transactions }
    ensures exact { IfOk result (λ answer. answer ≡ listed_result snapshot given.now) }
    ensures counted { IfOk result (λ answer. IsCounted answer.block) }
    ensures cut { IfOk result (IsReplayOf given.now) }
{
    let wires = wires_of(alloc, given.entries.as_slice())?;
    let InLine { order, refused } = line_up_listed(
        alloc,
        &wires,
        &snapshot.recent,
        &snapshot.accounts,
        &snapshot.limits,
    )?;
    let head = Head {
        slot: given.slot,
        collector: given.collector,
    };
    let order = before_refused(order, refused.as_slice());
    let crew = Crew {
        rt,
        alloc,
        lanes: 1,
        gate,
    };
    let Closed { block, after: _ } = run_order_alone(&crew, snapshot, &head, &wires, order)?;
    Ok(Listed {
        block,
        halted: is_halted(refused.as_slice()),
    })
}
