//! The commands that are done on the caller's lane alone. They wait for nobody, so they return.
ghost use Rattle.std.specs.Prelude.{◌≡◌, ◌≤◌, length, true, IfOk};
ghost use Rattle.sol_base.specs.Limits.{max_transactions};
ghost use Rattle.bank_words.specs.Commands.{IsInRange};
ghost use Rattle.block_record.specs.Record.{IsCounted};
ghost use Rattle.snapshot_codec.specs.Snapshot.{IsReadable};
ghost use Rattle.bank_cli.specs.Answer.{answer_to, input_limit, is_alone, made_answer, made_run, replayed, replayed_over};

use crate::asm::{assembled, listed};
use crate::make::{line_of, write_input};
use crate::replay::judge;
use crate::show::shown;
use crate::texts::{refuse_record, refuse_snapshot, tell};
use bank_lanes::Gate;
use bank_words::Command;
use batch_gen::{Made, make};
use block_record::{Block, read_record};
use block_replay::compare;
use block_run::{run_block_alone, run_listed_alone};
use command_parts::Answer;
use snapshot_codec::{Snapshot, read_snapshot};
use sol_base::{Blob, OutOfMemory};
use std::alloc::Global;
use std::thread::Threads;

/// Whether a command is done on the caller's lane alone: any but `produce`, on one lane if it runs
/// transactions.
pub(crate) fn is_alone(command: Command) -> bool
    ensures { result ≡ is_alone command }
{
    match command {
        Command::Produce { .. } => false,
        Command::Replay { lanes } => lanes == 1,
        Command::Make { run, lanes, .. } => !run || lanes == 1,
        Command::Show | Command::Assemble | Command::List => true,
    }
}

/// The answer to a command that is done on the caller's lane alone, and the whole input.
pub(crate) fn answer_alone<G: Gate, R: Threads + Sync>(
    rt: &R,
    alloc: Global,
    command: Command,
    input: Blob,
    gate: &G,
) -> Result<Answer, OutOfMemory>
    requires alone { is_alone command ≡ true }
    requires range { IsInRange command }
    requires limit { length input ≤ input_limit }
    ensures { IfOk result (λ told. told ≡ answer_to command input) }
{
    match command {
        Command::Replay { .. } => replayed_alone(rt, alloc, input, gate),
        Command::Make {
            number,
            count,
            run,
            lanes: _,
        } => made_alone(rt, alloc, number, count, run, gate),
        Command::Show => shown(alloc, input),
        Command::Assemble => assembled(alloc, input),
        Command::List => listed(alloc, input),
        Command::Produce { .. } => unreachable!(),
    }
}

/// The answer to `replay` on one lane: a snapshot and a record after it.
fn replayed_alone<G: Gate, R: Threads + Sync>(
    rt: &R,
    alloc: Global,
    input: Blob,
    gate: &G,
) -> Result<Answer, OutOfMemory>
    ensures { IfOk result (λ told. told ≡ replayed input) }
{
    let bytes = input.as_slice();
    let prefix = match read_snapshot(alloc, bytes) {
        Ok(prefix) => prefix,
        Err(fault) => return refuse_snapshot(alloc, fault),
    };
    match read_record(alloc, &bytes[prefix.length..]) {
        Ok(given) => {
            drop(input);
            replay_block_alone(rt, alloc, prefix.snapshot, &given, gate)
        }
        Err(fault) => refuse_record(alloc, fault),
    }
}

/// Runs the entries again, and compares.
fn replay_block_alone<G: Gate, R: Threads + Sync>(
    rt: &R,
    alloc: Global,
    snapshot: Snapshot,
    given: &Block,
    gate: &G,
) -> Result<Answer, OutOfMemory>
    requires readable { IsReadable snapshot }
    requires counted { IsCounted given.now }
    ensures { IfOk result (λ told. told ≡ replayed_over snapshot given.now) }
{
    let slot = snapshot.slot;
    let newest = snapshot.recent.newest();
    let listed = run_listed_alone(rt, alloc, snapshot, given, gate)?;
    let verdict = compare(alloc, slot, &newest, given, &listed)?;
    judge(alloc, given, &verdict)
}

/// The answer to `make` on one lane.
fn made_alone<G: Gate, R: Threads + Sync>(
    rt: &R,
    alloc: Global,
    number: u64,
    count: u32,
    run: bool,
    gate: &G,
) -> Result<Answer, OutOfMemory>
    requires count { (1 ≤ count) × (count ≤ max_transactions) }
    ensures { IfOk result (λ told. told ≡ made_answer number count run) }
{
    let input = make(alloc, number, count)?;
    if run {
        run_made_alone(rt, alloc, count, input, gate)
    } else {
        write_input(alloc, &input)
    }
}

/// The line of what the input comes to.
fn run_made_alone<G: Gate, R: Threads + Sync>(
    rt: &R,
    alloc: Global,
    count: u32,
    input: Made,
    gate: &G,
) -> Result<Answer, OutOfMemory>
    requires readable { IsReadable input.snapshot }
    requires few { length input.batch.wires ≤ max_transactions }
    ensures { IfOk result (λ told. told ≡ made_run count input) }
{
    let Made { snapshot, batch } = input;
    let done = run_block_alone(rt, alloc, snapshot, &batch, gate)?;
    let line = line_of(alloc, count, &done.block)?;
    Ok(tell(alloc, line))
}
