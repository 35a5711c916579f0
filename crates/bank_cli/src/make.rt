//! The command `make`: an input that a number draws, or what it comes to.
ghost use Rattle.std.specs.Prelude.{◌≡◌, ◌≤◌, ◌++◌, length, All, IfOk, IfSome, OnOk};
ghost use Rattle.std.specs.Option.{is_some};
ghost use Rattle.sol_base.specs.Limits.{max_lanes, max_transactions};
ghost use Rattle.batch_gen.specs.Generator.{made};
ghost use Rattle.snapshot_codec.specs.Batch.{IsShortWire};
ghost use Rattle.snapshot_codec.specs.Snapshot.{IsReadable};
ghost use Rattle.bank_cli.specs.Answer.{count_of, counts_text, input_bytes, is_dropped, is_failed, is_good, made_answer, made_run, run_line};
ghost use Rattle.command_parts.specs.Answers.{written};

use crate::texts::{append_hash, append_number, tell};
use bank_lanes::Gate;
use batch_gen::{Made, make};
use block_record::{Block, Entry};
use block_run::run_block;
use command_parts::Answer;
use snapshot_codec::{batch_bytes, snapshot_bytes};
use sol_base::{Blob, OutOfMemory};
use std::alloc::Global;
use std::sync::Wait;
use std::thread::Threads;
use tx_report::Status;

/// The answer to `make`: the input that the number draws; or, with a number of lanes, one line of
/// what it comes to on them.
pub(crate) fn made<G: Gate, R: Threads + Wait + Sync>(
    rt: &R,
    alloc: Global,
    number: u64,
    count: u32,
    lanes: Option<u32>,
    gate: &G,
) -> Result<Answer, OutOfMemory>
    requires count { (1 ≤ count) × (count ≤ max_transactions) }
    requires lanes { IfSome lanes (λ lanes. (1 ≤ lanes) × (lanes ≤ max_lanes)) }
    ensures { IfOk result (λ told. told ≡ made_answer number count (is_some lanes)) }
{
    let input = make(alloc, number, count)?;
    match lanes {
        Some(lanes) => run_made(rt, alloc, count, input, lanes, gate),
        None => write_input(alloc, &input),
    }
}

/// The snapshot, then the batch.
pub(crate) fn write_input(alloc: Global, input: &Made) -> Result<Answer, OutOfMemory>
    requires readable { IsReadable input.now.snapshot }
    requires few { length input.now.batch.wires ≤ max_transactions }
    requires short { All IsShortWire input.now.batch.wires }
    ensures { IfOk result (λ told. told ≡ written (input_bytes input.now)) }
{
    let mut output = snapshot_bytes(alloc, &input.snapshot)?;
    output.append(batch_bytes(alloc, &input.batch)?.as_slice())?;
    Ok(tell(alloc, output))
}

/// The line of what the input comes to.
fn run_made<G: Gate, R: Threads + Wait + Sync>(
    rt: &R,
    alloc: Global,
    count: u32,
    input: Made,
    lanes: u32,
    gate: &G,
) -> Result<Answer, OutOfMemory>
    requires lanes { (1 ≤ lanes) × (lanes ≤ max_lanes) }
    requires readable { IsReadable input.snapshot }
    requires few { length input.batch.wires ≤ max_transactions }
    ensures { IfOk result (λ told. told ≡ made_run count input) }
{
    let Made { snapshot, batch } = input;
    let done = run_block(rt, alloc, snapshot, &batch, lanes, gate)?;
    let line = line_of(alloc, count, &done.block)?;
    Ok(tell(alloc, line))
}

pub(crate) fn line_of(alloc: Global, count: u32, block: &Block) -> Result<Blob, OutOfMemory>
    ensures { IfOk result (λ text. text ≡ run_line count (length block.now.entries) block.now) }
{
    let mut text = Blob::new(alloc);
    append_counts(&mut text, count, block.entries.as_slice())?;
    text.append(b" burned ")?;
    append_number(&mut text, block.burned)?;
    text.append(b" hash ")?;
    append_hash(&mut text, &block.hash)?;
    text.append(b"\n")?;
    Ok(text)
}

/// Adds how many transactions were made, how many ran, and how they ended.
fn append_counts(text: &mut Blob, count: u32, entries: &[Entry]) -> Result<(), OutOfMemory>
    ensures { OnOk result (text.new
        ≡ text.old ++ counts_text count (length entries.now) entries.now) }
{
    text.append(b"made ")?;
    append_number(text, u64::from(count))?;
    text.append(b" admitted ")?;
    append_number(text, entries.len() as u64)?;
    text.append(b" ok ")?;
    append_number(text, count_good(entries) as u64)?;
    text.append(b" failed ")?;
    append_number(text, count_failed(entries) as u64)?;
    text.append(b" dropped ")?;
    append_number(text, count_dropped(entries) as u64)
}

fn count_good(entries: &[Entry]) -> usize
    ensures { result ≡ count_of is_good entries.now }
{
    entries
        .iter()
        .filter(|entry| matches!(entry.status, Status::Good))
        .count()
}

fn count_failed(entries: &[Entry]) -> usize
    ensures { result ≡ count_of is_failed entries.now }
{
    entries
        .iter()
        .filter(|entry| matches!(entry.status, Status::Failed { .. }))
        .count()
}

fn count_dropped(entries: &[Entry]) -> usize
    ensures { result ≡ count_of is_dropped entries.now }
{
    entries
        .iter()
        .filter(|entry| matches!(entry.status, Status::Dropped { .. }))
        .count()
}
