//! The command `produce`: a block is run, and its record and the snapshot after it are written.
ghost use Rattle.std.specs.Prelude.{◌≡◌, ◌≤◌, ◌++◌, length, IfOk, OnOk};
ghost use Rattle.sol_base.specs.Limits.{max_lanes, max_transactions};
ghost use Rattle.admission.specs.Admission.{AreParsed};
ghost use Rattle.snapshot_codec.specs.Snapshot.{IsReadable};
ghost use Rattle.block_run.specs.Blocks.{block_result};
ghost use Rattle.bank_cli.specs.Answer.{produced as produced_of, ran};
ghost use Rattle.bank_cli.specs.Texts.{refused_line, refused_lines};

use crate::ahead::{Senders, read_behind, read_parts};
use crate::texts::{append_number, refuse_batch, refuse_snapshot};
use admission::{Refused, refusal_text};
use bank_lanes::Gate;
use block_run::{Decoded, Recorded, record_parsed};
use command_parts::Answer;
use intake::SendGate;
use snapshot_codec::{Snapshot, write_snapshot};
use sol_base::{Blob, OutOfMemory};
use std::alloc::Global;
use std::mem::forget;
use std::sync::Wait;
use std::thread::Threads;

/// The answer to `produce`: a snapshot and a batch after it. On several lanes both are read at once.
pub(crate) fn produced<G: Gate, H: SendGate, R: Threads + Wait + Sync>(
    rt: &R,
    alloc: Global,
    lanes: u32,
    senders: &Senders<'_, H>,
    input: Blob,
    gate: &G,
) -> Result<Answer, OutOfMemory>
    requires lanes { (1 ≤ lanes) × (lanes ≤ max_lanes) }
    ensures { IfOk result (λ told. told ≡ produced_of input) }
{
    let bytes = input.as_slice();
    let (read, ahead) = read_parts(rt, alloc, bytes, lanes, senders);
    let prefix = match read {
        Ok(prefix) => prefix,
        Err(fault) => return refuse_snapshot(alloc, fault),
    };
    match read_behind(rt, alloc, bytes, &prefix, ahead, senders) {
        Ok(mut decoded) => {
            decoded.room = input;
            produce_block(rt, alloc, lanes, prefix.snapshot, decoded, gate)
        }
        Err(fault) => refuse_batch(alloc, fault),
    }
}

/// Runs a batch, and writes what it comes to. Nothing of the block is given back: a user waits for
/// the answer, and the program ends with it.
fn produce_block<G: Gate, R: Threads + Wait + Sync>(
    rt: &R,
    alloc: Global,
    lanes: u32,
    snapshot: Snapshot,
    decoded: Decoded,
    gate: &G,
) -> Result<Answer, OutOfMemory>
    requires lanes { (1 ≤ lanes) × (lanes ≤ max_lanes) }
    requires readable { IsReadable snapshot }
    requires few { length decoded.batch.wires ≤ max_transactions }
    requires read { AreParsed decoded.batch.wires decoded.parsed }
    ensures { IfOk result (λ told. told ≡ ran (block_result snapshot decoded.batch)) }
{
    let block = record_parsed(rt, alloc, snapshot, decoded, lanes, gate)?;
    let Recorded {
        record,
        after,
        refused,
        spent,
    } = block;
    let output = write_snapshot(record, &after)?;
    let notes = refused_notes(alloc, refused.as_slice())?;
    forget((after, spent));
    Ok(Answer {
        status: 0,
        output,
        notes,
    })
}

/// A line for each transaction that did not run.
fn refused_notes(alloc: Global, refused: &[Refused]) -> Result<Blob, OutOfMemory>
    ensures { IfOk result (λ notes. notes ≡ refused_lines refused.now) }
{
    let mut notes = Blob::new(alloc);
    for one in refused {
        append_refused(alloc, &mut notes, one)?;
    }
    Ok(notes)
}

fn append_refused(alloc: Global, notes: &mut Blob, refused: &Refused) -> Result<(), OutOfMemory>
    ensures { OnOk result (notes.new ≡ notes.old ++ refused_line refused.now) }
{
    notes.append(b"refused ")?;
    append_number(notes, u64::from(refused.position))?;
    notes.append(b": ")?;
    notes.append(refusal_text(alloc, &refused.cause)?.as_slice())?;
    notes.append(b"\n")
}
