//! The command `replay`: the entries of a record are run again, and the first difference is told.
ghost use Rattle.std.specs.Prelude.{◌≡◌, ◌≤◌, ◌++◌, length, IfOk, OnOk};
ghost use Rattle.sol_base.specs.Limits.{max_lanes};
ghost use Rattle.block_record.specs.Record.{IsCounted};
ghost use Rattle.snapshot_codec.specs.Snapshot.{IsReadable};
ghost use Rattle.bank_cli.specs.Answer.{differed, judged, replayed as replayed_of, replayed_over};
ghost use Rattle.command_parts.specs.Answers.{written};
ghost use Rattle.bank_cli.specs.Texts.{match_line, place_text};

use crate::texts::{append_hash, append_number, refuse_record, refuse_snapshot, tell};
use bank_lanes::Gate;
use block_record::{Block, read_record};
use block_replay::{Field, OF_BLOCK, Verdict, compare};
use block_run::run_listed;
use command_parts::{Answer, DIFFERS};
use snapshot_codec::{Snapshot, read_snapshot};
use sol_base::{Blob, Hash32, OutOfMemory};
use std::alloc::Global;
use std::sync::Wait;
use std::thread::Threads;

/// The answer to `replay`: a snapshot and a record after it.
pub(crate) fn replayed<G: Gate, R: Threads + Wait + Sync>(
    rt: &R,
    alloc: Global,
    lanes: u32,
    input: Blob,
    gate: &G,
) -> Result<Answer, OutOfMemory>
    requires lanes { (1 ≤ lanes) × (lanes ≤ max_lanes) }
    ensures { IfOk result (λ told. told ≡ replayed_of input) }
{
    let bytes = input.as_slice();
    let prefix = match read_snapshot(alloc, bytes) {
        Ok(prefix) => prefix,
        Err(fault) => return refuse_snapshot(alloc, fault),
    };
    match read_record(alloc, &bytes[prefix.length..]) {
        Ok(given) => {
            drop(input);
            replay_block(rt, alloc, lanes, prefix.snapshot, &given, gate)
        }
        Err(fault) => refuse_record(alloc, fault),
    }
}

/// Runs the entries again, and compares.
fn replay_block<G: Gate, R: Threads + Wait + Sync>(
    rt: &R,
    alloc: Global,
    lanes: u32,
    snapshot: Snapshot,
    given: &Block,
    gate: &G,
) -> Result<Answer, OutOfMemory>
    requires lanes { (1 ≤ lanes) × (lanes ≤ max_lanes) }
    requires readable { IsReadable snapshot }
    requires counted { IsCounted given.now }
    ensures { IfOk result (λ told. told ≡ replayed_over snapshot given.now) }
{
    let slot = snapshot.slot;
    let newest = snapshot.recent.newest();
    let listed = run_listed(rt, alloc, snapshot, given, lanes, gate)?;
    let verdict = compare(alloc, slot, &newest, given, &listed)?;
    judge(alloc, given, &verdict)
}

pub(crate) fn judge(alloc: Global, given: &Block, verdict: &Verdict) -> Result<Answer, OutOfMemory>
    ensures { IfOk result (λ told. told ≡ judged given.now verdict.now) }
{
    match verdict {
        Verdict::Match => tell_match(alloc, &given.hash),
        Verdict::Differ { entry, field, .. } => tell_difference(alloc, *entry, *field),
    }
}

fn tell_match(alloc: Global, hash: &Hash32) -> Result<Answer, OutOfMemory>
    ensures { IfOk result (λ told. told ≡ written (match_line hash.now.0)) }
{
    let mut text = Blob::from_slice(alloc, b"match ")?;
    append_hash(&mut text, hash)?;
    text.append(b"\n")?;
    Ok(tell(alloc, text))
}

fn tell_difference(alloc: Global, entry: u32, field: Field) -> Result<Answer, OutOfMemory>
    ensures { IfOk result (λ told. told ≡ differed entry field) }
{
    let mut output = Blob::from_slice(alloc, b"differ ")?;
    append_place(&mut output, entry)?;
    output.append(b" ")?;
    output.append(field.name().as_bytes())?;
    output.append(b"\n")?;
    Ok(Answer {
        status: DIFFERS,
        output,
        notes: Blob::new(alloc),
    })
}

/// Adds where a record differs: in the block, or in an entry.
fn append_place(text: &mut Blob, entry: u32) -> Result<(), OutOfMemory>
    ensures { OnOk result (text.new ≡ text.old ++ place_text entry) }
{
    if entry == OF_BLOCK {
        return text.append(b"block");
    }
    text.append(b"entry ")?;
    append_number(text, u64::from(entry))
}
