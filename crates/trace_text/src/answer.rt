//! From arguments to the result.
ghost use Rattle.std.specs.Prelude.{◌≤◌, length};
ghost use Rattle.sol_base.specs.Limits.{max_transactions};
ghost use Rattle.snapshot_codec.specs.Snapshot.{IsReadable};

use crate::json::json_of;
use crate::page::Page;
use crate::telling::{MAX_STEPS, Told, text_of};
use crate::words::{Asked, USAGE, VERSION, Words, read_words, refused_words};
use admission::{Candidate, Refused, refusal_text};
use block_run::Watched;
use command_parts::{
    Answer, DIFFERS, Given, INPUT_LIMIT, INPUT_REFUSED, given_of, lent_words, noted, written,
};
use command_words::printable;
use snapshot_codec::{Batch, BatchFault, Snapshot, SnapshotFault, read_batch, read_snapshot};
use sol_base::{Blob, Items, OutOfMemory};
use sol_io::{StdSource, read_all};
use std::alloc::Global;
use std::thread::Threads;
use trace_run::{Note, Notes, Sought, Traced, trace_block};

/// How many notes the first transaction has: those before the next one begins.
fn first_count(notes: &[Note]) -> usize
    ensures { result ≤ length notes.now }
{
    for (place, note) in notes.iter().enumerate() {
        if let Note::Transaction(_) = note {
            if place > 0 {
                return place;
            }
        }
    }
    notes.len()
}

/// The transactions that were seen, each with its notes.
fn told_of<'a>(
    alloc: Global,
    watched: &'a Watched,
    notes: &'a [Note],
) -> Result<Items<Told<'a>>, OutOfMemory> {
    let order: &'a [Candidate] = watched.work.chosen();
    let mut all = Items::new(alloc);
    let mut rest = notes;
    for seen in watched.seen.as_slice() {
        let (own, others) = rest.split_at(first_count(rest));
        rest = others;
        if let Some(one) = order.get(seen.position as usize) {
            all.push(Told {
                position: seen.position,
                chosen: one.chosen(),
                outcome: seen.outcome.value(),
                notes: own,
            })?;
        }
    }
    Ok(all)
}

/// A line for each transaction that did not run.
fn refused_notes(alloc: Global, refused: &[Refused]) -> Result<Blob, OutOfMemory> {
    let mut page = Page::new(alloc);
    for one in refused {
        page.number("refused ", u64::from(one.position));
        page.text(": ");
        page.bytes(refusal_text(alloc, &one.cause)?.as_slice());
        page.end();
    }
    page.finish()
}

/// The answer for transactions that ran.
fn ran(
    alloc: Global,
    asked: Asked,
    watched: &Watched,
    refused: &[Refused],
    notes: &[Note],
) -> Result<Answer, OutOfMemory> {
    let told = told_of(alloc, watched, notes)?;
    let output = if asked.json {
        json_of(alloc, asked, told.as_slice())?
    } else {
        text_of(alloc, asked, told.as_slice())?
    };
    let refused = if asked.sought == Sought::All {
        refused
    } else {
        &[]
    };
    Ok(Answer {
        status: 0,
        output,
        notes: refused_notes(alloc, refused)?,
    })
}

/// The answer if the one transaction that is sought was refused.
fn one_refused(alloc: Global, refused: Refused) -> Result<Answer, OutOfMemory> {
    let mut told = noted(alloc, DIFFERS, "trace", "the transaction did not run")?;
    let line = refused_notes(alloc, &[refused])?;
    told.notes.append(line.as_slice())?;
    Ok(told)
}

/// The answer to a snapshot and a batch.
fn traced<R: Threads + Sync>(
    rt: &R,
    alloc: Global,
    asked: Asked,
    snapshot: Snapshot,
    batch: &Batch,
) -> Result<Answer, OutOfMemory>
    requires readable { IsReadable snapshot }
    requires few { length batch.now.wires ≤ max_transactions }
{
    let steps = if asked.steps { MAX_STEPS } else { 0 };
    let mut notes = Notes::new(alloc, steps);
    match trace_block(rt, alloc, snapshot, batch, asked.sought, &mut notes)? {
        Traced::Ran(watched, refused) => {
            ran(alloc, asked, &watched, refused.as_slice(), notes.as_slice())
        }
        Traced::Refused(refused) => one_refused(alloc, refused),
        Traced::Absent => noted(
            alloc,
            DIFFERS,
            "trace",
            "there is no such transaction in the block",
        ),
    }
}

/// The answer to an input.
fn answer_input<R: Threads + Sync>(
    rt: &R,
    alloc: Global,
    asked: Asked,
    bytes: &[u8],
) -> Result<Answer, OutOfMemory> {
    let prefix = match read_snapshot(alloc, bytes) {
        Ok(prefix) => prefix,
        Err(SnapshotFault::OutOfMemory) => return Err(OutOfMemory),
        Err(fault) => {
            let text = fault.to_string(alloc)?;
            return noted(alloc, INPUT_REFUSED, "snapshot", text.as_str());
        }
    };
    let rest = &bytes[prefix.length..];
    match read_batch(alloc, rest, prefix.snapshot.slot) {
        Ok(batch) => traced(rt, alloc, asked, prefix.snapshot, &batch),
        Err(BatchFault::OutOfMemory) => Err(OutOfMemory),
        Err(fault) => {
            let text = fault.to_string(alloc)?;
            noted(alloc, INPUT_REFUSED, "batch", text.as_str())
        }
    }
}

/// The answer to the input.
fn answer_asked<R: Threads + Sync + Input + AllocGlobal>(
    rt: &R,
    asked: Asked,
) -> Result<Answer, OutOfMemory> {
    let alloc = rt.alloc();
    let mut source = StdSource::new(rt.reader());
    match given_of(alloc, read_all(alloc, &mut source, INPUT_LIMIT))? {
        Given::Value(bytes) => answer_input(rt, alloc, asked, bytes.as_slice()),
        Given::Nothing(told) => Ok(told),
    }
}

/// The answer to arguments, with the input from standard input.
pub fn answer_of<R: Threads + Sync + Input + AllocGlobal>(
    rt: &R,
    texts: &[String],
) -> Result<Answer, OutOfMemory> {
    let alloc = rt.alloc();
    let words = lent_words(alloc, texts)?;
    let told = match read_words(alloc, words.as_slice()) {
        Ok(Words::Help) => written(alloc, USAGE.as_bytes())?,
        Ok(Words::Version) => written(alloc, VERSION.as_bytes())?,
        Ok(Words::Trace(asked)) => answer_asked(rt, asked)?,
        Err(fault) => refused_words(alloc, &fault)?,
    };
    Ok(Answer {
        notes: printable(alloc, told.notes.as_slice())?,
        ..told
    })
}
