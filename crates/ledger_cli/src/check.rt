//! The command `check`: blocks are replayed, several at once, and the first difference is told.
ghost use Rattle.std.specs.Prelude.{◌≤◌};

use crate::chain::{OpenChain, open_chain, unread};
use crate::replaying::{Cause, Range, Shared, Stop, replay_pieces};
use block_replay::{Field, OF_BLOCK};
use command_parts::{Answer, DIFFERS, Given, INPUT_REFUSED, noted, written};
use ledger_folder::Failure;
use ledger_store::Head;
use side_by_side::for_each_mut;
use sol_base::{Blob, OutOfMemory};
use std::alloc::Global;
use std::sync::Wait;
use std::sync::atomic::{AtomicBool, AtomicU64};
use std::thread::Threads;

/// Which blocks are replayed, and how.
#[derive(Clone, Copy)]
pub(crate) struct Wanted {
    /// The slots of the first and the last; those of the chain where none are given.
    pub(crate) from: Option<u64>,
    pub(crate) to: Option<u64>,
    /// How many are replayed at once.
    pub(crate) jobs: u32,
    /// Whether it is shown how far the replay has come.
    pub(crate) shows: bool,
}

/// How many pieces there are for each of those who replay.
const PIECES: usize = 8;

/// The one who replays, and where it stopped.
#[derive(Drop)]
struct Seat {
    stop: Option<Stop>,
}

/// Whether a slot is within what is wanted.
fn is_wanted(wanted: &Wanted, slot: u64) -> bool {
    let from = wanted.from.unwrap_or(0);
    let to = wanted.to.unwrap_or(u64::MAX);
    from <= slot && slot <= to
}

/// The places of the blocks that are wanted: the first, and the one behind the last.
fn wanted_places(head: &Head, wanted: &Wanted) -> (usize, usize) {
    let slots = head.slots.as_slice();
    let first = slots
        .iter()
        .take_while(|slot| **slot < wanted.from.unwrap_or(0))
        .count();
    let count = slots
        .iter()
        .filter(|slot| is_wanted(wanted, **slot))
        .count();
    (first, first.saturating_add(count))
}

/// The stop that comes first in the chain.
fn first_stop(seats: Vec<Seat>) -> Option<Stop> {
    let mut first: Option<Stop> = None;
    for seat in seats {
        let Seat { stop } = seat;
        if let Some(stop) = stop {
            let is_first = match &first {
                Some(other) => stop.place < other.place,
                None => true,
            };
            if is_first {
                first = Some(stop);
            }
        }
    }
    first
}

/// Replays a range by so many at once.
fn replay_range<T: Threads + Wait + Sync>(
    rt: &HostRuntime,
    threads: &T,
    range: &Range<'_>,
    jobs: usize,
) -> Result<Option<Stop>, OutOfMemory>
    requires { 1 ≤ range.now.head.now.every }
{
    let shared = Shared {
        taken: AtomicU64::new(0),
        replayed: AtomicU64::new(0),
        stopped: AtomicBool::new(false),
    };
    let mut seats = Vec::with_capacity(rt.alloc(), jobs)?;
    for _ in 0..jobs {
        seats.push(Seat { stop: None })?;
    }
    if jobs > 0 {
        for_each_mut(
            threads,
            seats.as_mut_slice(),
            jobs,
            &|_at: usize, seat: &mut Seat|
                requires { 1 ≤ range.now.head.now.every }
            { seat.stop = replay_pieces(rt, threads, range, &shared) },
        );
    }
    Ok(first_stop(seats))
}

/// Where a record differs: in the block, or in an entry.
fn place_text(alloc: Global, entry: u32, field: Field) -> Result<String, OutOfMemory> {
    let name = field.name();
    if entry == OF_BLOCK {
        return Ok(format!(in alloc; "block {name}")?);
    }
    Ok(format!(in alloc; "entry {entry} {name}")?)
}

fn differs(alloc: Global, slot: u64, what: &str) -> Result<Answer, OutOfMemory> {
    let line = format!(in alloc; "differ slot {slot} {what}\n")?;
    Ok(Answer {
        status: DIFFERS,
        output: Blob::from_slice(alloc, line.as_bytes())?,
        notes: Blob::new(alloc),
    })
}

/// The answer where the replay stopped at the block of a slot.
fn told_stop(
    alloc: Global,
    folder: &str,
    slot: u64,
    cause: Cause,
    failure: Option<Failure>,
) -> Result<Answer, OutOfMemory> {
    match cause {
        Cause::Record { entry, field } => {
            let what = place_text(alloc, entry, field)?;
            differs(alloc, slot, what.as_str())
        }
        Cause::Kept => differs(alloc, slot, "kept state"),
        Cause::Refused(fault) => unread(alloc, folder, fault, failure),
        Cause::OutOfMemory => Err(OutOfMemory),
    }
}

/// Pieces of blocks for so many who replay them: each takes some, so that all end at about the same
/// time.
fn piece_of(blocks: usize, jobs: usize) -> usize {
    blocks.div_ceil(jobs.saturating_mul(PIECES).max(1)).max(1)
}

/// The answer where all blocks of a range are what a replay gives.
fn told_match(alloc: Global, range: &Range<'_>) -> Result<Answer, OutOfMemory> {
    let slots = range.head.slots.as_slice();
    let count = range.len();
    let from = slots.get(range.first).copied().unwrap_or(0);
    let to = slots.get(range.end.saturating_sub(1)).copied().unwrap_or(0);
    let line = format!(in alloc; "match blocks {count} from {from} to {to}\n")?;
    written(alloc, line.as_bytes())
}

/// Replays a range that has blocks.
fn check_range<T: Threads + Wait + Sync>(
    rt: &HostRuntime,
    threads: &T,
    range: &Range<'_>,
    jobs: usize,
) -> Result<Answer, OutOfMemory>
    requires { 1 ≤ range.now.head.now.every }
{
    let stop = replay_range(rt, threads, range, jobs)?;
    if range.shows {
        let _ = eprintln!(rt; "");
    }
    match stop {
        Some(
            Stop {
                place,
                cause,
                failure,
            },
        ) => {
            let slot = range.head.slots.as_slice().get(place).copied().unwrap_or(0);
            told_stop(rt.alloc(), range.folder, slot, cause, failure)
        }
        None => told_match(rt.alloc(), range),
    }
}

/// The answer where no block is wanted. A chain that has none is as it is to be.
fn told_none(alloc: Global, head: &Head, wanted: &Wanted) -> Result<Answer, OutOfMemory> {
    if head.slots.is_empty() && wanted.from.is_none() && wanted.to.is_none() {
        return written(alloc, b"match blocks 0\n");
    }
    noted(alloc, INPUT_REFUSED, "chain", "it has no such blocks")
}

/// Replays what is wanted of an open chain.
fn check_chain<T: Threads + Wait + Sync>(
    rt: &HostRuntime,
    threads: &T,
    folder: &str,
    head: &Head,
    wanted: &Wanted,
) -> Result<Answer, OutOfMemory>
    requires { 1 ≤ head.now.every }
{
    let (first, end) = wanted_places(head, wanted);
    if first >= end {
        return told_none(rt.alloc(), head, wanted);
    }
    let jobs = wanted.jobs as usize;
    let range = Range {
        folder,
        head,
        first,
        end,
        piece: piece_of(end - first, jobs),
        shows: wanted.shows,
    };
    check_range(rt, threads, &range, jobs)
}

/// The answer to `check`.
pub(crate) fn checked<T: Threads + Wait + Sync>(
    rt: &HostRuntime,
    threads: &T,
    folder: &str,
    wanted: &Wanted,
) -> Result<Answer, OutOfMemory> {
    match open_chain(rt, folder)? {
        Given::Value(OpenChain { files: _, head }) => {
            check_chain(rt, threads, folder, &head, wanted)
        }
        Given::Nothing(told) => Ok(told),
    }
}
