//! The entries of a record that are left once all outcomes are known.
ghost use Rattle.std.specs.Prelude.{◌≡◌, ◌+◌, ◌≤◌, ◌++◌, ℕ, All, IfOk, List, drop, length, take, true};
ghost use Rattle.std.specs.List.{flat_map};
ghost use Rattle.sha2.specs.Hashers.{Holds256};
ghost use Rattle.tx_report.specs.declared.outcome.Outcome.{Outcome as OutcomeValue};
ghost use Rattle.tx_report.specs.Outcomes.{IsSmallOutcome};
ghost use Rattle.block_record.specs.Record.{entry_bytes};
ghost use Rattle.admission.specs.Batches.{IsOf};
ghost use Rattle.block_end.specs.Blocks.{entries_of};
ghost use Rattle.block_end.specs.Ending.{AreOf};
ghost use Rattle.block_end.specs.RecordPrefix.{IsAhead, IsBegun, IsWritten};

use crate::block::RecordParts;
use crate::entries::write_entries;
use crate::record_prefix::{OUTCOMES_AT_ONCE, RecordPrefix, take_next};
use admission::Candidate;
use bank_core::SharedOutcome;
use sha2::{Digest, Sha256};
use side_by_side::call_both;
use sol_base::{Blob, Items, OutOfMemory};
use std::alloc::Global;
use std::thread::Threads;

/// How many entries are written while those before them are hashed: that takes some milliseconds, and
/// a thread is worth it.
const ENTRIES_AHEAD: usize = 1_024;

/// Takes the entries of all outcomes that are left. On several threads they are written beside the
/// hash, which takes far longer.
pub(crate) fn take_rest<R: Threads + Sync>(
    rt: &R,
    alloc: Global,
    threads: u32,
    parts: RecordParts<'_>,
    begun: RecordPrefix,
    outcomes: &Items<SharedOutcome>,
) -> Result<RecordPrefix, OutOfMemory>
    requires of { AreOf parts.wires.now parts.order.now }
    requires one_each { length outcomes.now ≡ length parts.order.now }
    requires small { All IsSmallOutcome outcomes.now }
    requires begun { IsBegun parts outcomes.now begun }
    ensures { IfOk result (IsWritten parts.entry outcomes.entry.now) }
{
    if threads == 1 {
        take_alone(alloc, parts, begun, outcomes)
    } else {
        take_ahead(rt, alloc, parts, begun, outcomes)
    }
}

/// Takes the entries of all outcomes that are left, on one thread.
fn take_alone(
    alloc: Global,
    parts: RecordParts<'_>,
    begun: RecordPrefix,
    outcomes: &Items<SharedOutcome>,
) -> Result<RecordPrefix, OutOfMemory>
    requires of { AreOf parts.wires.now parts.order.now }
    requires one_each { length outcomes.now ≡ length parts.order.now }
    requires small { All IsSmallOutcome outcomes.now }
    requires begun { IsBegun parts outcomes.now begun }
    ensures { IfOk result (IsWritten parts.entry outcomes.entry.now) }
{
    let all = outcomes.as_slice();
    let mut begun = begun;
    while (begun.count as usize) < all.len() {
        let from = begun.count as usize;
        let next = all.len().min(from + OUTCOMES_AT_ONCE as usize);
        begun = take_next(alloc, parts, begun, &all[from..next])?;
    }
    Ok(begun)
}

/// A record whose last entries were written and are not hashed yet.
#[derive(Drop)]
struct Ahead {
    /// How many entries were written.
    count: u32,
    /// The hash up to the last of them.
    hasher: Sha256,
    /// The record with them, where its bytes are wanted.
    bytes: Blob,
    /// The last of them alone.
    last: Blob,
    /// A buffer for those that come next.
    spare: Blob,
}

/// Takes the entries of all outcomes that are left: they are written while those before them are
/// hashed.
fn take_ahead<R: Threads + Sync>(
    rt: &R,
    alloc: Global,
    parts: RecordParts<'_>,
    begun: RecordPrefix,
    outcomes: &Items<SharedOutcome>,
) -> Result<RecordPrefix, OutOfMemory>
    requires of { AreOf parts.wires.now parts.order.now }
    requires one_each { length outcomes.now ≡ length parts.order.now }
    requires small { All IsSmallOutcome outcomes.now }
    requires begun { IsBegun parts outcomes.now begun }
    ensures { IfOk result (IsWritten parts.entry outcomes.entry.now) }
{
    let all = outcomes.as_slice();
    let mut ahead = Ahead {
        count: begun.count,
        hasher: begun.hasher,
        bytes: begun.bytes,
        last: Blob::new(alloc),
        spare: Blob::new(alloc),
    };
    while (ahead.count as usize) < all.len() {
        let from = ahead.count as usize;
        let next = all.len().min(from + ENTRIES_AHEAD);
        ahead = write_ahead(rt, parts, ahead, &all[from..next])?;
    }
    let (hasher, _) = hash_last(ahead.hasher, ahead.last);
    Ok(RecordPrefix {
        count: ahead.count,
        hasher,
        bytes: ahead.bytes,
    })
}

/// Writes the entries of the outcomes that come next, while the last ones are hashed.
fn write_ahead<R: Threads + Sync>(
    rt: &R,
    parts: RecordParts<'_>,
    ahead: Ahead,
    outcomes: &[SharedOutcome],
) -> Result<Ahead, OutOfMemory>
    requires of { AreOf parts.wires.now parts.order.now }
    requires within { ahead.count + length outcomes.now ≤ length parts.order.now }
    requires small { All IsSmallOutcome outcomes.now }
    ensures count { IfOk result (λ next. next.count ≡ ahead.count + length outcomes.entry.now) }
    ensures ahead { IfOk result (λ next. (all : List OutcomeValue) →
        IsAhead parts.entry all ahead.count ahead.hasher ahead.bytes ahead.last
        → outcomes.entry.now ≡ take (length outcomes.entry.now) (drop ahead.count all)
        → IsAhead parts.entry all next.count next.hasher next.bytes next.last) }
{
    let Ahead {
        count,
        hasher,
        bytes,
        last,
        spare,
    } = ahead;
    let (wires, kept) = (parts.wires, parts.kept);
    let next = count + outcomes.len() as u32;
    let order = &parts.order[count as usize..next as usize];
    let both = call_both(
        rt,
        move || -> (Sha256, Blob)
            ensures { (taken : List ℕ) → Holds256 hasher taken → Holds256 result.0 (taken ++ last) }
        { hash_last(hasher, last) },
        move || -> Result<(Blob, Blob), OutOfMemory>
            requires { (length outcomes.now ≡ length order.now) × All (IsOf wires.now) order.now
                × All IsSmallOutcome outcomes.now }
            ensures last { IfOk result (λ w. w.1 ≡ flat_map entry_bytes
                (entries_of wires.entry.now order.entry.now outcomes.entry.now)) }
            ensures kept { IfOk result (λ w. kept ≡ true → w.0 ≡ bytes ++ w.1) }
        { write_next(wires, order, outcomes, kept, bytes, spare) },
    );
    let ((hasher, spare), written) = both;
    let (bytes, last) = written?;
    Ok(Ahead {
        count: next,
        hasher,
        bytes,
        last,
        spare,
    })
}

/// Writes entries into the buffer, and behind those of the record where its bytes are wanted.
fn write_next(
    wires: &[Blob],
    order: &[Candidate],
    outcomes: &[SharedOutcome],
    kept: bool,
    mut bytes: Blob,
    mut buffer: Blob,
) -> Result<(Blob, Blob), OutOfMemory>
    requires one_each { length outcomes.now ≡ length order.now }
    requires of { All (IsOf wires.now) order.now }
    requires small { All IsSmallOutcome outcomes.now }
    ensures last { IfOk result (λ w. w.1 ≡ flat_map entry_bytes
        (entries_of wires.entry.now order.entry.now outcomes.entry.now)) }
    ensures kept { IfOk result (λ w. kept ≡ true → w.0 ≡ bytes ++ w.1) }
{
    buffer.clear();
    write_entries(&mut buffer, wires, order, outcomes)?;
    if kept {
        bytes.append(buffer.as_slice())?;
    }
    Ok((bytes, buffer))
}

/// The hash with the last entries, and their buffer.
fn hash_last(mut hasher: Sha256, last: Blob) -> (Sha256, Blob)
    ensures { (taken : List ℕ) → Holds256 hasher taken → Holds256 result.0 (taken ++ last) }
{
    hasher.update(last.as_slice());
    (hasher, last)
}
