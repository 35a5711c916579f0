//! A record up to some entry, which is hashed while transactions still run.
ghost use Rattle.std.specs.Prelude.{◌≡◌, ◌+◌, ◌≤◌, ◌++◌, ℕ, All, IfOk, List, drop, length, true};
ghost use Rattle.std.specs.List.{flat_map};
ghost use Rattle.sha2.specs.Hashers.{Holds256};
ghost use Rattle.sol_base.specs.Limits.{max_transactions};
ghost use Rattle.tx_report.specs.declared.outcome.Outcome.{Outcome as OutcomeValue};
ghost use Rattle.tx_report.specs.Outcomes.{IsSmallOutcome};
ghost use Rattle.block_record.specs.Record.{entry_bytes};
ghost use Rattle.block_end.specs.Blocks.{entries_of};
ghost use Rattle.block_end.specs.Ending.{AreOf};
ghost use Rattle.block_end.specs.RecordPrefix.{IsBegun, IsWritten};

use crate::block::RecordParts;
use crate::entries::write_entries;
use bank_core::SharedOutcome;
use block_record::write_heading;
use sha2::{Digest, Sha256};
use sol_base::{Blob, Items, OutOfMemory};
use std::alloc::Global;

/// How many outcomes are taken at once: a reader's turn is short, and the bytes that are hashed are
/// still near.
pub const OUTCOMES_AT_ONCE: u32 = 16;

/// How many bytes an entry takes in most blocks, so that a buffer seldom grows.
const ENTRY_ROOM: usize = 768;

/// A record up to the end of so many entries: its hash, and its bytes where they are wanted.
#[derive(Drop)]
pub struct RecordPrefix {
    pub count: u32,
    pub hasher: Sha256,
    pub bytes: Blob,
}

/// A record that is to have an entry for each transaction, up to the first of them. It is written
/// in the room, whatever that holds.
pub fn begin_record(parts: RecordParts<'_>, mut room: Blob) -> Result<RecordPrefix, OutOfMemory>
    requires few { length parts.order.now ≤ max_transactions }
    ensures { IfOk result (λ begun. (outcomes : List OutcomeValue)
        → IsBegun parts.entry outcomes begun) }
{
    let count = parts.order.len();
    let wanted = if parts.kept { count * ENTRY_ROOM } else { 0 };
    room.clear();
    room.reserve(wanted)?;
    write_heading(
        &mut room,
        parts.head.slot,
        &parts.head.collector,
        &parts.previous,
        count as u32,
    )?;
    let mut hasher = Sha256::new();
    hasher.update(room.as_slice());
    Ok(RecordPrefix {
        count: 0,
        hasher,
        bytes: room,
    })
}

/// The bytes so far, or a buffer for the next entries where the bytes are not wanted.
fn buffer_of(alloc: Global, kept: bool, bytes: Blob) -> Result<Blob, OutOfMemory>
    ensures { IfOk result (λ buffer. kept ≡ true → buffer ≡ bytes) }
{
    if kept {
        return Ok(bytes);
    }
    Blob::with_capacity(alloc, OUTCOMES_AT_ONCE as usize * ENTRY_ROOM)
}

/// Takes the entries of the outcomes that come next, which stay.
pub(crate) fn take_next(
    alloc: Global,
    parts: RecordParts<'_>,
    begun: RecordPrefix,
    outcomes: &[SharedOutcome],
) -> Result<RecordPrefix, OutOfMemory>
    requires of { AreOf parts.wires.now parts.order.now }
    requires within { begun.count + length outcomes.now ≤ length parts.order.now }
    requires small { All IsSmallOutcome outcomes.now }
    ensures count { IfOk result (λ next. next.count ≡ begun.count + length outcomes.now) }
    ensures taken { IfOk result (λ next. (taken : List ℕ) → Holds256 begun.hasher taken
        → Holds256 next.hasher (taken ++ flat_map entry_bytes
        (entries_of parts.entry.wires.now (drop begun.count parts.entry.order.now)
        outcomes.entry.now))) }
    ensures kept { IfOk result (λ next. parts.entry.kept ≡ true
        → next.bytes ≡ begun.bytes ++ flat_map entry_bytes
        (entries_of parts.entry.wires.now (drop begun.count parts.entry.order.now)
        outcomes.entry.now)) }
{
    let RecordPrefix {
        count,
        mut hasher,
        bytes,
    } = begun;
    let next = count + outcomes.len() as u32;
    let order = &parts.order[count as usize..next as usize];
    let mut buffer = buffer_of(alloc, parts.kept, bytes)?;
    let from = buffer.len();
    write_entries(&mut buffer, parts.wires, order, outcomes)?;
    hasher.update(&buffer.as_slice()[from..]);
    Ok(RecordPrefix {
        count: next,
        hasher,
        bytes: buffer,
    })
}

/// Takes the entries of the outcomes that come next, which nothing asks for any more. They are written
/// once, and hashed from there.
pub fn take_in(
    alloc: Global,
    parts: RecordParts<'_>,
    begun: RecordPrefix,
    outcomes: Items<SharedOutcome>,
) -> Result<RecordPrefix, OutOfMemory>
    requires of { AreOf parts.wires.now parts.order.now }
    requires within { begun.count + length outcomes ≤ length parts.order.now }
    requires small { All IsSmallOutcome outcomes }
    ensures count { IfOk result (λ next. next.count ≡ begun.count + length outcomes) }
    ensures taken { IfOk result (λ next. (taken : List ℕ) → Holds256 begun.hasher taken
        → Holds256 next.hasher (taken ++ flat_map entry_bytes
        (entries_of parts.entry.wires.now (drop begun.count parts.entry.order.now) outcomes))) }
    ensures kept { IfOk result (λ next. parts.entry.kept ≡ true
        → next.bytes ≡ begun.bytes ++ flat_map entry_bytes
        (entries_of parts.entry.wires.now (drop begun.count parts.entry.order.now) outcomes)) }
{
    take_next(alloc, parts, begun, outcomes.as_slice())
}
