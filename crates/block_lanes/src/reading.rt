//! The front of a record, which is hashed and written beside the lanes.
ghost use Rattle.std.specs.Prelude.{◌≡◌, All, IfOk, length};
ghost use Rattle.tx_report.specs.Outcomes.{IsSmallOutcome};
ghost use Rattle.bank_core.specs.Ends.{outcomes_at_end};
ghost use Rattle.bank_shared.specs.Face.{desk_origin, IsReaderOf};
ghost use Rattle.block_end.specs.Ending.{AreOf};
ghost use Rattle.block_end.specs.RecordPrefix.{IsBegun};

use bank_core::Work;
use bank_shared::{Reader, SharedDesk};
use block_end::{OUTCOMES_AT_ONCE, RecordParts, RecordPrefix, begin_record, take_in};
use sol_base::{Blob, OutOfMemory};
use std::alloc::Global;
use std::sync::Wait;

/// Hashes entries as their outcomes come to be known, until all are or the lanes have ended. They
/// are written in the room.
pub(crate) fn read_prefix<W: Work, R: Wait>(
    rt: &R,
    alloc: Global,
    desk: &SharedDesk<W>,
    mut reader: Reader<W>,
    parts: RecordParts<'_>,
    room: Blob,
) -> Result<RecordPrefix, OutOfMemory>
    requires reader { IsReaderOf desk.now reader }
    requires of { AreOf parts.wires.now parts.order.now }
    requires one_each { length parts.order.now
        ≡ (W.job (desk_origin desk.now).told).count }
    requires small { All IsSmallOutcome
        (outcomes_at_end W.job (desk_origin desk.now)) }
    ensures { IfOk result (IsBegun parts.entry
        (outcomes_at_end W.job (desk_origin desk.now))) }
{
    let mut begun = begin_record(parts, room)?;
    for _ in rt.forever() {
        let left = parts.order.len() as u32 - begun.count;
        if left == 0 || desk.is_dismissed() {
            return Ok(begun);
        }
        let outcomes = desk.next_outcomes(
            rt,
            &mut reader,
            begun.count,
            left.min(OUTCOMES_AT_ONCE),
        )?;
        if !outcomes.is_empty() {
            begun = take_in(alloc, parts, begun, outcomes)?;
        }
    }
    unreachable!()
}
