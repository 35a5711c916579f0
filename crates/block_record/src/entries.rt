//! The entries of a record.
ghost use Rattle.spec_base.specs.Reading.{Gives};
ghost use Rattle.tx_report.specs.Statuses.{status_at};
ghost use Rattle.block_record.specs.declared.fault.RecordFault.TheVariants.{Truncated as cut, BadField as bad_field};
ghost use Rattle.block_record.specs.RecordReading.{is_record_memory, wire_len_at, wire_at, entry_count_at, entries_at};

use crate::block::Entry;
use crate::fault::RecordFault;
use crate::lines::read_lines;
use format_fields::{Item, read_many};
use message_codec::MAX_WIRE_LEN;
use sol_base::{Blob, Items, MAX_TRANSACTIONS};
use spec_base::{array_field, bytes_field, place, u16_field, u32_field, u64_field};
use std::alloc::Global;
use tx_report::{Status, status_of};

/// The bytes of an entry without its transaction and its lines.
const ENTRY_LEN: usize = 28;

#[tactic(auto, unfolding(crate::specs::RecordReading::wire_len_at, spec_base::specs::Reading::read_if))]
fn read_wire_len(total: usize, bytes: &[u8]) -> Result<(u16, &[u8]), RecordFault>
    ensures { Gives is_record_memory (λ x. (x.0, x.1.now)) result (wire_len_at total bytes.now) }
{
    let (len, rest) = u16_field::<RecordFault>(total, bytes)?;
    if usize::from(len) > MAX_WIRE_LEN {
        return Err(RecordFault::BadField {
            at: place(total, bytes),
        });
    }
    Ok((len, rest))
}

/// A transaction, one field after its length.
#[tactic(auto, unfolding(crate::specs::RecordReading::wire_at))]
fn read_wire(alloc: Global, total: usize, bytes: &[u8]) -> Result<(Blob, &[u8]), RecordFault>
    ensures { Gives is_record_memory (λ x. (x.0, x.1.now)) result (wire_at total bytes.now) }
{
    let (len, rest) = read_wire_len(total, bytes)?;
    let (field, rest) = bytes_field::<RecordFault>(total, usize::from(len), rest)?;
    Ok((Blob::from_slice(alloc, field)?, rest))
}

#[tactic(auto, unfolding(tx_report::specs::Statuses::status_at))]
fn read_status(total: usize, bytes: &[u8]) -> Result<(Status, &[u8]), RecordFault>
    ensures { Gives is_record_memory (λ x. (x.0, x.1.now)) result
        (status_at cut bad_field total bytes.now) }
{
    let (field, rest) = array_field::<RecordFault, 8>(total, bytes)?;
    match status_of(field) {
        Some(status) => Ok((status, rest)),
        None => Err(RecordFault::BadField {
            at: place(total, bytes),
        }),
    }
}

impl Item<RecordFault> for Entry {
    ghost use Rattle.block_record.specs.RecordReading.{entry_at};

    ghost item_at = { entry_at };

    const LEAST_LEN: usize = ENTRY_LEN;

    #[tactic(auto, unfolding(crate::specs::RecordReading::entry_at))]
    fn read(alloc: Global, total: usize, bytes: &[u8]) -> Result<(Entry, &[u8]), RecordFault> {
        let (wire, rest) = read_wire(alloc, total, bytes)?;
        let (status, rest) = read_status(total, rest)?;
        let (units, rest) = u64_field::<RecordFault>(total, rest)?;
        let (fee, rest) = u64_field::<RecordFault>(total, rest)?;
        let (lines, rest) = read_lines(alloc, total, rest)?;
        let entry = Entry {
            wire,
            status,
            units,
            fee,
            lines,
        };
        Ok((entry, rest))
    }
}

#[tactic(auto, unfolding(crate::specs::RecordReading::entry_count_at, spec_base::specs::Reading::read_if))]
fn read_entry_count(total: usize, bytes: &[u8]) -> Result<(u32, &[u8]), RecordFault>
    ensures { Gives is_record_memory (λ x. (x.0, x.1.now)) result (entry_count_at total bytes.now) }
{
    let (count, rest) = u32_field::<RecordFault>(total, bytes)?;
    if count > MAX_TRANSACTIONS as u32 {
        return Err(RecordFault::BadField {
            at: place(total, bytes),
        });
    }
    Ok((count, rest))
}

/// The entries at the front of the bytes, and the bytes after them.
#[tactic(auto, unfolding(crate::specs::RecordReading::entries_at))]
pub(crate) fn read_entries(
    alloc: Global,
    total: usize,
    bytes: &[u8],
) -> Result<(Items<Entry>, &[u8]), RecordFault>
    ensures { Gives is_record_memory (λ x. (x.0, x.1.now)) result (entries_at total bytes.now) }
{
    let (count, rest) = read_entry_count(total, bytes)?;
    read_many::<RecordFault, Entry>(alloc, total, count as usize, rest)
}
