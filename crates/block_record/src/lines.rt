//! The log lines of an entry.
ghost use Rattle.spec_base.specs.Reading.{Gives};
ghost use Rattle.block_record.specs.RecordReading.{is_record_memory, text_at, lines_at};

use crate::fault::RecordFault;
use format_fields::{Item, read_many};
use sol_base::{Blob, Items, is_text};
use spec_base::{bytes_field, place, u16_field};
use std::alloc::Global;

/// The bytes of a length, and of the number of lines.
const LENGTH_LEN: usize = 2;

/// A text of so many bytes.
#[tactic(auto, unfolding(crate::specs::RecordReading::text_at, spec_base::specs::Reading::read_if))]
fn read_text(
    alloc: Global,
    total: usize,
    count: usize,
    bytes: &[u8],
) -> Result<(Blob, &[u8]), RecordFault>
    ensures { Gives is_record_memory (λ x. (x.0, x.1.now)) result (text_at total count bytes.now) }
{
    let (field, rest) = bytes_field::<RecordFault>(total, count, bytes)?;
    if !is_text(field) {
        return Err(RecordFault::BadField {
            at: place(total, bytes),
        });
    }
    Ok((Blob::from_slice(alloc, field)?, rest))
}

/// A line of an entry, one field after its length.
impl Item<RecordFault> for Blob {
    ghost use Rattle.block_record.specs.RecordReading.{line_at};

    ghost item_at = { line_at };

    const LEAST_LEN: usize = LENGTH_LEN;

    #[tactic(auto, unfolding(crate::specs::RecordReading::line_at))]
    fn read(alloc: Global, total: usize, bytes: &[u8]) -> Result<(Blob, &[u8]), RecordFault> {
        let (count, rest) = u16_field::<RecordFault>(total, bytes)?;
        read_text(alloc, total, usize::from(count), rest)
    }
}

/// The lines at the front of the bytes, and the bytes after them.
#[tactic(auto, unfolding(crate::specs::RecordReading::lines_at))]
pub(crate) fn read_lines(
    alloc: Global,
    total: usize,
    bytes: &[u8],
) -> Result<(Items<Blob>, &[u8]), RecordFault>
    ensures { Gives is_record_memory (λ x. (x.0, x.1.now)) result (lines_at total bytes.now) }
{
    let (count, rest) = u16_field::<RecordFault>(total, bytes)?;
    read_many::<RecordFault, Blob>(alloc, total, usize::from(count), rest)
}
