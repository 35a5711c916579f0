//! How many transactions a batch has, by what is before them.
ghost use Rattle.std.specs.Prelude.{◌≡◌, ℕ, Some, length};
ghost use Rattle.snapshot_codec.specs.declared.batch.Batch.{Batch as BatchValue};
ghost use Rattle.snapshot_codec.specs.Batch.{IsBatch};
ghost use Rattle.snapshot_codec.specs.BatchHead.{told_count};

use crate::batch::{BATCH_HEAD_LEN, BATCH_MAGIC};
use crate::length::{behind, count_in_front};

/// The bytes of a batch before the number of its transactions, which has four.
const BEFORE_COUNT: usize = BATCH_HEAD_LEN - 4;

#[tactic(auto, unfolding(crate::specs::BatchHead::told_count))]
fn count_told(bytes: &[u8]) -> Option<u32>
    ensures { result ≡ told_count bytes.now }
{
    if !bytes.starts_with(&BATCH_MAGIC) {
        return None;
    }
    match count_in_front(behind(BEFORE_COUNT, bytes)?) {
        Some((count, _)) => Some(count),
        None => None,
    }
}

/// How many transactions a batch at the front of the bytes says that it has. Nothing else of it is
/// looked at.
///
/// None where the bytes do not begin as a batch does, or end before that number does.
pub fn batch_count(bytes: &[u8]) -> Option<u32>
    ensures exact { result ≡ told_count bytes.now }
    // Where the bytes are a batch, it has so many.
    ensures batch { (before : ℕ) (batch : BatchValue) → IsBatch before bytes.now batch →
        result ≡ Some (length batch.wires) }
{
    count_told(bytes)
}
