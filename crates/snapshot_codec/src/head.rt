//! What a snapshot begins with: its version, its slot and its limits.
ghost use Rattle.std.specs.Prelude.{◌≡◌};
ghost use Rattle.std.specs.Int.{w16, w64};
ghost use Rattle.spec_base.specs.Reading.{Gives};
ghost use Rattle.snapshot_codec.specs.SnapshotReading.{is_snapshot_memory, count_at, limit_at, height_at, limits_at, head_one_at, head_two_at, names_one, names_two, head_at};
ghost use Rattle.snapshot_codec.specs.declared.fault.SnapshotFault.TheVariants.{BadField as bad_field};
ghost use Rattle.sol_base.specs.Limits.{max_block_units, max_transaction_keys};

use crate::fault::SnapshotFault;
use sol_base::{Limits, MAX_BLOCK_UNITS, MAX_STACK_HEIGHT, MAX_TRANSACTION_KEYS};
use spec_base::{array_field, byte_field, place, u16_field, u32_field, u64_field};

/// A number of items, at most `most`.
#[tactic(auto, unfolding(spec_base::specs::Reading::read_if))]
pub(crate) fn count_field(
    most: u32,
    total: usize,
    bytes: &[u8],
) -> Result<(u32, &[u8]), SnapshotFault>
    ensures { Gives is_snapshot_memory (λ x. (x.0, x.1.now)) result
        (count_at bad_field most total bytes.now) }
{
    let (count, rest) = u32_field::<SnapshotFault>(total, bytes)?;
    if count > most {
        return Err(SnapshotFault::BadField {
            at: place(total, bytes),
        });
    }
    Ok((count, rest))
}

#[tactic(auto, unfolding(spec_base::specs::Reading::read_if))]
fn keys_field(total: usize, bytes: &[u8]) -> Result<(u16, &[u8]), SnapshotFault>
    ensures { Gives is_snapshot_memory (λ x. (x.0, x.1.now)) result
        (limit_at max_transaction_keys w16 total bytes.now) }
{
    let (keys, rest) = u16_field::<SnapshotFault>(total, bytes)?;
    if keys < 1 || keys > MAX_TRANSACTION_KEYS {
        return Err(SnapshotFault::BadField {
            at: place(total, bytes),
        });
    }
    Ok((keys, rest))
}

#[tactic(auto, unfolding(spec_base::specs::Reading::read_if))]
fn height_field(total: usize, bytes: &[u8]) -> Result<(u8, &[u8]), SnapshotFault>
    ensures { Gives is_snapshot_memory (λ x. (x.0, x.1.now)) result (height_at total bytes.now) }
{
    let (height, rest) = byte_field::<SnapshotFault>(total, bytes)?;
    if height < 1 || height > MAX_STACK_HEIGHT {
        return Err(SnapshotFault::BadField {
            at: place(total, bytes),
        });
    }
    Ok((height, rest))
}

#[tactic(auto, unfolding(spec_base::specs::Reading::read_if))]
fn units_field(total: usize, bytes: &[u8]) -> Result<(u64, &[u8]), SnapshotFault>
    ensures { Gives is_snapshot_memory (λ x. (x.0, x.1.now)) result
        (limit_at max_block_units w64 total bytes.now) }
{
    let (units, rest) = u64_field::<SnapshotFault>(total, bytes)?;
    if units < 1 || units > MAX_BLOCK_UNITS {
        return Err(SnapshotFault::BadField {
            at: place(total, bytes),
        });
    }
    Ok((units, rest))
}

#[tactic(auto, unfolding(crate::specs::SnapshotReading::limits_at))]
fn read_limits(total: usize, bytes: &[u8]) -> Result<(Limits, &[u8]), SnapshotFault>
    ensures { Gives is_snapshot_memory (λ x. (x.0, x.1.now)) result (limits_at total bytes.now) }
{
    let (keys, rest) = keys_field(total, bytes)?;
    let (height, rest) = height_field(total, rest)?;
    let (key_units, rest) = units_field(total, rest)?;
    let (block_units, rest) = units_field(total, rest)?;
    let limits = Limits {
        keys,
        height,
        key_units,
        block_units,
    };
    Ok((limits, rest))
}

/// Slot and limits after the magic of version 1.
#[tactic(auto, unfolding(crate::specs::SnapshotReading::head_one_at, spec_base::specs::Reading::read_as))]
fn read_head_one(total: usize, bytes: &[u8]) -> Result<((u64, Limits), &[u8]), SnapshotFault>
    ensures { Gives is_snapshot_memory (λ x. (x.0, x.1.now)) result (head_one_at total bytes.now) }
{
    let (slot, rest) = u64_field::<SnapshotFault>(total, bytes)?;
    Ok(((slot, Limits::first()), rest))
}

/// Slot and limits after the magic of version 2.
#[tactic(auto, unfolding(crate::specs::SnapshotReading::head_two_at))]
fn read_head_two(total: usize, bytes: &[u8]) -> Result<((u64, Limits), &[u8]), SnapshotFault>
    ensures { Gives is_snapshot_memory (λ x. (x.0, x.1.now)) result (head_two_at total bytes.now) }
{
    let (slot, rest) = u64_field::<SnapshotFault>(total, bytes)?;
    let (limits, rest) = read_limits(total, rest)?;
    Ok(((slot, limits), rest))
}

#[tactic(auto, unfolding(crate::specs::SnapshotReading::names_one))]
pub(crate) fn is_version_one(magic: &[u8; 8]) -> bool
    ensures { result ≡ names_one magic.now }
{
    *magic == *b"SOLSNAP1"
}

#[tactic(auto, unfolding(crate::specs::SnapshotReading::names_two))]
pub(crate) fn is_version_two(magic: &[u8; 8]) -> bool
    ensures { result ≡ names_two magic.now }
{
    *magic == *b"SOLSNAP2"
}

/// Slot and limits, as the version has them that the first eight bytes name.
#[tactic(auto, unfolding(crate::specs::SnapshotReading::head_at))]
pub(crate) fn read_head(total: usize, bytes: &[u8]) -> Result<((u64, Limits), &[u8]), SnapshotFault>
    ensures { Gives is_snapshot_memory (λ x. (x.0, x.1.now)) result (head_at total bytes.now) }
{
    let (magic, rest) = array_field::<SnapshotFault, 8>(total, bytes)?;
    if is_version_one(&magic) {
        read_head_one(total, rest)
    } else if is_version_two(&magic) {
        read_head_two(total, rest)
    } else {
        Err(SnapshotFault::Magic)
    }
}
