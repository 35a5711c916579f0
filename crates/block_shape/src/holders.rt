//! Which earlier transaction of a block holds up each one the longest.
ghost use Rattle.std.specs.Prelude.{◌≡◌, ℕ, ◌<◌, ◌^◌, None, IfOk, length, slice_index_or};
ghost use Rattle.block_shape.specs.Starts.{StartEarliest, end_at};
ghost use Rattle.block_shape.specs.Holders.{HolderIs, holder_of};

use crate::measure::{Measure, length_by};
use crate::reach::{last_place, note};
use admission::Chosen;
use sol_base::OutOfMemory;
use std::alloc::Global;
use std::collections::BTreeMap;

/// The position of a place.
fn holder_of(place: u32) -> Option<u32>
    ensures { result ≡ holder_of place }
{
    if place == 0 { None } else { Some(place - 1) }
}

/// The earlier transaction, in their order, that holds up each one until its start: of several the
/// last. It takes time as `earliest_starts` does.
pub fn last_holders(
    alloc: Global,
    order: &[Chosen],
    measure: Measure,
    starts: &[u64],
) -> Result<Vec<Option<u32>>, OutOfMemory>
    requires few { length order.now < 2 ^ 32 }
    requires length { length starts.now ≡ length order.now }
    requires earliest { StartEarliest measure order.now starts.now }
    requires fits { (i : ℕ) → i < length order.now →
        end_at measure order.now starts.now i < 2 ^ 64 }
    ensures length { IfOk result (λ holders. length holders.items ≡ length order.now) }
    ensures holders { IfOk result (λ holders. (i : ℕ) → i < length order.now →
        HolderIs measure order.now starts.now i (slice_index_or holders.items i None)) }
{
    let mut holders = Vec::with_capacity(alloc, order.len())?;
    let mut written = BTreeMap::new(alloc);
    let mut read = BTreeMap::new(alloc);
    for position in 0..order.len() {
        let chosen = &order[position];
        let locks = chosen.locks.as_slice();
        let start = starts[position];
        let place = last_place(&written, &read, start, locks);
        let end = start + u64::from(length_by(measure, chosen));
        note(&mut written, locks, true, end, position as u32 + 1)?;
        note(&mut read, locks, false, end, position as u32 + 1)?;
        holders.push(holder_of(place))?;
    }
    Ok(holders)
}
