//! The earliest start of each transaction of a block.
ghost use Rattle.std.specs.Prelude.{◌≡◌, ℕ, ◌<◌, ◌≤◌, ◌^◌, ◌↔◌, IfOk, length};
ghost use Rattle.block_shape.specs.Starts.{AllEndBy, StartEarliest, end_at};

use crate::ends::{latest, raise};
use crate::measure::{Measure, length_by};
use admission::Chosen;
use sol_base::OutOfMemory;
use std::alloc::Global;
use std::collections::BTreeMap;

/// When each transaction may start at the earliest, in their order, and the longest chain.
#[derive(Drop)]
pub struct Starts {
    pub starts: Vec<u64>,
    /// What the longest chain counts: the end of the last.
    pub longest: u64,
}

/// The earliest start of each transaction. It takes time linear in their locks, but for finding
/// keys.
pub fn earliest_starts(
    alloc: Global,
    order: &[Chosen],
    measure: Measure,
) -> Result<Starts, OutOfMemory>
    requires { length order.now < 2 ^ 32 }
    ensures length { IfOk result (λ s. length s.starts.items ≡ length order.now) }
    ensures earliest { IfOk result (λ s. StartEarliest measure order.now s.starts.items) }
    ensures fits { IfOk result (λ s. (i : ℕ) → i < length order.now →
        end_at measure order.now s.starts.items i < 2 ^ 64) }
    ensures longest { IfOk result (λ s. (time : ℕ) →
        (s.longest ≤ time) ↔ AllEndBy measure order.now s.starts.items (length order.now) time) }
{
    let mut starts = Vec::with_capacity(alloc, order.len())?;
    let mut written = BTreeMap::new(alloc);
    let mut read = BTreeMap::new(alloc);
    let mut longest = 0;
    for chosen in order {
        let locks = chosen.locks.as_slice();
        let start = latest(&written, &read, locks);
        let end = start + u64::from(length_by(measure, chosen));
        raise(&mut written, locks, true, end)?;
        raise(&mut read, locks, false, end)?;
        starts.push(start)?;
        longest = end.max(longest);
    }
    Ok(Starts { starts, longest })
}
