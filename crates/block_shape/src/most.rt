//! The keys that most transactions wait at.
ghost use Rattle.std.specs.Prelude.{◌≡◌, ◌<◌, ◌^◌, IfOk, length};
ghost use Rattle.std.specs.BTreeMap.{IsOrdered};
ghost use Rattle.sol_base.specs.Keys.{key_cmp};
ghost use Rattle.block_shape.specs.Most.{AreMost, waited_in};

use crate::waits::{Wait, waits_of};
use admission::Chosen;
use sol_base::{Key, OutOfMemory};
use std::alloc::Global;
use std::cmp::Reverse;
use std::collections::BTreeMap;

/// How many keys are named.
const MOST_NAMED: usize = 10;

/// A key, and how many transactions wait at it.
#[derive(Clone, Copy)]
pub struct Waited {
    pub key: Key,
    pub count: u32,
}

/// The keys where some wait, in their order.
fn all_waited(alloc: Global, waits: &BTreeMap<Key, Wait>) -> Result<Vec<Waited>, OutOfMemory>
    ensures listed { IfOk result (λ all. all.items ≡ waited_in waits.now.entries) }
    ensures ordered { IsOrdered key_cmp waits.now }
{
    let mut waited = Vec::with_capacity(alloc, waits.len())?;
    let mut rest = waits.iter();
    while let Some((key, wait)) = rest.next() {
        if wait.count > 0 {
            waited.push(Waited {
                key: *key,
                count: wait.count,
            })?;
        }
    }
    Ok(waited)
}

/// The ten keys that most transactions wait at, the most first, and of equal ones the least key. A
/// transaction waits at a key that it locks after an earlier one, where one of the two writes it.
pub fn most_waited(alloc: Global, order: &[Chosen]) -> Result<Vec<Waited>, OutOfMemory>
    requires { length order.now < 2 ^ 32 }
    ensures { IfOk result (λ most. AreMost order.now most.items) }
{
    let waits = waits_of(alloc, order)?;
    let mut waited = all_waited(alloc, &waits)?;
    waited.sort_by_key(|one| (Reverse(one.count), one.key))?;
    waited.truncate(MOST_NAMED);
    Ok(waited)
}
