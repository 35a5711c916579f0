//! How many transactions wait at each key.
ghost use Rattle.std.specs.Prelude.{◌≡◌, ◌<◌, ◌^◌, IfOk, OnOk, length};
ghost use Rattle.sol_base.specs.declared.key.Key.{Key as KeyValue};
ghost use Rattle.block_shape.specs.Ends.{held_until};
ghost use Rattle.block_shape.specs.Waits.{counted, counted_if, is_held_at, wait_of, waits_at};

use crate::ends::{held_until, raise};
use admission::Chosen;
use sol_base::{Key, Lock, OutOfMemory};
use std::alloc::Global;
use std::collections::BTreeMap;

/// How many positions wait at a key, and the last of them, counted from 1.
#[derive(Clone, Copy)]
pub(crate) struct Wait {
    pub(crate) count: u32,
    pub(crate) place: u32,
}

/// What is counted at a key.
fn wait_of(waits: &BTreeMap<Key, Wait>, key: &Key) -> Wait
    ensures { result ≡ wait_of waits.now key.now }
{
    waits
        .get(key)
        .copied()
        .unwrap_or(Wait { count: 0, place: 0 })
}

/// The count with one more place, unless that place is counted.
fn counted(before: Wait, place: u32) -> Wait
    ensures { result ≡ counted before place }
{
    if before.place < place {
        Wait {
            count: before.count.saturating_add(1),
            place,
        }
    } else {
        before
    }
}

/// Counts a place once at each key where it waits.
fn count_at(
    waits: &mut BTreeMap<Key, Wait>,
    written: &BTreeMap<Key, u64>,
    read: &BTreeMap<Key, u64>,
    locks: &[Lock],
    place: u32,
) -> Result<(), OutOfMemory>
    ensures { OnOk result ((key : KeyValue) →
        wait_of waits.new key
        ≡ counted_if (is_held_at written.now read.now locks.now key) place (wait_of waits.old key)) }
{
    for lock in locks {
        if held_until(written, read, lock) > 0 {
            let wait = counted(wait_of(waits, &lock.key), place);
            waits.insert(lock.key, wait)?;
        }
    }
    Ok(())
}

/// How many transactions wait at each key.
pub(crate) fn waits_of(alloc: Global, order: &[Chosen]) -> Result<BTreeMap<Key, Wait>, OutOfMemory>
    requires { length order.now < 2 ^ 32 }
    ensures { IfOk result (λ waits. (key : KeyValue) →
        (wait_of waits key).count ≡ waits_at order.now key) }
{
    let mut waits = BTreeMap::new(alloc);
    let mut written = BTreeMap::new(alloc);
    let mut read = BTreeMap::new(alloc);
    for position in 0..order.len() {
        let chosen = &order[position];
        let locks = chosen.locks.as_slice();
        count_at(&mut waits, &written, &read, locks, position as u32 + 1)?;
        raise(&mut written, locks, true, 1)?;
        raise(&mut read, locks, false, 1)?;
    }
    Ok(waits)
}
