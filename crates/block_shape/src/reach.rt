//! The last of those that end last, of those that locked each key so far.
ghost use Rattle.std.specs.Prelude.{◌≡◌, ℕ, ◌≤◌, All, OnOk};
ghost use Rattle.sol_base.specs.declared.key.Key.{Key as KeyValue};
ghost use Rattle.block_shape.specs.Ends.{locks_as};
ghost use Rattle.block_shape.specs.Holders.{held_place, later, place_at, reach_of, reached};

use sol_base::{Key, Lock, OutOfMemory};
use std::collections::BTreeMap;

/// The greatest end of some positions, and the last of those that end then, counted from 1.
#[derive(Clone, Copy)]
pub(crate) struct Reach {
    pub(crate) end: u64,
    pub(crate) place: u32,
}

/// What is kept for a key.
fn reach_of(reaches: &BTreeMap<Key, Reach>, key: &Key) -> Reach
    ensures { result ≡ reach_of reaches.now key.now }
{
    reaches
        .get(key)
        .copied()
        .unwrap_or(Reach { end: 0, place: 0 })
}

/// The later of two ends, and of equal ones the second.
fn later(before: Reach, end: u64, place: u32) -> Reach
    ensures { result ≡ later before end place }
{
    if before.end <= end {
        Reach { end, place }
    } else {
        before
    }
}

/// The place where the end is this time, and 0 where it is not.
fn place_at(reach: Reach, time: u64) -> u32
    ensures { result ≡ place_at reach time }
{
    if reach.end == time { reach.place } else { 0 }
}

/// The place of the last that holds up a lock until this time.
fn held_place(
    written: &BTreeMap<Key, Reach>,
    read: &BTreeMap<Key, Reach>,
    time: u64,
    lock: &Lock,
) -> u32
    ensures { result ≡ held_place written.now read.now time lock.now }
{
    let writer = place_at(reach_of(written, &lock.key), time);
    if lock.write {
        writer.max(place_at(reach_of(read, &lock.key), time))
    } else {
        writer
    }
}

/// The place of the last that holds up one of the locks until this time.
pub(crate) fn last_place(
    written: &BTreeMap<Key, Reach>,
    read: &BTreeMap<Key, Reach>,
    time: u64,
    locks: &[Lock],
) -> u32
    ensures above { All (λ lock. held_place written.now read.now time lock ≤ result) locks.now }
    ensures least { (place : ℕ) →
        All (λ lock. held_place written.now read.now time lock ≤ place) locks.now →
        result ≤ place }
{
    let mut latest = 0;
    for lock in locks {
        latest = held_place(written, read, time, lock).max(latest);
    }
    latest
}

/// Notes a position at each key that it locks so: to be written, or to be read.
pub(crate) fn note(
    reaches: &mut BTreeMap<Key, Reach>,
    locks: &[Lock],
    write: bool,
    end: u64,
    place: u32,
) -> Result<(), OutOfMemory>
    ensures { OnOk result ((key : KeyValue) →
        reach_of reaches.new key
        ≡ reached (locks_as write locks.now key) end place (reach_of reaches.old key)) }
{
    for lock in locks {
        if lock.write == write {
            let latest = later(reach_of(reaches, &lock.key), end, place);
            reaches.insert(lock.key, latest)?;
        }
    }
    Ok(())
}
