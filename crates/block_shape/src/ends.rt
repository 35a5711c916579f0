//! The greatest end of those that locked each key so far.
ghost use Rattle.std.specs.Prelude.{◌≡◌, ℕ, ◌≤◌, All, OnOk};
ghost use Rattle.sol_base.specs.declared.key.Key.{Key as KeyValue};
ghost use Rattle.block_shape.specs.Ends.{end_of, held_until, locks_as, raised};

use sol_base::{Key, Lock, OutOfMemory};
use std::collections::BTreeMap;

/// The greatest end of a key, and 0 where it has none.
fn end_of(ends: &BTreeMap<Key, u64>, key: &Key) -> u64
    ensures { result ≡ end_of ends.now key.now }
{
    ends.get(key).copied().unwrap_or(0)
}

/// How long a lock is held up: a reader by the writers of its key, a writer by its readers too.
pub(crate) fn held_until(
    written: &BTreeMap<Key, u64>,
    read: &BTreeMap<Key, u64>,
    lock: &Lock,
) -> u64
    ensures { result ≡ held_until written.now read.now lock.now }
{
    let writers = end_of(written, &lock.key);
    if lock.write {
        writers.max(end_of(read, &lock.key))
    } else {
        writers
    }
}

/// How long some locks are held up.
pub(crate) fn latest(written: &BTreeMap<Key, u64>, read: &BTreeMap<Key, u64>, locks: &[Lock]) -> u64
    ensures above { All (λ lock. held_until written.now read.now lock ≤ result) locks.now }
    ensures least { (time : ℕ) →
        All (λ lock. held_until written.now read.now lock ≤ time) locks.now → result ≤ time }
{
    let mut latest = 0;
    for lock in locks {
        latest = held_until(written, read, lock).max(latest);
    }
    latest
}

/// Notes the end of a position at each key that it locks so: to be written, or to be read.
pub(crate) fn raise(
    ends: &mut BTreeMap<Key, u64>,
    locks: &[Lock],
    write: bool,
    end: u64,
) -> Result<(), OutOfMemory>
    ensures { OnOk result ((key : KeyValue) →
        end_of ends.new key ≡ raised (locks_as write locks.now key) end (end_of ends.old key)) }
{
    for lock in locks {
        if lock.write == write {
            let greatest = end_of(ends, &lock.key).max(end);
            ends.insert(lock.key, greatest)?;
        }
    }
    Ok(())
}
