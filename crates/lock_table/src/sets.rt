//! The locks of a position over numbers, and when two sets conflict.
ghost use Rattle.std.specs.Prelude.{◌≡◌, ◌+◌, ◌^◌, ◌<◌, true, All, IfOk, OnOk, OnErr, length};
ghost use Rattle.std.specs.List.{IsDistinct, list_any};
ghost use Rattle.bank_law.specs.Job.{same_key, has_key, lock_keys};
ghost use Rattle.lock_table.specs.Numbers.{Numbers, EachOnce, meets, conflicts, with_keys};

use crate::keys::KeyTable;
use crate::locks::NumberedLock;
use sol_base::{LockList, OutOfMemory, push_with_room};
use std::alloc::Global;
use std::marker::Model;

/// The locks of one position over numbers, each number once.
#[derive(Drop)]
pub struct LockSet {
    locks: Vec<NumberedLock>,
}

impl Model for LockSet {
    ghost use Rattle.std.specs.Prelude.{List};
    ghost use Rattle.lock_table.specs.declared.locks.NumberedLock.{NumberedLock};
    ghost use Rattle.lock_table.specs.Numbers.{EachOnce};

    ghost Value = { List NumberedLock };

    ghost view = { λ s. s.locks.items };

    ghost invariant = { λ s. EachOnce s.locks.items };
}

impl LockSet {
    /// The locks, in the order in which they were given.
    pub fn items(&self) -> &[NumberedLock]
        ensures items { result.now ≡ self.now }
        ensures once { EachOnce self.now }
    {
        self.locks.as_slice()
    }
}

/// Numbers the keys of locks, those that have no number yet by the next ones.
pub fn set_of(alloc: Global, table: &mut KeyTable, locks: &LockList) -> Result<LockSet, OutOfMemory>
    requires distinct { IsDistinct same_key (lock_keys locks.now) }
    requires room { length table.old + length locks.now < 2 ^ 32 }
    ensures set { IfOk result (λ set. Numbers table.new locks.now set) }
    ensures keys { OnOk result (table.new ≡ with_keys table.old (lock_keys locks.now)) }
    ensures err { OnErr result (table.new ≡ table.old) }
{
    let locks = locks.as_slice();
    let mut numbered = Vec::with_capacity(alloc, locks.len())?;
    let before = table.len();
    for lock in locks {
        match table.number(lock.key) {
            Ok(number) => {
                let write = lock.write;
                push_with_room(&mut numbered, NumberedLock { number, write });
            }
            Err(e) => {
                table.truncate(before);
                return Err(e);
            }
        }
    }
    Ok(LockSet { locks: numbered })
}

/// The set of locks whose keys all have numbers.
pub fn set_of_known(
    alloc: Global,
    table: &KeyTable,
    locks: &LockList,
) -> Result<LockSet, OutOfMemory>
    requires distinct { IsDistinct same_key (lock_keys locks.now) }
    requires known { All (λ lock. has_key lock.key table.now ≡ true) locks.now }
    ensures { IfOk result (λ set. Numbers table.now locks.now set) }
{
    let _len = table.len();
    let locks = locks.as_slice();
    let mut numbered = Vec::with_capacity(alloc, locks.len())?;
    for lock in locks {
        let number = table.known(&lock.key);
        let write = lock.write;
        push_with_room(&mut numbered, NumberedLock { number, write });
    }
    Ok(LockSet { locks: numbered })
}

/// Whether a number is in both sets, and at least one of the two writes it. It compares each lock
/// of the one with each of the other.
pub fn conflict(one: &LockSet, other: &LockSet) -> bool
    ensures { result ≡ conflicts one.now other.now }
{
    one.items().iter().any(|a| meets_any(*a, other.items()))
}

/// Whether the lock has the number of one of these, and one of the two writes it.
fn meets_any(lock: NumberedLock, others: &[NumberedLock]) -> bool
    ensures { result ≡ list_any (λ other. meets lock other) others.now }
{
    others.iter().any(|other| lock.number == other.number && (lock.write || other.write))
}
