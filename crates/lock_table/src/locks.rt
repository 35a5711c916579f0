//! Locks over numbers, and lists of locks with distinct keys.
ghost use Rattle.std.specs.Prelude.{◌≡◌, ◌↔◌, IsTrue};
ghost use Rattle.std.specs.List.{IsDistinct, list_any};
ghost use Rattle.bank_law.specs.Job.{same_key, lock_keys};

use sol_base::{Key, Lock, LockList};

/// A lock on the key of a number.
#[derive(Clone, Copy, PartialEq, Eq)]
pub struct NumberedLock {
    pub number: u32,
    pub write: bool,
}

/// Whether the keys of the locks are distinct, as `set_of` asks. It compares each two of them.
pub fn has_distinct_keys(locks: &LockList) -> bool
    ensures { IsTrue result ↔ IsDistinct same_key (lock_keys locks.now) }
{
    let locks = locks.as_slice();
    for (i, lock) in locks.iter().enumerate() {
        if has_lock(&locks[..i], &lock.key) {
            return false;
        }
    }
    true
}

/// Whether one of the locks is on the key.
fn has_lock(locks: &[Lock], key: &Key) -> bool
    ensures { result ≡ list_any (λ lock. same_key key.now lock.key) locks.now }
{
    locks.iter().any(|lock| *key == lock.key)
}
