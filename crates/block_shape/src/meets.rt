//! The key over which one transaction holds up another.
ghost use Rattle.std.specs.Prelude.{◌≡◌};
ghost use Rattle.bank_law.specs.Machine.{meet};
ghost use Rattle.block_shape.specs.Meets.{is_met, key_met};

use sol_base::{Key, Lock};

/// Whether two locks are on one key, and one of the two writes it.
fn meets(one: &Lock, other: &Lock) -> bool
    ensures { result ≡ meet one.now other.now }
{
    one.key == other.key && (one.write || other.write)
}

/// Whether one of the earlier locks meets the lock.
fn is_met(earlier: &[Lock], lock: &Lock) -> bool
    ensures { result ≡ is_met earlier.now lock.now }
{
    earlier.iter().any(|one| meets(one, lock))
}

/// The first key of the locks at which the earlier ones conflict with them. None where no two
/// conflict.
pub fn key_met(earlier: &[Lock], locks: &[Lock]) -> Option<Key>
    ensures { result ≡ key_met earlier.now locks.now }
{
    for lock in locks {
        if is_met(earlier, lock) {
            return Some(lock.key);
        }
    }
    None
}
