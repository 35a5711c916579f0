//! Written accounts, put into their slots.
ghost use Rattle.std.specs.Prelude.{◌≡◌, ℕ, ◌<◌, ◌≤◌, ◌∷◌, [], All, length, take, Some, IsSome, false, IfOk, OnOk, OnErr, vec_capacity};
ghost use Rattle.bank_core.specs.Slots.{account_at, put_at, value_of, taken_at, put_back_at, write_numbers, AllThere, AreDistinct, ReadsAny, found};
ghost use Rattle.sol_base.specs.Accounts.{accounts_of};

use lock_table::NumberedLock;
use sol_base::{Account, Items, OutOfMemory, push_with_room};
use std::sync::Arc;

/// Puts each written account into the slot of its write lock.
pub(crate) fn put_written(
    slots: &mut [Option<Arc<Account>>],
    locks: &[NumberedLock],
    mut written: Items<Arc<Account>>,
)
    requires one_each { length written ≡ length (write_numbers locks.now) }
    requires within { All (λ lock. lock.number < length slots.old) locks.now }
    ensures { (n : ℕ) → account_at slots.new n
        ≡ put_at (write_numbers locks.now) (accounts_of written) (account_at slots.old) n }
{
    let mut at = locks.len();
    while at > 0 {
        at -= 1;
        let lock = locks[at];
        if lock.write {
            slots[lock.number as usize] = written.pop();
        }
    }
}

/// Puts values that were lent for writing back into their slots, and drops the shares.
pub(crate) fn put_back(
    slots: &mut [Option<Arc<Account>>],
    locks: &[NumberedLock],
    values: &mut Vec<Arc<Account>>,
)
    requires fewer { length values.old.items ≤ length locks.now }
    requires within { All (λ lock. lock.number < length slots.old) locks.now }
    ensures emptied { values.new.items ≡ [] }
    ensures capacity { vec_capacity values.old ≤ vec_capacity values.new }
    ensures back { (n : ℕ)
        → account_at slots.new n
        ≡ put_back_at (take (length values.old.items) locks.now) (accounts_of values.old.items)
        (account_at slots.old) n }
{
    while let Some(account) = values.pop() {
        let lock = locks[values.len()];
        if lock.write {
            slots[lock.number as usize] = Some(account);
        }
    }
}

/// Lends what one lock asks for: a written account leaves its slot, a read one is shared.
fn lend_one(
    slots: &mut [Option<Arc<Account>>],
    lock: NumberedLock,
) -> Result<Arc<Account>, OutOfMemory>
    requires within { lock.number < length slots.old }
    requires there { IsSome (account_at slots.old lock.number) }
    ensures ok { IfOk result (λ a. Some (value_of a) ≡ account_at slots.old lock.number) }
    ensures left { OnOk result ((n : ℕ)
        → account_at slots.new n ≡ taken_at (write_numbers (lock ∷ [])) (account_at slots.old) n) }
    ensures err { OnErr result (slots.new ≡ slots.old) }
    ensures reads { OnErr result (lock.write ≡ false) }
{
    let at = lock.number as usize;
    if lock.write {
        Ok(slots[at].take().unwrap())
    } else {
        Ok(Arc::try_clone(slots[at].as_ref().unwrap())?)
    }
}

/// Lends what the locks ask for, all or nothing.
pub(crate) fn lend(
    slots: &mut [Option<Arc<Account>>],
    locks: &[NumberedLock],
    values: &mut Vec<Arc<Account>>,
) -> Result<(), OutOfMemory>
    requires empty { values.old.items ≡ [] }
    requires room { length locks.now ≤ vec_capacity values.old }
    requires within { All (λ lock. lock.number < length slots.old) locks.now }
    requires there { AllThere locks.now (account_at slots.old) }
    requires distinct { AreDistinct locks.now }
    ensures lent { OnOk result (accounts_of values.new.items
        ≡ found locks.now (account_at slots.old)) }
    ensures left { OnOk result ((n : ℕ)
        → account_at slots.new n ≡ taken_at (write_numbers locks.now) (account_at slots.old) n) }
    ensures same { OnErr result ((n : ℕ) → account_at slots.new n ≡ account_at slots.old n) }
    ensures emptied { OnErr result (values.new.items ≡ []) }
    ensures reads { OnErr result (ReadsAny locks.now) }
    ensures capacity { vec_capacity values.old ≤ vec_capacity values.new }
{
    for lock in locks {
        match lend_one(slots, *lock) {
            Ok(account) => push_with_room(values, account),
            Err(e) => {
                put_back(slots, locks, values);
                return Err(e);
            }
        }
    }
    Ok(())
}
