//! How a transaction ends.
ghost use Rattle.std.specs.Prelude.{◌≡◌, ◌<◌, ◌∷◌, ◌++◌, [], length, map, IfOk, IfSome, OnOk};
ghost use Rattle.std.specs.Arc.{arc_value};
ghost use Rattle.sol_base.specs.Accounts.{AreShort, IsShort, accounts_of};
ghost use Rattle.account_store.specs.State.{settled};
ghost use Rattle.bank_law.specs.Lawful.{lent_for_writing};
ghost use Rattle.tx_exec.specs.Transaction.{data_in, is_broken, rent_broken};

use crate::payer::may_become;
use sol_base::{Account, Items, Lock, OutOfMemory};
use std::alloc::Global;
use std::sync::Arc;

/// The data bytes of all accounts.
pub fn data_of(values: &[Arc<Account>]) -> u128
    ensures { result ≡ data_in (accounts_of values.now) }
{
    values
        .iter()
        .map(|account| account.bytes.len() as u128)
        .sum()
}

/// The place of the first key to be written whose rent does not allow what became of its account.
pub fn find_broken_rent(
    locks: &[Lock],
    before: &[Arc<Account>],
    after: &[Arc<Account>],
) -> Option<usize>
    requires before { length before.now ≡ length locks.now }
    requires after { length after.now ≡ length locks.now }
    requires short_before { AreShort (accounts_of before.now) }
    requires short_after { AreShort (accounts_of after.now) }
    ensures exact { result
        ≡ rent_broken locks.now (accounts_of before.now) (accounts_of after.now) }
    ensures within { IfSome result (λ place. place < length locks.now) }
{
    for (place, lock) in locks.iter().enumerate() {
        let broken = is_rent_broken(lock, &before[place], &after[place]);
        if broken {
            return Some(place);
        }
    }
    None
}

fn is_rent_broken(lock: &Lock, before: &Arc<Account>, after: &Arc<Account>) -> bool
    requires before { IsShort (arc_value before.now) }
    requires after { IsShort (arc_value after.now) }
    ensures { result ≡ is_broken (lock.now, (arc_value before.now, arc_value after.now)) }
{
    lock.write && !may_become(before, after.lamports, after.bytes.len())
}

/// What is written: the accounts beside write locks, those without lamports as the empty one.
pub fn written_of(
    alloc: Global,
    locks: &[Lock],
    values: &[Arc<Account>],
) -> Result<Items<Arc<Account>>, OutOfMemory>
    requires { length values.now ≡ length locks.now }
    ensures { IfOk result (λ w. accounts_of w
        ≡ map settled (lent_for_writing locks.now (accounts_of values.now))) }
{
    let mut written = Items::with_capacity(alloc, locks.len())?;
    for (place, lock) in locks.iter().enumerate() {
        push_written(alloc, &mut written, lock, &values[place])?;
    }
    Ok(written)
}

fn push_written(
    alloc: Global,
    written: &mut Items<Arc<Account>>,
    lock: &Lock,
    value: &Arc<Account>,
) -> Result<(), OutOfMemory>
    ensures { OnOk result (accounts_of written.new ≡ accounts_of written.old
        ++ map settled (lent_for_writing (lock.now ∷ []) (arc_value value.now ∷ []))) }
{
    if lock.write {
        written.push(settle(alloc, value)?)?;
    }
    Ok(())
}

fn settle(alloc: Global, account: &Arc<Account>) -> Result<Arc<Account>, OutOfMemory>
    ensures { IfOk result (λ share. arc_value share ≡ settled (arc_value account.now)) }
{
    if account.lamports == 0 {
        Ok(Arc::new(alloc, Account::empty(alloc))?)
    } else {
        Ok(Arc::try_clone(account)?)
    }
}
