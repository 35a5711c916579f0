//! A small work, which takes one lamport from each account that it writes.
ghost use Rattle.std.specs.Prelude.{◌≡◌, ◌<◌, ◌^◌, IfOk, map, length};
ghost use Rattle.std.specs.Arc.{arc_value};
ghost use Rattle.std.proofs.Props.{props};
ghost use Rattle.std.proofs.lemmas.Map.Keys.{IsDistinct-prop};
ghost use Rattle.sol_base.specs.Accounts.{accounts_of};
ghost use Rattle.account_store.specs.State.{sum};
ghost use Rattle.bank_law.specs.Lawful.{lent_for_writing};
ghost use Rattle.bank_core.specs.Effects.{effects_seen};
ghost use Rattle.lane_trials.specs.Trial.{spent, first_lamports, trial_effects, trial_job, AreDistinctLists, IsSmall};
ghost use Rattle.lane_trials.specs.TrialLaws.{trial_lawful};

use account_store::Accounts;
use bank_core::{Effects, SharedOutcome, Work};
use lock_table::has_distinct_keys;
use sol_base::{Account, Items, Key, Lock, LockList, OutOfMemory};
use std::alloc::Global;
use std::process::Abort;
use std::sync::Arc;
use std::test::Fail;
use tx_report::{Outcome, Status};

pub const READ: bool = false;

pub const WRITE: bool = true;

#[derive(Drop)]
pub struct Trial {
    locks: Items<LockList>,
    alloc: Global,
    pub ghost distinct: { AreDistinctLists locks } by { Prim.hlevel (props, IsDistinct-prop) },
    pub ghost small: { IsSmall locks } by { Prim.hlevel props },
}

impl Work for Trial {
    type Told = Items<LockList>;

    ghost told = { λ work. work.locks };

    ghost job = { trial_job };

    ghost lawful = { λ work. trial_lawful work.locks work.distinct };

    fn count(&self) -> u32 {
        self.locks.len() as u32
    }

    fn locks(&self, position: u32) -> &LockList {
        &self.locks.as_slice()[position as usize]
    }

    fn perform(&self, position: u32, values: &[Arc<Account>]) -> Result<Effects, OutOfMemory> {
        perform_locks(self.alloc, self.locks(position).as_slice(), values)
    }
}

/// What performing a position of these locks gives.
fn perform_locks(
    alloc: Global,
    locks: &[Lock],
    values: &[Arc<Account>],
) -> Result<Effects, OutOfMemory>
    requires { length values.now ≡ length locks.now }
    ensures { IfOk result (λ e. effects_seen e ≡ trial_effects locks.now (accounts_of values.now)) }
{
    let written = write_locks(alloc, locks, values)?;
    let outcome = Outcome {
        status: Status::Good,
        units: units_of(values),
        base_paid: 0,
        priority_paid: 0,
        lines: Items::new(alloc),
    };
    Ok(Effects {
        outcome: SharedOutcome::new(alloc, outcome)?,
        written,
    })
}

fn units_of(values: &[Arc<Account>]) -> u64
    ensures { result ≡ first_lamports (accounts_of values.now) }
{
    match values {
        [first, ..] => first.lamports,
        [] => 0,
    }
}

fn write_locks(
    alloc: Global,
    locks: &[Lock],
    values: &[Arc<Account>],
) -> Result<Items<Arc<Account>>, OutOfMemory>
    requires { length values.now ≡ length locks.now }
    ensures { IfOk result
        (λ w. accounts_of w ≡ map spent (lent_for_writing locks.now (accounts_of values.now))) }
{
    let mut written = Items::new(alloc);
    for (i, lock) in locks.iter().enumerate() {
        if lock.write {
            written.push(Arc::new(alloc, spend(alloc, &values[i])?)?)?;
        }
    }
    Ok(written)
}

fn spend(alloc: Global, account: &Arc<Account>) -> Result<Account, OutOfMemory>
    ensures { IfOk result (λ a. a ≡ spent (arc_value account.now)) }
{
    if account.lamports > 1 {
        let mut left = account.try_copy()?;
        left.lamports -= 1;
        Ok(left)
    } else {
        Ok(Account::empty(alloc))
    }
}

/// The key of one repeated byte.
pub fn key_of(byte: u8) -> Key {
    Key([byte; 32])
}

/// The locks on keys of one repeated byte.
pub fn locks_of(alloc: Global, entries: &[(u8, bool)]) -> Result<LockList, OutOfMemory> {
    let mut locks = LockList::new(alloc);
    for (byte, write) in entries {
        let key = key_of(*byte);
        locks.push(Lock { key, write: *write })?;
    }
    Ok(locks)
}

/// The work of positions with these locks.
pub fn trial_of(rt: &impl Abort, alloc: Global, lists: &[&[(u8, bool)]]) -> Result<Trial, Fail> {
    let mut locks = Items::new(alloc);
    for entries in lists {
        let list = locks_of(alloc, entries)?;
        assert!(rt; has_distinct_keys(&list) && list.len() < 100);
        locks.push(list)?;
    }
    assert!(rt; locks.len() < 100);
    Ok(Trial { locks, alloc })
}

/// Accounts of ten lamports under keys of one repeated byte.
pub fn accounts_of_ten(rt: &impl Abort, alloc: Global, bytes: &[u8]) -> Result<Accounts, Fail> {
    accounts_with(rt, alloc, bytes, 10)
}

/// Accounts of so many lamports each under keys of one repeated byte.
pub fn accounts_with(
    rt: &impl Abort,
    alloc: Global,
    bytes: &[u8],
    lamports: u32,
) -> Result<Accounts, Fail> {
    let mut accounts = Accounts::new(alloc);
    for byte in bytes {
        let mut account = Account::empty(alloc);
        account.lamports = u64::from(lamports);
        assert!(rt; accounts.total() < 1 << 60);
        put_more(alloc, &mut accounts, key_of(*byte), account)?;
    }
    Ok(accounts)
}

fn put_more(
    alloc: Global,
    accounts: &mut Accounts,
    key: Key,
    account: Account,
) -> Result<(), OutOfMemory>
    requires room { sum accounts.old < 2 ^ 60 }
    requires few { account.lamports < 2 ^ 32 }
    requires short { length account.bytes ≡ 0 }
{
    let share = Arc::new(alloc, account)?;
    accounts.put(key, share)
}
