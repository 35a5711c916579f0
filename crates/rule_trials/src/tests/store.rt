//! Lists that are no state, by their first fault, and each call once.
ghost use Rattle.std.specs.Prelude.{◌≡◌, ◌+◌, ◌-◌, ◌^◌, ◌≤◌, All, length, IfOk};
ghost use Rattle.sol_base.specs.Accounts.{IsShort};
ghost use Rattle.account_store.specs.State as state;

use account_store::{Accounts, KeyedAccount, StoreFault};
use sol_base::{Account, Blob, Items, Key, OutOfMemory};
use std::alloc::Global;
use std::sync::Arc;
use std::test::Fail;

/// The data of every account here.
const DATA: [u8; 3] = [7, 8, 9];

fn account(alloc: Global, lamports: u64) -> Result<Account, OutOfMemory>
    ensures lamports { IfOk result (λ account. account.lamports ≡ lamports) }
    ensures short { IfOk result (λ account. IsShort account) }
{
    let mut account = Account::empty(alloc);
    account.lamports = lamports;
    account.bytes = Blob::from_slice(alloc, &DATA)?;
    Ok(account)
}

/// An entry, under the key of 32 times its byte.
fn entry(alloc: Global, of: (u8, u64)) -> Result<KeyedAccount, OutOfMemory>
    ensures short { IfOk result (λ entry. IsShort entry.account) }
{
    let account = account(alloc, of.1)?;
    Ok(KeyedAccount {
        key: Key([of.0; 32]),
        account,
    })
}

/// Two entries, each of a byte and lamports.
fn pair(
    alloc: Global,
    first: (u8, u64),
    second: (u8, u64),
) -> Result<Items<KeyedAccount>, OutOfMemory>
    ensures two { IfOk result (λ entries. length entries ≡ 2) }
    ensures short { IfOk result (λ entries. All (λ e. IsShort e.account) entries) }
{
    let mut entries = Items::new(alloc);
    entries.push(entry(alloc, first)?)?;
    entries.push(entry(alloc, second)?)?;
    Ok(entries)
}

/// Two entries, each a byte and lamports, and the sum of the state or what is wrong first.
type Pair = ((u8, u64), (u8, u64), Result<u64, StoreFault>);

const PAIRS: [Pair; 8] = [
    ((1, 5), (2, 7), Ok(12)),
    ((1, 5), (1, 5), Err(StoreFault::OutOfOrder { at: 1 })),
    ((2, 5), (1, 5), Err(StoreFault::OutOfOrder { at: 1 })),
    ((1, 0), (1, 5), Err(StoreFault::Empty { at: 0 })),
    ((1, 5), (2, 0), Err(StoreFault::Empty { at: 1 })),
    ((1, 5), (1, 0), Err(StoreFault::OutOfOrder { at: 1 })),
    ((1, 1), (2, u64::MAX), Err(StoreFault::SupplyTooLarge)),
    ((1, 1), (2, u64::MAX - 1), Ok(u64::MAX)),
];

/// The sum of the state of the two entries of a row.
fn total_of(alloc: Global, row: &Pair) -> Result<u64, StoreFault> {
    let accounts = Accounts::from_sorted(alloc, pair(alloc, row.0, row.1)?)?;
    Ok(accounts.total())
}

#[test]
fn the_first_fault_is_the_answer(rt: HostRuntime) {
    for row in &PAIRS {
        assert!(rt; total_of(rt.alloc(), row) == row.2);
    }
}

/// Writes an account with data.
fn write(alloc: Global, accounts: &mut Accounts, key: Key, lamports: u64) -> Result<(), OutOfMemory>
    requires { state.sum accounts.old + lamports ≤ 2 ^ 64 - 1 }
{
    let written = account(alloc, lamports)?;
    accounts.put(key, Arc::new(alloc, written)?)
}

/// The lamports under the key.
fn lamports_at(accounts: &Accounts, key: &Key) -> u64 {
    match accounts.get(key) {
        Some(account) => account.lamports,
        None => 0,
    }
}

/// Whether the account under the key has the data.
fn has_data(accounts: &Accounts, key: &Key) -> bool {
    match accounts.get(key) {
        Some(account) => account.bytes.as_slice() == DATA.as_slice(),
        None => false,
    }
}

/// The key after the given one.
fn next_key(accounts: &Accounts, key: Option<&Key>) -> Option<Key> {
    match accounts.next_after(key) {
        Some((key, _account)) => Some(*key),
        None => None,
    }
}

/// Whether a write leaves this sum, and these lamports under its key.
fn writes(
    alloc: Global,
    accounts: &mut Accounts,
    (key, lamports, total): (Key, u64, u64),
) -> Result<bool, OutOfMemory> {
    if accounts.total() > 13 || lamports > 13 {
        return Ok(false);
    }
    write(alloc, accounts, key, lamports)?;
    Ok(accounts.total() == total && lamports_at(accounts, &key) == lamports)
}

/// Whether the walk over the accounts meets this key, and no other.
fn meets_alone(accounts: &Accounts, key: &Key) -> bool {
    let mut rest = accounts.iter();
    match rest.next() {
        Some((met, _account)) => *met == *key && rest.next().is_none(),
        None => false,
    }
}

/// Whether the one account is that of the high key.
fn has_one(accounts: &Accounts, low: &Key, high: &Key) -> bool {
    accounts.len() == 1
        && has_data(accounts, high)
        && meets_alone(accounts, high)
        && next_key(accounts, None) == Some(*high)
        && next_key(accounts, Some(low)) == Some(*high)
        && next_key(accounts, Some(high)).is_none()
}

/// Whether to take the account out gives these lamports, and leaves none.
fn removes(accounts: &mut Accounts, key: &Key, lamports: u64) -> bool {
    match accounts.remove(key) {
        Some(account) => account.lamports == lamports && accounts.total() == 0,
        None => false,
    }
}

#[test]
fn a_store_keeps_what_is_written(rt: HostRuntime) -> Result<(), Fail> {
    let [low, high] = [Key([1; 32]), Key([9; 32])];
    let mut accounts = Accounts::new(rt.alloc());
    for step in [(high, 7, 7), (low, 5, 12), (high, 8, 13), (low, 0, 8)] {
        assert!(rt; writes(rt.alloc(), &mut accounts, step)?);
    }
    assert!(rt; has_one(&accounts, &low, &high));
    assert!(rt; removes(&mut accounts, &high, 8));
    Ok(())
}
