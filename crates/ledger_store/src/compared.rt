//! What lies between two snapshots.
ghost use Rattle.std.specs.Prelude.{◌≡◌, ◌<◌, ◌≤◌, ◌^◌, ◌++◌, ◌∷◌, [], if◌then◌else◌, is_none, IfOk, OnOk, length, option_map, take};
ghost use Rattle.std.specs.Arc.{arc_value};
ghost use Rattle.std.specs.FinMap.{from_entries};
ghost use Rattle.account_store.specs.State.{IsState, get, len};
ghost use Rattle.account_store.specs.Sorted.{entries_of};
ghost use Rattle.snapshot_codec.specs.Snapshot.{IsReadable, IsWritable};
ghost use Rattle.ledger_store.specs.Changes.{changes_between, gone_by, is_kept, left_by, same_account};

use crate::changes::Changes;
use crate::copy::copy_mark;
use account_store::{Accounts, KeyedAccount};
use snapshot_codec::Snapshot;
use sol_base::{Account, Items, Key, OutOfMemory};
use status_cache::Recent;
use std::alloc::Global;
use std::sync::Arc;

/// Whether all fields are the same.
fn same_account(a: &Account, b: &Account) -> bool
    ensures { result ≡ same_account a.now b.now }
{
    a.lamports == b.lamports
        && a.owner == b.owner
        && a.executable == b.executable
        && a.bytes.as_slice() == b.bytes.as_slice()
}

/// Whether the account is there unchanged.
fn is_kept(before: Option<&Arc<Account>>, account: &Account) -> bool
    ensures { result ≡ is_kept (option_map (λ b. arc_value b.now) before.entry) account.now }
{
    match before {
        Some(before) => same_account(before, account),
        None => false,
    }
}

/// Adds the account where it is new or otherwise than before.
fn add_if_new(
    left: &mut Items<KeyedAccount>,
    before: &Accounts,
    key: &Key,
    account: &Account,
) -> Result<(), OutOfMemory>
    ensures { OnOk result (entries_of left.new ≡ entries_of left.old
        ++ (if is_kept (get before.now key.now) account.now then [] else (key.now, account.now) ∷ [])) }
{
    if is_kept(before.get(key), account) {
        return Ok(());
    }
    left.push(KeyedAccount {
        key: *key,
        account: account.try_copy()?,
    })
}

/// The accounts that are new or otherwise than before.
fn left_by(
    alloc: Global,
    before: &Accounts,
    after: &Accounts,
) -> Result<Items<KeyedAccount>, OutOfMemory>
    ensures { IfOk result (λ list. entries_of list ≡ left_by before.now after.now) }
{
    let mut left = Items::new(alloc);
    let mut rest = after.iter();
    while let Some((key, account)) = rest.next() {
        add_if_new(&mut left, before, key, account)?;
    }
    Ok(left)
}

/// Adds the key where its account is gone.
fn add_if_gone(gone: &mut Items<Key>, after: &Accounts, key: &Key) -> Result<(), OutOfMemory>
    ensures { OnOk result (gone.new ≡ gone.old
        ++ (if is_none (get after.now key.now) then key.now ∷ [] else [])) }
{
    match after.get(key) {
        Some(_) => Ok(()),
        None => gone.push(*key),
    }
}

/// The keys whose accounts are gone.
fn gone_by(alloc: Global, before: &Accounts, after: &Accounts) -> Result<Items<Key>, OutOfMemory>
    ensures { IfOk result (λ gone. gone ≡ gone_by before.now after.now) }
{
    let mut gone = Items::new(alloc);
    let mut rest = before.iter();
    while let Some((key, _account)) = rest.next() {
        add_if_gone(&mut gone, after, key)?;
    }
    Ok(gone)
}

/// The newest mark alone.
fn newest_of(alloc: Global, recent: &Recent) -> Result<Recent, OutOfMemory>
    ensures { IfOk result (λ newest. newest ≡ take 1 recent.now) }
{
    let mut newest = Recent::new(alloc);
    if let Some(mark) = recent.marks().first() {
        newest.advance(copy_mark(alloc, mark)?)?;
    }
    Ok(newest)
}

/// The accounts that are new or otherwise than before, by their keys.
fn left_accounts(
    alloc: Global,
    before: &Accounts,
    after: &Accounts,
) -> Result<Accounts, OutOfMemory>
    requires few { len after.now < 2 ^ 32 }
    requires state { IsState after.now }
    ensures accounts { IfOk result (λ left. left ≡ from_entries (left_by before.now after.now)) }
    ensures fewer { IfOk result (λ left. len left ≤ len after.now) }
{
    match Accounts::from_sorted(alloc, left_by(alloc, before, after)?) {
        Ok(left) => Ok(left),
        // The entries are in order and some of a state's, so that only memory can be missing.
        Err(_) => Err(OutOfMemory),
    }
}

/// What lies between two snapshots of a chain: the accounts that are new or otherwise, and the keys
/// that are gone; of the blocks the newest mark alone.
pub fn changes_between(
    alloc: Global,
    before: &Snapshot,
    after: &Snapshot,
) -> Result<Changes, OutOfMemory>
    requires before { IsReadable before.now }
    requires after { IsReadable after.now }
    ensures changes { IfOk result (λ changes. changes ≡ changes_between before.now after.now) }
    ensures writable { IfOk result (λ changes. IsWritable changes.left) }
    ensures few { IfOk result (λ changes. length changes.gone < 2 ^ 32) }
{
    let accounts = left_accounts(alloc, &before.accounts, &after.accounts)?;
    let gone = gone_by(alloc, &before.accounts, &after.accounts)?;
    let left = Snapshot {
        slot: after.slot,
        limits: after.limits,
        recent: newest_of(alloc, &after.recent)?,
        accounts,
    };
    Ok(Changes { left, gone })
}
