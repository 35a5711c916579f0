//! The snapshot after a block, from the one before it and what the block changed.
ghost use Rattle.std.specs.Prelude.{◌≡◌, ◌≤◌, ◌+◌, ◌-◌, ◌^◌, Some, None, true, IfOk, MatchBool, OnOk, map};
ghost use Rattle.spec_base.specs.Reading.{Gives};
ghost use Rattle.account_store.specs.State.{IsState, entries, put, sum};
ghost use Rattle.sol_base.specs.Accounts.{IsShort};
ghost use Rattle.std.specs.Arc.{arc_value};
ghost use Rattle.snapshot_codec.specs.Snapshot.{HasWidths, IsReadable};
ghost use Rattle.ledger_store.specs.Faults.{NeverFails, is_ledger_memory};
ghost use Rattle.ledger_store.specs.Changes.{next_accounts, next_of, next_recent, puts, with_accounts, without};

use crate::changes::Changes;
use crate::copy::copy_mark;
use crate::fault::LedgerFault;
use account_store::Accounts;
use ledger_folder::Name;
use snapshot_codec::{MAX_ACCOUNTS, Snapshot};
use sol_base::{Account, Key, OutOfMemory};
use status_cache::Recent;
use std::alloc::Global;
use std::sync::Arc;

/// Takes the accounts of the keys out.
fn take_out(accounts: &mut Accounts, keys: &[Key])
    ensures { accounts.new ≡ without keys.now accounts.old }
{
    for key in keys {
        let _gone = accounts.remove(key);
    }
}

/// Takes the accounts out whose keys others have.
fn take_out_keys_of(accounts: &mut Accounts, others: &Accounts)
    ensures { accounts.new ≡ without (map (λ e. e.0) (entries others.now)) accounts.old }
{
    let mut rest = others.iter();
    while let Some((key, _account)) = rest.next() {
        let _gone = accounts.remove(key);
    }
}

/// Puts an account in, unless there are then more lamports than there can be, and returns whether it
/// did.
fn put_one(accounts: &mut Accounts, key: &Key, account: &Arc<Account>) -> Result<bool, OutOfMemory>
    requires { IsShort (arc_value account.now) }
    ensures { IfOk result (λ fits. MatchBool fits
        ((accounts.new ≡ put accounts.old key.now (arc_value account.now))
        × (sum accounts.old + (arc_value account.now).lamports ≤ 2 ^ 64 - 1))
        (2 ^ 64 ≤ sum accounts.old + (arc_value account.now).lamports)) }
{
    match accounts.total().checked_add(account.lamports) {
        Some(_) => {
            accounts.put(*key, Arc::try_clone(account)?)?;
            Ok(true)
        }
        None => Ok(false),
    }
}

/// Puts the accounts in, and returns whether they never come to more lamports than there can be.
fn put_in(accounts: &mut Accounts, others: &Accounts) -> Result<bool, OutOfMemory>
    ensures { IfOk result (λ fits. MatchBool fits
        (with_accounts (entries others.now) accounts.old ≡ Some accounts.new)
        (with_accounts (entries others.now) accounts.old ≡ None)) }
{
    let mut rest = others.iter();
    while let Some((key, account)) = rest.next() {
        if !put_one(accounts, key, account)? {
            return Ok(false);
        }
    }
    Ok(true)
}

/// Whether the lamports of both together are never more than there can be.
fn fit_together(accounts: &Accounts, others: &Accounts) -> bool
    ensures fits { result ≡ true → sum accounts.now + sum others.now ≤ 2 ^ 64 - 1 }
    ensures state { IsState others.now }
{
    accounts.total().checked_add(others.total()).is_some()
}

/// Puts an account in, in place of the one that is there.
fn put_shared(accounts: &mut Accounts, key: &Key, account: &Arc<Account>) -> Result<(), OutOfMemory>
    requires short { IsShort (arc_value account.now) }
    requires fits { sum accounts.old + (arc_value account.now).lamports ≤ 2 ^ 64 - 1 }
    ensures { OnOk result (accounts.new ≡ put accounts.old key.now (arc_value account.now)) }
{
    accounts.put(*key, Arc::try_clone(account)?)?;
    Ok(())
}

/// Puts the accounts in, in place of those that are there.
pub(crate) fn put_over(accounts: &mut Accounts, others: &Accounts) -> Result<(), OutOfMemory>
    requires { sum accounts.old + sum others.now ≤ 2 ^ 64 - 1 }
    ensures { OnOk result (accounts.new ≡ puts (entries others.now) accounts.old) }
{
    let mut rest = others.iter();
    while let Some((key, account)) = rest.next() {
        put_shared(accounts, key, account)?;
    }
    Ok(())
}

/// Puts what a block changed into the accounts before it.
fn change(accounts: &mut Accounts, changes: &Changes) -> Result<bool, OutOfMemory>
    ensures { IfOk result (λ fits. MatchBool fits
        (next_accounts changes.now accounts.old ≡ Some accounts.new)
        (next_accounts changes.now accounts.old ≡ None)) }
{
    take_out(accounts, changes.gone.as_slice());
    let left = &changes.left.accounts;
    if fit_together(accounts, left) {
        put_over(accounts, left)?;
        return Ok(true);
    }
    take_out_keys_of(accounts, left);
    put_in(accounts, left)
}

/// Adds the newest mark of the changes, if they have one.
fn advance(alloc: Global, recent: &mut Recent, newest: &Recent) -> Result<(), OutOfMemory>
    ensures { OnOk result (recent.new ≡ next_recent newest.now recent.old) }
{
    if let Some(mark) = newest.marks().first() {
        recent.advance(copy_mark(alloc, mark)?)?;
    }
    Ok(())
}

/// The snapshot after the block of a slot.
#[tactic(auto, unfolding(crate::specs::Changes::next_of))]
pub(crate) fn next_of(
    alloc: Global,
    slot: u64,
    changes: &Changes,
    before: Snapshot,
) -> Result<Snapshot, LedgerFault>
    requires changes { IsReadable changes.now.left }
    requires before { IsReadable before }
    ensures gives { Gives is_ledger_memory (λ s. s) result (next_of slot changes.now before) }
    ensures readable { IfOk result IsReadable }
    ensures widths { HasWidths changes.now.left → HasWidths before → IfOk result HasWidths }
    ensures quiet { NeverFails result }
{
    let Snapshot {
        mut recent,
        mut accounts,
        ..
    } = before;
    let fits = change(&mut accounts, changes)?;
    if !fits || accounts.len() > MAX_ACCOUNTS as usize {
        return Err(LedgerFault::Damaged {
            name: Name::Changes { slot },
            at: 0,
        });
    }
    advance(alloc, &mut recent, &changes.left.recent)?;
    Ok(Snapshot {
        slot: changes.left.slot,
        limits: changes.left.limits,
        recent,
        accounts,
    })
}
