//! Many accounts at once: taken out, and put in.
ghost use Rattle.std.specs.Prelude.{◌≡◌, ◌+◌, ◌-◌, ◌^◌, ◌≤◌, ◌++◌, true, None, All, IfOk, OnOk, length, map as each, replicate, option_map, slice_get};
ghost use Rattle.std.specs.Option.{option_map_or};
ghost use Rattle.std.specs.List.{IsDistinct};
ghost use Rattle.std.specs.List.Sorted.{IsStrictlySortedBy};
ghost use Rattle.std.specs.Arc.{arc_value};
ghost use Rattle.std.specs.Map.{keys_of};
ghost use Rattle.std.specs.BTreeMap.{IsFromIterResult};
ghost use Rattle.std.specs.declared.cmp.Ordering.TheVariants.{Greater};
ghost use Rattle.sol_base.specs.Keys.{key_cmp, same_key};
ghost use Rattle.account_store.specs.State as state;
ghost use Rattle.account_store.specs.State.{IsState, IsHeld, lamports_of};
ghost use Rattle.account_store.specs.Shared.{seen};

use crate::accounts::Accounts;
use sol_base::{Account, Key, OutOfMemory};
use std::alloc::Global;
use std::cmp::Ordering;
use std::collections::BTreeMap;
use std::sync::Arc;

/// Accounts that were taken out, and the others.
#[derive(Drop)]
pub struct TakenOut {
    /// For each key its account. None where it is absent.
    pub accounts: Vec<Option<Arc<Account>>>,
    pub rest: Accounts,
}

/// Where at least one of so many accounts is taken out, all are walked.
const WALK_RATIO: usize = 8;

impl Accounts {
    /// Takes the accounts of distinct keys out. Where the keys ascend and are many, this takes one
    /// walk over all accounts, and else a look-up for each key.
    pub fn take_out(self, alloc: Global, keys: &[Key]) -> Result<TakenOut, OutOfMemory>
        requires { IsDistinct same_key keys.now }
        ensures taken { IfOk result (λ out.
            each (option_map arc_value) out.accounts.items ≡ each (state.get self) keys.now) }
        ensures rest { IfOk result (λ out. out.rest ≡ state.without self keys.now) }
        ensures state { IfOk result (λ out. IsState out.rest) }
    {
        if self.len() / WALK_RATIO <= keys.len() && ascend(keys) {
            self.walk_out(alloc, keys)
        } else {
            self.remove_each(alloc, keys)
        }
    }

    /// Takes the accounts of ascending keys out, by one walk over all accounts.
    fn walk_out(self, alloc: Global, keys: &[Key]) -> Result<TakenOut, OutOfMemory>
        requires { IsStrictlySortedBy key_cmp keys.now }
        ensures taken { IfOk result (λ out.
            each (option_map arc_value) out.accounts.items ≡ each (state.get self) keys.now) }
        ensures rest { IfOk result (λ out. out.rest ≡ state.without self keys.now) }
        ensures state { IfOk result (λ out. IsState out.rest) }
    {
        let Accounts { tree, mut total } = self;
        let mut accounts = Vec::with_capacity(alloc, keys.len())?;
        let mut rest = Vec::new(alloc);
        let mut entries = tree.into_iter();
        let mut next = entries.next();
        while let Some((key, account)) = next {
            next = match order_at(keys, accounts.len(), &key) {
                Ordering::Less => {
                    accounts.push(None)?;
                    Some((key, account))
                }
                Ordering::Equal => {
                    total -= account.lamports;
                    accounts.push(Some(account))?;
                    entries.next()
                }
                Ordering::Greater => {
                    rest.push((key, account))?;
                    entries.next()
                }
            };
        }
        fill(&mut accounts, keys.len())?;
        let tree = tree_of(alloc, rest)?;
        let rest = Accounts { tree, total };
        Ok(TakenOut { accounts, rest })
    }

    /// Takes the accounts of distinct keys out, by a look-up for each.
    fn remove_each(mut self, alloc: Global, keys: &[Key]) -> Result<TakenOut, OutOfMemory>
        requires { IsDistinct same_key keys.now }
        ensures taken { IfOk result (λ out.
            each (option_map arc_value) out.accounts.items ≡ each (state.get self) keys.now) }
        ensures rest { IfOk result (λ out. out.rest ≡ state.without self keys.now) }
        ensures state { IfOk result (λ out. IsState out.rest) }
    {
        // Its contract says that the map is a state.
        let _total = self.total();
        let mut accounts = Vec::with_capacity(alloc, keys.len())?;
        for key in keys {
            accounts.push(self.remove(key))?;
        }
        Ok(TakenOut {
            accounts,
            rest: self,
        })
    }

    /// Puts accounts in under keys that are absent. Where they are many, this takes one walk over
    /// all accounts.
    pub fn put_in(
        self,
        alloc: Global,
        entries: Vec<(Key, Arc<Account>)>,
    ) -> Result<Accounts, OutOfMemory>
        requires distinct { IsDistinct same_key (keys_of entries.items) }
        requires absent { All (λ e. state.get self e.0 ≡ None) entries.items }
        requires held { All (λ e. IsHeld (arc_value e.1)) entries.items }
        requires fits { state.sum self + lamports_of (seen entries.items) ≤ 2 ^ 64 - 1 }
        ensures accounts { IfOk result (λ after.
            after ≡ state.with_entries self (seen entries.items)) }
        ensures state { IfOk result (λ after. IsState after) }
    {
        let Accounts {
            mut tree,
            total: before,
        } = self;
        let total = total_with(before, &entries);
        let mut more = tree_of(alloc, entries)?;
        tree.append(&mut more)?;
        Ok(Accounts { tree, total })
    }
}

/// Whether keys ascend.
fn ascend(keys: &[Key]) -> bool
    ensures { result ≡ true → IsStrictlySortedBy key_cmp keys.now }
{
    for at in 1..keys.len() {
        if !keys[at - 1].cmp(&keys[at]).is_lt() {
            return false;
        }
    }
    true
}

/// How the key at a place compares to another. Past the end all keys are above it.
fn order_at(keys: &[Key], at: usize, key: &Key) -> Ordering
    ensures { result
        ≡ option_map_or (λ asked. key_cmp asked key.now) (slice_get keys.now at) Greater }
{
    if at < keys.len() {
        keys[at].cmp(key)
    } else {
        Ordering::Greater
    }
}

/// Adds as many absent accounts as there are fewer than a number.
fn fill(accounts: &mut Vec<Option<Arc<Account>>>, len: usize) -> Result<(), OutOfMemory>
    ensures { OnOk result (accounts.new.items
        ≡ accounts.old.items ++ replicate (len - length accounts.old.items) None) }
{
    while accounts.len() < len {
        accounts.push(None)?;
    }
    Ok(())
}

/// Entries as a map.
pub(crate) fn tree_of(
    alloc: Global,
    entries: Vec<(Key, Arc<Account>)>,
) -> Result<BTreeMap<Key, Arc<Account>>, OutOfMemory>
    ensures { IfOk result (IsFromIterResult key_cmp entries.items) }
{
    Ok(entries.into_iter().collect(alloc)?)
}

/// A sum with the lamports of more accounts.
fn total_with(before: u64, entries: &[(Key, Arc<Account>)]) -> u64
    requires { before + lamports_of (seen entries.now) ≤ 2 ^ 64 - 1 }
    ensures { result ≡ before + lamports_of (seen entries.now) }
{
    let mut total = before;
    for entry in entries {
        total += entry.1.lamports;
    }
    total
}
