//! Accounts by key, and their sum.
ghost use Rattle.std.specs.Prelude.{◌≡◌, ◌≤◌, ◌+◌, ◌-◌, ◌^◌, ◌<◌, All, OnOk, OnErr, option_map, option_copied, length};
ghost use Rattle.std.specs.Arc.{arc_value};
ghost use Rattle.spec_base.specs.Reading.{Gives};
ghost use Rattle.sol_base.specs.Accounts.{IsShort};
ghost use Rattle.account_store.specs.State as state;
ghost use Rattle.account_store.specs.State.{IsState};
ghost use Rattle.account_store.specs.Shared.{shared_lamports, seen, seen_entry};
ghost use Rattle.account_store.specs.Sorted.{state_of, is_store_memory};

use crate::ascending::Ascending;
use crate::sorted::{KeyedAccount, StoreFault};
use sol_base::{Account, Items, Key, OutOfMemory};
use std::alloc::Global;
use std::collections::BTreeMap;
use std::collections::btree_map::Iter;
use std::marker::Model;
use std::ops::Bound;
use std::sync::Arc;

/// A finite map from keys to accounts, each with at least 1 lamport and all together with at most
/// 2^64 - 1. The accounts are shared, so that a share is handed out at no cost.
#[derive(Drop)]
pub struct Accounts {
    pub(crate) tree: BTreeMap<Key, Arc<Account>>,
    /// The sum of the lamports.
    pub(crate) total: u64,
}

impl Model for Accounts {
    ghost use Rattle.std.specs.FinMap as map;
    ghost use Rattle.sol_base.specs.declared.account.Account.{Account};
    ghost use Rattle.sol_base.specs.Keys.{key_cmp, coded_key};
    ghost use Rattle.sol_base.specs.Accounts.{coded_account};
    ghost use Rattle.account_store.specs.Shared.{state_seen, IsKept};

    ghost Value = { map.FinMap key_cmp Account };

    ghost coded = { map.code coded_key coded_account };

    ghost view = { λ a. state_seen a.tree.entries };

    ghost invariant = { λ a. IsKept a.tree.entries a.total };
}

impl Accounts {
    /// No accounts.
    pub fn new(alloc: Global) -> Accounts
        ensures { result ≡ state.empty }
    {
        Accounts {
            tree: BTreeMap::new(alloc),
            total: 0,
        }
    }

    /// The accounts of a list whose keys ascend. The list is dropped where it is refused.
    pub fn from_sorted(alloc: Global, entries: Items<KeyedAccount>) -> Result<Accounts, StoreFault>
        requires few { length entries < 2 ^ 32 }
        requires short { All (λ e. IsShort e.account) entries }
        ensures { Gives is_store_memory (λ accounts. accounts) result (state_of entries) }
    {
        let mut ascending = Ascending::with_capacity(alloc, entries.len())?;
        for entry in entries.into_vec() {
            ascending.push(alloc, entry)?;
        }
        Ok(ascending.into_accounts(alloc)?)
    }

    /// The account of the key. None where it is absent.
    pub fn get(&self, key: &Key) -> Option<&Arc<Account>>
        ensures value { option_map (λ account. arc_value account.now) result
            ≡ state.get self.now key.now }
        ensures state { IsState self.now }
    {
        self.tree.get(key)
    }

    /// Sets the account of the key. An account with no lamports removes the key.
    pub fn put(&mut self, key: Key, account: Arc<Account>) -> Result<(), OutOfMemory>
        requires fits { state.sum (state.put self.old key (arc_value account)) ≤ 2 ^ 64 - 1 }
        requires short { IsShort (arc_value account) }
        ensures ok { OnOk result (self.new ≡ state.put self.old key (arc_value account)) }
        ensures err { OnErr result (self.new ≡ self.old) }
        ensures state { IsState self.new }
    {
        let lamports = account.lamports;
        if lamports == 0 {
            let _removed = self.remove(&key);
            return Ok(());
        }
        let before = self.tree.insert(key, account)?;
        self.total = total_after(self.total, &before, lamports);
        Ok(())
    }

    /// Takes the account of the key out. None where it is absent.
    pub fn remove(&mut self, key: &Key) -> Option<Arc<Account>>
        ensures value { option_map arc_value result ≡ state.get self.old key.now }
        ensures removed { self.new ≡ state.remove self.old key.now }
        ensures state { IsState self.new }
    {
        let removed = self.tree.remove(key);
        self.total = total_after(self.total, &removed, 0);
        removed
    }

    /// The sum of the lamports. It is kept, and not computed here.
    pub fn total(&self) -> u64
        ensures total { result ≡ state.sum self.now }
        ensures state { IsState self.now }
    {
        let Accounts { total: sum, .. } = self;
        *sum
    }

    /// The number of keys.
    pub fn len(&self) -> usize
        ensures len { result ≡ state.len self.now }
        ensures state { IsState self.now }
    {
        self.tree.len()
    }

    /// The accounts with their keys, the keys ascending. To go over all of them takes time by their
    /// number.
    #[tactic(auto, using(crate::proofs::SharedLaws::walked))]
    pub fn iter(&self) -> Iter<'_, Key, Arc<Account>>
        ensures entries { seen result ≡ state.entries self.now }
        ensures state { IsState self.now }
    {
        self.tree.iter()
    }

    /// The least key above the given one, or the least key of all where none is given, with its
    /// account. None where there is no such key.
    pub fn next_after(&self, key: Option<&Key>) -> Option<(&Key, &Arc<Account>)>
        ensures next { option_map seen_entry result
            ≡ state.next_after self.now (option_copied key.entry) }
        ensures state { IsState self.now }
    {
        match key {
            Some(key) => self
                .tree
                .range((Bound::Excluded(*key), Bound::Unbounded))
                .next(),
            None => self.tree.first_key_value(),
        }
    }
}

fn lamports_of(account: &Option<Arc<Account>>) -> u64
    ensures { result ≡ shared_lamports account.now }
{
    account.as_ref().map_or(0, |account| account.lamports)
}

/// The sum after an account of these lamports took the place of the one before.
fn total_after(total: u64, before: &Option<Arc<Account>>, lamports: u64) -> u64
    requires held { shared_lamports before.now ≤ total }
    requires fits { total - shared_lamports before.now + lamports ≤ 2 ^ 64 - 1 }
    ensures { result ≡ total - shared_lamports before.now + lamports }
{
    total - lamports_of(before) + lamports
}
