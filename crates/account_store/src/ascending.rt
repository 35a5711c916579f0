//! Accounts in a list, of which a map is made at once.
ghost use Rattle.std.specs.Prelude.{◌≡◌, ◌+◌, ◌^◌, ◌<◌, ◌∷◌, ◌++◌, [], None, Some, OnOk, IfOk, IfErr, length};
ghost use Rattle.sol_base.specs.Accounts.{IsShort};
ghost use Rattle.account_store.specs.State as state;
ghost use Rattle.account_store.specs.State.{is_above};
ghost use Rattle.account_store.specs.Sorted.{entry_of, entry_fault, last_key, IsFaultOr};

use crate::accounts::Accounts;
use crate::many::tree_of;
use crate::sorted::{KeyedAccount, StoreFault};
use sol_base::{Account, Key, OutOfMemory};
use std::alloc::Global;
use std::marker::Model;
use std::sync::Arc;

/// Accounts whose keys ascend, in a list.
#[derive(Drop)]
pub(crate) struct Ascending {
    entries: Vec<(Key, Arc<Account>)>,
    /// The sum of the lamports.
    total: u64,
}

impl Model for Ascending {
    ghost use Rattle.std.specs.FinMap as map;
    ghost use Rattle.sol_base.specs.declared.account.Account.{Account};
    ghost use Rattle.sol_base.specs.Keys.{key_cmp, coded_key};
    ghost use Rattle.sol_base.specs.Accounts.{coded_account};
    ghost use Rattle.account_store.specs.Shared.{state_seen, IsKept};

    ghost Value = { map.FinMap key_cmp Account };

    ghost coded = { map.code coded_key coded_account };

    ghost view = { λ a. state_seen a.entries.items };

    ghost invariant = { λ a. IsKept a.entries.items a.total };
}

impl Ascending {
    /// No accounts, with room for so many.
    pub(crate) fn with_capacity(alloc: Global, capacity: usize) -> Result<Ascending, OutOfMemory>
        ensures { IfOk result (λ ascending. ascending ≡ state.empty) }
    {
        Ok(Ascending {
            entries: Vec::with_capacity(alloc, capacity)?,
            total: 0,
        })
    }

    /// Adds the entry that follows all that are there.
    pub(crate) fn push(&mut self, alloc: Global, entry: KeyedAccount) -> Result<(), StoreFault>
        requires few { state.len self.old < 2 ^ 32 }
        requires short { IsShort entry.account }
        ensures fine { OnOk result (entry_fault (state.entries self.old) (entry_of entry) ≡ None) }
        ensures pushed { OnOk result
            (state.entries self.new ≡ state.entries self.old ++ entry_of entry ∷ []) }
        ensures err { IfErr result
            (IsFaultOr (entry_fault (state.entries self.old) (entry_of entry))) }
    {
        let total = self.total_with(self.entries.len() as u32, &entry)?;
        let KeyedAccount { key, account } = entry;
        self.entries.push((key, Arc::new(alloc, account)?))?;
        self.total = total;
        Ok(())
    }

    /// The sum of the lamports with an entry that follows the `at` accounts that are there, or what
    /// is wrong with that entry.
    fn total_with(&self, at: u32, entry: &KeyedAccount) -> Result<u64, StoreFault>
        requires { at ≡ length (state.entries self.now) }
        ensures ok { IfOk result
            (λ total. total ≡ state.sum self.now + entry.now.account.lamports) }
        ensures fine { OnOk result
            (entry_fault (state.entries self.now) (entry_of entry.now) ≡ None) }
        ensures err { IfErr result
            (λ fault. entry_fault (state.entries self.now) (entry_of entry.now) ≡ Some fault) }
    {
        if !is_above(self.last_key(), &entry.key) {
            return Err(StoreFault::OutOfOrder { at });
        }
        if entry.account.lamports == 0 {
            return Err(StoreFault::Empty { at });
        }
        self.total
            .checked_add(entry.account.lamports)
            .ok_or(StoreFault::SupplyTooLarge)
    }

    /// The key of the last account, if there is one.
    fn last_key(&self) -> Option<Key>
        ensures { result ≡ last_key (state.entries self.now) }
    {
        match self.entries.last() {
            Some(entry) => Some(entry.0),
            None => None,
        }
    }

    /// The accounts as a map.
    pub(crate) fn into_accounts(self, alloc: Global) -> Result<Accounts, OutOfMemory>
        ensures { IfOk result (λ accounts. accounts ≡ self) }
    {
        let Ascending { entries, total } = self;
        Ok(Accounts {
            tree: tree_of(alloc, entries)?,
            total,
        })
    }
}

/// Whether a key is above the given one; where none is given, each is.
fn is_above(given: Option<Key>, key: &Key) -> bool
    ensures { result ≡ is_above given key.now }
{
    match given {
        None => true,
        Some(given) => given.cmp(key).is_lt(),
    }
}
