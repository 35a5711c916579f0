//! The accounts while an instruction changes some of them: shared up to the first change.
ghost use Rattle.std.specs.Prelude.{◌≡◌, ◌+◌, ◌<◌, ◌≤◌, IfOk, OnOk, length, slice_set};
ghost use Rattle.std.specs.Arc.{arc_value};
ghost use Rattle.sol_base.specs.Accounts.{accounts_of, lamports_in};
ghost use Rattle.system_prog.specs.Drafts.{changed};
ghost use Rattle.system_prog.specs.SystemProgram.{account_at};

use sol_base::{Account, Blob, Items, Key, OutOfMemory, share_all};
use std::alloc::Global;
use std::marker::Model;
use std::sync::Arc;

/// A new value of one field of an account.
#[derive(Drop)]
pub(crate) enum Change {
    Lamports(u64),
    Owner(Key),
    Bytes(Blob),
}

impl Change {
    fn apply(self, account: &mut Account)
        ensures { account.new ≡ changed self account.old }
    {
        match self {
            Change::Lamports(lamports) => account.lamports = lamports,
            Change::Owner(owner) => account.owner = owner,
            Change::Bytes(bytes) => account.bytes = bytes,
        }
    }
}

/// Gives one field a new value. An account that others share is copied first.
fn change_one(alloc: Global, share: &mut Arc<Account>, change: Change) -> Result<(), OutOfMemory>
    ensures { OnOk result (arc_value share.new ≡ changed change (arc_value share.old)) }
{
    match Arc::get_mut(share) {
        Some(account) => change.apply(account),
        None => {
            let mut account = share.try_copy()?;
            change.apply(&mut account);
            *share = Arc::new(alloc, account)?;
        }
    }
    Ok(())
}

/// A list of accounts.
#[derive(Drop)]
pub(crate) struct Draft {
    shares: Vec<Arc<Account>>,
    alloc: Global,
}

impl Model for Draft {
    ghost use Rattle.std.specs.Prelude.{List};
    ghost use Rattle.sol_base.specs.declared.account.Account.{Account};
    ghost use Rattle.sol_base.specs.Accounts.{accounts_of};

    ghost Value = { List Account };

    ghost view = { λ d. accounts_of d.shares.items };
}

impl Draft {
    pub(crate) fn new(alloc: Global, accounts: &[Arc<Account>]) -> Result<Draft, OutOfMemory>
        ensures { IfOk result (λ draft. draft ≡ accounts_of accounts.now) }
    {
        Ok(Draft {
            shares: share_all(alloc, accounts)?.into_vec(),
            alloc,
        })
    }

    pub(crate) fn account(&self, place: usize) -> &Account
        requires { place < length self.now }
        ensures value { result.now ≡ account_at self.now place }
        ensures part { result.now.lamports ≤ lamports_in self.now }
    {
        &self.shares[place]
    }

    /// Gives one field of an account a new value.
    pub(crate) fn change(&mut self, place: usize, change: Change) -> Result<(), OutOfMemory>
        requires { place < length self.old }
        ensures ok { OnOk result (self.new
            ≡ slice_set self.old place (changed change (account_at self.old place))) }
        ensures count { length self.new ≡ length self.old }
        ensures lamports { OnOk result (lamports_in self.new + (account_at self.old place).lamports
            ≡
            lamports_in self.old + (changed change (account_at self.old place)).lamports) }
    {
        change_one(self.alloc, &mut self.shares[place], change)
    }

    /// The accounts, those that were not changed as they were shared.
    pub(crate) fn finish(self) -> Items<Arc<Account>>
        ensures { accounts_of result ≡ self }
    {
        let Draft { shares, .. } = self;
        Items::from_vec(shares)
    }
}
