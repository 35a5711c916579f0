//! The accounts of a transaction, as frames hand them on.
ghost use Rattle.std.specs.Prelude.{◌≡◌, IfOk};
ghost use Rattle.sol_base.specs.Accounts.{accounts_of};

use sol_base::{Account, Items, OutOfMemory, share_all};
use std::alloc::Global;
use std::marker::Model;
use std::sync::Arc;

/// The accounts of a transaction. They are shared; clauses speak of their values.
#[derive(Drop)]
pub struct Accounts {
    shares: Items<Arc<Account>>,
}

impl Model for Accounts {
    ghost use Rattle.std.specs.Prelude.{List};
    ghost use Rattle.sol_base.specs.Accounts.{accounts_of};
    ghost use Rattle.sol_base.specs.declared.account.Account.{Account};

    ghost Value = { List Account };

    ghost view = { λ accounts. accounts_of accounts.shares };
}

impl Accounts {
    /// The accounts that these share.
    pub fn of(shares: Items<Arc<Account>>) -> Accounts
        ensures { result ≡ accounts_of shares }
    {
        Accounts { shares }
    }

    /// These accounts, shared once more.
    pub fn share(alloc: Global, accounts: &[Arc<Account>]) -> Result<Accounts, OutOfMemory>
        ensures { IfOk result (λ shared. shared ≡ accounts_of accounts.now) }
    {
        Ok(Accounts {
            shares: share_all(alloc, accounts)?,
        })
    }

    /// They in the order of the transaction's keys.
    pub fn as_slice(&self) -> &[Arc<Account>]
        ensures { accounts_of result.now ≡ self.now }
    {
        self.shares.as_slice()
    }

    /// What shares them, in the same order.
    pub fn into_items(self) -> Items<Arc<Account>>
        ensures { accounts_of result ≡ self }
    {
        let Accounts { shares } = self;
        shares
    }
}
