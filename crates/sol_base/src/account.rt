//! Accounts.
ghost use Rattle.std.specs.Prelude.{◌≡◌, IfOk};
ghost use Rattle.sol_base.specs.Accounts.{accounts_of, empty_account};

use crate::blob::Blob;
use crate::items::Items;
use crate::key::{Key, SYSTEM_PROGRAM};
use crate::memory::OutOfMemory;
use std::alloc::Global;
use std::sync::Arc;

/// The most data bytes of an account (Solana).
pub const MAX_DATA_LEN: usize = 10_485_760;

/// An account as Solana has it: a balance in lamports, the program that owns it, whether it is a
/// program itself, and its data.
#[derive(Drop)]
pub struct Account {
    pub lamports: u64,
    pub owner: Key,
    pub executable: bool,
    pub bytes: Blob,
}

impl Account {
    /// What an absent account stands for: no lamports, the system program as owner, no data.
    pub fn empty(alloc: Global) -> Account
        ensures { result ≡ empty_account }
    {
        Account {
            lamports: 0,
            owner: SYSTEM_PROGRAM,
            executable: false,
            bytes: Blob::new(alloc),
        }
    }

    /// An equal account with data of its own.
    pub fn try_copy(&self) -> Result<Account, OutOfMemory>
        ensures { IfOk result (λ a. a ≡ self.now) }
    {
        Ok(Account {
            lamports: self.lamports,
            owner: self.owner,
            executable: self.executable,
            bytes: self.bytes.try_copy()?,
        })
    }
}

/// Shares of the accounts, in their order.
pub fn share_all(
    alloc: Global,
    accounts: &[Arc<Account>],
) -> Result<Items<Arc<Account>>, OutOfMemory>
    ensures { IfOk result (λ shares. accounts_of shares ≡ accounts_of accounts.now) }
{
    let mut shares = Items::with_capacity(alloc, accounts.len())?;
    for account in accounts {
        shares.push(Arc::try_clone(account)?)?;
    }
    Ok(shares)
}
