//! The rows of accounts.
ghost use Rattle.std.specs.Prelude.{◌≡◌, IfOk};
ghost use Rattle.ledger_tables.specs.Rows.{account_row, account_rows, gone_rows};

use crate::rows::AccountRow;
use crate::texts::key_digits;
use account_store::Accounts;
use sol_base::{Account, Items, Key, OutOfMemory};
use std::alloc::Global;

fn account_row(
    alloc: Global,
    slot: u64,
    key: &Key,
    account: &Account,
) -> Result<AccountRow, OutOfMemory>
    ensures { IfOk result (λ row. row ≡ account_row slot (key.now, account.now)) }
{
    Ok(AccountRow {
        slot,
        key: key_digits(alloc, key)?,
        lamports: account.lamports,
        owner: key_digits(alloc, &account.owner)?,
        executable: account.executable,
        bytes: account.bytes.try_copy()?,
    })
}

/// A row for each of the accounts, as they are after the block of a slot, by their keys.
pub fn account_rows(
    alloc: Global,
    slot: u64,
    accounts: &Accounts,
) -> Result<Items<AccountRow>, OutOfMemory>
    ensures { IfOk result (λ rows. rows ≡ account_rows slot accounts.now) }
{
    let mut rows = Items::with_capacity(alloc, accounts.len())?;
    let mut rest = accounts.iter();
    while let Some((key, account)) = rest.next() {
        rows.push(account_row(alloc, slot, key, account)?)?;
    }
    Ok(rows)
}

/// A row for each key whose account the block of a slot took away: the empty account.
pub fn gone_rows(alloc: Global, slot: u64, gone: &[Key]) -> Result<Items<AccountRow>, OutOfMemory>
    ensures { IfOk result (λ rows. rows ≡ gone_rows slot gone.now) }
{
    let empty = Account::empty(alloc);
    let mut rows = Items::with_capacity(alloc, gone.len())?;
    for key in gone {
        rows.push(account_row(alloc, slot, key, &empty)?)?;
    }
    Ok(rows)
}
