//! Programs that became final in a block are executable from its end on.
ghost use Rattle.std.specs.Prelude.{◌≡◌, IfOk, OnOk};
ghost use Rattle.account_store.specs.State.{IsState};
ghost use Rattle.block_end.specs.Activation.{activated_in};
ghost use Rattle.block_end.specs.BlockEnd.{activate_all};

use account_store::{Accounts, KeyedAccount};
use loader_prog::activate_one;
use sol_base::OutOfMemory;
use std::alloc::Global;
use std::sync::Arc;

/// The programs that become executable, with their keys. The accounts are walked once.
fn activated_in(alloc: Global, accounts: &Accounts) -> Result<Vec<KeyedAccount>, OutOfMemory>
    ensures found { IfOk result (λ found. found.items ≡ activated_in accounts.now) }
    ensures state { OnOk result (IsState accounts.now) }
{
    let mut found = Vec::new(alloc);
    let mut rest = accounts.iter();
    while let Some((key, account)) = rest.next() {
        if let Some(account) = activate_one(alloc, account)? {
            found.push(KeyedAccount { key: *key, account })?;
        }
    }
    Ok(found)
}

/// Every account as the loader leaves it at the end of a block. Only those that become executable
/// are put back.
pub(crate) fn activate_all(alloc: Global, mut accounts: Accounts) -> Result<Accounts, OutOfMemory>
    ensures { IfOk result (λ after. after ≡ activate_all accounts) }
{
    for found in activated_in(alloc, &accounts)? {
        let KeyedAccount { key, account } = found;
        accounts.put(key, Arc::new(alloc, account)?)?;
    }
    Ok(accounts)
}
