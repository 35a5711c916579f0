//! A region of three parts.
ghost use Rattle.std.specs.Prelude.{◌≡◌, length, IfOk};
ghost use Rattle.std.specs.Arc.{arc_value};
ghost use Rattle.sol_base.specs.declared.account.Account.{Account};

use data_parts::{Part, Parts};
use sol_base::{Account, Blob, Items, OutOfMemory};
use std::alloc::Global;
use std::sync::Arc;

/// An account with the data `0304`.
pub fn lent_account(alloc: Global) -> Result<Arc<Account>, OutOfMemory>
    ensures { IfOk result
        (λ lent. let account : Account = arc_value lent in length account.bytes ≡ 2) }
{
    let mut account = Account::empty(alloc);
    account.bytes = Blob::from_slice(alloc, &[3, 4])?;
    Ok(Arc::new(alloc, account)?)
}

/// The list `0102` of its own, the data of the account, and one zero byte.
#[tactic(auto, unfolding(data_parts::specs::Parts::bytes_of))]
pub fn region(alloc: Global, lent: &Arc<Account>) -> Result<Parts, OutOfMemory>
    requires { let account : Account = arc_value lent.now in length account.bytes ≡ 2 }
{
    let mut parts = Items::new(alloc);
    parts.push(Part::Bytes(Blob::from_slice(alloc, &[1, 2])?))?;
    parts.push(Part::Lent(Arc::try_clone(lent)?))?;
    parts.push(Part::Zeros(1))?;
    Parts::from_items(alloc, parts)
}
