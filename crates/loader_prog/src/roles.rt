//! The accounts that an instruction lists, by their places in its list.
ghost use Rattle.std.specs.Prelude.{◌≡◌, ◌<◌, length};
ghost use Rattle.sol_base.specs.Accounts.{accounts_of};
ghost use Rattle.sol_base.specs.Metas.{AreInRange};
ghost use Rattle.loader_prog.specs.Loader.{account_in, key_in, place_in, signs};

use sol_base::{Account, Key, Meta};
use std::sync::Arc;

/// The account that becomes, is or was a buffer.
pub(crate) const BUFFER: usize = 0;

/// The account whose key may change the buffer.
pub(crate) const AUTHORITY: usize = 1;

/// The place of a listed account among all of the transaction.
pub(crate) fn place_of(metas: &[Meta], role: usize) -> usize
    requires { role < length metas.now }
    ensures { result ≡ place_in metas.now role }
{
    usize::from(metas[role].index)
}

pub(crate) fn account_of<'a>(
    accounts: &'a [Arc<Account>],
    metas: &[Meta],
    role: usize,
) -> &'a Account
    requires there { role < length metas.now }
    requires range { AreInRange (length (accounts_of accounts.now)) metas.now }
    ensures { result.now ≡ account_in (accounts_of accounts.now) metas.now role }
{
    &accounts[place_of(metas, role)]
}

pub(crate) fn key_of<'a>(keys: &'a [Key], metas: &[Meta], role: usize) -> &'a Key
    requires there { role < length metas.now }
    requires range { AreInRange (length keys.now) metas.now }
    ensures { result.now ≡ key_in keys.now metas.now role }
{
    &keys[place_of(metas, role)]
}

/// Whether one of the metas of the account signs.
pub(crate) fn does_sign(metas: &[Meta], role: usize) -> bool
    requires { role < length metas.now }
    ensures { result ≡ signs metas.now role }
{
    let index = metas[role].index;
    metas.iter().any(|meta| meta.index == index && meta.signer)
}
