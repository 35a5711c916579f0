//! The programs under some keys.
ghost use Rattle.std.specs.Prelude.{◌≡◌, map as each, IfOk};
ghost use Rattle.program_cache.specs.Programs.{found_as, sought_in, programs_of, sought};
ghost use Rattle.program_cache.specs.Kept.{kept_as};

use crate::found::Found;
use crate::kept::{Kept, found_under};
use account_store::{Accounts, sort_keys};
use sol_base::{Items, Key, OutOfMemory};
use std::alloc::Global;
use std::marker::Model;

/// For each of some keys a program that is ready, or why there is none. The keys ascend, so that no
/// choice of keys makes a look-up long.
#[derive(Drop)]
pub struct Programs {
    keys: Vec<Key>,
    /// What is kept for each key.
    kept: Vec<Kept>,
}

impl Model for Programs {
    ghost use Rattle.program_cache.specs.Programs.{Listing};
    ghost use Rattle.program_cache.specs.Kept.{listing, AreKept};

    ghost Value = { Listing };

    ghost view = { λ p. listing p.keys.items p.kept.items };

    ghost invariant = { λ p. AreKept p.keys.items p.kept.items };
}

/// What is found under each of some keys.
fn kept_for(alloc: Global, accounts: &Accounts, keys: &[Key]) -> Result<Vec<Kept>, OutOfMemory>
    ensures { IfOk result (λ kept. each kept_as kept.items ≡ each (sought_in accounts.now) keys.now) }
{
    let mut kept = Vec::with_capacity(alloc, keys.len())?;
    for key in keys {
        kept.push(found_under(alloc, accounts, key)?)?;
    }
    Ok(kept)
}

impl Programs {
    /// Keeps for each of the keys whether the accounts have it, whether it is executable there, and
    /// for an executable one its image, or why it has none.
    pub fn from_accounts(
        alloc: Global,
        accounts: &Accounts,
        keys: &Items<Key>,
    ) -> Result<Programs, OutOfMemory>
        ensures { IfOk result (λ programs. programs ≡ programs_of accounts.now keys.now) }
    {
        let mut asked = Vec::with_capacity(alloc, keys.len())?;
        asked.extend_from_slice(keys.as_slice())?;
        sort_keys(&mut asked);
        let kept = kept_for(alloc, accounts, &asked)?;
        Ok(Programs { keys: asked, kept })
    }

    /// What is kept for a key; for one that was not asked for, that nothing was found.
    pub fn find(&self, key: &Key) -> Found<'_>
        ensures { found_as result ≡ sought self.now key.now }
    {
        match self.keys.binary_search(key) {
            Ok(at) => self.kept[at].found(),
            Err(_) => Found::NotFound,
        }
    }
}
