//! What an instruction of the system program is given.
ghost use Rattle.std.specs.Prelude.{◌≡◌, ◌<◌, length};
ghost use Rattle.sol_base.specs.Metas.{AreInRange, is_listed_signer};
ghost use Rattle.std.specs.List.{list_any};
ghost use Rattle.system_prog.specs.SystemProgram.{by_base, is_signature, key_in, place_in, signs_in};

use crate::authority::Authority;
use sol_base::{Key, Meta};
use std::marker::Model;

/// What an instruction is given beside the accounts: their keys, and those that it lists. A role is
/// a place in that list.
#[derive(Drop)]
pub(crate) struct Frame<'a> {
    keys: &'a [Key],
    metas: &'a [Meta],
}

impl<'a> Model for Frame<'a> {
    ghost use Rattle.std.specs.Prelude.{length};
    ghost use Rattle.sol_base.specs.Metas.{AreInRange};
    ghost use Rattle.system_prog.specs.SystemProgram.{Listed};

    ghost Value = { Listed };

    ghost view = { λ f. record { keys = f.keys.now; metas = f.metas.now } };

    ghost invariant = { λ f. AreInRange (length f.keys.now) f.metas.now };
}

impl<'a> Frame<'a> {
    pub(crate) fn new(keys: &'a [Key], metas: &'a [Meta]) -> Frame<'a>
        requires { AreInRange (length keys.now) metas.now }
        ensures { result ≡ record { keys = keys.now; metas = metas.now } }
    {
        Frame { keys, metas }
    }

    /// The accounts that are listed.
    pub(crate) fn metas(&self) -> &[Meta]
        ensures value { result.now ≡ self.now.metas }
        ensures range { AreInRange (length self.now.keys) result.now }
    {
        self.metas
    }

    /// Where the account in a role is among all accounts.
    pub(crate) fn place(&self, role: u8) -> usize
        requires { role < length self.now.metas }
        ensures value { result ≡ place_in self.now role }
        ensures within { result < length self.now.keys }
        ensures small { result < 256 }
    {
        self.metas[role as usize].index as usize
    }

    /// The key of the account in a role.
    pub(crate) fn key(&self, role: u8) -> Key
        requires { role < length self.now.metas }
        ensures { result ≡ key_in self.now role }
    {
        self.keys[self.place(role)]
    }

    /// The base signs for the account in a role.
    pub(crate) fn by_base(&self, role: u8, key: Key) -> Authority
        requires { role < length self.now.metas }
        ensures { result ≡ by_base self.now role key }
    {
        Authority::Base {
            derived: self.place(role),
            key,
        }
    }

    /// Whether the account in a role signs.
    pub(crate) fn signs(&self, authority: Authority, role: u8) -> bool
        requires { role < length self.now.metas }
        ensures { result ≡ signs_in self.now authority role }
    {
        let place = self.place(role);
        match authority {
            Authority::Itself => self.is_signer(place),
            Authority::Base { derived, key } => {
                if place == derived {
                    is_signed_by(self.keys, self.metas, &key)
                } else {
                    self.is_signer(place)
                }
            }
        }
    }

    /// Whether the account at a place signs.
    fn is_signer(&self, place: usize) -> bool
        ensures { result ≡ is_listed_signer self.now.metas place }
    {
        self.metas
            .iter()
            .any(|meta| meta.index as usize == place && meta.signer)
    }
}

/// Whether a listed account with the key signs.
fn is_signed_by(keys: &[Key], metas: &[Meta], key: &Key) -> bool
    requires { AreInRange (length keys.now) metas.now }
    ensures { result ≡ list_any (is_signature keys.now key.now) metas.now }
{
    for meta in metas {
        if is_signature(keys, key, meta) {
            return true;
        }
    }
    false
}

/// Whether a meta has an account sign that has the key.
fn is_signature(keys: &[Key], key: &Key, meta: &Meta) -> bool
    requires { meta.now.index < length keys.now }
    ensures { result ≡ is_signature keys.now key.now meta.now }
{
    meta.signer && keys[meta.index as usize] == *key
}
