//! An input region, with what it was laid out from.
ghost use Rattle.std.specs.Prelude.{◌≡◌, ◌<◌, ◌≤◌, ◌^◌, length, slice_get, Some};
ghost use Rattle.std.specs.Arc.{arc_value};
ghost use Rattle.std.proofs.Props.{props};
ghost use Rattle.sol_base.specs.Accounts.{accounts_of};
ghost use Rattle.sol_base.specs.Metas.{AreInRange};
ghost use Rattle.abi_input.specs.Region.{account_in, entry_size, max_metas, IsRegionOf};

use crate::entry::{REPEATED_LEN, first_len};
use crate::listing::Listings;
use data_parts::Parts;
use sol_base::{Account, Meta};
use std::sync::Arc;

/// An input region, with the accounts and the list that it was laid out from.
#[derive(Drop)]
pub struct LaidOut<'a> {
    pub region: &'a Parts,
    /// The accounts as they were at the frame's start.
    pub start: &'a [Arc<Account>],
    pub listings: Listings<'a>,
    ghost range: { AreInRange (length (accounts_of start.now)) listings.metas.now } by { Prim.hlevel props },
    ghost whole: { IsRegionOf (accounts_of start.now) listings.metas.now region.now.bytes },
    ghost small: { length region.now.bytes < 2 ^ 32 },
}

impl<'a> LaidOut<'a> {
    pub fn of(region: &'a Parts, start: &'a [Arc<Account>], metas: &'a [Meta]) -> LaidOut<'a>
        requires most { length metas.now ≤ max_metas }
        requires range { AreInRange (length (accounts_of start.now)) metas.now }
        requires region { IsRegionOf (accounts_of start.now) metas.now region.now.bytes }
        ensures region { result.region.now ≡ region.now }
        ensures start { result.start.now ≡ start.now }
        ensures metas { result.listings.metas.now ≡ metas.now }
    {
        // Its contract says that 32 bits count the bytes.
        let _len = region.len();
        LaidOut {
            region,
            start,
            listings: Listings::of(metas),
        }
    }

    /// How many bytes the region has of a meta.
    pub fn entry_len(&self, place: usize, meta: &Meta) -> usize
        requires { slice_get self.now.listings.metas.now place ≡ Some meta.now }
        ensures { result ≡ entry_size (accounts_of self.now.start.now)
            self.now.listings.metas.now (place, meta.now) }
    {
        if self.listings.is_first(place, meta) {
            first_len(account_of(self.start, meta))
        } else {
            REPEATED_LEN
        }
    }
}

/// The account that a meta lists.
pub fn account_of<'a>(accounts: &'a [Arc<Account>], meta: &Meta) -> &'a Arc<Account>
    requires { meta.now.index < length (accounts_of accounts.now) }
    ensures { arc_value result.now ≡ account_in (accounts_of accounts.now) meta.now.index }
{
    &accounts[usize::from(meta.index)]
}
