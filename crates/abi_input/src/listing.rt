//! How a list of metas lists each account.
ghost use Rattle.std.specs.Prelude.{◌≡◌, ◌<◌, ◌≤◌, length, slice_get, Some};
ghost use Rattle.sol_base.specs.Metas.{is_first_listing};
ghost use Rattle.abi_input.specs.Listing.{IsTableOf, listed_again, listing_in};
ghost use Rattle.abi_input.specs.Region.{max_metas};

use sol_base::Meta;

/// How many accounts a meta can name.
pub const PLACES: usize = 256;

/// How a list of metas lists one account.
#[derive(Clone, Copy)]
pub struct Listing {
    /// The place in the list of the first meta that lists it.
    pub first: Option<u8>,
    pub signer: bool,
    pub writable: bool,
}

impl Listing {
    /// The listing, after one meta more that lists the account.
    fn with(self, place: u8, meta: &Meta) -> Listing
        ensures { result ≡ listed_again self place meta.now }
    {
        Listing {
            first: self.first.or(Some(place)),
            signer: self.signer || meta.signer,
            writable: self.writable || meta.writable,
        }
    }
}

/// A list of metas, with how it lists each account.
#[derive(Drop)]
pub struct Listings<'a> {
    pub metas: &'a [Meta],
    table: [Listing; PLACES],
    ghost few: { length metas.now ≤ max_metas },
    ghost listed: { IsTableOf metas.now table },
}

impl<'a> Listings<'a> {
    pub fn of(metas: &'a [Meta]) -> Listings<'a>
        requires { length metas.now ≤ max_metas }
        ensures { result.metas.now ≡ metas.now }
    {
        Listings {
            metas,
            table: table_of(metas),
        }
    }

    /// How the list lists the account of a meta.
    pub fn listing_of(&self, meta: &Meta) -> Listing
        ensures { result ≡ listing_in self.now.metas.now meta.now.index }
    {
        self.table[usize::from(meta.index)]
    }

    /// No meta before this one lists its account. `place` is that of the meta in the list.
    pub fn is_first(&self, place: usize, meta: &Meta) -> bool
        requires { slice_get self.now.metas.now place ≡ Some meta.now }
        ensures { result ≡ is_first_listing self.now.metas.now (place, meta.now) }
    {
        match self.listing_of(meta).first {
            Some(first) => usize::from(first) >= place,
            None => true,
        }
    }
}

/// How the list lists each account, by its place among the transaction's keys.
fn table_of(metas: &[Meta]) -> [Listing; PLACES]
    requires { length metas.now ≤ max_metas }
    ensures { IsTableOf metas.now result }
{
    let mut table = [Listing {
        first: None,
        signer: false,
        writable: false,
    }; PLACES];
    for (place, meta) in metas.iter().enumerate() {
        let index = usize::from(meta.index);
        table[index] = table[index].with(place as u8, meta);
    }
    table
}
