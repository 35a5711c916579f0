//! A region is laid out.
ghost use Rattle.std.specs.Prelude.{◌≡◌, ◌+◌, ◌≤◌, ◌++◌, length, slice_get, IfOk, OnOk, Some};
ghost use Rattle.std.specs.List.{enumerate_from, flat_map};
ghost use Rattle.sol_base.specs.Accounts.{accounts_of, AreShort};
ghost use Rattle.sol_base.specs.Metas.{AreInRange};
ghost use Rattle.data_parts.specs.Parts.{unprepared};
ghost use Rattle.abi_input.specs.Region.{entry_of, entry_size, entry_start, input_of, lent_entry, lent_in, max_input_len, max_metas, number_bytes, IsRegionOf};

use crate::draft::Draft;
use crate::entry::{add_first, add_repeated};
use crate::listing::Listings;
use crate::region::account_of;
use data_parts::Parts;
use sol_base::{Account, Key, Meta, OutOfMemory};
use std::alloc::Global;
use std::sync::Arc;

/// The input region of a frame (Solana's aligned layout). The data of the accounts are lent, and
/// not copied.
pub fn lay_out(
    alloc: Global,
    keys: &[Key],
    accounts: &[Arc<Account>],
    metas: &[Meta],
    input: &[u8],
    program: &Key,
) -> Result<Parts, OutOfMemory>
    requires count { length (accounts_of accounts.now) ≡ length keys.now }
    requires most { length metas.now ≤ max_metas }
    requires range { AreInRange (length (accounts_of accounts.now)) metas.now }
    requires short { AreShort (accounts_of accounts.now) }
    requires input { length input.now ≤ max_input_len }
    ensures value { IfOk result
        (λ region. region
        ≡ unprepared
        (input_of keys.now (accounts_of accounts.now) metas.now input.now program.now)
        (lent_in (accounts_of accounts.now) (accounts_of accounts.now) metas.now)) }
    ensures size { IfOk result
        (λ region. IsRegionOf (accounts_of accounts.now) metas.now region.bytes) }
{
    let mut draft = draft_accounts(alloc, keys, accounts, metas)?;
    add_instruction(&mut draft, input, program)?;
    draft.finish()
}

/// The first half of a region: how many accounts are listed, and what the region has of each.
fn draft_accounts(
    alloc: Global,
    keys: &[Key],
    accounts: &[Arc<Account>],
    metas: &[Meta],
) -> Result<Draft, OutOfMemory>
    requires count { length (accounts_of accounts.now) ≡ length keys.now }
    requires most { length metas.now ≤ max_metas }
    requires range { AreInRange (length (accounts_of accounts.now)) metas.now }
    requires short { AreShort (accounts_of accounts.now) }
    ensures bytes { IfOk result
        (λ draft. draft.bytes
        ≡ number_bytes (length metas.now)
        ++ flat_map (entry_of keys.now (accounts_of accounts.now) metas.now)
        (enumerate_from 0 metas.now)) }
    ensures lent { IfOk result
        (λ draft. draft.lent
        ≡ lent_in (accounts_of accounts.now) (accounts_of accounts.now) metas.now) }
    ensures size { IfOk result
        (λ draft. length draft.bytes
        ≡ entry_start (accounts_of accounts.now) metas.now (length metas.now)) }
{
    let mut draft = Draft::new(alloc, parts_for(metas))?;
    draft.append(&(metas.len() as u64).to_le_bytes())?;
    add_entries(&mut draft, keys, accounts, &Listings::of(metas))?;
    Ok(draft)
}

/// Adds the instruction's data, their length before them, and the program's key.
fn add_instruction(draft: &mut Draft, input: &[u8], program: &Key) -> Result<(), OutOfMemory>
    ensures bytes { OnOk result (draft.new.bytes
        ≡ draft.old.bytes ++ number_bytes (length input.now) ++ input.now ++ program.now.0) }
    ensures lent { draft.new.lent ≡ draft.old.lent }
    ensures size { OnOk result
        (length draft.new.bytes ≡ length draft.old.bytes + length input.now + 40) }
{
    draft.append(&(input.len() as u64).to_le_bytes())?;
    draft.append(input)?;
    draft.append(&program.0)?;
    Ok(())
}

/// How many parts a region has at most: three for each account, and one behind them.
pub fn parts_for(metas: &[Meta]) -> usize {
    metas.len().saturating_mul(3).saturating_add(1)
}

/// Adds what the region has of each meta.
fn add_entries(
    draft: &mut Draft,
    keys: &[Key],
    accounts: &[Arc<Account>],
    listings: &Listings<'_>,
) -> Result<(), OutOfMemory>
    requires count { length (accounts_of accounts.now) ≡ length keys.now }
    requires range { AreInRange (length (accounts_of accounts.now)) listings.now.metas.now }
    requires short { AreShort (accounts_of accounts.now) }
    requires start { length draft.old.bytes ≡ 8 }
    ensures bytes { OnOk result (draft.new.bytes
        ≡ draft.old.bytes
        ++ flat_map (entry_of keys.now (accounts_of accounts.now) listings.now.metas.now)
        (enumerate_from 0 listings.now.metas.now)) }
    ensures lent { OnOk result (draft.new.lent
        ≡ draft.old.lent
        ++ lent_in (accounts_of accounts.now) (accounts_of accounts.now)
        listings.now.metas.now) }
    ensures size { OnOk result (length draft.new.bytes
        ≡ entry_start (accounts_of accounts.now) listings.now.metas.now
        (length listings.now.metas.now)) }
{
    for (place, meta) in listings.metas.iter().enumerate() {
        add_entry(draft, keys, accounts, listings, place, meta)?;
    }
    Ok(())
}

/// Adds what the region has of one meta.
fn add_entry(
    draft: &mut Draft,
    keys: &[Key],
    accounts: &[Arc<Account>],
    listings: &Listings<'_>,
    place: usize,
    meta: &Meta,
) -> Result<(), OutOfMemory>
    requires count { length (accounts_of accounts.now) ≡ length keys.now }
    requires range { AreInRange (length (accounts_of accounts.now)) listings.now.metas.now }
    requires short { AreShort (accounts_of accounts.now) }
    requires there { slice_get listings.now.metas.now place ≡ Some meta.now }
    requires start { length draft.old.bytes
        ≡ entry_start (accounts_of accounts.now) listings.now.metas.now place }
    ensures bytes { OnOk result (draft.new.bytes
        ≡ draft.old.bytes
        ++ entry_of keys.now (accounts_of accounts.now) listings.now.metas.now
        (place, meta.now)) }
    ensures lent { OnOk result (draft.new.lent
        ≡ draft.old.lent
        ++ lent_entry (accounts_of accounts.now) (accounts_of accounts.now)
        listings.now.metas.now (place, meta.now)) }
    ensures size { OnOk result (length draft.new.bytes
        ≡ length draft.old.bytes
        + entry_size (accounts_of accounts.now) listings.now.metas.now (place, meta.now)) }
{
    let listing = listings.listing_of(meta);
    if listings.is_first(place, meta) {
        let key = &keys[usize::from(meta.index)];
        add_first(draft, listing, key, account_of(accounts, meta))
    } else {
        add_repeated(draft, listing.first.unwrap_or(0))
    }
}
