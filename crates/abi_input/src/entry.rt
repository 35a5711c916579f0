//! What the region has of one account.
ghost use Rattle.std.specs.Prelude.{◌≡◌, ◌+◌, ◌<◌, ◌≤◌, ◌++◌, ◌^◌, length, slice_get, take, drop, OnOk, Some};
ghost use Rattle.std.specs.Arc.{arc_value};
ghost use Rattle.spec_base.specs.Bytes.{number_from};
ghost use Rattle.sol_base.specs.declared.account.Account.{Account as AccountValue};
ghost use Rattle.sol_base.specs.Accounts.{accounts_of, IsShort};
ghost use Rattle.sol_base.specs.Metas.{AreInRange};
ghost use Rattle.abi_input.specs.Listing.{IsTableOf};
ghost use Rattle.abi_input.specs.Region.{entry_size, entry_start, first_entry, first_size, lent_of, padding, repeated_entry, room_of, state_bytes};

use crate::draft::Draft;
use crate::listing::Listing;
use data_parts::Parts;
use sol_base::{Account, Key, OutOfMemory};
use std::sync::Arc;

/// By how many bytes a program may make an account longer in one frame (Solana; that a transaction
/// has no cap of its own is the project's own).
pub const MAX_GROWTH: usize = 10_240;

/// The byte before the entry of an account that was not listed before (Solana).
pub const NOT_LISTED_BEFORE: u8 = 255;

/// Where things are in an entry: the owner, the lamports, the length of the data and the data.
pub const OWNER_AT: usize = 40;

pub const LAMPORTS_AT: usize = 72;

pub const DATA_LEN_AT: usize = 80;

pub const DATA_AT: usize = 88;

/// Where the first entry starts, behind the number of accounts.
pub const FIRST_ENTRY: usize = 8;

/// How many bytes the entry of an account has that was listed before.
pub const REPEATED_LEN: usize = 8;

/// How many bytes are at the end of an entry, behind the padding: the epoch of the next rent.
pub const LAST_LEN: usize = 8;

/// How many data bytes an account may come to have in a frame that it starts with this one.
pub fn room_for(account: &Account) -> usize
    requires { length account.now.bytes < 2 ^ 32 }
    ensures { result ≡ room_of account.now }
{
    account.bytes.len() + MAX_GROWTH
}

/// How many zero bytes are before the next multiple of 8.
pub fn padding_for(account: &Account) -> usize
    ensures { result ≡ padding (length account.now.bytes) }
{
    (8 - account.bytes.len() % 8) % 8
}

/// How many bytes the first entry of an account has.
pub fn first_len(account: &Account) -> usize
    requires { length account.now.bytes < 2 ^ 32 }
    ensures { result ≡ first_size account.now }
{
    DATA_AT + room_for(account) + padding_for(account) + LAST_LEN
}

/// Adds what a program may change of an account, its data lent, and zeros up to the end of the
/// room.
pub fn add_state(draft: &mut Draft, room: usize, account: &Arc<Account>) -> Result<(), OutOfMemory>
    requires room { room < 2 ^ 32 }
    requires fits { let value : AccountValue = arc_value account.now in length value.bytes ≤ room }
    ensures bytes { OnOk result (draft.new.bytes
        ≡ draft.old.bytes ++ state_bytes room (arc_value account.now)) }
    ensures lent { OnOk result (draft.new.lent
        ≡ draft.old.lent ++ lent_of (length draft.old.bytes + 48) (arc_value account.now)) }
    ensures size { OnOk result (length draft.new.bytes ≡ length draft.old.bytes + 48 + room) }
{
    let value: &Account = account;
    let len = value.bytes.len();
    draft.append(&value.owner.0)?;
    draft.append(&value.lamports.to_le_bytes())?;
    draft.append(&(len as u64).to_le_bytes())?;
    draft.lend(account)?;
    draft.zeros((room - len) as u32)?;
    Ok(())
}

/// Adds the entry of an account where it is listed first.
pub fn add_first(
    draft: &mut Draft,
    listing: Listing,
    key: &Key,
    account: &Arc<Account>,
) -> Result<(), OutOfMemory>
    requires { IsShort (arc_value account.now) }
    ensures bytes { OnOk result (draft.new.bytes
        ≡ draft.old.bytes ++ first_entry listing.signer listing.writable key.now
        (arc_value account.now)) }
    ensures lent { OnOk result (draft.new.lent
        ≡ draft.old.lent ++ lent_of (length draft.old.bytes + 88) (arc_value account.now)) }
    ensures size { OnOk result (length draft.new.bytes
        ≡ length draft.old.bytes + first_size (arc_value account.now)) }
{
    let value: &Account = account;
    let flags = [
        NOT_LISTED_BEFORE,
        u8::from(listing.signer),
        u8::from(listing.writable),
        u8::from(value.executable),
    ];
    draft.append(&flags)?;
    draft.append(&[0; 4])?;
    draft.append(&key.0)?;
    add_state(draft, room_for(value), account)?;
    draft.append(&[0; 8][..padding_for(value)])?;
    draft.append(&u64::MAX.to_le_bytes())?;
    Ok(())
}

/// Adds the entry of an account that was listed before, first at this place.
pub fn add_repeated(draft: &mut Draft, place: u8) -> Result<(), OutOfMemory>
    ensures bytes { OnOk result (draft.new.bytes ≡ draft.old.bytes ++ repeated_entry place) }
    ensures lent { draft.new.lent ≡ draft.old.lent }
    ensures size { OnOk result (length draft.new.bytes ≡ length draft.old.bytes + 8) }
{
    draft.append(&[place, 0, 0, 0, 0, 0, 0, 0])
}

/// The number at a place of a region.
pub fn number_at(region: &Parts, place: usize) -> u64
    requires { place + 8 ≤ length region.now.bytes }
    ensures { result ≡ number_from region.now.bytes place }
{
    let mut number = [0; 8];
    region.read(place, &mut number);
    u64::from_le_bytes(number)
}

/// The key at a place of a region.
pub fn key_in_region(region: &Parts, place: usize) -> Key
    requires { place + 32 ≤ length region.now.bytes }
    ensures { result.0 ≡ take 32 (drop place region.now.bytes) }
{
    let mut key = [0; 32];
    region.read(place, &mut key);
    Key(key)
}
