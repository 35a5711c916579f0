//! The keys that a message looks up.
ghost use Rattle.std.specs.Prelude.{◌≡◌, ◌<◌, ◌≤◌, ◌||◌, ◌++◌, [], false, map, IfOk, OnOk, Some, None, MatchResult};
ghost use Rattle.std.specs.List.{IsDistinct};
ghost use Rattle.spec_base.specs.Reading.{Gives};
ghost use Rattle.sol_base.specs.Keys.{same_key};
ghost use Rattle.message_codec.specs.Roles.{HasAllLoaded, all_keys, has_repeated_key};
ghost use Rattle.message_codec.specs.Wire.{IsCountable};
ghost use Rattle.account_store.specs.State.{at as account_at};
ghost use Rattle.admission.specs.Lookups.{address_at, address_count, is_beyond, is_lookup_memory, is_table, load, loads_none, lookup_fault};

use account_store::Accounts;
use message_codec::{Loaded, Lookup, Message, has_repeated_key, keys_of};
use sol_base::{Items, Key, OutOfMemory};
use std::alloc::Global;
use thiserror::Error;

/// The bytes of a table's data before its first address (Solana).
pub const TABLE_HEADER_LEN: usize = 56;

/// The bytes of an address.
const ADDRESS_LEN: usize = 32;

/// Why the keys that a message looks up are not loaded. `lookup` is the place of the lookup.
#[derive(Clone, Copy, Debug, PartialEq, Eq, Error)]
pub enum LookupFault {
    #[error("there is no account with the table of lookup {lookup}")]
    NoTable { lookup: u16 },
    #[error("the data of the account of lookup {lookup} are no table")]
    BadTable { lookup: u16 },
    #[error("lookup {lookup} has an index beyond its table")]
    BadIndex { lookup: u16 },
    #[error("a key of the message is given twice")]
    RepeatedKey,
    #[error("out of memory")]
    OutOfMemory,
}

impl From<OutOfMemory> for LookupFault {
    ghost use Rattle.admission.specs.declared.lookups.LookupFault.TheVariants.{OutOfMemory as no_memory};

    ghost from_gives = { λ _ e. e ≡ no_memory };

    fn from(_e: OutOfMemory) -> LookupFault {
        LookupFault::OutOfMemory
    }
}

/// The keys that the message's lookups pick from their tables, the keys to write and the keys to
/// read each in the order of the lookups (Solana). The first refusal comes lookup by lookup, and
/// that of a repeated key last (the project's own). A sane message has so few lookups, and no
/// static key twice.
pub fn resolve(alloc: Global, message: &Message, accounts: &Accounts) -> Result<Loaded, LookupFault>
    requires few { IsCountable message.now.lookups }
    requires apart { IsDistinct same_key message.now.keys }
    ensures exact { Gives is_lookup_memory (λ loaded. loaded) result
        (load accounts.now message.now) }
    ensures all { IfOk result (HasAllLoaded message.now) }
    ensures apart { IfOk result (λ loaded. IsDistinct same_key (all_keys message.now loaded)) }
{
    let mut writable = Items::new(alloc);
    let mut readonly = Items::new(alloc);
    for (place, lookup) in message.lookups.as_slice().iter().enumerate() {
        let table = table_of(accounts, place as u16, lookup)?;
        push_picked(&mut writable, table, lookup.writable.as_slice())?;
        push_picked(&mut readonly, table, lookup.readonly.as_slice())?;
    }
    let loaded = Loaded { writable, readonly };
    if repeats_a_key(alloc, message, &loaded)? {
        return Err(LookupFault::RepeatedKey);
    }
    Ok(loaded)
}

/// The data of the account that holds the lookup's table, once every index is that of an address.
fn table_of<'a>(
    accounts: &'a Accounts,
    place: u16,
    lookup: &Lookup,
) -> Result<&'a [u8], LookupFault>
    ensures fault { MatchResult result
        (λ _. lookup_fault accounts.now (place, lookup.now) ≡ None)
        (λ fault. lookup_fault accounts.now (place, lookup.now) ≡ Some fault) }
    ensures bytes { IfOk result (λ bytes.
        bytes.now ≡ (account_at accounts.now lookup.now.table).bytes) }
    ensures written { IfOk result (λ bytes. is_beyond bytes.now lookup.now.writable ≡ false) }
    ensures read { IfOk result (λ bytes. is_beyond bytes.now lookup.now.readonly ≡ false) }
{
    let Some(account) = accounts.get(&lookup.table) else {
        return Err(LookupFault::NoTable { lookup: place });
    };
    let bytes = account.bytes.as_slice();
    if !is_table(bytes) {
        return Err(LookupFault::BadTable { lookup: place });
    }
    if is_beyond(bytes, lookup.writable.as_slice())
        || is_beyond(bytes, lookup.readonly.as_slice())
    {
        return Err(LookupFault::BadIndex { lookup: place });
    }
    Ok(bytes)
}

/// Whether an account's data are those of a table.
fn is_table(bytes: &[u8]) -> bool
    ensures { result ≡ is_table bytes.now }
{
    TABLE_HEADER_LEN <= bytes.len() && (bytes.len() - TABLE_HEADER_LEN) % ADDRESS_LEN == 0
}

/// How many addresses a table has.
fn address_count(bytes: &[u8]) -> usize
    ensures { result ≡ address_count bytes.now }
{
    bytes.len().saturating_sub(TABLE_HEADER_LEN) / ADDRESS_LEN
}

/// Whether one of the indexes is that of no address.
fn is_beyond(bytes: &[u8], indexes: &[u8]) -> bool
    ensures { result ≡ is_beyond bytes.now indexes.now }
{
    let count = address_count(bytes);
    indexes.iter().any(|index| count <= usize::from(*index))
}

/// Adds the addresses that the indexes pick from the table.
fn push_picked(keys: &mut Items<Key>, table: &[u8], indexes: &[u8]) -> Result<(), OutOfMemory>
    requires { is_beyond table.now indexes.now ≡ false }
    ensures { OnOk result (keys.new ≡ keys.old ++ map (address_at table.now) indexes.now) }
{
    for index in indexes {
        keys.push(address_at(table, *index))?;
    }
    Ok(())
}

/// The address of that index.
fn address_at(table: &[u8], index: u8) -> Key
    requires { index < address_count table.now }
    ensures { result ≡ address_at table.now index }
{
    let start = TABLE_HEADER_LEN + ADDRESS_LEN * usize::from(index);
    let mut address = [0; ADDRESS_LEN];
    address.copy_from_slice(&table[start..start + ADDRESS_LEN]);
    Key(address)
}

/// Whether a key of the message occurs twice. Without lookups none does.
fn repeats_a_key(alloc: Global, message: &Message, loaded: &Loaded) -> Result<bool, OutOfMemory>
    requires apart { IsDistinct same_key message.now.keys }
    requires none { message.now.lookups ≡ [] → loaded.now ≡ loads_none }
    ensures { IfOk result (λ repeats.
        repeats ≡ has_repeated_key (all_keys message.now loaded.now)) }
{
    if message.lookups.is_empty() {
        return Ok(false);
    }
    let keys = keys_of(alloc, message, loaded)?;
    Ok(has_repeated_key(keys.as_slice()))
}
