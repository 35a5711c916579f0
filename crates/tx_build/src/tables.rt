//! What a version 0 message loads from lookup tables.
ghost use Rattle.std.specs.Prelude.{◌≡◌, ◌<◌, ◌++◌, not, IfOk, IfSome, OnOk, filter, map, option_to_list, position, take};
ghost use Rattle.std.specs.List.{list_any};
ghost use Rattle.sol_base.specs.Keys.{same_key};
ghost use Rattle.tx_build.specs.declared.tables.TheConstants.{MAX_ADDRESSES};
ghost use Rattle.tx_build.specs.Tables.{place_in, holds, is_loaded, own_mentions, loaded_mentions, written_in, read_in, places_in, share_of, shares_of, is_used, lookups_of, loaded_keys};

use crate::draft::LookupTable;
use crate::mentions::Mention;
use message_codec::Lookup;
use sol_base::{Blob, Items, Key, OutOfMemory};
use std::alloc::Global;

/// The most addresses of a table that a message can name: an index is one byte (Solana).
pub const MAX_ADDRESSES: usize = 256;

/// What a message loads from one table: the lookup, and the keys that it stands for.
#[derive(Drop)]
pub(crate) struct Share {
    pub(crate) lookup: Lookup,
    pub(crate) writable: Items<Key>,
    pub(crate) readonly: Items<Key>,
}

fn position_in(addresses: &[Key], key: &Key) -> Option<usize>
    ensures exact { result ≡ position (λ address. same_key address key.now)
        (take MAX_ADDRESSES addresses.now) }
    ensures fits { IfSome result (λ place. place < MAX_ADDRESSES) }
{
    addresses
        .iter()
        .take(MAX_ADDRESSES)
        .position(|address| *address == *key)
}

#[tactic(auto, unfolding(crate::specs::Tables::place_in))]
fn place_in(table: &LookupTable, key: &Key) -> Option<u8>
    ensures { result ≡ place_in table.now key.now }
{
    match position_in(table.addresses.as_slice(), key) {
        Some(place) => Some(place as u8),
        None => None,
    }
}

fn holds(table: &LookupTable, mention: &Mention) -> bool
    ensures { result ≡ holds table.now mention.now }
{
    table
        .addresses
        .as_slice()
        .iter()
        .take(MAX_ADDRESSES)
        .any(|address| *address == mention.key)
}

fn is_held(tables: &[LookupTable], mention: &Mention) -> bool
    ensures { result ≡ list_any (λ table. holds table mention.now) tables.now }
{
    tables.iter().any(|table| holds(table, mention))
}

fn is_loaded(tables: &[LookupTable], mention: &Mention) -> bool
    ensures { result ≡ is_loaded tables.now mention.now }
{
    !mention.signer && !mention.program && is_held(tables, mention)
}

/// The mentions of the message's own keys.
pub(crate) fn own_mentions(
    alloc: Global,
    tables: &[LookupTable],
    mentions: &[Mention],
) -> Result<Items<Mention>, OutOfMemory>
    ensures { IfOk result (λ own. own ≡ own_mentions tables.now mentions.now) }
{
    let own = mentions
        .iter()
        .copied()
        .filter(|mention| !is_loaded(tables, mention))
        .collect::<Vec<Mention>>(alloc)?;
    Ok(Items::from_vec(own))
}

/// The mentions of the keys that are loaded.
fn loaded_mentions(
    alloc: Global,
    tables: &[LookupTable],
    mentions: &[Mention],
) -> Result<Vec<Mention>, OutOfMemory>
    ensures { IfOk result (λ loaded. loaded.items ≡ loaded_mentions tables.now mentions.now) }
{
    let loaded = mentions
        .iter()
        .copied()
        .filter(|mention| is_loaded(tables, mention))
        .collect::<Vec<Mention>>(alloc)?;
    Ok(loaded)
}

/// Adds the place of the key, where the table holds it.
fn add_place(places: &mut Blob, table: &LookupTable, key: &Key) -> Result<(), OutOfMemory>
    ensures { OnOk result (places.new
        ≡ places.old ++ option_to_list (place_in table.now key.now)) }
{
    match place_in(table, key) {
        Some(place) => places.append(&[place]),
        None => Ok(()),
    }
}

/// The places of the keys in the table, which holds them.
fn places_in(alloc: Global, table: &LookupTable, mentions: &[Mention]) -> Result<Blob, OutOfMemory>
    ensures { IfOk result (λ places. places ≡ places_in table.now mentions.now) }
{
    let mut places = Blob::new(alloc);
    for mention in mentions {
        add_place(&mut places, table, &mention.key)?;
    }
    Ok(places)
}

fn keys_of(alloc: Global, mentions: &[Mention]) -> Result<Items<Key>, OutOfMemory>
    ensures { IfOk result (λ keys. keys ≡ map (λ mention. mention.key) mentions.now) }
{
    let mut keys = Items::new(alloc);
    for mention in mentions {
        keys.push(mention.key)?;
    }
    Ok(keys)
}

/// The mentions of keys that the table holds and that are written.
fn written(
    alloc: Global,
    table: &LookupTable,
    mentions: &[Mention],
) -> Result<Vec<Mention>, OutOfMemory>
    ensures { IfOk result (λ written. written.items ≡ written_in table.now mentions.now) }
{
    let written = mentions
        .iter()
        .copied()
        .filter(|mention| holds(table, mention) && mention.writable)
        .collect::<Vec<Mention>>(alloc)?;
    Ok(written)
}

/// The mentions of keys that the table holds and that are only read.
fn read(
    alloc: Global,
    table: &LookupTable,
    mentions: &[Mention],
) -> Result<Vec<Mention>, OutOfMemory>
    ensures { IfOk result (λ read. read.items ≡ read_in table.now mentions.now) }
{
    let read = mentions
        .iter()
        .copied()
        .filter(|mention| holds(table, mention) && !mention.writable)
        .collect::<Vec<Mention>>(alloc)?;
    Ok(read)
}

/// What the message loads from the table, of the keys that are still to be loaded.
fn share_of(alloc: Global, table: &LookupTable, mentions: &[Mention]) -> Result<Share, OutOfMemory>
    ensures { IfOk result (λ share. share ≡ share_of table.now mentions.now) }
{
    let written = written(alloc, table, mentions)?;
    let read = read(alloc, table, mentions)?;
    Ok(Share {
        lookup: Lookup {
            table: table.key,
            writable: places_in(alloc, table, written.as_slice())?,
            readonly: places_in(alloc, table, read.as_slice())?,
        },
        writable: keys_of(alloc, written.as_slice())?,
        readonly: keys_of(alloc, read.as_slice())?,
    })
}

/// The mentions of the keys that the table does not hold.
fn without(
    alloc: Global,
    table: &LookupTable,
    mentions: &[Mention],
) -> Result<Vec<Mention>, OutOfMemory>
    ensures { IfOk result (λ rest. rest.items
        ≡ filter (λ mention. not (holds table.now mention)) mentions.now) }
{
    let rest = mentions
        .iter()
        .copied()
        .filter(|mention| !holds(table, mention))
        .collect::<Vec<Mention>>(alloc)?;
    Ok(rest)
}

/// What the message loads from each table, each key from the first that holds it.
pub(crate) fn shares_of(
    alloc: Global,
    tables: &[LookupTable],
    mentions: &[Mention],
) -> Result<Items<Share>, OutOfMemory>
    ensures { IfOk result (λ shares. shares
        ≡ shares_of tables.now (loaded_mentions tables.now mentions.now)) }
{
    let mut rest = loaded_mentions(alloc, tables, mentions)?;
    let mut shares = Items::new(alloc);
    for table in tables {
        shares.push(share_of(alloc, table, rest.as_slice())?)?;
        rest = without(alloc, table, rest.as_slice())?;
    }
    Ok(shares)
}

fn is_used(share: &Share) -> bool
    ensures { result ≡ is_used share.now }
{
    !(share.writable.is_empty() && share.readonly.is_empty())
}

fn copy_of(lookup: &Lookup) -> Result<Lookup, OutOfMemory>
    ensures { IfOk result (λ copy. copy ≡ lookup.now) }
{
    Ok(Lookup {
        table: lookup.table,
        writable: lookup.writable.try_copy()?,
        readonly: lookup.readonly.try_copy()?,
    })
}

/// The lookups of the tables from which something is loaded.
pub(crate) fn lookups_of(alloc: Global, shares: &[Share]) -> Result<Items<Lookup>, OutOfMemory>
    ensures { IfOk result (λ lookups. lookups ≡ lookups_of shares.now) }
{
    let mut lookups = Items::new(alloc);
    for share in shares {
        if is_used(share) {
            lookups.push(copy_of(&share.lookup)?)?;
        }
    }
    Ok(lookups)
}

/// The message's own keys, and then the loaded ones, those to write first.
pub(crate) fn all_keys(
    alloc: Global,
    own: &[Key],
    shares: &[Share],
) -> Result<Items<Key>, OutOfMemory>
    ensures { IfOk result (λ keys. keys ≡ own.now ++ loaded_keys shares.now) }
{
    let mut keys = Vec::from_slice(alloc, own)?;
    for share in shares {
        keys.extend_from_slice(share.writable.as_slice())?;
    }
    for share in shares {
        keys.extend_from_slice(share.readonly.as_slice())?;
    }
    Ok(Items::from_vec(keys))
}
