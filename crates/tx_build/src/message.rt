//! The message of a draft.
ghost use Rattle.std.specs.Prelude.{◌≡◌, ◌≤◌, ◌<◌, IfOk, IfSome, length, map, position};
ghost use Rattle.spec_base.specs.Reading.{Gives};
ghost use Rattle.sol_base.specs.Keys.{same_key};
ghost use Rattle.message_codec.specs.Wire.{AllowsLookups};
ghost use Rattle.tx_build.specs.declared.message.TheConstants.{MAX_KEYS};
ghost use Rattle.tx_build.specs.Mentions.{listed};
ghost use Rattle.tx_build.specs.Built.{is_build_memory, kind_of, tables_of, lookups_by, place_of, placed, draft_mentions, draft_shares, own_keys, keys_of, message_in};

use crate::classes::{header_of, ordered_keys};
use crate::draft::{AccountMeta, Draft, KeyedInstruction, LookupTable, Version};
use crate::fault::BuildFault;
use crate::mentions::{Mention, listed};
use crate::tables::{Share, all_keys, lookups_of, own_mentions, shares_of};
use message_codec::{Instruction, Lookup, Message, MessageKind};
use sol_base::{Blob, Items, Key, OutOfMemory};
use std::alloc::Global;

/// The most keys of its own for which a transaction of 1,232 bytes has room.
pub(crate) const MAX_OWN_KEYS: usize = 38;

/// The most keys that instructions can name: a place is one byte.
pub(crate) const MAX_KEYS: usize = 256;

fn kind_of(version: &Version) -> MessageKind
    ensures { result ≡ kind_of version.now }
{
    match version {
        Version::Legacy => MessageKind::Legacy,
        Version::Zero { .. } => MessageKind::Zero,
    }
}

/// The tables that keys may be loaded from.
fn tables_of(version: &Version) -> &[LookupTable]
    ensures { result.now ≡ tables_of version.now }
{
    match version {
        Version::Legacy => &[],
        Version::Zero { tables } => tables.as_slice(),
    }
}

fn position_of(keys: &[Key], key: &Key) -> Option<usize>
    ensures exact { result ≡ position (λ k. same_key k key.now) keys.now }
    ensures fits { IfSome result (λ place. place < length keys.now) }
{
    keys.iter().position(|k| *k == *key)
}

/// Where the key is.
#[tactic(auto, unfolding(crate::specs::Built::place_of))]
fn place_of(keys: &[Key], key: &Key) -> u8
    requires { length keys.now ≤ MAX_KEYS }
    ensures { result ≡ place_of keys.now key.now }
{
    match position_of(keys, key) {
        Some(place) => place as u8,
        None => 0,
    }
}

/// Where the accounts' keys are.
fn places_of(alloc: Global, keys: &[Key], accounts: &[AccountMeta]) -> Result<Blob, OutOfMemory>
    requires { length keys.now ≤ MAX_KEYS }
    ensures { IfOk result (λ places. places
        ≡ map (λ account. place_of keys.now account.key) accounts.now) }
{
    let mut places = Blob::new(alloc);
    for account in accounts {
        places.append(&[place_of(keys, &account.key)])?;
    }
    Ok(places)
}

/// The instruction by the places of its keys.
#[tactic(auto, unfolding(crate::specs::Built::placed))]
fn placed(
    alloc: Global,
    keys: &[Key],
    instruction: &KeyedInstruction,
) -> Result<Instruction, OutOfMemory>
    requires { length keys.now ≤ MAX_KEYS }
    ensures { IfOk result (λ i. i ≡ placed keys.now instruction.now) }
{
    Ok(Instruction {
        program: place_of(keys, &instruction.program),
        accounts: places_of(alloc, keys, instruction.accounts.as_slice())?,
        input: instruction.input.try_copy()?,
    })
}

fn all_placed(
    alloc: Global,
    keys: &[Key],
    instructions: &[KeyedInstruction],
) -> Result<Items<Instruction>, OutOfMemory>
    requires { length keys.now ≤ MAX_KEYS }
    ensures { IfOk result (λ all. all ≡ map (placed keys.now) instructions.now) }
{
    let mut all = Items::new(alloc);
    for instruction in instructions {
        all.push(placed(alloc, keys, instruction)?)?;
    }
    Ok(all)
}

/// The lookups, which the first format does not have.
fn lookups_by(
    alloc: Global,
    version: &Version,
    shares: &[Share],
) -> Result<Items<Lookup>, OutOfMemory>
    ensures exact { IfOk result (λ lookups. lookups ≡ lookups_by version.now shares.now) }
    ensures allows { IfOk result (λ lookups. AllowsLookups (kind_of version.now) lookups) }
{
    match version {
        Version::Legacy => Ok(Items::new(alloc)),
        Version::Zero { .. } => lookups_of(alloc, shares),
    }
}

/// What a message is made of.
#[derive(Drop)]
struct Parts {
    own: Items<Mention>,
    shares: Items<Share>,
    keys: Items<Key>,
    all: Items<Key>,
}

#[tactic(auto, unfolding(crate::specs::Built::draft_mentions, crate::specs::Built::own_keys, crate::specs::Built::draft_shares, crate::specs::Built::keys_of))]
fn parts_of(alloc: Global, draft: &Draft, mentions: &[Mention]) -> Result<Parts, OutOfMemory>
    requires { mentions.now ≡ listed draft.now }
    ensures own { IfOk result (λ parts. parts.own ≡ draft_mentions draft.now) }
    ensures shares { IfOk result (λ parts. parts.shares ≡ draft_shares draft.now) }
    ensures keys { IfOk result (λ parts. parts.keys ≡ own_keys draft.now) }
    ensures all { IfOk result (λ parts. parts.all ≡ keys_of draft.now) }
{
    let tables = tables_of(&draft.version);
    let own = own_mentions(alloc, tables, mentions)?;
    let shares = shares_of(alloc, tables, mentions)?;
    let keys = ordered_keys(alloc, own.as_slice())?;
    let all = all_keys(alloc, keys.as_slice(), shares.as_slice())?;
    Ok(Parts {
        own,
        shares,
        keys,
        all,
    })
}

/// The message of the draft, where it has few enough keys. They are counted before the tables are
/// looked through: each is in the message once.
#[tactic(auto, using(crate::proofs::Counts::keys_are_listed), unfolding(crate::specs::Built::message_in))]
pub(crate) fn message_of(alloc: Global, draft: &Draft) -> Result<Message, BuildFault>
    ensures exact { Gives is_build_memory (λ message. message) result (message_in draft.now) }
    ensures allows { IfOk result (λ message. AllowsLookups message.kind message.lookups) }
{
    let mentions = listed(alloc, draft)?;
    if mentions.len() > MAX_KEYS {
        return Err(BuildFault::TooManyKeys);
    }
    let parts = parts_of(alloc, draft, mentions.as_slice())?;
    if parts.own.len() > MAX_OWN_KEYS {
        return Err(BuildFault::TooManyKeys);
    }
    let all = parts.all.as_slice();
    let header = header_of(parts.own.as_slice());
    let instructions = all_placed(alloc, all, draft.instructions.as_slice())?;
    let lookups = lookups_by(alloc, &draft.version, parts.shares.as_slice())?;
    Ok(Message {
        kind: kind_of(&draft.version),
        header,
        keys: parts.keys,
        blockhash: draft.blockhash,
        instructions,
        lookups,
    })
}
