//! The rows of the instructions of a block: those of its messages, and not those that programs call.
ghost use Rattle.std.specs.Prelude.{◌≡◌, ◌++◌, ◌||◌, [], IfOk, OnOk, map, option_map, slice_get};
ghost use Rattle.std.specs.List.{enumerate_from, flat_map};
ghost use Rattle.ledger_tables.specs.Texts.{key_digits, keys_json};
ghost use Rattle.ledger_tables.specs.Rows.{has_odd_keys, instruction_row, instruction_rows, key_at, keys_in, loaded_in, rows_of_message, rows_of_entry};

use crate::rows::InstructionRow;
use crate::texts::{key_digits, keys_json};
use account_store::Accounts;
use admission::{LookupFault, resolve};
use block_record::{Block, Entry};
use message_codec::{
    Instruction, Loaded, MAX_COUNT, Message, Parsed, has_repeated_key, keys_of, parse,
};
use sol_base::{Blob, Items, Key, OutOfMemory};
use std::alloc::Global;

/// Whether a message is refused before its lookups are looked at.
fn has_odd_keys(message: &Message) -> bool
    ensures { result ≡ has_odd_keys message.now }
{
    message.lookups.len() > MAX_COUNT || has_repeated_key(message.keys.as_slice())
}

fn no_keys(alloc: Global) -> Loaded
    ensures { result ≡ record { writable = []; readonly = [] } }
{
    Loaded {
        writable: Items::new(alloc),
        readonly: Items::new(alloc),
    }
}

/// The keys that a message looks up in the state before its block, and none where that is refused.
fn loaded_in(alloc: Global, before: &Accounts, message: &Message) -> Result<Loaded, OutOfMemory>
    ensures { IfOk result (λ loaded. loaded ≡ loaded_in before.now message.now) }
{
    if has_odd_keys(message) {
        return Ok(no_keys(alloc));
    }
    match resolve(alloc, message, before) {
        Ok(loaded) => Ok(loaded),
        Err(LookupFault::OutOfMemory) => Err(OutOfMemory),
        Err(_) => Ok(no_keys(alloc)),
    }
}

/// All keys of a message.
fn keys_in(alloc: Global, before: &Accounts, message: &Message) -> Result<Items<Key>, OutOfMemory>
    ensures { IfOk result (λ keys. keys ≡ keys_in before.now message.now) }
{
    let loaded = loaded_in(alloc, before, message)?;
    keys_of(alloc, message, &loaded)
}

/// The key at a place.
fn key_at(keys: &[Key], place: u8) -> Option<Key>
    ensures { result ≡ slice_get keys.now place }
{
    keys.get(usize::from(place)).copied()
}

/// The keys at places.
fn keys_at(alloc: Global, keys: &[Key], places: &[u8]) -> Result<Items<Option<Key>>, OutOfMemory>
    ensures { IfOk result (λ found. found ≡ map (key_at keys.now) places.now) }
{
    let mut found = Items::with_capacity(alloc, places.len())?;
    for place in places {
        found.push(key_at(keys, *place))?;
    }
    Ok(found)
}

/// The digits of the key at a place.
fn digits_at(alloc: Global, keys: &[Key], place: u8) -> Result<Option<Blob>, OutOfMemory>
    ensures { IfOk result (λ text. text ≡ option_map key_digits (key_at keys.now place)) }
{
    match keys.get(usize::from(place)) {
        Some(key) => Ok(Some(key_digits(alloc, key)?)),
        None => Ok(None),
    }
}

/// The keys at places as a JSON array.
fn accounts_at(alloc: Global, keys: &[Key], places: &[u8]) -> Result<Blob, OutOfMemory>
    ensures { IfOk result (λ text. text ≡ keys_json (map (key_at keys.now) places.now)) }
{
    let found = keys_at(alloc, keys, places)?;
    keys_json(alloc, found.as_slice())
}

fn instruction_row(
    alloc: Global,
    slot: u64,
    position: u64,
    keys: &[Key],
    place: u64,
    instruction: &Instruction,
) -> Result<InstructionRow, OutOfMemory>
    ensures { IfOk result (λ row.
        row ≡ instruction_row slot position keys.now (place, instruction.now)) }
{
    Ok(InstructionRow {
        slot,
        position,
        place,
        program: digits_at(alloc, keys, instruction.program)?,
        accounts: accounts_at(alloc, keys, instruction.accounts.as_slice())?,
        input: instruction.input.try_copy()?,
    })
}

/// Adds the rows of the instructions of one message.
fn push_message(
    alloc: Global,
    rows: &mut Items<InstructionRow>,
    before: &Accounts,
    slot: u64,
    position: u64,
    message: &Message,
) -> Result<(), OutOfMemory>
    ensures { OnOk result (rows.new
        ≡ rows.old ++ rows_of_message before.now slot position message.now) }
{
    let all = keys_in(alloc, before, message)?;
    let keys = all.as_slice();
    let instructions = message.instructions.as_slice();
    for (place, instruction) in instructions.iter().enumerate() {
        rows.push(instruction_row(alloc, slot, position, keys, place as u64, instruction)?)?;
    }
    Ok(())
}

/// Adds the rows of one transaction. Bytes that are no transaction have none.
fn push_entry(
    alloc: Global,
    rows: &mut Items<InstructionRow>,
    before: &Accounts,
    slot: u64,
    position: u64,
    entry: &Entry,
) -> Result<(), OutOfMemory>
    ensures { OnOk result (rows.new
        ≡ rows.old ++ rows_of_entry before.now slot (position, entry.now)) }
{
    match parse(alloc, entry.wire.as_slice())? {
        Parsed::Good { tx, name: _ } => {
            push_message(alloc, rows, before, slot, position, &tx.message)
        }
        Parsed::Bad(_) => Ok(()),
    }
}

/// A row for each instruction of each message of the block, in their order. Keys that a message looks
/// up are those of the state before the block; a message whose lookups are refused has none of them.
pub(crate) fn instruction_rows(
    alloc: Global,
    before: &Accounts,
    block: &Block,
) -> Result<Items<InstructionRow>, OutOfMemory>
    ensures { IfOk result (λ rows. rows ≡ instruction_rows before.now block.now) }
{
    let entries = block.entries.as_slice();
    let mut rows = Items::new(alloc);
    for (position, entry) in entries.iter().enumerate() {
        push_entry(alloc, &mut rows, before, block.slot, position as u64, entry)?;
    }
    Ok(rows)
}
