//! The keys that transactions declare, in ascending order, each once.
ghost use Rattle.std.specs.Prelude.{◌≡◌, ◌++◌, ◌∷◌, [], IfOk, List, OnOk, true};
ghost use Rattle.sol_base.specs.declared.key.Key.{Key as KeyValue};
ghost use Rattle.sol_base.specs.Keys.{has_key};
ghost use Rattle.message_codec.specs.Roles.{all_keys};
ghost use Rattle.block_run.specs.SerialRun.{AreKeysIn, AreKeysOf, keys_in};

use account_store::sort_keys;
use admission::{Candidate, Chosen};
use sol_base::{Items, Key, OutOfMemory};
use std::alloc::Global;

/// How many keys are remembered while keys are collected: many more than programs that most
/// transactions call.
const REMEMBERED: usize = 4_096;

/// Keys as they are collected. Of those that come again most are left out, so that few are left to
/// sort: a slot for each of so many beginnings of a key remembers where one of them is.
#[derive(Drop)]
struct Collected {
    keys: Vec<Key>,
    places: Vec<usize>,
}

/// The slot that remembers a key.
fn slot_of(key: &Key) -> usize {
    usize::from(u16::from_be_bytes([key.0[0], key.0[1]])) % REMEMBERED
}

/// Whether the key is at this place of the list.
fn stands_at(keys: &[Key], place: usize, key: &Key) -> bool
    ensures { result ≡ true → has_key key.now keys.now ≡ true }
{
    match keys.get(place) {
        Some(there) => key == there,
        None => false,
    }
}

impl Collected {
    fn new(alloc: Global) -> Result<Collected, OutOfMemory>
        ensures { IfOk result (λ collected. collected.keys.items ≡ []) }
    {
        Ok(Collected {
            keys: Vec::new(alloc),
            places: vec![in alloc; 0; REMEMBERED]?,
        })
    }

    /// Adds a key, unless it is remembered.
    fn add(&mut self, key: &Key) -> Result<(), OutOfMemory>
        ensures { OnOk result ((all : List KeyValue) → AreKeysOf all self.old.keys.items
            → AreKeysOf (all ++ key.now ∷ []) self.new.keys.items) }
    {
        let slot = slot_of(key);
        if let Some(place) = self.places.get_mut(slot) {
            if stands_at(&self.keys, *place, key) {
                return Ok(());
            }
            *place = self.keys.len();
        }
        Ok(self.keys.push(*key)?)
    }

    /// Adds each of the keys.
    fn add_all(&mut self, keys: &[Key]) -> Result<(), OutOfMemory>
        ensures { OnOk result ((all : List KeyValue) → AreKeysOf all self.old.keys.items
            → AreKeysOf (all ++ keys.now) self.new.keys.items) }
    {
        for key in keys {
            self.add(key)?;
        }
        Ok(())
    }

    /// Adds all keys of a transaction.
    fn add_keys_of(&mut self, chosen: &Chosen) -> Result<(), OutOfMemory>
        ensures { OnOk result ((all : List KeyValue) → AreKeysOf all self.old.keys.items
            → AreKeysOf (all ++ all_keys chosen.now.tx.message chosen.now.loaded) self.new.keys.items) }
    {
        self.add_all(chosen.tx.message.keys.as_slice())?;
        self.add_all(chosen.loaded.writable.as_slice())?;
        self.add_all(chosen.loaded.readonly.as_slice())?;
        Ok(())
    }
}

/// The keys that the transactions declare. Most stand once.
fn keys_in(alloc: Global, order: &[Candidate]) -> Result<Vec<Key>, OutOfMemory>
    ensures { IfOk result (λ keys. AreKeysOf (keys_in order.now) keys.items) }
{
    let mut collected = Collected::new(alloc)?;
    for one in order {
        collected.add_keys_of(one.chosen())?;
    }
    Ok(collected.keys)
}

/// The keys that the transactions declare, in ascending order, each once.
pub(crate) fn sorted_keys_in(alloc: Global, order: &[Candidate]) -> Result<Items<Key>, OutOfMemory>
    ensures { IfOk result (AreKeysIn order.now) }
{
    let mut keys = keys_in(alloc, order)?;
    sort_keys(&mut keys);
    Ok(Items::from_vec(keys))
}
