//! Keys as numbers.
ghost use Rattle.std.specs.Prelude.{◌≡◌, ◌-◌, ◌^◌, ◌<◌, ◌≤◌, [], true, Some, None, length, slice_get, take, IfOk, OnOk, OnErr};
ghost use Rattle.std.specs.List.{IsDistinct};
ghost use Rattle.std.specs.List.Sorted.{IsStrictlySortedBy};
ghost use Rattle.sol_base.specs.declared.key.Key.{Key as KeyValue};
ghost use Rattle.sol_base.specs.Keys.{key_cmp};
ghost use Rattle.bank_law.specs.Job.{same_key, has_key};
ghost use Rattle.lock_table.specs.Numbers.{number_of, with_key, with_keys};

use crate::hashed::HashedKey;
use account_store::sort_keys;
use indexmap::IndexSet;
use sol_base::{Key, OutOfMemory};
use std::alloc::Global;
use std::hash::RandomState;
use std::marker::Model;

/// Distinct keys, each with a number: its index.
#[derive(Drop)]
pub struct KeyTable {
    keys: IndexSet<HashedKey, RandomState>,
}

impl Model for KeyTable {
    ghost use Rattle.std.specs.Prelude.{List, length, ◌<◌, ◌^◌};
    ghost use Rattle.sol_base.specs.declared.key.Key.{Key};
    ghost use Rattle.lock_table.specs.Tables.{keys_in};

    ghost Value = { List Key };

    ghost view = { λ t. keys_in t.keys.keys };

    ghost invariant = { λ t. length t.keys.keys < 2 ^ 32 };
}

impl KeyTable {
    /// No keys, which are hashed so once there are some.
    pub fn new(alloc: Global, hash: RandomState) -> KeyTable
        ensures { result ≡ [] }
    {
        KeyTable {
            keys: IndexSet::with_hasher(alloc, hash),
        }
    }

    /// The keys of a list, each once. They ascend.
    pub fn of_keys(
        alloc: Global,
        hash: RandomState,
        mut keys: Vec<Key>,
    ) -> Result<KeyTable, OutOfMemory>
        requires { length keys.items < 2 ^ 32 }
        ensures ascend { IfOk result (IsStrictlySortedBy key_cmp) }
        ensures same { IfOk result (λ table. (key : KeyValue)
            → has_key key table ≡ has_key key keys.items) }
    {
        sort_keys(&mut keys);
        KeyTable::in_order(alloc, hash, keys.as_slice())
    }

    /// The keys of a list in their order, each once.
    fn in_order(alloc: Global, hash: RandomState, keys: &[Key]) -> Result<KeyTable, OutOfMemory>
        requires { length keys.now < 2 ^ 32 }
        ensures { IfOk result (λ table. table ≡ with_keys [] keys.now) }
    {
        let mut table = KeyTable {
            keys: IndexSet::with_capacity_and_hasher(alloc, keys.len(), hash)?,
        };
        for key in keys {
            table.number(*key)?;
        }
        Ok(table)
    }

    /// The number of the key, which gets the next one where it has none.
    pub fn number(&mut self, key: Key) -> Result<u32, OutOfMemory>
        requires { length self.old < 2 ^ 32 - 1 }
        ensures keys { OnOk result (self.new ≡ with_key self.old key) }
        ensures number { IfOk result (λ number. number_of self.new key ≡ Some number) }
        ensures err { OnErr result (self.new ≡ self.old) }
        ensures absent { OnErr result (number_of self.old key ≡ None) }
    {
        let (number, _) = self.keys.insert_full(HashedKey(key))?;
        Ok(number as u32)
    }

    /// The number of the key, where it has one.
    pub fn find(&self, key: &Key) -> Option<u32>
        ensures { result ≡ number_of self.now key.now }
    {
        let number = self.keys.get_index_of(&HashedKey(*key))?;
        Some(number as u32)
    }

    /// The number of a key that has one.
    pub(crate) fn known(&self, key: &Key) -> u32
        requires { has_key key.now self.now ≡ true }
        ensures { number_of self.now key.now ≡ Some result }
    {
        self.find(key).unwrap()
    }

    /// The key of a number.
    pub fn key(&self, number: u32) -> Key
        requires { number < length self.now }
        ensures { slice_get self.now number ≡ Some result }
    {
        self.keys.as_slice()[number as usize].0
    }

    /// The keys by their numbers, in a list of their own.
    pub fn keys(&self, alloc: Global) -> Result<Vec<Key>, OutOfMemory>
        ensures { IfOk result (λ keys. keys.items ≡ self.now) }
    {
        let numbered = self.keys.as_slice();
        let mut keys = Vec::with_capacity(alloc, numbered.len())?;
        for key in numbered {
            keys.push(key.0)?;
        }
        Ok(keys)
    }

    /// How many keys there are.
    pub fn len(&self) -> u32
        ensures len { result ≡ length self.now }
        ensures distinct { IsDistinct same_key self.now }
    {
        self.keys.len() as u32
    }

    /// Takes the keys from a number on out again.
    pub(crate) fn truncate(&mut self, len: u32)
        ensures { self.new ≡ take len self.old }
    {
        self.keys.truncate(len as usize);
    }
}
