//! Which of many messages the blocks have processed, asked for at once.
ghost use Rattle.std.specs.Prelude.{◌≡◌, ◌&&◌, ◌||◌, ◌<◌, IfOk, OnOk, false};
ghost use Rattle.sol_base.specs.declared.key.Hash32.{Hash32 as HashValue};
ghost use Rattle.sol_base.specs.Keys.{same_hash};
ghost use Rattle.status_cache.specs.Recent.{has_hash, has_name, processed};
ghost use Rattle.status_cache.specs.Sought.{prefix_of};

use crate::recent::{Mark, Recent};
use sol_base::{Hash32, OutOfMemory};
use std::alloc::Global;
use std::collections::BTreeSet;
use std::marker::Model;

/// How many prefixes are told apart: those of 20 bits.
pub(crate) const PREFIXES: usize = 1 << 20;

/// From how many looks on, one for each message and block, the messages are noted first: that takes
/// as long as some thousand looks, and then each block is walked over once.
const MANY_LOOKS: usize = 1 << 15;

/// Hashes that are looked for, and the prefixes that they have. Most others are told apart by their
/// prefix, without a search.
#[derive(Drop)]
struct Sought {
    hashes: BTreeSet<Hash32>,
    prefixes: Vec<bool>,
}

impl Model for Sought {
    ghost use Rattle.std.specs.BTreeSet.{BTreeSet};
    ghost use Rattle.sol_base.specs.declared.key.Hash32.{Hash32};

    ghost Value = { BTreeSet Hash32 };

    ghost use Rattle.status_cache.specs.Sought.{IsSought};

    ghost view = { λ s. s.hashes };

    ghost invariant = { λ s. IsSought s.hashes s.prefixes.items };
}

impl Sought {
    /// None yet.
    fn new(alloc: Global) -> Result<Sought, OutOfMemory>
        ensures { IfOk result (λ sought. (hash : HashValue) → has_name sought hash ≡ false) }
    {
        Ok(Sought {
            hashes: BTreeSet::new(alloc),
            prefixes: vec![in alloc; false; PREFIXES]?,
        })
    }

    /// Adds a hash.
    fn add(&mut self, hash: Hash32) -> Result<(), OutOfMemory>
        ensures { OnOk result ((other : HashValue) →
            has_name self.new other ≡ (has_name self.old other || same_hash hash other)) }
    {
        self.prefixes[prefix_of(&hash)] = true;
        self.hashes.insert(hash)?;
        Ok(())
    }

    /// Whether a hash is among them.
    fn has(&self, hash: &Hash32) -> bool
        ensures { result ≡ has_name self.now hash.now }
    {
        self.prefixes[prefix_of(hash)] && self.hashes.contains(hash)
    }
}

/// The first 20 bits of a hash.
fn prefix_of(hash: &Hash32) -> usize
    ensures value { result ≡ prefix_of hash.now }
    ensures within { result < PREFIXES }
{
    let bytes = &hash.0;
    bytes[0] as usize * 4096 + bytes[1] as usize * 16 + bytes[2] as usize / 16
}

/// Adds those of a block's messages that are looked for.
fn add_found(
    found: &mut BTreeSet<Hash32>,
    sought: &Sought,
    messages: &[Hash32],
) -> Result<(), OutOfMemory>
    ensures { OnOk result ((hash : HashValue) → has_name found.new hash
        ≡ (has_name found.old hash || (has_name sought.now hash && has_hash messages.now hash))) }
{
    for message in messages {
        if sought.has(message) {
            found.insert(*message)?;
        }
    }
    Ok(())
}

/// The hashes that are looked for, noted.
fn sought_in(alloc: Global, hashes: &[Hash32]) -> Result<Sought, OutOfMemory>
    ensures { IfOk result (λ sought. (hash : HashValue) →
        has_name sought hash ≡ has_hash hashes.now hash) }
{
    let mut sought = Sought::new(alloc)?;
    for hash in hashes {
        sought.add(*hash)?;
    }
    Ok(sought)
}

/// Those of the messages of all blocks that are looked for.
fn found_in(alloc: Global, marks: &[Mark], sought: &Sought) -> Result<BTreeSet<Hash32>, OutOfMemory>
    ensures { IfOk result (λ found. (hash : HashValue) → has_name found hash
        ≡ (has_name sought.now hash && processed marks.now hash)) }
{
    let mut found = BTreeSet::new(alloc);
    for mark in marks {
        add_found(&mut found, sought, mark.messages.as_slice())?;
    }
    Ok(found)
}

impl Recent {
    /// Those of the messages that a block has processed, each looked for by itself.
    fn each_processed(
        &self,
        alloc: Global,
        messages: &[Hash32],
    ) -> Result<BTreeSet<Hash32>, OutOfMemory>
        ensures { IfOk result (λ found. (hash : HashValue) → has_name found hash
            ≡ (has_hash messages.now hash && processed self.now hash)) }
    {
        let mut found = BTreeSet::new(alloc);
        for message in messages {
            if self.was_processed(message) {
                found.insert(*message)?;
            }
        }
        Ok(found)
    }

    /// Those of the messages, given by their hashes in any order, that a block has processed. Many
    /// are looked for in one walk over all blocks.
    pub fn processed_among(
        &self,
        alloc: Global,
        messages: &[Hash32],
    ) -> Result<BTreeSet<Hash32>, OutOfMemory>
        ensures { IfOk result (λ found. (hash : HashValue) → has_name found hash
            ≡ (has_hash messages.now hash && processed self.now hash)) }
    {
        if messages.len().saturating_mul(self.marks().len()) < MANY_LOOKS {
            return self.each_processed(alloc, messages);
        }
        let sought = sought_in(alloc, messages)?;
        found_in(alloc, self.marks(), &sought)
    }
}
