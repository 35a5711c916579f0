//! The newest blocks of a chain.
ghost use Rattle.std.specs.Prelude.{◌≡◌, ◌∷◌, [], OnOk, OnErr, take};
ghost use Rattle.status_cache.specs.Recent.{Ascends, IsRecent, has_hash, knows, max_marks, newest_of, processed};

use sol_base::{Hash32, Items, OutOfMemory};
use std::alloc::Global;
use std::marker::Model;

/// The most blocks that a chain remembers (the project's own).
pub const MAX_MARKS: usize = 150;

/// A block: its hash, and the hashes of the messages that it processed, ascending.
#[derive(Drop)]
pub struct Mark {
    pub hash: Hash32,
    pub messages: Items<Hash32>,
}

/// The newest blocks of a chain, newest first.
#[derive(Drop)]
pub struct Recent {
    marks: Vec<Mark>,
}

impl Model for Recent {
    ghost use Rattle.std.specs.Prelude.{List};
    ghost use Rattle.status_cache.specs.declared.recent.Mark.{Mark};

    ghost Value = { List Mark };

    ghost use Rattle.status_cache.specs.Recent.{IsRecent};

    ghost view = { λ r. r.marks.items };

    ghost invariant = { λ r. IsRecent r.marks.items };
}

impl Recent {
    /// No block.
    pub fn new(alloc: Global) -> Recent
        ensures { result ≡ [] }
    {
        Recent {
            marks: Vec::new(alloc),
        }
    }

    /// Whether a block has that hash.
    pub fn knows_hash(&self, hash: &Hash32) -> bool
        ensures { result ≡ knows self.now hash.now }
    {
        self.marks.iter().any(|mark| mark.hash == *hash)
    }

    /// Whether a block has processed the message with that hash.
    pub fn was_processed(&self, message: &Hash32) -> bool
        ensures { result ≡ processed self.now message.now }
    {
        for mark in &self.marks {
            if has_message(&mark.messages, message) {
                return true;
            }
        }
        false
    }

    /// The hash of the newest block, and zeros where there is none.
    pub fn newest(&self) -> Hash32
        ensures { result ≡ newest_of self.now }
    {
        match self.marks.first() {
            Some(mark) => mark.hash,
            None => Hash32([0; 32]),
        }
    }

    /// All blocks, newest first.
    pub fn marks(&self) -> &[Mark]
        ensures marks { result.now ≡ self.now }
        ensures recent { IsRecent result.now }
    {
        &self.marks
    }

    /// Adds the block as the newest, and forgets the oldest of more than 150. A refused block is
    /// dropped.
    pub fn advance(&mut self, mark: Mark) -> Result<(), OutOfMemory>
        requires { Ascends mark.messages }
        ensures ok { OnOk result (self.new ≡ take max_marks (mark ∷ self.old)) }
        ensures err { OnErr result (self.new ≡ self.old) }
    {
        self.marks.insert(0, mark)?;
        self.marks.truncate(MAX_MARKS);
        Ok(())
    }
}

/// The messages ascend, so that the time goes by the logarithm of their number.
fn has_message(messages: &Items<Hash32>, message: &Hash32) -> bool
    requires { Ascends messages.now }
    ensures { result ≡ has_hash messages.now message.now }
{
    messages.as_slice().binary_search(message).is_ok()
}
