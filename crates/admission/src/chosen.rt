//! Transactions that run.
use crate::candidate::Candidate;
use crate::refusal::Refused;
use fee_rules::{Budget, Fee};
use message_codec::{Loaded, Tx};
use sol_base::{Hash32, Items, LockList};

/// A transaction that runs, with all that is known of it before it does.
#[derive(Drop)]
pub struct Chosen {
    /// Its place in the batch.
    pub position: u32,
    pub tx: Tx,
    /// The keys that its lookups load.
    pub loaded: Loaded,
    /// The name of its message.
    pub name: Hash32,
    pub budget: Budget,
    pub fee: Fee,
    /// The locks of all its keys, in their order.
    pub locks: LockList,
}

/// What becomes of a batch: the transactions that run, in their order, and those that do not, by
/// their positions.
#[derive(Drop)]
pub struct Admitted {
    pub order: Items<Chosen>,
    pub refused: Items<Refused>,
}

/// What becomes of a batch: the transactions that run, in their order and as pointers, and those that
/// do not, by their positions.
#[derive(Drop)]
pub struct InLine {
    pub order: Items<Candidate>,
    pub refused: Items<Refused>,
}
