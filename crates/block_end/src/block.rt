//! A block at its end, and what its record is made of.
use admission::Candidate;
use block_record::Block;
use snapshot_codec::Snapshot;
use sol_base::{Blob, Hash32, Key, Limits};
use status_cache::Recent;

/// The slot of a block, and who collects what is not burned of its fees.
#[derive(Clone, Copy, PartialEq, Eq)]
pub struct Head {
    pub slot: u64,
    pub collector: Key,
}

/// What a record is made of beside the outcomes: where its block is, and the transactions as
/// they came and in their order.
#[derive(Clone, Copy)]
pub struct RecordParts<'a> {
    pub head: &'a Head,
    pub previous: Hash32,
    pub wires: &'a [Blob],
    pub order: &'a [Candidate],
    /// Whether its bytes are wanted, and not its hash alone.
    pub kept: bool,
}

/// What a snapshot has beside its slot and its accounts.
#[derive(Drop)]
pub struct Chain {
    pub limits: Limits,
    pub recent: Recent,
}

/// A block, and the snapshot after it.
#[derive(Drop)]
pub struct Closed {
    pub block: Block,
    pub after: Snapshot,
}

/// The record of a block, and the snapshot after it.
#[derive(Drop)]
pub struct ClosedRecord {
    pub record: Blob,
    pub after: Snapshot,
}
