//! Blocks and their entries.
use sol_base::{Blob, Hash32, Items, Key};
use tx_report::Status;

/// The parts of an entry, each where it is.
#[derive(Clone, Copy)]
pub struct EntryParts<'a> {
    pub wire: &'a Blob,
    pub status: &'a Status,
    pub units: u64,
    pub fee: u64,
    pub lines: &'a Items<Blob>,
}

/// A transaction of a block, and what came of it.
#[derive(Drop)]
pub struct Entry {
    /// The transaction as it came.
    pub wire: Blob,
    pub status: Status,
    /// The compute units that it used.
    pub units: u64,
    /// The lamports that it paid.
    pub fee: u64,
    /// What its programs logged, each line a text in UTF-8.
    pub lines: Items<Blob>,
}

/// A block: its transactions in the order in which they count, and what it left.
#[derive(Drop)]
pub struct Block {
    pub slot: u64,
    /// Who is paid the part of the fees that is not burned.
    pub collector: Key,
    /// The hash of the block before, and zeros where there is none.
    pub previous: Hash32,
    pub entries: Items<Entry>,
    /// The lamports that are burned.
    pub burned: u64,
    /// The lamports that the collector is paid.
    pub collected: u64,
    /// The hash of the accounts after the block.
    pub state: Hash32,
    /// The hash of all that is before it in the record.
    pub hash: Hash32,
}

/// A block of listed transactions.
#[derive(Drop)]
pub struct Listed {
    pub block: Block,
    /// Whether the entries end before one that is not admitted.
    pub halted: bool,
}

/// A block whose record is at the front of some bytes, and how many of them it takes.
#[derive(Drop)]
pub struct Front {
    pub block: Block,
    pub length: usize,
}
