//! What a batch comes to.
use admission::Refused;
use bank_core::SharedOutcome;
use block_record::Block;
use message_codec::Parsed;
use snapshot_codec::{Batch, Snapshot};
use sol_base::{Blob, Items};
use tx_exec::TxWork;

/// A batch, and its transactions as they were read.
#[derive(Drop)]
pub struct Decoded {
    pub batch: Batch,
    pub parsed: Items<Parsed>,
    /// Room that the record may be written in. What it holds is dropped.
    pub room: Blob,
}

/// What a batch comes to.
#[derive(Drop)]
pub struct BlockResult {
    pub block: Block,
    /// The snapshot after the block.
    pub after: Snapshot,
    /// The transactions that did not run, by their positions.
    pub refused: Items<Refused>,
}

/// What a batch comes to, the block as its record.
#[derive(Drop)]
pub struct Recorded {
    pub record: Blob,
    /// The snapshot after the block.
    pub after: Snapshot,
    /// The transactions that did not run, by their positions.
    pub refused: Items<Refused>,
    /// What nothing asks for any more.
    pub spent: Spent,
}

/// What a block leaves behind: its batch, its transactions and their outcomes. To give them back
/// takes time, so a program that ends may leave them.
#[derive(Drop)]
pub struct Spent {
    pub(crate) batch: Batch,
    pub(crate) work: TxWork,
    pub(crate) outcomes: Items<SharedOutcome>,
}
