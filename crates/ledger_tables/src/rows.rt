//! The rows of the tables. Slots, positions and places count as they do in a record; keys, hashes and
//! signatures are texts of hexadecimal digits in lower case.
use sol_base::{Blob, Items};

/// A block, without its transactions.
#[derive(Drop)]
pub struct BlockRow {
    pub slot: u64,
    pub hash: Blob,
    /// The hash of the block before.
    pub previous: Blob,
    pub collector: Blob,
    /// The hash of the accounts after the block.
    pub state: Blob,
    pub burned: u64,
    pub collected: u64,
    /// The microseconds that its run took.
    pub micros: u64,
}

/// A transaction of a block.
#[derive(Drop)]
pub struct TransactionRow {
    pub slot: u64,
    /// Its place in the block, from 0.
    pub position: u64,
    /// Its first signature. None where the bytes are no transaction, or one without a signature.
    pub signature: Option<Blob>,
    /// Its first key.
    pub payer: Option<Blob>,
    /// Its status as a text.
    pub status: Blob,
    pub units: u64,
    pub fee: u64,
}

/// An instruction of a transaction.
#[derive(Drop)]
pub struct InstructionRow {
    pub slot: u64,
    pub position: u64,
    /// Its place in the transaction, from 0.
    pub place: u64,
    pub program: Option<Blob>,
    /// The keys of its accounts as a JSON array, with null where a place names no key.
    pub accounts: Blob,
    pub input: Blob,
}

/// A line that a transaction logged.
#[derive(Drop)]
pub struct LogRow {
    pub slot: u64,
    pub position: u64,
    /// Its place among the lines of the transaction, from 0.
    pub place: u64,
    pub line: Blob,
}

/// An account as it is after a block. One that is not there has no lamports.
#[derive(Drop)]
pub struct AccountRow {
    pub slot: u64,
    pub key: Blob,
    pub lamports: u64,
    pub owner: Blob,
    pub executable: bool,
    pub bytes: Blob,
}

/// All rows of a block.
#[derive(Drop)]
pub struct BlockRows {
    pub block: BlockRow,
    pub transactions: Items<TransactionRow>,
    pub instructions: Items<InstructionRow>,
    pub logs: Items<LogRow>,
    /// The accounts that the block changed or made, by their keys.
    pub changed: Items<AccountRow>,
    /// The accounts that it took away, by their keys.
    pub gone: Items<AccountRow>,
}
