//! Transactions and messages.
use sol_base::{Blob, Hash32, Items, Key};

/// An Ed25519 signature: 64 bytes. It is carried and never tested.
#[derive(Clone, Copy, PartialEq, Eq)]
pub struct Signature(pub [u8; 64]);

/// How many of a message's static keys sign, and how many are read only (Solana).
#[derive(Clone, Copy, PartialEq, Eq)]
pub struct Header {
    /// The first so many keys sign.
    pub required: u8,
    /// The last so many of the signing keys are read only.
    pub readonly_signed: u8,
    /// The last so many of the keys that do not sign are read only.
    pub readonly_unsigned: u8,
}

/// A call of one program (Solana).
#[derive(Drop)]
pub struct Instruction {
    /// The program's place among the message's static keys.
    pub program: u8,
    /// The places of its accounts among all keys of the message, one byte each.
    pub accounts: Blob,
    /// What the program is given.
    pub input: Blob,
}

/// Which of Solana's two message formats.
#[derive(Clone, Copy, PartialEq, Eq)]
pub enum MessageKind {
    /// The first format, which has no lookups.
    Legacy,
    /// Version 0, whose first byte is 128.
    Zero,
}

/// Keys that a version 0 message loads from a table (Solana).
#[derive(Drop)]
pub struct Lookup {
    /// The account that holds the table.
    pub table: Key,
    /// The places in the table of the keys to write, one byte each.
    pub writable: Blob,
    /// The places in the table of the keys to read, one byte each.
    pub readonly: Blob,
}

/// What a transaction's signers sign (Solana).
#[derive(Drop)]
pub struct Message {
    pub kind: MessageKind,
    pub header: Header,
    /// The static keys. Key 0 is the fee payer.
    pub keys: Items<Key>,
    pub blockhash: Hash32,
    pub instructions: Items<Instruction>,
    pub lookups: Items<Lookup>,
}

/// The keys that a message's lookups stand for, in their order. They follow the static keys, those
/// to write first.
#[derive(Drop)]
pub struct Loaded {
    pub writable: Items<Key>,
    pub readonly: Items<Key>,
}

/// A transaction: a message and its signatures (Solana).
#[derive(Drop)]
pub struct Tx {
    pub signatures: Items<Signature>,
    pub message: Message,
}
