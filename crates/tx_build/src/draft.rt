//! What a transaction is built from.
use sol_base::{Blob, Hash32, Items, Key};

/// An account that an instruction names, and what the instruction asks of it (Solana).
#[derive(Clone, Copy)]
pub struct AccountMeta {
    pub key: Key,
    pub signer: bool,
    pub writable: bool,
}

/// A call of a program that names its accounts by their keys (Solana).
#[derive(Drop)]
pub struct KeyedInstruction {
    pub program: Key,
    pub accounts: Items<AccountMeta>,
    pub input: Blob,
}

/// An address lookup table and the addresses that it holds (Solana). A message can name the first
/// 256 of them.
#[derive(Drop)]
pub struct LookupTable {
    pub key: Key,
    pub addresses: Items<Key>,
}

/// Which of Solana's two message formats, and what keys the message may load.
#[derive(Drop)]
pub enum Version {
    Legacy,
    Zero { tables: Items<LookupTable> },
}

/// What a transaction is built from: its format, its fee payer, a recent blockhash and the
/// instructions.
#[derive(Drop)]
pub struct Draft {
    pub version: Version,
    pub payer: Key,
    pub blockhash: Hash32,
    pub instructions: Items<KeyedInstruction>,
}
