//! The locks of a transaction, and the accounts of an instruction.
use crate::items::Items;
use crate::key::Key;

/// A key that a transaction declares, and whether it may write the account.
#[derive(Clone, Copy, PartialEq, Eq)]
pub struct Lock {
    pub key: Key,
    pub write: bool,
}

/// The locks of one transaction, in the order of its keys.
pub type LockList = Items<Lock>;

/// The most accounts that a frame lists (Solana).
pub const MAX_METAS: usize = 255;

/// An account of an instruction, by its place among the transaction's keys.
#[derive(Clone, Copy, PartialEq, Eq)]
pub struct Meta {
    pub index: u8,
    pub signer: bool,
    pub writable: bool,
}
