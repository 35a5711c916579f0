//! A call of a program, and what comes of it.

use sbpf_memory::AccessViolation;
use sol_base::{Account, Blob, Items, Key, Meta};
use std::sync::Arc;
use tx_report::InstructionError;

/// A call of a program: the program's place among the transaction's keys, the accounts that it may
/// use, and what it is given.
#[derive(Drop)]
pub struct Call {
    pub program: u8,
    pub metas: Items<Meta>,
    pub input: Blob,
}

/// What is fixed for a transaction beside its keys and programs.
#[derive(Clone, Copy)]
pub struct Setting {
    pub slot: u64,
    /// The bytes of heap of each frame.
    pub heap: u32,
    /// The greatest stack height.
    pub height: u8,
}

/// How an instruction ended: with the accounts as it leaves them, or with an error.
#[derive(Drop)]
pub enum Ended {
    Good(Items<Arc<Account>>),
    Failed(InstructionError),
}

/// Where a program stopped that failed.
#[derive(Clone, Copy, PartialEq, Eq)]
pub struct StoppedAt {
    pub program: Key,
    /// The place of the instruction in the program's text, in slots of 8 bytes.
    pub slot: u32,
    /// The access that was refused, where that is why it failed.
    pub access: Option<AccessViolation>,
}

/// What an instruction did.
#[derive(Drop)]
pub struct Ran {
    /// The units left.
    pub units: u64,
    /// The instructions started in the transaction.
    pub trace: u8,
    pub ended: Ended,
    /// Where the program stopped that failed first. There is none where the instruction ended well,
    /// and where no machine stopped: a native program failed, or one that did not start.
    pub stopped_at: Option<StoppedAt>,
}
