//! What a frame lends to its system calls.
use sol_base::{Blob, Key};
use tx_report::Logs;

/// What system calls look at and change beside the memory: the block's slot, the frame's program,
/// height and units, the bytes that were returned last with the program that did, and the log.
#[derive(Drop)]
pub struct Env {
    pub slot: u64,
    pub program: Key,
    pub height: u8,
    pub units: u64,
    pub returned: Blob,
    pub returned_by: Key,
    pub logs: Logs,
}
