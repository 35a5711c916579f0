//! What one transaction tells besides its accounts.
use crate::status::Status;
use sol_base::{Blob, Items};

/// What one transaction tells besides its accounts.
#[derive(Drop)]
pub struct Outcome {
    pub status: Status,
    /// The compute units used.
    pub units: u64,
    /// The base fee paid, in lamports.
    pub base_paid: u64,
    /// The priority fee paid, in lamports.
    pub priority_paid: u64,
    /// The log lines kept.
    pub lines: Items<Blob>,
}
