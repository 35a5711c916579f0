//! Snapshots: what a chain is at the end of a block.
use account_store::Accounts;
use sol_base::Limits;
use status_cache::Recent;

/// What a chain is at the end of a block: what the next block starts from.
#[derive(Drop)]
pub struct Snapshot {
    pub slot: u64,
    pub limits: Limits,
    pub recent: Recent,
    pub accounts: Accounts,
}

/// A snapshot that is at the front of some bytes, and how many of them it takes.
#[derive(Drop)]
pub struct Prefix {
    pub snapshot: Snapshot,
    pub length: usize,
}
