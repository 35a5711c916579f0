//! Snapshots of a chain and batches of transactions as bytes, both ways, and the hash of a state.
#![tactic(auto)]

mod accounts;
mod batch;
mod batch_head;
mod fault;
mod head;
mod laws;
mod length;
mod marks;
mod reading;
mod snapshot;
mod writing;

pub use accounts::MAX_ACCOUNTS;
pub use batch::{BATCH_HEAD_LEN, BATCH_MAGIC, Batch, WIRE_LENGTH_LEN, batch_bytes, read_batch};
pub use batch_head::batch_count;
pub use fault::{BatchFault, SnapshotFault};
pub use laws::{
    first_version_is_read, numbers_are_as_stated, readable_snapshots_are_writable,
    written_batches_are_read, written_snapshots_are_read,
};
pub use length::snapshot_length;
pub use reading::read_snapshot;
pub use snapshot::{Prefix, Snapshot};
pub use writing::{snapshot_bytes, state_hash, write_snapshot};
