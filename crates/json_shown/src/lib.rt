//! Batches, records and snapshots as JSON with what a person wants to see beside the exact form, in
//! members `shown`.
#![tactic(auto)]

mod members;
mod native;
mod snapshot;
mod text;
mod transaction;

pub use text::{json_of_batch_with_shown, json_of_record_with_shown, json_of_snapshot_with_shown};
