//! Views of snapshots and records for people: their parts, one account or transaction, and how two
//! of them differ.
#![tactic(auto)]

mod accounts;
mod blocks;
mod fields;
mod items;
mod laws;
mod output;
mod snapshots;
mod view;

pub use blocks::block_differences;
pub use laws::{equal_ones_have_no_lines, outputs_are_their_parts};
pub use output::{Split, split_output};
pub use snapshots::snapshot_differences;
pub use view::{view_account, view_entry};
