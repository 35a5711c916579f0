//! The widths of the snapshot after a block: laws over the definitions that the calls which run a
//! block cite. The calls here do nothing.
#![tactic(auto)]

mod after;
mod chain;

pub use after::{snapshots_after_blocks_are_read, snapshots_after_blocks_have_widths};
pub use chain::produced_snapshots_are_read;
