//! One block: which of its transactions run, what they come to on 1 to 64 lanes, and its record and
//! the snapshot after it.
#![tactic(auto)]

mod admitting;
mod alone;
mod block;
mod keys;
mod order;
mod run;
mod watching;

pub use alone::{run_block_alone, run_listed_alone};
pub use block::{BlockResult, Decoded, Recorded, Spent};
pub use run::{record_parsed, run_block, run_listed, run_parsed};
pub use watching::{Seen, Wanted, Watched, watch_order};
