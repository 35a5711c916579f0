//! The first difference between the record of a block and the block that its entries give when they
//! run again.
#![tactic(auto)]

mod comparing;
mod verdict;

pub use comparing::{OF_BLOCK, compare};
pub use verdict::{Field, Verdict};
