//! The transactions of a block on its lanes, whatever they are as a work, while the front of the
//! record is hashed and written beside them.
#![tactic(auto)]

mod lanes;
mod reading;

pub use lanes::{run_work, run_work_alone};
