//! Compute units: how they are taken, and what bytes cost.
#![tactic(auto)]

mod laws;
mod units;

pub use laws::numbers_are_as_stated;
pub use units::{BYTES_OF_UNIT, UnitsFault, charge};
