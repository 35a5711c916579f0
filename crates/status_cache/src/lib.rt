//! The newest blocks of a chain: which hashes it knows, and which messages it has processed.
#![tactic(auto)]

mod among;
mod laws;
mod recent;

pub use laws::numbers_are_as_stated;
pub use recent::{MAX_MARKS, Mark, Recent};
