//! The chains of each number as positions pass them: its last writer, and the readers since.
#![tactic(auto)]

mod chains;
mod rows;

pub use chains::{awaited, pass_locks};
pub use rows::push_at;
