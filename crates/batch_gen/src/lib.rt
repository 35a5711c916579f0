//! A chain at its start and a block of transfers between its users, both drawn from a number, to
//! try a block on.
#![tactic(auto)]

mod draws;
mod laws;
mod made;
mod start;
mod transfers;

pub use laws::numbers_are_as_stated;
pub use made::{Made, make};
