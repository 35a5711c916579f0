//! Rent: the balance that exempts an account, and which changes of an account it allows.
#![tactic(auto)]

mod laws;
mod rent;

pub use laws::numbers_are_as_stated;
pub use rent::{EXEMPTION_YEARS, LAMPORTS_PER_BYTE_YEAR, RentState, may_move, minimum, rent_state};
