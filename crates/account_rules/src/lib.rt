//! The rules that the accounts of a frame keep while its program works.
#![tactic(auto)]

mod account;
mod listed;
mod rules;
mod wallet;

pub use listed::check_listed;
pub use rules::{RuleFault, check, check_touched};
pub use wallet::is_a_wallet;
