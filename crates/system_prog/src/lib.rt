//! The system program: accounts come to be, change their owner, get room for data, and pay.
#![tactic(auto)]

mod authority;
mod draft;
mod fault;
mod frame;
mod instruction;
mod laws;
mod rows;
mod run;
mod steps;
mod zeros;

pub use fault::SystemFault;
pub use laws::{accounts_listed_twice_act_as_one, good_calls_keep_the_accounts};
pub use run::run_system;
