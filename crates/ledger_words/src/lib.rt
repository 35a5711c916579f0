//! The arguments of the command line for chains, and the command that they are.
#![tactic(auto)]

mod command;
mod counts;
mod name;
mod reading;
mod usage;

pub use command::ChainCommand;
pub use counts::{MAX_EVERY, MAX_JOBS};
pub use name::{CommandName, command_named};
pub use reading::read_chain_words;
pub use usage::{USAGE, VERSION};
