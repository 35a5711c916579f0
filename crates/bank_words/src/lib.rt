//! The arguments of a command line, and the command that they spell. `clap` splits them.
#![tactic(auto)]

mod command;
mod command_line;
mod laws;
mod reading;
mod words;

pub use command::{Command, WordsFault};
pub use laws::commands_are_their_spellings;
pub use reading::read_words;
pub use words::Words;
