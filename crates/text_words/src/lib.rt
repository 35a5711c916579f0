//! The arguments of the command line for texts, and the command that they are.
#![tactic(auto)]

mod command;
mod forms;
mod name;
mod reading;
mod usage;

pub use command::{Form, Look, Sought, TextCommand};
pub use name::{TextName, text_named};
pub use reading::read_text_words;
pub use usage::{USAGE, VERSION};
