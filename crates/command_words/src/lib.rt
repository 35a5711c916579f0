//! One reader for the arguments of a command: options and values in any order, by a table of what the
//! command takes.
#![tactic(auto)]

mod arguments;
mod fault;
mod names;
mod notes;
mod refusal;
mod shape;
mod values;

pub use arguments::{Argument, arguments_in, asks_for_help, value_of};
pub use fault::WordsFault;
pub use notes::printable;
pub use refusal::{fault_text, refused};
pub use shape::Shape;
pub use values::{is_given, needed, number_of, path_needed, path_of_option};
