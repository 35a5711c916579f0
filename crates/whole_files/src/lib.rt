//! Files that are written whole or not at all, and what the system refuses in words.
#![tactic(auto)]

mod causes;
mod change;
mod owner;
mod place;
mod writing;

pub use causes::cause;
pub use writing::{FileFault, NewFile, write_files};
