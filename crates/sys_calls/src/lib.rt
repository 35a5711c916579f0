//! The system calls of programs, other than the cross-program call.
#![tactic(auto)]

mod access;
mod block;
mod env;
mod fault;
mod laws;
mod log;
mod memory;
mod program_key;
mod returned;
mod serving;
mod sha256;
mod slices;
mod table;

pub use env::Env;
pub use fault::SysFault;
pub use laws::{calls_add_lines, calls_gain_no_units, calls_keep_sizes, numbers_are_as_stated};
pub use serving::serve;
