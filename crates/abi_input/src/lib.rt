//! The input region of a frame: what a program finds of its accounts, its instruction and its own
//! key, and what it writes of them.
#![tactic(auto)]

mod draft;
mod entry;
mod fault;
mod laws;
mod laying;
mod listing;
mod patching;
mod region;
mod taking;

pub use fault::{BackFault, PatchFault};
pub use laws::{
    numbers_are_as_stated, what_is_laid_out_is_taken_back, what_is_patched_in_is_taken_back,
    what_is_taken_back_stands_in_the_region,
};
pub use laying::lay_out;
pub use patching::patch;
pub use taking::{TakenBack, take_back};
