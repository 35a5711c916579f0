//! The programs of a block by their keys: each is read, verified and decoded once, and then shared
//! by all frames that run it.
#![tactic(auto)]

mod found;
mod image;
mod kept;
mod laws;
mod programs;

pub use found::Found;
pub use image::Image;
pub use laws::{programs_are_kept_by_their_keys, ready_programs_are_verified};
pub use programs::Programs;
