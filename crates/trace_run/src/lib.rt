//! What transactions of a block do, frame by frame: they run as the serial run has them, and it is
//! noted how each frame begins, stops and ends.
#![tactic(auto)]

mod found;
mod notes;
mod run;

pub use found::{Difference, Found, Listed, is_first, listing_places};
pub use notes::{Began, Finished, Halted, Note, Notes, Step};
pub use run::{Sought, Traced, trace_block};
