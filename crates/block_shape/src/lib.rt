//! How parallel a block can be: when each of its transactions may start at the earliest, where each
//! waits for the earlier ones that conflict with it and for nothing else, and for whom and where it
//! waits.
#![tactic(auto)]

mod ends;
mod figure;
mod holders;
mod measure;
mod meets;
mod most;
mod reach;
mod starts;
mod waits;

pub use figure::{Shape, shape_of};
pub use holders::last_holders;
pub use measure::Measure;
pub use meets::key_met;
pub use most::{Waited, most_waited};
pub use starts::{Starts, earliest_starts};
