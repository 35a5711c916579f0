//! Calls side by side, in threads that run at once: the caller's thread starts one for each call, and
//! waits. Of two different calls it makes the first itself.
//!
//! `std::thread` halves the calls at each step, and the caller's thread takes its share of them. But the
//! first thread that a thread starts waits behind it where the system puts it on the same processor, and
//! while the starter works it stays there, some milliseconds, though another processor is idle. One that
//! is started by a thread which then only waits runs at once.
#![tactic(auto)]

mod both;
mod each;
mod jobs;
mod limit;

pub use both::call_both;
pub use each::for_each_mut;
pub use jobs::map_vec;
