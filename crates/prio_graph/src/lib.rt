//! The graph of positions that wait for each other, and the least one that is ready.
//!
//! Two positions conflict where a number is in the locks of both and at least one of the two writes
//! it. While the graph is made it keeps, for each number, the last writer and the readers since: a
//! reader waits for the last writer, and a writer for it and the readers since. That is one edge for
//! two positions, however many numbers they share.
#![tactic(auto)]

mod edges;
mod graph;
mod laws;
mod mark;
mod rows;
mod tree;

pub use graph::Graph;
pub use laws::{counters_tell, edges_are_single, ready_are_counted, ready_in_the_machine};
pub use mark::Mark;
