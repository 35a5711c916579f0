//! The end of a block, whatever its transactions are as a work: its fees, the programs that become
//! final, its record, and the snapshot after it.
#![tactic(auto)]

mod activation;
mod block;
mod closing;
mod crew;
mod entries;
mod fees;
mod laws;
mod names;
mod record_prefix;
mod rest;
mod threads;

pub use block::{Chain, Closed, ClosedRecord, Head, RecordParts};
pub use closing::{close, close_record};
pub use crew::{Crew, LANE_NUMBERS, MANY_TRANSACTIONS, working_in};
pub use laws::sorted_names_are_the_same;
pub use record_prefix::{OUTCOMES_AT_ONCE, RecordPrefix, begin_record, take_in};
pub use threads::call_both;
