//! What holds of the entries of every block: laws over the definitions that the calls which run a
//! block cite. The calls here do nothing.
#![tactic(auto)]

mod left;
mod once;
mod order;
mod owners;
mod sums;

pub use left::{block_ends_pay_and_activate, failed_entries_leave_their_fee, unwritten_keys_stay};
pub use once::messages_run_once;
pub use order::entries_are_in_order;
pub use owners::good_entries_run_in_stretches;
pub use sums::{fees_are_shared, units_are_within_limits};
