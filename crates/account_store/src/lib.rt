//! The accounts of a chain by their keys: an ordered map of shared accounts that keeps the sum of
//! their lamports.
#![tactic(auto)]

mod accounts;
mod ascending;
mod keys;
mod laws;
mod many;
mod sorted;

pub use accounts::Accounts;
pub use keys::sort_keys;
pub use laws::{
    lists_give_the_state_of_their_entries, next_accounts_are_the_entries, states_are_their_entries,
    sums_differ_by_the_accounts_that_differ, sums_follow_the_accounts, writes_change_their_own_key,
};
pub use many::TakenOut;
pub use sorted::{KeyedAccount, StoreFault};
