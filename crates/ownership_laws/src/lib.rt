//! Who changes which accounts in a block: laws over the definitions that the calls which run a
//! block cite. The calls here do nothing.
#![tactic(auto)]

mod blocks;
mod rest;

pub use blocks::blocks_keep_what_programs_do_not_own;
pub use rest::accounts_at_rest_are_kept;
