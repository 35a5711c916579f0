//! What holds of every batch that is admitted and of every block that is run or replayed: laws over
//! the definitions that the calls which do so cite. The calls here do nothing.
#![tactic(auto)]

mod admitted;
mod chain;
mod keeping;
mod replay;
mod running;

pub use admitted::{
    admitted_transactions_are_admitted_again, admitted_transactions_are_chosen,
    positions_run_or_are_refused,
};
pub use chain::{next_blocks_can_be_run, records_are_read};
pub use keeping::{blocks_keep_lamports, blocks_keep_programs};
pub use replay::{blocks_run_again, replays_match};
pub use running::{activated_programs_are_ready, executable_accounts_stay, lamports_are_conserved};
