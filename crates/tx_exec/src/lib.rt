//! One transaction as the work of a lane: what it does to the values of its keys, and the laws that
//! a work has to keep.
#![tactic(auto)]

mod admitted;
mod ending;
mod executing;
mod failure;
mod laws;
mod payer;
mod perform;
mod roles;
mod transaction;
mod work;

pub use admitted::AdmittedBlock;
pub use failure::Failure;
pub use laws::{
    transactions_are_lawful_works, transactions_have_outcomes, transactions_keep_accounts,
    transactions_keep_foreign_accounts,
};
pub use work::TxWork;
