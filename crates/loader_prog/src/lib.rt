//! The loader program: transactions write a program in pieces and finalize it, and it runs from the
//! next block (the project's own).
#![tactic(auto)]

mod activation;
mod buffer;
mod fault;
mod image;
mod instruction;
mod laws;
mod roles;
mod run;
mod steps;

pub use activation::activate_one;
pub use fault::LoaderFault;
pub use laws::{
    accounts_listed_twice_act_as_one, activated_programs_are_verified, calls_keep_accounts,
    only_the_authority_changes_a_buffer,
};
pub use run::run_loader;
