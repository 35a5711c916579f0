//! Transactions that are built from instructions which name their accounts by keys, as Solana's
//! tools build them.
#![tactic(auto)]

mod classes;
mod draft;
mod fault;
mod laws;
mod mentions;
mod message;
mod signing;
mod tables;
mod wire;

pub use draft::{AccountMeta, Draft, KeyedInstruction, LookupTable, Version};
pub use fault::BuildFault;
pub use laws::{built_wires_are_read, numbers_are_as_stated};
pub use tables::MAX_ADDRESSES;
pub use wire::build_wire;
