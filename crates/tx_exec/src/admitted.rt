//! The admitted transactions of a block.
use admission::Candidate;
use program_cache::Programs;
use sol_base::Items;

/// The admitted transactions of a block, and what is fixed for all of them.
#[derive(Drop)]
pub struct AdmittedBlock {
    /// The transactions, in the order in which they count, as pointers.
    pub chosen: Items<Candidate>,
    /// The programs among their keys.
    pub programs: Programs,
    pub slot: u64,
    /// The greatest stack height.
    pub height: u8,
}
