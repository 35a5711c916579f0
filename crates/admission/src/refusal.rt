//! Why a transaction of a batch does not run.
use crate::lookups::LookupFault;
use fee_rules::BudgetFault;
use message_codec::{SanitizeFault, WireFault};
use thiserror::Error;

/// Why a transaction of a batch does not run. The faults within are never out of memory.
#[derive(Clone, Copy, Debug, PartialEq, Eq, Error)]
pub enum Refusal {
    #[error("its bytes are no transaction: {0}")]
    Wire(WireFault),
    #[error("it is not sane: {0}")]
    Sanitize(SanitizeFault),
    #[error("its keys are not loaded: {0}")]
    Lookup(LookupFault),
    #[error("its blockhash is none of the newest")]
    UnknownBlockhash,
    #[error("a block has processed its message")]
    AlreadyProcessed,
    #[error("its message stands earlier in the batch")]
    RepeatedInBatch,
    #[error("it has no budget: {0}")]
    Budget(BudgetFault),
    #[error("the block has no units left for it")]
    BlockUnits,
    #[error("one of its writable keys has no units left for it")]
    KeyUnits,
}

/// The position of a transaction that does not run, and why.
#[derive(Clone, Copy, PartialEq, Eq)]
pub struct Refused {
    pub position: u32,
    pub cause: Refusal,
}
