//! Why a transaction failed.
use tx_report::Cause;

/// Which instruction of a transaction failed, `WHOLE_TRANSACTION` for all of it, and why.
#[derive(Clone, Copy, PartialEq, Eq)]
pub struct Failure {
    pub index: u8,
    pub cause: Cause,
    pub detail: u32,
}
