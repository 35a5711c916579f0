//! How a frame ends, and what it calls.

use crate::accounts::Accounts;
use crate::call::Call;
use tx_report::InstructionError;

/// How a frame ends: the units left, and the accounts or why it failed.
#[derive(Drop)]
pub struct Ending {
    pub units: u64,
    pub result: Result<Accounts, InstructionError>,
}

/// A call of another program, and the accounts that it finds.
#[derive(Drop)]
pub struct Callee {
    pub call: Call,
    pub accounts: Accounts,
}
