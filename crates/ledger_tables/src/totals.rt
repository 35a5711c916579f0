//! What the transactions of a block come to together.
ghost use Rattle.std.specs.Prelude.{◌≡◌, ◌≤◌, ◌<◌, ◌^◌, count_by, length, sum_by};
ghost use Rattle.sol_base.specs.Limits.{max_transactions};
ghost use Rattle.ledger_tables.specs.Totals.{is_unsuccessful, totals_of};

use block_record::{Block, Entry};
use tx_report::Status;

/// What the transactions of a block come to together.
#[derive(Clone, Copy, PartialEq, Eq)]
pub struct BlockTotals {
    pub transactions: u64,
    /// Those whose status is not Ok.
    pub failed: u64,
    pub units: u128,
    /// In lamports.
    pub fees: u128,
}

fn is_unsuccessful(status: &Status) -> bool
    ensures { result ≡ is_unsuccessful status.now }
{
    match status {
        Status::Good => false,
        Status::Failed { .. } => true,
        Status::Dropped { .. } => true,
    }
}

fn failed(entries: &[Entry]) -> usize
    ensures { result ≡ count_by (λ entry. is_unsuccessful entry.status) entries.now }
{
    entries
        .iter()
        .filter(|entry| is_unsuccessful(&entry.status))
        .count()
}

fn units(entries: &[Entry]) -> u128
    requires { length entries.now ≤ max_transactions }
    ensures { result ≡ sum_by (λ entry. entry.units) entries.now }
{
    let mut sum = 0u128;
    for entry in entries {
        sum += u128::from(entry.units);
    }
    sum
}

fn fees(entries: &[Entry]) -> u128
    requires { length entries.now ≤ max_transactions }
    ensures { result ≡ sum_by (λ entry. entry.fee) entries.now }
{
    let mut sum = 0u128;
    for entry in entries {
        sum += u128::from(entry.fee);
    }
    sum
}

/// The totals of a block.
pub fn totals_of(block: &Block) -> BlockTotals
    requires { length block.now.entries ≤ max_transactions }
    ensures { result ≡ totals_of block.now }
{
    let entries = block.entries.as_slice();
    BlockTotals {
        transactions: entries.len() as u64,
        failed: failed(entries) as u64,
        units: units(entries),
        fees: fees(entries),
    }
}
