//! The names of the messages that a block processed.
ghost use Rattle.std.specs.Prelude.{◌≡◌, IfOk, length};
ghost use Rattle.block_end.specs.Blocks.{ascending, processed_by, processed_in};

use admission::Candidate;
use bank_core::SharedOutcome;
use sol_base::{Hash32, Items, OutOfMemory};
use std::alloc::Global;
use tx_report::Status;

/// The name, unless the transaction was dropped.
fn processed_by(name: Hash32, status: &Status) -> Option<Hash32>
    ensures { result ≡ processed_by name status.now }
{
    match status {
        Status::Good | Status::Failed { .. } => Some(name),
        Status::Dropped { .. } => None,
    }
}

/// The names of those that were not dropped, in their order.
pub(crate) fn processed_in(
    alloc: Global,
    order: &[Candidate],
    outcomes: &[SharedOutcome],
) -> Result<Vec<Hash32>, OutOfMemory>
    requires { length outcomes.now ≡ length order.now }
    ensures { IfOk result (λ names. names.items ≡ processed_in order.now outcomes.now) }
{
    let mut names = Vec::with_capacity(alloc, order.len())?;
    for (at, one) in order.iter().enumerate() {
        if let Some(name) = processed_by(one.chosen().name, &outcomes[at].value().status) {
            names.push(name)?;
        }
    }
    Ok(names)
}

/// The names in ascending order, each once.
pub(crate) fn ascending(mut names: Vec<Hash32>) -> Items<Hash32>
    ensures { result ≡ ascending names.items }
{
    names.sort_unstable();
    names.dedup();
    Items::from_vec(names)
}
