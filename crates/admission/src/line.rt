//! The order in which transactions are in line.
ghost use Rattle.std.specs.Prelude.{◌≡◌, IfOk};
ghost use Rattle.admission.specs.Admission.{line, priority};

use crate::candidate::Candidate;
use fee_rules::priority;
use sol_base::OutOfMemory;
use std::cmp::Reverse;

/// The transactions in line: higher priority first, and those of one priority as they come.
pub(crate) fn line(mut standing: Vec<Candidate>) -> Result<Vec<Candidate>, OutOfMemory>
    ensures { IfOk result (λ found. found.items ≡ line standing.items) }
{
    standing.sort_by_cached_key(by_priority)?;
    Ok(standing)
}

/// The key of a transaction, by which a higher priority comes first.
fn by_priority(candidate: &Candidate) -> Reverse<u128>
    ensures { result.0 ≡ priority candidate.now }
{
    let chosen = candidate.chosen();
    Reverse(priority(&chosen.fee, &chosen.budget))
}
