//! What is counted along a chain of transactions.
ghost use Rattle.std.specs.Prelude.{◌≡◌};
ghost use Rattle.block_shape.specs.Starts.{length_by};

use admission::Chosen;

/// What is counted along a chain of transactions, each of which waits for the one before it.
#[derive(Clone, Copy, PartialEq, Eq)]
pub enum Measure {
    /// The compute units that each asks for.
    Units,
    /// The transactions.
    Transactions,
}

/// What a transaction counts.
pub(crate) fn length_by(measure: Measure, chosen: &Chosen) -> u32
    ensures { result ≡ length_by measure chosen.now }
{
    match measure {
        Measure::Units => chosen.budget.limit,
        Measure::Transactions => 1,
    }
}
