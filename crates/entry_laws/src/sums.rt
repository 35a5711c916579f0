//! What entries come to together.
ghost use Rattle.entry_laws.specs.Sums.{FeesAreShared, UnitsAreWithinLimits};

/// A law: what a block burns and what it collects are together the fees of its entries.
pub fn fees_are_shared()
    ensures shared { FeesAreShared }
{}

/// A law: the units of the entries are together within the limit of a block, and those of the
/// entries that may write a key within the limit of a key.
pub fn units_are_within_limits()
    ensures within { UnitsAreWithinLimits }
{}
