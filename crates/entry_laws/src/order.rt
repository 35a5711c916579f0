//! The order of entries.
ghost use Rattle.entry_laws.specs.Order.{AllEntriesAreInOrder};

/// A law: the entries of a record are the wires of its batch that were not refused, each once. Of
/// two the earlier has the higher priority, or the same and the earlier position in the batch.
pub fn entries_are_in_order()
    ensures order { AllEntriesAreInOrder }
{}
