//! Records whose verdict is Match.
ghost use Rattle.answer_laws.specs.Matching.{MatchingRecordsAreTheBlock};

/// A law: the verdict of a record is Match exactly where the record is of a later slot and is the
/// block that its entries come to, each with its status.
pub fn matching_records_are_the_block()
    ensures block { MatchingRecordsAreTheBlock }
{}
