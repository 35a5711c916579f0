//! What `produce` writes and `replay` answers.
ghost use Rattle.answer_laws.specs.Replays.{MatchesAreBlocks, ProducedRecordsMatch};

/// A law: for every input that `produce` answers with status 0, `replay` of the snapshot and of the
/// record that was written answers `match` and the hash of the block, where both together are within
/// the limit of an input.
pub fn produced_records_match()
    ensures matches { ProducedRecordsMatch }
{}

/// A law: an input that `replay` answers with status 0 is a snapshot and the record of a block of a
/// later slot whose entries, run again over the snapshot, come to that block, statuses included.
pub fn matches_are_blocks()
    ensures blocks { MatchesAreBlocks }
{}
