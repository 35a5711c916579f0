//! Snapshots that are equal as values.
ghost use Rattle.answer_laws.specs.Equal.{EqualSnapshotsGiveTheSame, EqualSnapshotsReplayAlike};

/// A law: over two snapshots with the same limits, the same newest blocks and the same accounts, of
/// whatever slots, a batch comes to the same bytes of a record and of a snapshot, and the entries of
/// a record come to the same block.
pub fn equal_snapshots_give_equal_blocks()
    ensures blocks { EqualSnapshotsGiveTheSame }
    ensures again { EqualSnapshotsReplayAlike }
{}
