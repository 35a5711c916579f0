//! What the readings of a snapshot, a batch and a record answer.
ghost use Rattle.answer_laws.specs.Reading.{BatchesAreReadAsSpelled, FrontsAreReadAsSpelled, RecordsAreReadAsSpelled, SnapshotsAreReadAsSpelled};

/// A law: bytes are read as a snapshot exactly where they begin with its spelling, in one of the
/// two versions.
pub fn snapshots_are_read_as_they_are_spelled()
    ensures read { SnapshotsAreReadAsSpelled }
{}

/// A law: bytes are read as a batch, after a slot, exactly where they are its spelling and it is of
/// a later slot.
pub fn batches_are_read_as_they_are_spelled()
    ensures read { BatchesAreReadAsSpelled }
{}

/// A law: bytes are read as a record exactly where they are its spelling, and as one with bytes
/// after it exactly where they begin with its spelling.
pub fn records_are_read_as_they_are_spelled()
    ensures read { RecordsAreReadAsSpelled }
    ensures front { FrontsAreReadAsSpelled }
{}
