//! What `produce` writes, as the next `produce` reads it.
ghost use Rattle.width_laws.specs.Produced.{ProducedSnapshotsAreRead};

/// A law: for every input that `produce` answers with status 0, the snapshot that was written is
/// read as itself from its bytes, whatever follows them, and the next `produce` runs over it, if it
/// has no more accounts than a snapshot may.
pub fn produced_snapshots_are_read()
    ensures chained { ProducedSnapshotsAreRead }
{}
