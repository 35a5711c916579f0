//! The snapshot after a block.
ghost use Rattle.width_laws.specs.Widths.{SnapshotsAfterBlocksAreRead, SnapshotsAfterBlocksHaveWidths};

/// A law: where a snapshot and a batch have the widths that their types say, so has the snapshot
/// after the block: its hashes, names, keys and owners have 32 bytes each, and its slot fits in 64
/// bits.
pub fn snapshots_after_blocks_have_widths()
    ensures widths { SnapshotsAfterBlocksHaveWidths }
{}

/// A law: then the snapshot after the block is read from the bytes that spell it, whatever follows
/// them, if it has no more accounts than a snapshot may.
pub fn snapshots_after_blocks_are_read()
    ensures read { SnapshotsAfterBlocksAreRead }
{}
