//! Laws over the definitions that the contracts of this crate cite. Their calls do nothing.
ghost use Rattle.std.specs.Prelude.{◌≡◌, codes};
ghost use Rattle.snapshot_codec.specs.Laws.{SnapshotRoundTrip, FirstVersionRead, ReadableWritten, BatchRoundTrip};

use crate::accounts::MAX_ACCOUNTS;
use crate::batch::{BATCH_HEAD_LEN, BATCH_MAGIC, WIRE_LENGTH_LEN};

/// The most accounts of a snapshot, and the layout of a batch (the project's own).
pub fn numbers_are_as_stated()
    ensures accounts { MAX_ACCOUNTS ≡ 4_194_304 }
    ensures magic { BATCH_MAGIC ≡ codes "SOLBATC1" }
    ensures head { BATCH_HEAD_LEN ≡ 52 }
    ensures length { WIRE_LENGTH_LEN ≡ 2 }
{}

/// What `snapshot_bytes` writes is read again, whatever follows it, where the snapshot is within
/// the limits of its format.
pub fn written_snapshots_are_read()
    ensures read { SnapshotRoundTrip }
{}

/// A snapshot in version 1 is read too, where it has the first limits.
pub fn first_version_is_read()
    ensures read { FirstVersionRead }
{}

/// A snapshot that is within the limits of its format may be written.
pub fn readable_snapshots_are_writable()
    ensures writable { ReadableWritten }
{}

/// What `batch_bytes` writes is read again, for a block after an earlier slot.
pub fn written_batches_are_read()
    ensures read { BatchRoundTrip }
{}
