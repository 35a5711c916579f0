//! What `produce` wrote, as its two parts.
ghost use Rattle.std.specs.Prelude.{◌≡◌, ◌≤◌, IfOk, length};
ghost use Rattle.snapshot_codec.specs.SnapshotReading.{prefix_of};
ghost use Rattle.text_views.specs.Parts.{parts_at, parts_behind, parts_of};

use block_record::{RecordFault, read_front};
use snapshot_codec::{SnapshotFault, read_snapshot};
use sol_base::OutOfMemory;
use std::alloc::Global;

/// The parts of some bytes, or why they are no record with a snapshot after it. The place of a
/// fault of the snapshot counts from the snapshot's first byte.
#[derive(Clone, Copy, PartialEq, Eq)]
pub enum Split {
    /// The record takes so many bytes, and the snapshot the rest.
    Parts { record: usize },
    NoRecord(RecordFault),
    NoSnapshot(SnapshotFault),
    /// So many bytes follow the snapshot.
    Trailing { count: usize },
}

/// The parts of the bytes: a record, and the snapshot after it (the project's own).
#[tactic(auto, unfolding(crate::specs::Parts::parts_of))]
pub fn split_output(alloc: Global, bytes: &[u8]) -> Result<Split, OutOfMemory>
    ensures { IfOk result (λ parts. parts ≡ parts_of bytes.now) }
{
    match read_front(alloc, bytes) {
        Ok(front) => split_behind(alloc, front.length, &bytes[front.length..]),
        Err(RecordFault::OutOfMemory) => Err(OutOfMemory),
        Err(fault) => Ok(Split::NoRecord(fault)),
    }
}

/// The parts where a record takes so many bytes, and these follow.
fn split_behind(alloc: Global, front: usize, rest: &[u8]) -> Result<Split, OutOfMemory>
    ensures { IfOk result (λ parts. parts ≡ parts_behind front rest.now (prefix_of rest.now)) }
{
    match read_snapshot(alloc, rest) {
        Ok(prefix) => Ok(split_at(front, rest.len().saturating_sub(prefix.length))),
        Err(SnapshotFault::OutOfMemory) => Err(OutOfMemory),
        Err(fault) => Ok(Split::NoSnapshot(fault)),
    }
}

/// The parts where so many bytes are left.
fn split_at(front: usize, left: usize) -> Split
    ensures { result ≡ parts_at front left }
{
    if left == 0 {
        Split::Parts { record: front }
    } else {
        Split::Trailing { count: left }
    }
}
