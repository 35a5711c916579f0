//! From bytes to a snapshot.
ghost use Rattle.std.specs.Prelude.{Ok, IfOk};
ghost use Rattle.spec_base.specs.Reading.{Gives};
ghost use Rattle.snapshot_codec.specs.declared.snapshot.Prefix.{Prefix as PrefixValue};
ghost use Rattle.snapshot_codec.specs.Snapshot.{BeginsWith};
ghost use Rattle.snapshot_codec.specs.SnapshotReading.{is_snapshot_memory, snapshot_at, prefix_of};

use crate::accounts::read_state;
use crate::fault::SnapshotFault;
use crate::head::read_head;
use crate::marks::read_recent;
use crate::snapshot::{Prefix, Snapshot};
use spec_base::place;
use std::alloc::Global;

#[tactic(auto, unfolding(crate::specs::SnapshotReading::snapshot_at))]
fn read_fields(
    alloc: Global,
    total: usize,
    bytes: &[u8],
) -> Result<(Snapshot, &[u8]), SnapshotFault>
    ensures { Gives is_snapshot_memory (λ x. (x.0, x.1.now)) result (snapshot_at total bytes.now) }
{
    let ((slot, limits), rest) = read_head(total, bytes)?;
    let (recent, rest) = read_recent(alloc, total, rest)?;
    let (accounts, rest) = read_state(alloc, total, rest)?;
    let snapshot = Snapshot {
        slot,
        limits,
        recent,
        accounts,
    };
    Ok((snapshot, rest))
}

#[tactic(auto, unfolding(crate::specs::SnapshotReading::prefix_of))]
fn read_prefix(alloc: Global, bytes: &[u8]) -> Result<Prefix, SnapshotFault>
    ensures { Gives is_snapshot_memory (λ prefix. prefix) result (prefix_of bytes.now) }
{
    let total = bytes.len();
    let (snapshot, rest) = read_fields(alloc, total, bytes)?;
    let length = place(total, rest);
    Ok(Prefix { snapshot, length })
}

/// The snapshot that the bytes begin with, and how many of them it takes (the project's own
/// format). Other bytes may follow it.
///
/// Version 1 is read too: it stands for the first limits. The refusals come in the order of the
/// fields.
pub fn read_snapshot(alloc: Global, bytes: &[u8]) -> Result<Prefix, SnapshotFault>
    // What is read is spelled so.
    ensures found { IfOk result (λ prefix. BeginsWith bytes.now prefix) }
    // What is spelled so is read, unless memory runs out.
    ensures only { (prefix : PrefixValue) → BeginsWith bytes.now prefix →
        Gives is_snapshot_memory (λ v. v) result (Ok prefix) }
    // Which refusal it is.
    ensures exact { Gives is_snapshot_memory (λ v. v) result (prefix_of bytes.now) }
{
    read_prefix(alloc, bytes)
}
