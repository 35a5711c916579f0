//! How two snapshots differ.
ghost use Rattle.std.specs.Prelude.{◌≡◌, ◌++◌, IfOk, OnOk, slice_get, option_map};
ghost use Rattle.std.specs.List.{flat_map};
ghost use Rattle.sol_base.specs.Keys.{hash_bytes};
ghost use Rattle.text_views.specs.Pairs.{pairs_lines};
ghost use Rattle.text_views.specs.SnapshotLines.{mark_lines, mark_pair, limits_lines, snapshot_lines};

use crate::accounts::add_accounts;
use crate::fields::{add_bytes, add_numbers, add_only_in_a, add_only_in_b, numbered};
use crate::items::{item_at, longer};
use snapshot_codec::Snapshot;
use sol_base::{Blob, Hash32, Limits, OutOfMemory};
use status_cache::Mark;
use std::alloc::Global;

/// The hashes one after the other.
fn joined(alloc: Global, names: &[Hash32]) -> Result<Blob, OutOfMemory>
    ensures { IfOk result (λ bytes. bytes ≡ flat_map hash_bytes names.now) }
{
    let mut bytes = Blob::new(alloc);
    let mut rest = names;
    while let [name, after @ ..] = rest {
        bytes.append(&name.0)?;
        rest = after;
    }
    Ok(bytes)
}

fn add_mark(
    alloc: Global,
    out: &mut Blob,
    at: usize,
    left: &Mark,
    right: &Mark,
) -> Result<(), OutOfMemory>
    ensures { OnOk result (out.new ≡ out.old ++ mark_lines at left.now right.now) }
{
    let place = numbered(alloc, b"mark ", at)?;
    let place = place.as_slice();
    let lefts = joined(alloc, left.messages.as_slice())?;
    let rights = joined(alloc, right.messages.as_slice())?;
    add_bytes(alloc, out, place, b"hash", &left.hash.0, &right.hash.0)?;
    add_bytes(
        alloc,
        out,
        place,
        b"messages",
        lefts.as_slice(),
        rights.as_slice(),
    )
}

fn add_mark_pair(
    alloc: Global,
    out: &mut Blob,
    at: usize,
    left: Option<&Mark>,
    right: Option<&Mark>,
) -> Result<(), OutOfMemory>
    ensures { OnOk result (out.new ≡ out.old ++ mark_pair at
        (option_map (λ mark. mark.now) left.entry) (option_map (λ mark. mark.now) right.entry)) }
{
    match (left, right) {
        (Some(left), Some(right)) => add_mark(alloc, out, at, left, right),
        (Some(_), None) => add_only_in_a(out, numbered(alloc, b"mark ", at)?.as_slice()),
        (None, Some(_)) => add_only_in_b(out, numbered(alloc, b"mark ", at)?.as_slice()),
        (None, None) => Ok(()),
    }
}

fn add_mark_at(
    alloc: Global,
    out: &mut Blob,
    at: usize,
    left: &[Mark],
    right: &[Mark],
) -> Result<(), OutOfMemory>
    ensures { OnOk result
        (out.new ≡ out.old ++ mark_pair at (slice_get left.now at) (slice_get right.now at)) }
{
    add_mark_pair(alloc, out, at, item_at(left, at), item_at(right, at))
}

fn add_marks(
    alloc: Global,
    out: &mut Blob,
    left: &[Mark],
    right: &[Mark],
) -> Result<(), OutOfMemory>
    ensures { OnOk result (out.new ≡ out.old ++ pairs_lines mark_pair left.now right.now) }
{
    for at in 0..longer(left.len(), right.len()) {
        add_mark_at(alloc, out, at, left, right)?;
    }
    Ok(())
}

#[tactic(auto, unfolding(crate::specs::SnapshotLines::limits_lines))]
fn add_limits(
    alloc: Global,
    out: &mut Blob,
    left: &Limits,
    right: &Limits,
) -> Result<(), OutOfMemory>
    ensures { OnOk result (out.new ≡ out.old ++ limits_lines left.now right.now) }
{
    let (keys, height) = (u64::from(left.keys), u64::from(left.height));
    add_numbers(alloc, out, b"limits", b"keys", keys, u64::from(right.keys))?;
    add_numbers(
        alloc,
        out,
        b"limits",
        b"height",
        height,
        u64::from(right.height),
    )?;
    add_numbers(
        alloc,
        out,
        b"limits",
        b"key_units",
        left.key_units,
        right.key_units,
    )?;
    add_numbers(
        alloc,
        out,
        b"limits",
        b"block_units",
        left.block_units,
        right.block_units,
    )
}

#[tactic(auto, unfolding(crate::specs::SnapshotLines::snapshot_lines))]
fn add_snapshot(
    alloc: Global,
    out: &mut Blob,
    left: &Snapshot,
    right: &Snapshot,
) -> Result<(), OutOfMemory>
    ensures { OnOk result (out.new ≡ out.old ++ snapshot_lines left.now right.now) }
{
    add_numbers(alloc, out, b"snapshot", b"slot", left.slot, right.slot)?;
    add_limits(alloc, out, &left.limits, &right.limits)?;
    add_marks(alloc, out, left.recent.marks(), right.recent.marks())?;
    add_accounts(alloc, out, &left.accounts, &right.accounts)
}

/// A line for each field and account that differs (the project's own).
pub fn snapshot_differences(
    alloc: Global,
    left: &Snapshot,
    right: &Snapshot,
) -> Result<Blob, OutOfMemory>
    ensures { IfOk result (λ text. text ≡ snapshot_lines left.now right.now) }
{
    let mut out = Blob::new(alloc);
    add_snapshot(alloc, &mut out, left, right)?;
    Ok(out)
}
