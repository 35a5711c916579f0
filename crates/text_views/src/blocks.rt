//! How the blocks of two records differ.
ghost use Rattle.std.specs.Prelude.{◌≡◌, ◌++◌, IfOk, OnOk, slice_get, option_map};
ghost use Rattle.text_views.specs.Pairs.{pairs_lines};
ghost use Rattle.text_views.specs.BlockLines.{line_place, line_pair, entry_lines, entry_pair, block_lines};

use crate::fields::{
    add_bytes, add_numbers, add_only_in_a, add_only_in_b, add_statuses, add_texts, numbered,
};
use crate::items::{item_at, longer};
use block_record::{Block, Entry};
use sol_base::{Blob, OutOfMemory};
use std::alloc::Global;

fn line_place(alloc: Global, entry: &[u8], at: usize) -> Result<Blob, OutOfMemory>
    ensures { IfOk result (λ text. text ≡ line_place entry.now at) }
{
    let mut text = Blob::from_slice(alloc, entry)?;
    text.append(numbered(alloc, b" line ", at)?.as_slice())?;
    Ok(text)
}

fn add_line_pair(
    alloc: Global,
    out: &mut Blob,
    entry: &[u8],
    at: usize,
    left: Option<&Blob>,
    right: Option<&Blob>,
) -> Result<(), OutOfMemory>
    ensures { OnOk result (out.new ≡ out.old ++ line_pair entry.now at
        (option_map (λ line. line.now) left.entry) (option_map (λ line. line.now) right.entry)) }
{
    let place = line_place(alloc, entry, at)?;
    let place = place.as_slice();
    match (left, right) {
        (Some(left), Some(right)) => {
            add_texts(out, place, b"text", left.as_slice(), right.as_slice())
        }
        (Some(_), None) => add_only_in_a(out, place),
        (None, Some(_)) => add_only_in_b(out, place),
        (None, None) => Ok(()),
    }
}

fn add_line_at(
    alloc: Global,
    out: &mut Blob,
    entry: &[u8],
    at: usize,
    left: &[Blob],
    right: &[Blob],
) -> Result<(), OutOfMemory>
    ensures { OnOk result (out.new ≡ out.old
        ++ line_pair entry.now at (slice_get left.now at) (slice_get right.now at)) }
{
    add_line_pair(alloc, out, entry, at, item_at(left, at), item_at(right, at))
}

fn add_lines(
    alloc: Global,
    out: &mut Blob,
    entry: &[u8],
    left: &[Blob],
    right: &[Blob],
) -> Result<(), OutOfMemory>
    ensures { OnOk result
        (out.new ≡ out.old ++ pairs_lines (line_pair entry.now) left.now right.now) }
{
    for at in 0..longer(left.len(), right.len()) {
        add_line_at(alloc, out, entry, at, left, right)?;
    }
    Ok(())
}

#[tactic(auto, unfolding(crate::specs::BlockLines::entry_lines))]
fn add_entry(
    alloc: Global,
    out: &mut Blob,
    at: usize,
    left: &Entry,
    right: &Entry,
) -> Result<(), OutOfMemory>
    ensures { OnOk result (out.new ≡ out.old ++ entry_lines at left.now right.now) }
{
    let place = numbered(alloc, b"entry ", at)?;
    let place = place.as_slice();
    let (lefts, rights) = (left.wire.as_slice(), right.wire.as_slice());
    add_bytes(alloc, out, place, b"transaction", lefts, rights)?;
    add_statuses(alloc, out, place, &left.status, &right.status)?;
    add_numbers(alloc, out, place, b"units", left.units, right.units)?;
    add_numbers(alloc, out, place, b"fee", left.fee, right.fee)?;
    add_lines(
        alloc,
        out,
        place,
        left.lines.as_slice(),
        right.lines.as_slice(),
    )
}

fn add_entry_pair(
    alloc: Global,
    out: &mut Blob,
    at: usize,
    left: Option<&Entry>,
    right: Option<&Entry>,
) -> Result<(), OutOfMemory>
    ensures { OnOk result (out.new ≡ out.old ++ entry_pair at
        (option_map (λ entry. entry.now) left.entry) (option_map (λ entry. entry.now) right.entry)) }
{
    match (left, right) {
        (Some(left), Some(right)) => add_entry(alloc, out, at, left, right),
        (Some(_), None) => add_only_in_a(out, numbered(alloc, b"entry ", at)?.as_slice()),
        (None, Some(_)) => add_only_in_b(out, numbered(alloc, b"entry ", at)?.as_slice()),
        (None, None) => Ok(()),
    }
}

fn add_entry_at(
    alloc: Global,
    out: &mut Blob,
    at: usize,
    left: &[Entry],
    right: &[Entry],
) -> Result<(), OutOfMemory>
    ensures { OnOk result
        (out.new ≡ out.old ++ entry_pair at (slice_get left.now at) (slice_get right.now at)) }
{
    add_entry_pair(alloc, out, at, item_at(left, at), item_at(right, at))
}

fn add_entries(
    alloc: Global,
    out: &mut Blob,
    left: &[Entry],
    right: &[Entry],
) -> Result<(), OutOfMemory>
    ensures { OnOk result (out.new ≡ out.old ++ pairs_lines entry_pair left.now right.now) }
{
    for at in 0..longer(left.len(), right.len()) {
        add_entry_at(alloc, out, at, left, right)?;
    }
    Ok(())
}

#[tactic(auto, unfolding(crate::specs::BlockLines::block_lines))]
fn add_block(alloc: Global, out: &mut Blob, left: &Block, right: &Block) -> Result<(), OutOfMemory>
    ensures { OnOk result (out.new ≡ out.old ++ block_lines left.now right.now) }
{
    add_numbers(alloc, out, b"block", b"slot", left.slot, right.slot)?;
    add_bytes(
        alloc,
        out,
        b"block",
        b"collector",
        &left.collector.0,
        &right.collector.0,
    )?;
    add_bytes(
        alloc,
        out,
        b"block",
        b"previous",
        &left.previous.0,
        &right.previous.0,
    )?;
    add_entries(
        alloc,
        out,
        left.entries.as_slice(),
        right.entries.as_slice(),
    )?;
    add_numbers(alloc, out, b"block", b"burned", left.burned, right.burned)?;
    add_numbers(
        alloc,
        out,
        b"block",
        b"collected",
        left.collected,
        right.collected,
    )?;
    add_bytes(
        alloc,
        out,
        b"block",
        b"state",
        &left.state.0,
        &right.state.0,
    )?;
    add_bytes(alloc, out, b"block", b"hash", &left.hash.0, &right.hash.0)
}

/// A line for each field and entry that differs (the project's own).
pub fn block_differences(alloc: Global, left: &Block, right: &Block) -> Result<Blob, OutOfMemory>
    ensures { IfOk result (λ text. text ≡ block_lines left.now right.now) }
{
    let mut out = Blob::new(alloc);
    add_block(alloc, &mut out, left, right)?;
    Ok(out)
}
