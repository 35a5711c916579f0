//! Comparing a record with what its entries give when they run again.
ghost use Rattle.std.specs.Prelude.{◌≡◌, ◌<◌, ◌≤◌, ℕ, length, All, drop, slice_get, IfOk};
ghost use Rattle.sol_base.specs.Limits.{max_transactions};
ghost use Rattle.block_record.specs.Record.{AreCountable, IsCounted};
ghost use Rattle.block_record.specs.Replays.{IsReplayOf};
ghost use Rattle.block_replay.specs.Verdict.{differences, entries_differences, entry_differences, head_differences, in_hash, in_lines, in_number, in_status, of_block, refused_entry, same_bytes, same_lines, tail_differences, verdict};
ghost use Rattle.block_replay.specs.declared.verdict.Verdict.TheVariants.{Differ};

use crate::verdict::{Field, Verdict};
use block_record::{Block, Entry, Listed, lines_bytes};
use sol_base::{Blob, Hash32, OutOfMemory};
use std::alloc::Global;
use tx_report::status_bytes;

/// What is in the place of an entry where the block's own fields differ.
pub const OF_BLOCK: u32 = u32::MAX;

/// Compares a record with what its entries give when they run again, over a snapshot of this slot
/// whose newest block has this hash. The answer is the first difference in the order of the record;
/// values are in it as they are in a record (the project's own).
#[tactic(auto, unfolding(crate::specs::Verdict::verdict))]
pub fn compare(
    alloc: Global,
    slot: u64,
    newest: &Hash32,
    given: &Block,
    listed: &Listed,
) -> Result<Verdict, OutOfMemory>
    requires given { IsCounted given.now }
    requires replayed { IsCounted listed.now.block }
    requires cut { IsReplayOf given.now listed.now }
    ensures { IfOk result (λ answer. answer ≡ verdict slot newest.now given.now listed.now) }
{
    let difference = first_difference(alloc, slot, newest, given, &listed.block)?;
    Ok(difference.unwrap_or(Verdict::Match))
}

fn first_difference(
    alloc: Global,
    slot: u64,
    newest: &Hash32,
    given: &Block,
    replayed: &Block,
) -> Result<Option<Verdict>, OutOfMemory>
    requires given { IsCounted given.now }
    requires replayed { IsCounted replayed.now }
    requires cut { length replayed.now.entries ≤ length given.now.entries }
    ensures { IfOk result
        (λ answer. answer ≡ slice_get (differences slot newest.now given.now replayed.now) 0) }
{
    if let Some(difference) = compare_heads(alloc, slot, newest, given)? {
        return Ok(Some(difference));
    }
    let entries = given.entries.as_slice();
    let again = replayed.entries.as_slice();
    if let Some(difference) = compare_entries(alloc, entries, again)? {
        return Ok(Some(difference));
    }
    if let Some(difference) = find_refused(alloc, again.len(), entries)? {
        return Ok(Some(difference));
    }
    compare_tails(alloc, given, replayed)
}

/// What is before the entries.
fn compare_heads(
    alloc: Global,
    slot: u64,
    newest: &Hash32,
    given: &Block,
) -> Result<Option<Verdict>, OutOfMemory>
    ensures { IfOk result
        (λ answer. answer ≡ slice_get (head_differences slot newest.now given.now) 0) }
{
    if given.slot <= slot {
        let (expected, found) = (slot.to_le_bytes(), given.slot.to_le_bytes());
        return Ok(Some(differ(alloc, OF_BLOCK, Field::Slot, &expected, &found)?));
    }
    compare_hashes(alloc, Field::Previous, newest, &given.previous)
}

/// The entries that ran, one after the other.
fn compare_entries(
    alloc: Global,
    given: &[Entry],
    replayed: &[Entry],
) -> Result<Option<Verdict>, OutOfMemory>
    requires few { length given.now ≤ max_transactions }
    requires cut { length replayed.now ≤ length given.now }
    requires given { All (λ entry. AreCountable entry.lines) given.now }
    requires replayed { All (λ entry. AreCountable entry.lines) replayed.now }
    ensures { IfOk result
        (λ answer. answer ≡ slice_get (entries_differences given.now replayed.now) 0) }
{
    for place in 0..replayed.len() {
        let entry = place as u32;
        if let Some(difference) = compare_entry(alloc, entry, &given[place], &replayed[place])? {
            return Ok(Some(difference));
        }
    }
    Ok(None)
}

fn compare_entry(
    alloc: Global,
    place: u32,
    given: &Entry,
    replayed: &Entry,
) -> Result<Option<Verdict>, OutOfMemory>
    requires given { AreCountable given.now.lines }
    requires replayed { AreCountable replayed.now.lines }
    ensures { IfOk result
        (λ answer. answer ≡ slice_get (entry_differences (place, (given.now, replayed.now))) 0) }
{
    if let Some(difference) = compare_statuses(alloc, place, given, replayed)? {
        return Ok(Some(difference));
    }
    let units = (replayed.units, given.units);
    if let Some(difference) = compare_numbers(alloc, place, Field::Units, units.0, units.1)? {
        return Ok(Some(difference));
    }
    if let Some(difference) = compare_numbers(alloc, place, Field::Fee, replayed.fee, given.fee)? {
        return Ok(Some(difference));
    }
    compare_lines(alloc, place, given, replayed)
}

/// The first entry that did not run, since it is not admitted.
fn find_refused(
    alloc: Global,
    place: usize,
    given: &[Entry],
) -> Result<Option<Verdict>, OutOfMemory>
    requires few { length given.now ≤ max_transactions }
    ensures { IfOk result
        (λ answer. answer ≡ slice_get (refused_entry place (drop place given.now)) 0) }
{
    match given.get(place) {
        None => Ok(None),
        Some(entry) => {
            let refused = differ(
                alloc,
                place as u32,
                Field::Admission,
                &[],
                entry.wire.as_slice(),
            )?;
            Ok(Some(refused))
        }
    }
}

/// What is behind the entries.
fn compare_tails(
    alloc: Global,
    given: &Block,
    replayed: &Block,
) -> Result<Option<Verdict>, OutOfMemory>
    ensures { IfOk result
        (λ answer. answer ≡ slice_get (tail_differences given.now replayed.now) 0) }
{
    let burned = (replayed.burned, given.burned);
    if let Some(difference) = compare_numbers(alloc, OF_BLOCK, Field::Burned, burned.0, burned.1)? {
        return Ok(Some(difference));
    }
    let paid = (replayed.collected, given.collected);
    if let Some(difference) = compare_numbers(alloc, OF_BLOCK, Field::Collected, paid.0, paid.1)? {
        return Ok(Some(difference));
    }
    if let Some(difference) = compare_hashes(alloc, Field::State, &replayed.state, &given.state)? {
        return Ok(Some(difference));
    }
    compare_hashes(alloc, Field::Hash, &replayed.hash, &given.hash)
}

fn compare_statuses(
    alloc: Global,
    place: u32,
    given: &Entry,
    replayed: &Entry,
) -> Result<Option<Verdict>, OutOfMemory>
    ensures { IfOk result
        (λ answer. answer ≡ slice_get (in_status place given.now replayed.now) 0) }
{
    let expected = status_bytes(&replayed.status);
    let found = status_bytes(&given.status);
    if expected == found {
        return Ok(None);
    }
    Ok(Some(differ(alloc, place, Field::Status, &expected, &found)?))
}

fn compare_lines(
    alloc: Global,
    place: u32,
    given: &Entry,
    replayed: &Entry,
) -> Result<Option<Verdict>, OutOfMemory>
    requires given { AreCountable given.now.lines }
    requires replayed { AreCountable replayed.now.lines }
    ensures { IfOk result (λ answer. answer ≡ slice_get (in_lines place given.now replayed.now) 0) }
{
    if have_same_lines(replayed.lines.as_slice(), given.lines.as_slice()) {
        return Ok(None);
    }
    let expected = lines_bytes(alloc, &replayed.lines)?;
    let found = lines_bytes(alloc, &given.lines)?;
    Ok(Some(Verdict::Differ {
        entry: place,
        field: Field::Lines,
        expected,
        found,
    }))
}

fn have_same_lines(expected: &[Blob], found: &[Blob]) -> bool
    ensures { result ≡ same_lines expected.now found.now }
{
    if expected.len() != found.len() {
        return false;
    }
    for (place, line) in expected.iter().enumerate() {
        if !is_same_line(line, &found[place]) {
            return false;
        }
    }
    true
}

fn is_same_line(expected: &Blob, found: &Blob) -> bool
    ensures { result ≡ same_bytes expected.now found.now }
{
    expected.as_slice() == found.as_slice()
}

fn compare_numbers(
    alloc: Global,
    entry: u32,
    field: Field,
    expected: u64,
    found: u64,
) -> Result<Option<Verdict>, OutOfMemory>
    ensures { IfOk result (λ answer. answer ≡ slice_get (in_number entry field expected found) 0) }
{
    if expected == found {
        return Ok(None);
    }
    let (expected, found) = (expected.to_le_bytes(), found.to_le_bytes());
    Ok(Some(differ(alloc, entry, field, &expected, &found)?))
}

fn compare_hashes(
    alloc: Global,
    field: Field,
    expected: &Hash32,
    found: &Hash32,
) -> Result<Option<Verdict>, OutOfMemory>
    ensures { IfOk result
        (λ answer. answer ≡ slice_get (in_hash of_block field expected.now found.now) 0) }
{
    if expected == found {
        return Ok(None);
    }
    Ok(Some(differ(alloc, OF_BLOCK, field, &expected.0, &found.0)?))
}

fn differ(
    alloc: Global,
    entry: u32,
    field: Field,
    expected: &[u8],
    found: &[u8],
) -> Result<Verdict, OutOfMemory>
    ensures { IfOk result (λ answer. answer ≡ Differ entry field expected.now found.now) }
{
    Ok(Verdict::Differ {
        entry,
        field,
        expected: Blob::from_slice(alloc, expected)?,
        found: Blob::from_slice(alloc, found)?,
    })
}
