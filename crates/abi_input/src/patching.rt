//! The accounts are written over a region.
ghost use Rattle.std.specs.Prelude.{◌≡◌, ◌+◌, ◌<◌, ◌≤◌, ◌++◌, ◌&&◌, ◌^◌, length, slice_get, take, drop, IfErr, IfOk, OnErr, OnOk, Ok, Some, None};
ghost use Rattle.std.specs.Arc.{arc_value};
ghost use Rattle.std.specs.List.{enumerate_from, flat_map};
ghost use Rattle.sol_base.specs.declared.account.Account.{Account as AccountValue};
ghost use Rattle.sol_base.specs.Accounts.{accounts_of};
ghost use Rattle.sol_base.specs.Metas.{AreInRange, is_first_listing};
ghost use Rattle.abi_input.specs.Region.{entry_size, entry_start, first_size, is_outgrown, lent_entry, lent_in, lent_of, max_metas, over_entry, patched, patched_entry, room_of, IsRegionOf};
ghost use Rattle.abi_input.specs.Entries.{found_among};
ghost use Rattle.abi_input.specs.Answers.{Patches, RefusesPatch};

use crate::draft::Draft;
use crate::entry::{
    DATA_AT, FIRST_ENTRY, LAST_LEN, OWNER_AT, REPEATED_LEN, add_state, padding_for, room_for,
};
use crate::fault::PatchFault;
use crate::laying::parts_for;
use crate::region::{LaidOut, account_of};
use data_parts::Parts;
use sol_base::{Account, Meta, OutOfMemory};
use std::alloc::Global;
use std::sync::Arc;

/// How many bytes are copied at once.
const PIECE_LEN: usize = 512;

/// Writes the accounts `now` over the region that was laid out from `start`. Their data are lent,
/// and not copied.
pub fn patch(
    alloc: Global,
    region: &mut Parts,
    start: &[Arc<Account>],
    now: &[Arc<Account>],
    metas: &[Meta],
) -> Result<(), PatchFault>
    requires count { length (accounts_of now.now) ≡ length (accounts_of start.now) }
    requires most { length metas.now ≤ max_metas }
    requires range { AreInRange (length (accounts_of start.now)) metas.now }
    requires region { IsRegionOf (accounts_of start.now) metas.now region.old.bytes }
    ensures answer { Patches
        (patched region.old.bytes (accounts_of start.now) (accounts_of now.now) metas.now)
        region.old.bytes region.new.bytes result }
    ensures lent { OnOk result
        (region.new.lent ≡ lent_in (accounts_of start.now) (accounts_of now.now) metas.now) }
    ensures kept { OnErr result (region.new.lent ≡ region.old.lent) }
    ensures size { length region.new.bytes ≡ length region.old.bytes }
{
    let laid = LaidOut::of(region, start, metas);
    check_rooms(&laid, now)?;
    let next = patched_region(alloc, &laid, now)?;
    *region = next;
    Ok(())
}

/// No account has outgrown its place in the region.
fn check_rooms(laid: &LaidOut<'_>, now: &[Arc<Account>]) -> Result<(), PatchFault>
    requires count { length (accounts_of now.now) ≡ length (accounts_of laid.now.start.now) }
    ensures ok { OnOk result
        (found_among (is_outgrown (accounts_of laid.now.start.now) (accounts_of now.now))
        laid.now.listings.metas.now (length laid.now.listings.metas.now) ≡ None) }
    ensures err { IfErr result
        (RefusesPatch
        (found_among (is_outgrown (accounts_of laid.now.start.now) (accounts_of now.now))
        laid.now.listings.metas.now (length laid.now.listings.metas.now))) }
{
    for (place, meta) in laid.listings.metas.iter().enumerate() {
        if outgrows(laid, now, place, meta) {
            return Err(PatchFault::LengthTooLarge { i: place as u8 });
        }
    }
    Ok(())
}

/// The meta is the first listing of an account that has outgrown its place.
fn outgrows(laid: &LaidOut<'_>, now: &[Arc<Account>], place: usize, meta: &Meta) -> bool
    requires count { length (accounts_of now.now) ≡ length (accounts_of laid.now.start.now) }
    requires there { slice_get laid.now.listings.metas.now place ≡ Some meta.now }
    ensures { result ≡ (is_first_listing laid.now.listings.metas.now (place, meta.now)
        && is_outgrown (accounts_of laid.now.start.now) (accounts_of now.now)
        (place, meta.now)) }
{
    if !laid.listings.is_first(place, meta) {
        return false;
    }
    let start: &Account = account_of(laid.start, meta);
    let now: &Account = account_of(now, meta);
    now.bytes.len() > room_for(start)
}

/// The region with the states of the accounts written over it.
fn patched_region(
    alloc: Global,
    laid: &LaidOut<'_>,
    now: &[Arc<Account>],
) -> Result<Parts, OutOfMemory>
    requires count { length (accounts_of now.now) ≡ length (accounts_of laid.now.start.now) }
    requires rooms { found_among (is_outgrown (accounts_of laid.now.start.now) (accounts_of now.now))
        laid.now.listings.metas.now (length laid.now.listings.metas.now) ≡ None }
    ensures bytes { IfOk result
        (λ next. patched laid.now.region.now.bytes (accounts_of laid.now.start.now)
        (accounts_of now.now) laid.now.listings.metas.now ≡ Ok next.bytes) }
    ensures lent { IfOk result
        (λ next. next.lent
        ≡ lent_in (accounts_of laid.now.start.now) (accounts_of now.now)
        laid.now.listings.metas.now) }
    ensures size { IfOk result
        (λ next. length next.bytes ≡ length laid.now.region.now.bytes) }
{
    let mut draft = Draft::new(alloc, parts_for(laid.listings.metas))?;
    copy(&mut draft, laid.region, 0, FIRST_ENTRY)?;
    let end = patch_entries(&mut draft, laid, now)?;
    copy(&mut draft, laid.region, end, laid.region.len() - end)?;
    draft.finish()
}

/// Adds all entries, the states of the accounts written over them. Returns where they end.
fn patch_entries(
    draft: &mut Draft,
    laid: &LaidOut<'_>,
    now: &[Arc<Account>],
) -> Result<usize, OutOfMemory>
    requires count { length (accounts_of now.now) ≡ length (accounts_of laid.now.start.now) }
    requires rooms { found_among (is_outgrown (accounts_of laid.now.start.now) (accounts_of now.now))
        laid.now.listings.metas.now (length laid.now.listings.metas.now) ≡ None }
    requires start { length draft.old.bytes ≡ 8 }
    ensures bytes { OnOk result (draft.new.bytes
        ≡ draft.old.bytes ++ flat_map
        (patched_entry laid.now.region.now.bytes (accounts_of laid.now.start.now)
        (accounts_of now.now) laid.now.listings.metas.now)
        (enumerate_from 0 laid.now.listings.metas.now)) }
    ensures lent { OnOk result (draft.new.lent
        ≡ draft.old.lent
        ++ lent_in (accounts_of laid.now.start.now) (accounts_of now.now)
        laid.now.listings.metas.now) }
    ensures size { OnOk result (length draft.new.bytes
        ≡ entry_start (accounts_of laid.now.start.now) laid.now.listings.metas.now
        (length laid.now.listings.metas.now)) }
    ensures end { IfOk result
        (λ end. end
        ≡ entry_start (accounts_of laid.now.start.now) laid.now.listings.metas.now
        (length laid.now.listings.metas.now)) }
{
    let mut entry = FIRST_ENTRY;
    for (place, meta) in laid.listings.metas.iter().enumerate() {
        patch_entry(draft, laid, now, place, meta, entry)?;
        entry += laid.entry_len(place, meta);
    }
    Ok(entry)
}

/// Adds what the region has of a meta, whose entry starts at `entry`, the state of the account
/// written over it.
fn patch_entry(
    draft: &mut Draft,
    laid: &LaidOut<'_>,
    now: &[Arc<Account>],
    place: usize,
    meta: &Meta,
    entry: usize,
) -> Result<(), OutOfMemory>
    requires count { length (accounts_of now.now) ≡ length (accounts_of laid.now.start.now) }
    requires there { slice_get laid.now.listings.metas.now place ≡ Some meta.now }
    requires rooms { found_among (is_outgrown (accounts_of laid.now.start.now) (accounts_of now.now))
        laid.now.listings.metas.now (length laid.now.listings.metas.now) ≡ None }
    requires entry { entry
        ≡ entry_start (accounts_of laid.now.start.now) laid.now.listings.metas.now place }
    requires start { length draft.old.bytes ≡ entry }
    ensures bytes { OnOk result (draft.new.bytes
        ≡ draft.old.bytes
        ++ patched_entry laid.now.region.now.bytes (accounts_of laid.now.start.now)
        (accounts_of now.now) laid.now.listings.metas.now (place, meta.now)) }
    ensures lent { OnOk result (draft.new.lent
        ≡ draft.old.lent
        ++ lent_entry (accounts_of laid.now.start.now) (accounts_of now.now)
        laid.now.listings.metas.now (place, meta.now)) }
    ensures size { OnOk result (length draft.new.bytes
        ≡ length draft.old.bytes
        + entry_size (accounts_of laid.now.start.now) laid.now.listings.metas.now
        (place, meta.now)) }
{
    if laid.listings.is_first(place, meta) {
        let start = account_of(laid.start, meta);
        patch_first(draft, laid.region, entry, start, account_of(now, meta))
    } else {
        copy(draft, laid.region, entry, REPEATED_LEN)
    }
}

/// Adds an entry, the state of the account written over it.
fn patch_first(
    draft: &mut Draft,
    region: &Parts,
    entry: usize,
    start: &Account,
    now: &Arc<Account>,
) -> Result<(), OutOfMemory>
    requires within { entry + first_size start.now ≤ length region.now.bytes }
    requires most { length region.now.bytes < 2 ^ 32 }
    requires room { let value : AccountValue = arc_value now.now in
        length value.bytes ≤ room_of start.now }
    ensures bytes { OnOk result (draft.new.bytes
        ≡ draft.old.bytes ++ over_entry start.now (arc_value now.now)
        (take (first_size start.now) (drop entry region.now.bytes))) }
    ensures lent { OnOk result (draft.new.lent
        ≡ draft.old.lent ++ lent_of (length draft.old.bytes + 88) (arc_value now.now)) }
    ensures size { OnOk result (length draft.new.bytes
        ≡ length draft.old.bytes + first_size start.now) }
{
    let room = room_for(start);
    copy(draft, region, entry, OWNER_AT)?;
    add_state(draft, room, now)?;
    copy(
        draft,
        region,
        entry + DATA_AT + room,
        padding_for(start) + LAST_LEN,
    )
}

/// Adds a copy of bytes of the region.
fn copy(draft: &mut Draft, region: &Parts, at: usize, len: usize) -> Result<(), OutOfMemory>
    requires within { at + len ≤ length region.now.bytes }
    requires most { length region.now.bytes < 2 ^ 32 }
    ensures bytes { OnOk result (draft.new.bytes
        ≡ draft.old.bytes ++ take len (drop at region.now.bytes)) }
    ensures lent { draft.new.lent ≡ draft.old.lent }
    ensures size { OnOk result (length draft.new.bytes ≡ length draft.old.bytes + len) }
{
    let mut piece = [0; PIECE_LEN];
    let mut done = 0;
    while done < len {
        let count = PIECE_LEN.min(len - done);
        let part = &mut piece[..count];
        region.read(at + done, part);
        draft.append(part)?;
        done += count;
    }
    Ok(())
}
