//! What a frame's region has of an account.
ghost use Rattle.std.specs.Prelude.{◌≡◌, ◌≤◌};
ghost use Rattle.sol_base.specs.Metas.{is_listed};
ghost use Rattle.trace_run.specs.Listings.{is_first_at};

use crate::notes::Began;
use data_parts::Parts;
use invoke_engine::Frame;
use sol_base::{Account, Key, Meta, OutOfMemory};
use std::alloc::Global;
use std::sync::Arc;
use tx_report::Cause;

/// The bytes of the number of listings, before the first entry.
const COUNT_LEN: usize = 8;

/// The bytes before the data in the entry of an account.
const DATA_AT: usize = 88;

/// The bytes of room behind the data, and of the rent epoch at the end of an entry.
const ROOM: usize = 10_240 + 8;

/// The bytes of the entry of an account that was listed before.
const REPEATED_LEN: usize = 8;

/// The first byte that differs, and what it was and is.
#[derive(Clone, Copy, PartialEq, Eq)]
pub struct Difference {
    pub at: usize,
    pub was: u8,
    pub is: u8,
}

/// What a frame's region has of an account, beside what the account was.
#[derive(Clone, Copy, PartialEq, Eq)]
pub struct Found {
    pub lamports: u64,
    pub owner: Key,
    pub len: u64,
    pub differs: Option<Difference>,
}

/// Whether the detail of a cause is the place of an account in the frame's list, which a rule of
/// accounts refuses as the region has it.
pub(crate) fn names_account(cause: Cause) -> bool {
    matches!(
        cause,
        Cause::ReadonlyChanged
            | Cause::ExecutableChanged
            | Cause::ForeignDebit
            | Cause::ForeignData
            | Cause::OwnerChange
            | Cause::TooLarge
            | Cause::LengthTooLarge
    )
}

/// The account that a listing means.
pub(crate) fn account_of<'a>(accounts: &'a [Arc<Account>], meta: &Meta) -> Option<&'a Account> {
    match accounts.get(usize::from(meta.index)) {
        Some(account) => Some(account),
        None => None,
    }
}

/// How many bytes the first entry of an account has that starts with so many data bytes.
pub(crate) fn entry_len(len: usize) -> usize {
    let padding = (8 - len % 8) % 8;
    len.saturating_add(padding).saturating_add(DATA_AT + ROOM)
}

/// Whether one of the listings means this account.
fn is_listed(metas: &[Meta], index: u8) -> bool
    ensures { result ≡ is_listed metas.now index }
{
    metas.iter().any(|meta| meta.index == index)
}

/// Whether no earlier listing means the same account.
pub fn is_first(metas: &[Meta], place: usize) -> bool
    ensures { result ≡ is_first_at metas.now place }
{
    match metas.get(place) {
        Some(meta) => !is_listed(&metas[..place], meta.index),
        None => true,
    }
}

/// How many bytes of the region a listing takes.
pub(crate) fn listing_len(metas: &[Meta], start: &[Arc<Account>], place: usize) -> usize {
    let Some(meta) = metas.get(place) else {
        return 0;
    };
    if !is_first(metas, place) {
        return REPEATED_LEN;
    }
    match account_of(start, meta) {
        Some(account) => entry_len(account.bytes.len()),
        None => REPEATED_LEN,
    }
}

/// Where the entry of a listing starts in the region.
pub(crate) fn entry_start(metas: &[Meta], start: &[Arc<Account>], place: usize) -> usize {
    let mut at: usize = COUNT_LEN;
    for earlier in 0..place.min(metas.len()) {
        at = at.saturating_add(listing_len(metas, start, earlier));
    }
    at
}

/// Some bytes of the region, if it has them.
fn bytes_at<const N: usize>(region: &Parts, at: usize) -> Option<[u8; N]>
    requires { N ≤ 32 }
{
    if at > u32::MAX as usize {
        return None;
    }
    region.array(at)
}

/// The first data byte that differs, as far as both have one.
fn first_differing(region: &Parts, at: usize, data: &[u8]) -> Option<Difference> {
    for (place, was) in data.iter().enumerate() {
        let there = at.saturating_add(place);
        if there >= region.len() {
            return None;
        }
        let is = region.get(there);
        if is != *was {
            return Some(Difference {
                at: place,
                was: *was,
                is,
            });
        }
    }
    None
}

/// What a region has of the account whose entry starts here, and that had these data.
fn found_at(region: &Parts, entry: usize, data: &[u8]) -> Option<Found> {
    let lamports = u64::from_le_bytes(bytes_at(region, entry.saturating_add(72))?);
    let owner = Key(bytes_at(region, entry.saturating_add(40))?);
    let len = u64::from_le_bytes(bytes_at(region, entry.saturating_add(80))?);
    let most = usize::try_from(len).unwrap_or(usize::MAX);
    let both = &data[..data.len().min(most)];
    Some(Found {
        lamports,
        owner,
        len,
        differs: first_differing(region, entry.saturating_add(DATA_AT), both),
    })
}

/// What the region of a frame has of the account of a listing.
pub(crate) fn found_in(frame: &Frame, place: usize) -> Option<Found> {
    let metas = frame.metas.as_slice();
    let meta = metas.get(place)?;
    let before = account_of(frame.before.as_slice(), meta)?;
    let region = frame.machine.memory().input();
    let entry = entry_start(metas, frame.start.as_slice(), place);
    found_at(region, entry, before.bytes.as_slice())
}

/// The entry of a listing in the region of a frame: where it starts, how many bytes it takes, and how
/// many data bytes the account had.
#[derive(Clone, Copy)]
pub struct Listed {
    pub start: usize,
    pub room: usize,
    pub len: usize,
}

/// How many data bytes the account of a listing has.
fn data_len(accounts: &[Arc<Account>], meta: &Meta) -> usize {
    match account_of(accounts, meta) {
        Some(account) => account.bytes.len(),
        None => 0,
    }
}

/// The entries of a frame's listings.
pub fn listing_places(alloc: Global, began: &Began) -> Result<Vec<Listed>, OutOfMemory> {
    let metas = began.metas.as_slice();
    let accounts = began.accounts.as_slice();
    let mut places = Vec::new(alloc);
    let mut start: usize = COUNT_LEN;
    for (place, meta) in metas.iter().enumerate() {
        let room = listing_len(metas, accounts, place);
        let len = data_len(accounts, meta);
        places.push(Listed { start, room, len })?;
        start = start.saturating_add(room);
    }
    Ok(places)
}
