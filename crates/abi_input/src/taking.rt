//! The accounts are taken back from a region.
ghost use Rattle.std.specs.Prelude.{◌≡◌, ◌↔◌, ◌+◌, ◌<◌, ◌≤◌, ◌||◌, ◌&&◌, ◌^◌, [], ◌∷◌, ◌++◌, length, slice_get, take, drop, map, nat_lt, false, true, IfErr, IfOk, IsTrue, OnOk, Some, None};
ghost use Rattle.std.specs.Option.{ForSome};
ghost use Rattle.std.specs.Arc.{arc_value};
ghost use Rattle.std.specs.List.{enumerate_from, slice_index_or};
ghost use Rattle.sol_base.specs.Accounts.{accounts_of, max_data_len, SameUnlessTouched};
ghost use Rattle.sol_base.specs.Metas.{AreInRange, is_first_listing};
ghost use Rattle.abi_input.specs.Region.{account_at, account_back, back, data_len_at, entry_start, has_outgrown, is_too_long, lent_in, max_metas, IsRegionOf};
ghost use Rattle.abi_input.specs.Entries.{account_by, found_among, AreEntries, AreLent, IsEntryOf};
ghost use Rattle.abi_input.specs.Answers.{DifferWhereTouched, RefusesBack, TakesBack};

use crate::entry::{
    DATA_AT, DATA_LEN_AT, FIRST_ENTRY, LAMPORTS_AT, OWNER_AT, key_in_region, number_at, room_for,
};
use crate::fault::BackFault;
use crate::listing::PLACES;
use crate::region::{LaidOut, account_of};
use data_parts::Parts;
use sol_base::{Account, Blob, Items, Key, MAX_DATA_LEN, Meta, OutOfMemory};
use std::alloc::Global;
use std::sync::Arc;

/// How many bytes are copied at once.
const PIECE_LEN: usize = 4096;

/// The accounts after a frame worked on them.
#[derive(Drop)]
pub struct TakenBack {
    pub accounts: Items<Arc<Account>>,
    /// Of each account, whether it differs from what it was before.
    pub touched: Items<bool>,
}

/// An account after a frame worked on it.
#[derive(Drop)]
struct Taken {
    account: Arc<Account>,
    touched: bool,
}

impl TakenBack {
    /// No accounts, with room for so many.
    fn with_capacity(alloc: Global, count: usize) -> Result<TakenBack, OutOfMemory>
        ensures accounts { IfOk result (λ taken. taken.accounts ≡ []) }
        ensures touched { IfOk result (λ taken. taken.touched ≡ []) }
    {
        Ok(TakenBack {
            accounts: Items::with_capacity(alloc, count)?,
            touched: Items::with_capacity(alloc, count)?,
        })
    }

    fn push(&mut self, taken: Taken) -> Result<(), OutOfMemory>
        ensures accounts { OnOk result
            (self.new.accounts ≡ self.old.accounts ++ taken.account ∷ []) }
        ensures touched { OnOk result (self.new.touched ≡ self.old.touched ++ taken.touched ∷ []) }
    {
        self.touched.push(taken.touched)?;
        self.accounts.push(taken.account)?;
        Ok(())
    }
}

/// The accounts `now`, with owner, lamports and data of the listed ones as they are in the region
/// that was laid out from `start` and has the data of `now` lent. An account of which nothing
/// changed, and whose data are still lent, is shared: its data are neither copied nor read. One is
/// told as touched exactly where it differs.
pub fn take_back(
    alloc: Global,
    region: &Parts,
    start: &[Arc<Account>],
    now: &[Arc<Account>],
    metas: &[Meta],
) -> Result<TakenBack, BackFault>
    requires count { length (accounts_of now.now) ≡ length (accounts_of start.now) }
    requires most { length metas.now ≤ max_metas }
    requires range { AreInRange (length (accounts_of start.now)) metas.now }
    requires region { IsRegionOf (accounts_of start.now) metas.now region.now.bytes }
    requires lent { region.now.lent
        ≡ lent_in (accounts_of start.now) (accounts_of now.now) metas.now }
    ensures answer { TakesBack
        (back region.now.bytes (accounts_of start.now) (accounts_of now.now) metas.now) result }
    ensures flags { IfOk result (λ taken. length taken.touched ≡ length (accounts_of now.now)) }
    ensures untouched { IfOk result
        (λ taken. SameUnlessTouched taken.touched (accounts_of now.now)
        (accounts_of taken.accounts)) }
    ensures touched { IfOk result
        (λ taken. DifferWhereTouched taken.touched (accounts_of now.now)
        (accounts_of taken.accounts)) }
{
    let laid = LaidOut::of(region, start, metas);
    let entries = checked_entries(&laid)?;
    Ok(taken_by(alloc, &laid, now, &entries)?)
}

/// Where the entry of each listed account starts. Refused at the first that has a length that it
/// may not have.
fn checked_entries(laid: &LaidOut<'_>) -> Result<[Option<usize>; PLACES], BackFault>
    ensures ok { IfOk result
        (λ entries. AreEntries (accounts_of laid.now.start.now) laid.now.listings.metas.now
        (length laid.now.listings.metas.now) entries) }
    ensures none { IfOk result
        (λ entries. found_among
        (is_too_long laid.now.region.now.bytes (accounts_of laid.now.start.now)
        laid.now.listings.metas.now)
        laid.now.listings.metas.now (length laid.now.listings.metas.now) ≡ None) }
    ensures err { IfErr result
        (RefusesBack
        (found_among
        (is_too_long laid.now.region.now.bytes (accounts_of laid.now.start.now)
        laid.now.listings.metas.now)
        laid.now.listings.metas.now (length laid.now.listings.metas.now))) }
{
    let mut entries = [None; PLACES];
    let mut entry = FIRST_ENTRY;
    for (place, meta) in laid.listings.metas.iter().enumerate() {
        if is_refused(laid, place, meta, entry) {
            return Err(BackFault::LengthTooLarge { i: place as u8 });
        }
        let index = usize::from(meta.index);
        entries[index] = entries[index].or(Some(entry));
        entry += laid.entry_len(place, meta);
    }
    Ok(entries)
}

/// The meta, whose entry starts at `entry`, is the first listing of an account that has a length
/// there that it may not have.
fn is_refused(laid: &LaidOut<'_>, place: usize, meta: &Meta, entry: usize) -> bool
    requires there { slice_get laid.now.listings.metas.now place ≡ Some meta.now }
    requires entry { entry
        ≡ entry_start (accounts_of laid.now.start.now) laid.now.listings.metas.now place }
    ensures { result ≡ (is_first_listing laid.now.listings.metas.now (place, meta.now)
        && is_too_long laid.now.region.now.bytes (accounts_of laid.now.start.now)
        laid.now.listings.metas.now (place, meta.now)) }
{
    if !laid.listings.is_first(place, meta) {
        return false;
    }
    has_long_data(laid.region, entry, account_of(laid.start, meta))
}

/// The length that is in the entry is one that the account may not have.
fn has_long_data(region: &Parts, entry: usize, start: &Account) -> bool
    requires within { entry + 88 ≤ length region.now.bytes }
    requires most { length region.now.bytes < 2 ^ 32 }
    requires start { length start.now.bytes < 2 ^ 32 }
    ensures { result ≡ (has_outgrown start.now (data_len_at region.now.bytes entry)
        || nat_lt max_data_len (data_len_at region.now.bytes entry)) }
{
    let len = number_at(region, entry + DATA_LEN_AT);
    len > room_for(start) as u64 || len > MAX_DATA_LEN as u64
}

/// The accounts as they are in their entries.
fn taken_by(
    alloc: Global,
    laid: &LaidOut<'_>,
    now: &[Arc<Account>],
    entries: &[Option<usize>; PLACES],
) -> Result<TakenBack, OutOfMemory>
    requires count { length (accounts_of now.now) ≡ length (accounts_of laid.now.start.now) }
    requires entries { AreEntries (accounts_of laid.now.start.now) laid.now.listings.metas.now
        (length laid.now.listings.metas.now) entries.now }
    requires lengths { found_among
        (is_too_long laid.now.region.now.bytes (accounts_of laid.now.start.now)
        laid.now.listings.metas.now)
        laid.now.listings.metas.now (length laid.now.listings.metas.now) ≡ None }
    requires lent { laid.now.region.now.lent
        ≡ lent_in (accounts_of laid.now.start.now) (accounts_of now.now)
        laid.now.listings.metas.now }
    ensures accounts { IfOk result
        (λ taken. accounts_of taken.accounts
        ≡ map
        (account_back laid.now.region.now.bytes (accounts_of laid.now.start.now)
        laid.now.listings.metas.now)
        (enumerate_from 0 (accounts_of now.now))) }
    ensures flags { IfOk result (λ taken. length taken.touched ≡ length (accounts_of now.now)) }
    ensures untouched { IfOk result
        (λ taken. SameUnlessTouched taken.touched (accounts_of now.now)
        (accounts_of taken.accounts)) }
    ensures touched { IfOk result
        (λ taken. DifferWhereTouched taken.touched (accounts_of now.now)
        (accounts_of taken.accounts)) }
{
    let mut back = TakenBack::with_capacity(alloc, now.len())?;
    for (index, account) in now.iter().enumerate() {
        back.push(take_one(alloc, laid.region, entry_at(entries, index), account)?)?;
    }
    Ok(back)
}

/// Where the entry of an account starts, if it is listed.
fn entry_at(entries: &[Option<usize>; PLACES], index: usize) -> Option<usize>
    ensures { result ≡ slice_index_or entries.now index None }
{
    if index < PLACES { entries[index] } else { None }
}

/// An account as it is in its entry, if it has one.
fn take_one(
    alloc: Global,
    region: &Parts,
    entry: Option<usize>,
    account: &Arc<Account>,
) -> Result<Taken, OutOfMemory>
    requires entry { ForSome entry (IsEntryOf region.now.bytes) }
    requires lent { ForSome entry
        (λ place. AreLent region.now.lent (place + 88) (arc_value account.now)) }
    requires most { length region.now.bytes < 2 ^ 32 }
    ensures value { IfOk result
        (λ taken. arc_value taken.account
        ≡ account_by region.now.bytes entry (arc_value account.now)) }
    ensures same { IfOk result (λ taken. taken.touched ≡ false
        → arc_value taken.account ≡ arc_value account.now) }
    ensures changed { IfOk result (λ taken. taken.touched ≡ true
        → ¬ (arc_value taken.account ≡ arc_value account.now)) }
{
    let Some(entry) = entry else {
        return untouched(account);
    };
    if is_unchanged(region, entry, account) {
        return untouched(account);
    }
    let taken = account_in_region(alloc, region, entry, account)?;
    if is_same(&taken, account) {
        return untouched(account);
    }
    Ok(Taken {
        account: Arc::new(alloc, taken)?,
        touched: true,
    })
}

/// The account as it is.
fn untouched(account: &Arc<Account>) -> Result<Taken, OutOfMemory>
    ensures value { IfOk result (λ taken. arc_value taken.account ≡ arc_value account.now) }
    ensures flag { IfOk result (λ taken. taken.touched ≡ false) }
{
    Ok(Taken {
        account: Arc::try_clone(account)?,
        touched: false,
    })
}

fn is_same(account: &Account, other: &Account) -> bool
    ensures { IsTrue result ↔ (account.now ≡ other.now) }
{
    account.lamports == other.lamports
        && is_same_key(&account.owner, &other.owner)
        && account.executable == other.executable
        && account.bytes.as_slice() == other.bytes.as_slice()
}

/// The account is in its entry as it was before, and its data are still lent.
fn is_unchanged(region: &Parts, entry: usize, account: &Account) -> bool
    requires entry { IsEntryOf region.now.bytes entry }
    requires lent { AreLent region.now.lent (entry + 88) account.now }
    requires most { length region.now.bytes < 2 ^ 32 }
    ensures { result ≡ true → account_at region.now.bytes entry account.now ≡ account.now }
{
    let lamports = number_at(region, entry + LAMPORTS_AT);
    if lamports != account.lamports {
        return false;
    }
    let owner = key_in_region(region, entry + OWNER_AT);
    if !is_same_key(&owner, &account.owner) {
        return false;
    }
    let len = number_at(region, entry + DATA_LEN_AT);
    if len != account.bytes.len() as u64 {
        return false;
    }
    has_data(region, entry + DATA_AT, account)
}

fn is_same_key(key: &Key, other: &Key) -> bool
    ensures { IsTrue result ↔ (key.now ≡ other.now) }
{
    key == other
}

/// The data of the account are at a place: they are lent there, or empty.
fn has_data(region: &Parts, at: usize, account: &Account) -> bool
    requires { AreLent region.now.lent at account.now }
    ensures { result ≡ true → take (length account.now.bytes) (drop at region.now.bytes)
        ≡ account.now.bytes }
{
    account.bytes.is_empty() || region.lent_at(at).is_some()
}

/// The account as it is in its entry, in memory of its own.
fn account_in_region(
    alloc: Global,
    region: &Parts,
    entry: usize,
    account: &Account,
) -> Result<Account, OutOfMemory>
    requires entry { IsEntryOf region.now.bytes entry }
    requires most { length region.now.bytes < 2 ^ 32 }
    ensures { IfOk result (λ taken. taken ≡ account_at region.now.bytes entry account.now) }
{
    let len = number_at(region, entry + DATA_LEN_AT) as usize;
    Ok(Account {
        lamports: number_at(region, entry + LAMPORTS_AT),
        owner: key_in_region(region, entry + OWNER_AT),
        executable: account.executable,
        bytes: bytes_in_region(alloc, region, entry + DATA_AT, len)?,
    })
}

/// A copy of bytes of the region.
fn bytes_in_region(
    alloc: Global,
    region: &Parts,
    at: usize,
    len: usize,
) -> Result<Blob, OutOfMemory>
    requires within { at + len ≤ length region.now.bytes }
    requires most { length region.now.bytes < 2 ^ 32 }
    ensures { IfOk result (λ bytes. bytes ≡ take len (drop at region.now.bytes)) }
{
    let mut bytes = Blob::with_capacity(alloc, len)?;
    let mut piece = [0; PIECE_LEN];
    let mut done = 0;
    while done < len {
        let count = PIECE_LEN.min(len - done);
        let part = &mut piece[..count];
        region.read(at + done, part);
        bytes.append(part)?;
        done += count;
    }
    Ok(bytes)
}
