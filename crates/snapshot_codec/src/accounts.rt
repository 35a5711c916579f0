//! The accounts of a chain, as a snapshot has them: the state section.
ghost use Rattle.std.specs.Prelude.{◌≡◌, ◌+◌, ◌^◌, ◌<◌, [], IfOk};
ghost use Rattle.spec_base.specs.Reading.{Gives, many_after};
ghost use Rattle.account_store.specs.State.{lamports_of};
ghost use Rattle.account_store.specs.Sorted.{entries_of};
ghost use Rattle.snapshot_codec.specs.SnapshotReading.{is_snapshot_memory, key_after, lamports_after, flag_at, data_at, owned_at, account_after, entries_at, state_at};

use crate::fault::SnapshotFault;
use account_store::{Accounts, KeyedAccount};
use format_fields::key_field;
use sol_base::{Account, Blob, Items, Key, MAX_DATA_LEN};
use spec_base::{byte_field, bytes_field, place, u32_field, u64_field};
use std::alloc::Global;

/// The most accounts of a snapshot (the project's own).
pub const MAX_ACCOUNTS: u32 = 4_194_304;

/// The bytes of an account without data.
const ACCOUNT_LEN: usize = 77;

/// The key of an account, above that of the account before.
#[tactic(auto, unfolding(crate::specs::SnapshotReading::key_after, spec_base::specs::Reading::read_if))]
fn read_key<'a>(
    total: usize,
    before: &[KeyedAccount],
    bytes: &'a [u8],
) -> Result<(Key, &'a [u8]), SnapshotFault>
    ensures { Gives is_snapshot_memory (λ x. (x.0, x.1.now)) result
        (key_after total before.now bytes.now) }
{
    let (key, rest) = key_field::<SnapshotFault>(total, bytes)?;
    if let Some(last) = before.last()
        && !last.key.cmp(&key).is_lt()
    {
        return Err(SnapshotFault::OutOfOrder {
            at: place(total, bytes),
        });
    }
    Ok((key, rest))
}

/// The lamports of an account after those before it, which have `supply` together.
#[tactic(auto, unfolding(crate::specs::SnapshotReading::lamports_after, spec_base::specs::Reading::read_if))]
fn read_lamports<'a>(
    total: usize,
    before: &[KeyedAccount],
    supply: u64,
    bytes: &'a [u8],
) -> Result<(u64, &'a [u8]), SnapshotFault>
    requires { supply ≡ lamports_of (entries_of before.now) }
    ensures gives { Gives is_snapshot_memory (λ x. (x.0, x.1.now)) result
        (lamports_after total before.now bytes.now) }
    ensures fits { IfOk result (λ x. supply + x.0 < 2 ^ 64) }
{
    let (lamports, rest) = u64_field::<SnapshotFault>(total, bytes)?;
    if lamports == 0 {
        return Err(SnapshotFault::Empty {
            at: place(total, bytes),
        });
    }
    if lamports > u64::MAX - supply {
        return Err(SnapshotFault::SupplyTooLarge);
    }
    Ok((lamports, rest))
}

#[tactic(auto, unfolding(crate::specs::SnapshotReading::flag_at, spec_base::specs::Reading::read_as, spec_base::specs::Reading::read_if))]
fn read_flag(total: usize, bytes: &[u8]) -> Result<(bool, &[u8]), SnapshotFault>
    ensures { Gives is_snapshot_memory (λ x. (x.0, x.1.now)) result (flag_at total bytes.now) }
{
    let (flag, rest) = byte_field::<SnapshotFault>(total, bytes)?;
    if flag > 1 {
        return Err(SnapshotFault::BadField {
            at: place(total, bytes),
        });
    }
    Ok((flag == 1, rest))
}

/// The data of an account, one field after its length.
#[tactic(auto, unfolding(crate::specs::SnapshotReading::data_at, spec_base::specs::Reading::read_if))]
fn read_data(alloc: Global, total: usize, bytes: &[u8]) -> Result<(Blob, &[u8]), SnapshotFault>
    ensures { Gives is_snapshot_memory (λ x. (x.0, x.1.now)) result (data_at total bytes.now) }
{
    let (len, rest) = u32_field::<SnapshotFault>(total, bytes)?;
    let len = len as usize;
    if len > MAX_DATA_LEN {
        return Err(SnapshotFault::DataTooLong {
            at: place(total, bytes),
        });
    }
    let (field, rest) = bytes_field::<SnapshotFault>(total, len, rest)?;
    Ok((Blob::from_slice(alloc, field)?, rest))
}

/// The account of these lamports at the key, from its owner on.
fn read_owned(
    alloc: Global,
    total: usize,
    key: Key,
    lamports: u64,
    bytes: &[u8],
) -> Result<(KeyedAccount, &[u8]), SnapshotFault>
    ensures gives { Gives is_snapshot_memory (λ x. (x.0, x.1.now)) result
        (owned_at key lamports total bytes.now) }
    ensures lamports { IfOk result (λ x. x.0.account.lamports ≡ lamports) }
{
    let (owner, rest) = key_field::<SnapshotFault>(total, bytes)?;
    let (executable, rest) = read_flag(total, rest)?;
    let (bytes, rest) = read_data(alloc, total, rest)?;
    let account = Account {
        lamports,
        owner,
        executable,
        bytes,
    };
    Ok((KeyedAccount { key, account }, rest))
}

/// The account that is after those before it, which have `supply` lamports together.
#[tactic(auto, unfolding(crate::specs::SnapshotReading::account_after))]
fn read_account<'a>(
    alloc: Global,
    total: usize,
    before: &[KeyedAccount],
    supply: u64,
    bytes: &'a [u8],
) -> Result<(KeyedAccount, &'a [u8]), SnapshotFault>
    requires { supply ≡ lamports_of (entries_of before.now) }
    ensures gives { Gives is_snapshot_memory (λ x. (x.0, x.1.now)) result
        (account_after total before.now bytes.now) }
    ensures fits { IfOk result (λ x. supply + x.0.account.lamports < 2 ^ 64) }
{
    let (key, rest) = read_key(total, before, bytes)?;
    let (lamports, rest) = read_lamports(total, before, supply, rest)?;
    read_owned(alloc, total, key, lamports, rest)
}

/// So many accounts, and the bytes after them.
fn read_accounts(
    alloc: Global,
    total: usize,
    count: u32,
    bytes: &[u8],
) -> Result<(Items<KeyedAccount>, &[u8]), SnapshotFault>
    ensures { Gives is_snapshot_memory (λ x. (x.0, x.1.now)) result
        (many_after (account_after total) [] count bytes.now) }
{
    let room = (count as usize).min(bytes.len() / ACCOUNT_LEN);
    let mut accounts = Items::with_capacity(alloc, room)?;
    let mut supply = 0;
    let mut rest = bytes;
    for _ in 0..count {
        let (entry, after) = read_account(alloc, total, accounts.as_slice(), supply, rest)?;
        supply += entry.account.lamports;
        accounts.push(entry)?;
        rest = after;
    }
    Ok((accounts, rest))
}

/// The number of accounts, and the accounts.
#[tactic(auto, unfolding(crate::specs::SnapshotReading::entries_at, spec_base::specs::Reading::read_if))]
fn read_entries(
    alloc: Global,
    total: usize,
    bytes: &[u8],
) -> Result<(Items<KeyedAccount>, &[u8]), SnapshotFault>
    ensures { Gives is_snapshot_memory (λ x. (x.0, x.1.now)) result (entries_at total bytes.now) }
{
    let (count, rest) = u32_field::<SnapshotFault>(total, bytes)?;
    if count > MAX_ACCOUNTS {
        return Err(SnapshotFault::TooManyAccounts);
    }
    read_accounts(alloc, total, count, rest)
}

/// The state section at the front of the bytes, and the bytes after it.
#[tactic(auto, unfolding(crate::specs::SnapshotReading::state_at, spec_base::specs::Reading::read_as))]
pub(crate) fn read_state(
    alloc: Global,
    total: usize,
    bytes: &[u8],
) -> Result<(Accounts, &[u8]), SnapshotFault>
    ensures { Gives is_snapshot_memory (λ x. (x.0, x.1.now)) result (state_at total bytes.now) }
{
    let (entries, rest) = read_entries(alloc, total, bytes)?;
    match Accounts::from_sorted(alloc, entries) {
        Ok(accounts) => Ok((accounts, rest)),
        // The entries are in order, so that only memory can be missing.
        Err(_) => Err(SnapshotFault::OutOfMemory),
    }
}
