//! From JSON to the bytes of a snapshot.
ghost use Rattle.std.specs.Prelude.{◌≡◌, codes, IfOk};
ghost use Rattle.spec_base.specs.Reading.{Gives};
ghost use Rattle.serde_json.specs.View.{view};
ghost use Rattle.snapshot_codec.specs.Snapshot.{limits_bytes};
ghost use Rattle.json_parts.specs.Faults.{is_json_memory};
ghost use Rattle.json_parts.specs.Parts.{member_in, known_in};
ghost use Rattle.bank_json.specs.SnapshotJson.{account_names, limits_names, first_names, second_names, limits_in, sections_in, first_in, second_in, snapshot_in, snapshot_of_data};

use json_parts::{
    JsonFault, Part, byte_member, data_member, digits, digits_member, flag_member, found,
    in_member, known, list_member, number_member, short_member,
};
use serde_json::Value;
use snapshot_codec::{MAX_ACCOUNTS, SnapshotFault, read_snapshot};
use sol_base::{
    Blob, Limits, MAX_BLOCK_UNITS, MAX_DATA_LEN, MAX_STACK_HEIGHT, MAX_TRANSACTION_KEYS,
    MAX_TRANSACTIONS, OutOfMemory,
};
use status_cache::MAX_MARKS;
use std::alloc::Global;

/// Hashes.
pub(crate) struct Hashes;

impl Part for Hashes {
    ghost use Rattle.bank_json.specs.SnapshotJson.{hash_in};

    ghost part_in = { hash_in };

    fn read(alloc: Global, value: &Value) -> Result<Blob, JsonFault> {
        let hash = digits::<32>(alloc, value)?;
        Ok(Blob::from_slice(alloc, &hash)?)
    }
}

/// Blocks.
pub(crate) struct Marks;

impl Part for Marks {
    ghost use Rattle.bank_json.specs.SnapshotJson.{mark_in};

    ghost part_in = { mark_in };

    #[tactic(auto, unfolding(crate::specs::SnapshotJson::mark_in))]
    fn read(alloc: Global, value: &Value) -> Result<Blob, JsonFault> {
        known(alloc, value, &["hash", "messages"])?;
        let hash = digits_member::<32>(alloc, value, "hash")?;
        let (count, names) = list_member::<Hashes>(alloc, value, "messages", MAX_TRANSACTIONS)?;
        let mut out = Blob::from_slice(alloc, &hash)?;
        out.append(&(count as u32).to_le_bytes())?;
        out.append(names.as_slice())?;
        Ok(out)
    }
}

fn known_of_account(alloc: Global, value: &Value) -> Result<(), JsonFault>
    ensures { Gives is_json_memory (λ x. x) result (known_in account_names (view value.now)) }
{
    known(
        alloc,
        value,
        &["data", "executable", "key", "lamports", "owner"],
    )
}

/// Accounts under their keys.
struct KeyedAccounts;

impl Part for KeyedAccounts {
    ghost use Rattle.bank_json.specs.SnapshotJson.{account_in};

    ghost part_in = { account_in };

    #[tactic(auto, unfolding(crate::specs::SnapshotJson::account_in))]
    fn read(alloc: Global, value: &Value) -> Result<Blob, JsonFault> {
        known_of_account(alloc, value)?;
        let key = digits_member::<32>(alloc, value, "key")?;
        let lamports = number_member(alloc, value, "lamports", 1, u64::MAX)?;
        let owner = digits_member::<32>(alloc, value, "owner")?;
        let executable = flag_member(alloc, value, "executable")?;
        let data = data_member(alloc, value, "data", MAX_DATA_LEN)?;
        let mut out = Blob::from_slice(alloc, &key)?;
        out.append(&lamports.to_le_bytes())?;
        out.append(&owner)?;
        out.append(&[u8::from(executable)])?;
        out.append(&(data.len() as u32).to_le_bytes())?;
        out.append(data.as_slice())?;
        Ok(out)
    }
}

fn spelled_limits(alloc: Global, limits: &Limits) -> Result<Blob, OutOfMemory>
    ensures { IfOk result (λ bytes. bytes ≡ limits_bytes limits.now) }
{
    let mut out = Blob::from_slice(alloc, &limits.keys.to_le_bytes())?;
    out.append(&[limits.height])?;
    out.append(&limits.key_units.to_le_bytes())?;
    out.append(&limits.block_units.to_le_bytes())?;
    Ok(out)
}

fn known_of_limits(alloc: Global, value: &Value) -> Result<(), JsonFault>
    ensures { Gives is_json_memory (λ x. x) result (known_in limits_names (view value.now)) }
{
    known(
        alloc,
        value,
        &["block_units", "height", "key_units", "keys"],
    )
}

#[tactic(auto, unfolding(crate::specs::SnapshotJson::limits_in))]
fn limits(alloc: Global, value: &Value) -> Result<Blob, JsonFault>
    ensures { Gives is_json_memory (λ bytes. bytes) result (limits_in (view value.now)) }
{
    known_of_limits(alloc, value)?;
    let keys = short_member(alloc, value, "keys", 1, MAX_TRANSACTION_KEYS)?;
    let height = byte_member(alloc, value, "height", 1, MAX_STACK_HEIGHT)?;
    let key_units = number_member(alloc, value, "key_units", 1, MAX_BLOCK_UNITS)?;
    let block_units = number_member(alloc, value, "block_units", 1, MAX_BLOCK_UNITS)?;
    let limits = Limits {
        keys,
        height,
        key_units,
        block_units,
    };
    Ok(spelled_limits(alloc, &limits)?)
}

#[tactic(auto, unfolding(json_parts::specs::Parts::member_in))]
fn limits_member(alloc: Global, value: &Value) -> Result<Blob, JsonFault>
    ensures { Gives is_json_memory (λ bytes. bytes) result
        (member_in (codes "limits") limits_in (view value.now)) }
{
    let found = found(alloc, value, "limits")?;
    in_member(alloc, "limits", limits(alloc, found))
}

/// The marks and the accounts, each behind their number.
#[tactic(auto, unfolding(crate::specs::SnapshotJson::sections_in))]
fn sections(alloc: Global, value: &Value) -> Result<Blob, JsonFault>
    ensures { Gives is_json_memory (λ bytes. bytes) result (sections_in (view value.now)) }
{
    let (mark_count, marks) = list_member::<Marks>(alloc, value, "recent", MAX_MARKS)?;
    let (count, accounts) = list_member::<KeyedAccounts>(
        alloc,
        value,
        "accounts",
        MAX_ACCOUNTS as usize,
    )?;
    let mut out = Blob::from_slice(alloc, &(mark_count as u32).to_le_bytes())?;
    out.append(marks.as_slice())?;
    out.append(&(count as u32).to_le_bytes())?;
    out.append(accounts.as_slice())?;
    Ok(out)
}

fn known_of_first(alloc: Global, value: &Value) -> Result<(), JsonFault>
    ensures { Gives is_json_memory (λ x. x) result (known_in first_names (view value.now)) }
{
    known(
        alloc,
        value,
        &["accounts", "format", "recent", "shown", "slot"],
    )
}

#[tactic(auto, unfolding(crate::specs::SnapshotJson::first_in))]
fn first(alloc: Global, value: &Value) -> Result<Blob, JsonFault>
    ensures { Gives is_json_memory (λ bytes. bytes) result (first_in (view value.now)) }
{
    known_of_first(alloc, value)?;
    let slot = number_member(alloc, value, "slot", 0, u64::MAX)?;
    let sections = sections(alloc, value)?;
    let mut out = Blob::from_slice(alloc, b"SOLSNAP1")?;
    out.append(&slot.to_le_bytes())?;
    out.append(sections.as_slice())?;
    Ok(out)
}

fn known_of_second(alloc: Global, value: &Value) -> Result<(), JsonFault>
    ensures { Gives is_json_memory (λ x. x) result (known_in second_names (view value.now)) }
{
    known(
        alloc,
        value,
        &["accounts", "format", "limits", "recent", "shown", "slot"],
    )
}

#[tactic(auto, unfolding(crate::specs::SnapshotJson::second_in))]
fn second(alloc: Global, value: &Value) -> Result<Blob, JsonFault>
    ensures { Gives is_json_memory (λ bytes. bytes) result (second_in (view value.now)) }
{
    known_of_second(alloc, value)?;
    let slot = number_member(alloc, value, "slot", 0, u64::MAX)?;
    let limits = limits_member(alloc, value)?;
    let sections = sections(alloc, value)?;
    let mut out = Blob::from_slice(alloc, b"SOLSNAP2")?;
    out.append(&slot.to_le_bytes())?;
    out.append(limits.as_slice())?;
    out.append(sections.as_slice())?;
    Ok(out)
}

#[tactic(auto, unfolding(crate::specs::SnapshotJson::snapshot_in))]
fn spelled(alloc: Global, value: &Value) -> Result<Blob, JsonFault>
    ensures { Gives is_json_memory (λ bytes. bytes) result (snapshot_in (view value.now)) }
{
    let format = number_member(alloc, value, "format", 1, 2)?;
    if format == 1 {
        first(alloc, value)
    } else {
        second(alloc, value)
    }
}

/// The bytes of the snapshot that the JSON value is (the project's own form).
///
/// Its members are `format` (1 or 2), `slot`, `limits` (in format 2 alone), `recent` and
/// `accounts`, and no others but `shown`, which is passed over. Keys, hashes and data are hexadecimal digits in either case. The
/// refusals come in the order of the reading; last, the bytes have to be a snapshot.
#[tactic(auto, unfolding(crate::specs::SnapshotJson::snapshot_of_data))]
pub fn snapshot_from_value(alloc: Global, value: &Value) -> Result<Blob, JsonFault>
    ensures { Gives is_json_memory (λ bytes. bytes) result (snapshot_of_data (view value.now)) }
{
    let bytes = spelled(alloc, value)?;
    match read_snapshot(alloc, bytes.as_slice()) {
        Ok(_) => Ok(bytes),
        Err(SnapshotFault::OutOfMemory) => Err(JsonFault::OutOfMemory),
        Err(fault) => Err(JsonFault::BadSnapshot { fault }),
    }
}
