//! From JSON to the bytes of a record.
ghost use Rattle.std.specs.Prelude.{◌≤◌, codes, length, IfOk};
ghost use Rattle.spec_base.specs.Bytes.{max_count};
ghost use Rattle.spec_base.specs.Reading.{Gives};
ghost use Rattle.serde_json.specs.View.{view};
ghost use Rattle.json_parts.specs.Faults.{is_json_memory};
ghost use Rattle.json_parts.specs.Parts.{or_refused, member_in, known_in};
ghost use Rattle.json_parts.specs.declared.fault.Wanted.TheVariants.{Ending};
ghost use Rattle.json_parts.specs.TransactionJson.{transaction_in};
ghost use Rattle.bank_json.specs.RecordJson.{failure_names, entry_names, record_names, failure_in, failed_in, dropped_in, ending_in, ending_named, status_in, heading_in, closing_in, record_in, record_of_data};

use block_record::{RecordFault, read_record};
use json_parts::{
    JsonFault, Part, Wanted, byte_member, digits_member, found, in_member, known, list_member,
    number_member, refused, short_member, transaction,
};
use message_codec::MAX_COUNT;
use serde_json::Value;
use sol_base::{Blob, MAX_TRANSACTIONS};
use std::alloc::Global;

/// Lines, each behind its length.
pub(crate) struct Lines;

impl Part for Lines {
    ghost use Rattle.bank_json.specs.RecordJson.{line_in};

    ghost part_in = { line_in };

    #[tactic(auto, unfolding(crate::specs::RecordJson::line_in))]
    fn read(alloc: Global, value: &Value) -> Result<Blob, JsonFault> {
        match value.as_str() {
            Some(line) if line.len() <= MAX_COUNT => {
                let mut out = Blob::from_slice(alloc, &(line.len() as u16).to_le_bytes())?;
                out.append(line.as_bytes())?;
                Ok(out)
            }
            _ => Err(refused(alloc, Wanted::Text)),
        }
    }
}

fn known_of_failure(alloc: Global, value: &Value) -> Result<(), JsonFault>
    ensures { Gives is_json_memory (λ x. x) result (known_in failure_names (view value.now)) }
{
    known(alloc, value, &["code", "detail", "index"])
}

#[tactic(auto, unfolding(crate::specs::RecordJson::failure_in))]
fn failure(alloc: Global, value: &Value) -> Result<Blob, JsonFault>
    ensures { Gives is_json_memory (λ bytes. bytes) result (failure_in (view value.now)) }
{
    known_of_failure(alloc, value)?;
    let index = byte_member(alloc, value, "index", 0, u8::MAX)?;
    let code = short_member(alloc, value, "code", 0, u16::MAX)?;
    let detail = number_member(alloc, value, "detail", 0, u64::from(u32::MAX))?;
    let mut out = Blob::from_slice(alloc, &[1, index])?;
    out.append(&code.to_le_bytes())?;
    out.append(&(detail as u32).to_le_bytes())?;
    Ok(out)
}

#[tactic(auto, unfolding(crate::specs::RecordJson::failed_in, json_parts::specs::Parts::member_in))]
fn failed(alloc: Global, value: &Value) -> Result<Blob, JsonFault>
    ensures { Gives is_json_memory (λ bytes. bytes) result (failed_in (view value.now)) }
{
    known(alloc, value, &["failed"])?;
    let found = found(alloc, value, "failed")?;
    in_member(alloc, "failed", failure(alloc, found))
}

#[tactic(auto, unfolding(crate::specs::RecordJson::dropped_in))]
fn dropped(alloc: Global, value: &Value) -> Result<Blob, JsonFault>
    ensures { Gives is_json_memory (λ bytes. bytes) result (dropped_in (view value.now)) }
{
    known(alloc, value, &["dropped"])?;
    let code = short_member(alloc, value, "dropped", 0, u16::MAX)?;
    let mut out = Blob::from_slice(alloc, &[2, 0])?;
    out.append(&code.to_le_bytes())?;
    out.append(&[0; 4])?;
    Ok(out)
}

fn ending(alloc: Global, value: &Value) -> Result<Blob, JsonFault>
    ensures { Gives is_json_memory (λ bytes. bytes) result (ending_in (view value.now)) }
{
    if value.get("failed").is_some() {
        failed(alloc, value)
    } else {
        dropped(alloc, value)
    }
}

fn named(alloc: Global, text: &str) -> Result<Blob, JsonFault>
    ensures { Gives is_json_memory (λ bytes. bytes) result
        (or_refused (ending_named text.now) Ending) }
{
    if text == "ok" {
        Ok(Blob::from_slice(alloc, &[0; 8])?)
    } else {
        Err(refused(alloc, Wanted::Ending))
    }
}

#[tactic(auto, unfolding(crate::specs::RecordJson::status_in))]
fn status(alloc: Global, value: &Value) -> Result<Blob, JsonFault>
    ensures { Gives is_json_memory (λ bytes. bytes) result (status_in (view value.now)) }
{
    match value.as_str() {
        Some(text) => named(alloc, text),
        None => ending(alloc, value),
    }
}

#[tactic(auto, unfolding(json_parts::specs::Parts::member_in))]
fn status_member(alloc: Global, value: &Value) -> Result<Blob, JsonFault>
    ensures { Gives is_json_memory (λ bytes. bytes) result
        (member_in (codes "status") status_in (view value.now)) }
{
    let found = found(alloc, value, "status")?;
    in_member(alloc, "status", status(alloc, found))
}

#[tactic(auto, unfolding(json_parts::specs::Parts::member_in))]
fn transaction_member(alloc: Global, value: &Value) -> Result<Blob, JsonFault>
    ensures gives { Gives is_json_memory (λ bytes. bytes) result
        (member_in (codes "transaction") transaction_in (view value.now)) }
    ensures fits { IfOk result (λ bytes. length bytes ≤ max_count) }
{
    let found = found(alloc, value, "transaction")?;
    in_member(alloc, "transaction", transaction(alloc, found))
}

fn known_of_entry(alloc: Global, value: &Value) -> Result<(), JsonFault>
    ensures { Gives is_json_memory (λ x. x) result (known_in entry_names (view value.now)) }
{
    known(
        alloc,
        value,
        &["fee", "lines", "shown", "status", "transaction", "units"],
    )
}

/// Entries.
pub(crate) struct Entries;

impl Part for Entries {
    ghost use Rattle.bank_json.specs.RecordJson.{entry_in};

    ghost part_in = { entry_in };

    #[tactic(auto, unfolding(crate::specs::RecordJson::entry_in))]
    fn read(alloc: Global, value: &Value) -> Result<Blob, JsonFault> {
        known_of_entry(alloc, value)?;
        let transaction = transaction_member(alloc, value)?;
        let status = status_member(alloc, value)?;
        let units = number_member(alloc, value, "units", 0, u64::MAX)?;
        let fee = number_member(alloc, value, "fee", 0, u64::MAX)?;
        let (count, lines) = list_member::<Lines>(alloc, value, "lines", MAX_COUNT)?;
        let mut out = Blob::from_slice(alloc, &(transaction.len() as u16).to_le_bytes())?;
        out.append(transaction.as_slice())?;
        out.append(status.as_slice())?;
        out.append(&units.to_le_bytes())?;
        out.append(&fee.to_le_bytes())?;
        out.append(&(count as u16).to_le_bytes())?;
        out.append(lines.as_slice())?;
        Ok(out)
    }
}

fn known_of_record(alloc: Global, value: &Value) -> Result<(), JsonFault>
    ensures { Gives is_json_memory (λ x. x) result (known_in record_names (view value.now)) }
{
    known(
        alloc,
        value,
        &[
            "burned",
            "collected",
            "collector",
            "entries",
            "hash",
            "previous",
            "slot",
            "state",
        ],
    )
}

/// What is before the entries.
#[tactic(auto, unfolding(crate::specs::RecordJson::heading_in))]
fn heading(alloc: Global, value: &Value) -> Result<Blob, JsonFault>
    ensures { Gives is_json_memory (λ bytes. bytes) result (heading_in (view value.now)) }
{
    known_of_record(alloc, value)?;
    let slot = number_member(alloc, value, "slot", 0, u64::MAX)?;
    let collector = digits_member::<32>(alloc, value, "collector")?;
    let previous = digits_member::<32>(alloc, value, "previous")?;
    let mut out = Blob::from_slice(alloc, b"SOLBLCK1")?;
    out.append(&slot.to_le_bytes())?;
    out.append(&collector)?;
    out.append(&previous)?;
    Ok(out)
}

/// And after them.
#[tactic(auto, unfolding(crate::specs::RecordJson::closing_in))]
fn closing(alloc: Global, value: &Value) -> Result<Blob, JsonFault>
    ensures { Gives is_json_memory (λ bytes. bytes) result (closing_in (view value.now)) }
{
    let burned = number_member(alloc, value, "burned", 0, u64::MAX)?;
    let collected = number_member(alloc, value, "collected", 0, u64::MAX)?;
    let state = digits_member::<32>(alloc, value, "state")?;
    let hash = digits_member::<32>(alloc, value, "hash")?;
    let mut out = Blob::from_slice(alloc, &burned.to_le_bytes())?;
    out.append(&collected.to_le_bytes())?;
    out.append(&state)?;
    out.append(&hash)?;
    Ok(out)
}

#[tactic(auto, unfolding(crate::specs::RecordJson::record_in))]
fn spelled(alloc: Global, value: &Value) -> Result<Blob, JsonFault>
    ensures { Gives is_json_memory (λ bytes. bytes) result (record_in (view value.now)) }
{
    let heading = heading(alloc, value)?;
    let (count, entries) = list_member::<Entries>(alloc, value, "entries", MAX_TRANSACTIONS)?;
    let closing = closing(alloc, value)?;
    let mut out = heading;
    out.append(&(count as u32).to_le_bytes())?;
    out.append(entries.as_slice())?;
    out.append(closing.as_slice())?;
    Ok(out)
}

/// The bytes of the record that the JSON value is (the project's own form).
///
/// Its members are `slot`, `collector`, `previous`, `entries`, `burned`, `collected`, `state` and
/// `hash`, and no others. An entry has the members `transaction` (as in a batch), `status` (the
/// text `ok`, or an object with `failed` or `dropped`), `units`, `fee` and `lines`; a member `shown`
/// beside them is passed over. The hashes are not tested.
#[tactic(auto, unfolding(crate::specs::RecordJson::record_of_data))]
pub(crate) fn record_from_value(alloc: Global, value: &Value) -> Result<Blob, JsonFault>
    ensures { Gives is_json_memory (λ bytes. bytes) result (record_of_data (view value.now)) }
{
    let bytes = spelled(alloc, value)?;
    match read_record(alloc, bytes.as_slice()) {
        Ok(_) => Ok(bytes),
        Err(RecordFault::OutOfMemory) => Err(JsonFault::OutOfMemory),
        Err(fault) => Err(JsonFault::BadRecord { fault }),
    }
}
