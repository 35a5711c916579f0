//! JSON texts with members `shown`. Each is read again before it is handed out.
ghost use Rattle.std.specs.Prelude.{◌≡◌, false, None, Ok, Err, IfOk, IfErr, IfSome, string_bytes};
ghost use Rattle.json_parts.specs.Faults.{is_json_memory};
ghost use Rattle.bank_json.specs.SnapshotJson.{data_of_snapshot, snapshot_of_data};
ghost use Rattle.bank_json.specs.BatchJson.{data_of_batch, batch_of_data};
ghost use Rattle.bank_json.specs.RecordJson.{data_of_record, record_of_data};
ghost use Rattle.bank_json.specs.Texts.{TextIs};

use crate::members::{show_batch, show_record, show_snapshot};
use bank_json::{
    Layout, batch_of_json, batch_value, json_of_batch, json_of_record, json_of_snapshot,
    record_of_json, record_value, snapshot_of_json, snapshot_value,
};
use json_parts::JsonFault;
use sol_base::Blob;
use std::alloc::{AllocError, Global};

/// There is no text: none that was read as it should be, or no memory.
fn no_text(fault: &JsonFault) -> Result<Option<String>, AllocError>
    ensures { IfOk result (λ found. found ≡ None) }
{
    match fault {
        JsonFault::OutOfMemory => Err(AllocError),
        _ => Ok(None),
    }
}

/// The text, where these bytes were read of it.
fn if_read_back(
    text: String,
    read: Result<Blob, JsonFault>,
    bytes: &[u8],
) -> Result<Option<String>, AllocError>
    ensures { IfOk result (λ found. IfSome found
        (λ kept. (kept ≡ text) × (read ≡ Ok bytes.now))) }
{
    match read {
        Ok(read) => {
            if read.as_slice() == bytes {
                Ok(Some(text))
            } else {
                Ok(None)
            }
        }
        Err(fault) => no_text(&fault),
    }
}

/// The JSON text of the batch that the bytes are, as `json_of_batch` writes it in its pretty layout,
/// and beside each transaction, in a member `shown`, what a person wants to see of it: its
/// instructions by name, the name of its message, its fee, price, units and rank. `batch_of_json`
/// turns it into the same bytes: it is read again, and where other bytes came of it there would be
/// no members `shown`. Bytes that are no batch are refused.
pub fn json_of_batch_with_shown(alloc: Global, bytes: &[u8]) -> Result<String, JsonFault>
    ensures comes_back { IfOk result (λ text. TextIs batch_of_data (string_bytes text) bytes.now) }
    ensures refuses { IfErr result (λ fault. is_json_memory fault ≡ false
        → data_of_batch bytes.now ≡ Err fault) }
{
    let mut value = batch_value(alloc, bytes)?;
    show_batch(alloc, &mut value)?;
    let text = value.to_string_pretty(alloc)?;
    let read = batch_of_json(alloc, text.as_str());
    match if_read_back(text, read, bytes)? {
        Some(text) => Ok(text),
        None => json_of_batch(alloc, bytes, Layout::Pretty),
    }
}

/// The JSON text of the record that the bytes are, as `json_of_record` writes it in its pretty layout,
/// and in members `shown` the status of each entry by name, and of its transaction what a batch
/// shows. `record_of_json` turns it into the same bytes: it is read again, as that of a batch. Bytes
/// that are no record are refused.
pub fn json_of_record_with_shown(alloc: Global, bytes: &[u8]) -> Result<String, JsonFault>
    ensures comes_back { IfOk result (λ text. TextIs record_of_data (string_bytes text) bytes.now) }
    ensures refuses { IfErr result (λ fault. is_json_memory fault ≡ false
        → data_of_record bytes.now ≡ Err fault) }
{
    let mut value = record_value(alloc, bytes)?;
    show_record(alloc, &mut value, bytes)?;
    let text = value.to_string_pretty(alloc)?;
    let read = record_of_json(alloc, text.as_str());
    match if_read_back(text, read, bytes)? {
        Some(text) => Ok(text),
        None => json_of_record(alloc, bytes, Layout::Pretty),
    }
}

/// The JSON text of the snapshot that the bytes are, as `json_of_snapshot` writes it in its pretty
/// layout, and in a member `shown` how many accounts there are, what they have together, and which of
/// them are programs. `snapshot_of_json` turns it into the same bytes: it is read again, as that of a
/// batch. Bytes that are no snapshot are refused.
pub fn json_of_snapshot_with_shown(alloc: Global, bytes: &[u8]) -> Result<String, JsonFault>
    ensures comes_back { IfOk result (λ text. TextIs snapshot_of_data (string_bytes text) bytes.now) }
    ensures refuses { IfErr result (λ fault. is_json_memory fault ≡ false
        → data_of_snapshot bytes.now ≡ Err fault) }
{
    let mut value = snapshot_value(alloc, bytes)?;
    show_snapshot(alloc, &mut value, bytes)?;
    let text = value.to_string_pretty(alloc)?;
    let read = snapshot_of_json(alloc, text.as_str());
    match if_read_back(text, read, bytes)? {
        Some(text) => Ok(text),
        None => json_of_snapshot(alloc, bytes, Layout::Pretty),
    }
}
