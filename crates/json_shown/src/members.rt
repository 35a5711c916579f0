//! Members `shown` in the values of batches, records and snapshots.
use crate::snapshot::accounts_shown;
use crate::transaction::transaction_shown;
use block_record::{Entry, RecordFault, read_record};
use json_parts::{JsonFault, transaction};
use serde_json::{Value, json, put};
use snapshot_codec::{SnapshotFault, read_snapshot};
use sol_base::OutOfMemory;
use std::alloc::{AllocError, Global};
use std::str;
use tx_report::{Status, status_text};

/// Puts a member `shown` into an object.
fn show(alloc: Global, value: &mut Value, shown: Value) -> Result<(), AllocError> {
    match value.as_object_mut() {
        Some(members) => put(members, alloc, "shown", shown),
        None => Ok(()),
    }
}

fn show_transaction(alloc: Global, value: &mut Value) -> Result<(), AllocError> {
    let wire = match transaction(alloc, value) {
        Ok(wire) => wire,
        Err(JsonFault::OutOfMemory) => return Err(AllocError),
        Err(_) => return Ok(()),
    };
    let shown = transaction_shown(alloc, wire.as_slice())?;
    show(alloc, value, shown)
}

/// The status by name.
fn status_shown(alloc: Global, status: &Status) -> Result<Value, AllocError> {
    let text = match status_text(alloc, status) {
        Ok(text) => text,
        Err(OutOfMemory) => return Err(AllocError),
    };
    match str::from_utf8(text.as_slice()) {
        Ok(text) => json!(in alloc; {"status": text}),
        Err(_) => Ok(Value::Null),
    }
}

fn show_entry(alloc: Global, value: &mut Value, entry: &Entry) -> Result<(), AllocError> {
    let shown = status_shown(alloc, &entry.status)?;
    show(alloc, value, shown)?;
    match value.get_mut("transaction") {
        Some(transaction) => show_transaction(alloc, transaction),
        None => Ok(()),
    }
}

/// The items of the member of that name.
fn items_mut<'a>(value: &'a mut Value, name: &str) -> Option<&'a mut Vec<Value>> {
    value.get_mut(name)?.as_array_mut()
}

/// Shows each transaction of a batch.
pub(crate) fn show_batch(alloc: Global, value: &mut Value) -> Result<(), AllocError> {
    if let Some(transactions) = items_mut(value, "transactions") {
        for transaction in transactions.iter_mut() {
            show_transaction(alloc, transaction)?;
        }
    }
    Ok(())
}

/// Shows each entry of the record that the bytes are.
pub(crate) fn show_record(
    alloc: Global,
    value: &mut Value,
    bytes: &[u8],
) -> Result<(), AllocError> {
    let block = match read_record(alloc, bytes) {
        Ok(block) => block,
        Err(RecordFault::OutOfMemory) => return Err(AllocError),
        Err(_) => return Ok(()),
    };
    if let Some(entries) = items_mut(value, "entries") {
        for (value, entry) in entries.iter_mut().zip(block.entries.as_slice()) {
            show_entry(alloc, value, entry)?;
        }
    }
    Ok(())
}

/// Shows the accounts of the snapshot that the bytes are.
pub(crate) fn show_snapshot(
    alloc: Global,
    value: &mut Value,
    bytes: &[u8],
) -> Result<(), AllocError> {
    match read_snapshot(alloc, bytes) {
        Ok(prefix) => {
            let shown = accounts_shown(alloc, &prefix.snapshot.accounts)?;
            show(alloc, value, shown)
        }
        Err(SnapshotFault::OutOfMemory) => Err(AllocError),
        Err(_) => Ok(()),
    }
}
