//! The command `why`: the refusal of an input as a sentence.
use crate::places::{batch_field, image_end, record_field, snapshot_field};
use crate::source::{is_source, why_source};
use block_record::{RecordFault, read_record};
use command_parts::{Answer, INPUT_REFUSED, noted, written};
use sbpf_verify::{VerifyFault, first_refusal, read_image};
use snapshot_codec::{BatchFault, MAX_ACCOUNTS, SnapshotFault, read_batch, read_snapshot};
use sol_base::{
    MAX_BLOCK_UNITS, MAX_STACK_HEIGHT, MAX_TRANSACTION_KEYS, MAX_TRANSACTIONS, OutOfMemory,
};
use status_cache::MAX_MARKS;
use std::alloc::Global;

/// The most bytes that are shown of what is at a place.
const MAX_SHOWN: usize = 32;

/// The least and the greatest number of a field, where it has a range.
fn range_of(field: &str) -> Option<(u64, u64)> {
    match field {
        "keys per transaction" => Some((1, u64::from(MAX_TRANSACTION_KEYS))),
        "stack height" => Some((1, u64::from(MAX_STACK_HEIGHT))),
        "units per writable key" => Some((1, MAX_BLOCK_UNITS)),
        "units per block" => Some((1, MAX_BLOCK_UNITS)),
        "number of marks" => Some((0, MAX_MARKS as u64)),
        "number of accounts" => Some((0, u64::from(MAX_ACCOUNTS))),
        "number of transactions" => Some((0, MAX_TRANSACTIONS as u64)),
        "number of entries" => Some((0, MAX_TRANSACTIONS as u64)),
        _ => None,
    }
}

/// What is wanted of a field, where that is known.
fn wanted(alloc: Global, field: &str) -> Result<String, OutOfMemory> {
    if field == "magic" {
        let text = "; SOLSNAP1, SOLSNAP2, SOLBATC1, SOLBLCK1 or SBPFIMG1 is wanted";
        return Ok(String::from_str(alloc, text)?);
    }
    match range_of(field) {
        Some((least, most)) => Ok(format!(in alloc; "; {least} to {most} is wanted")?),
        None => Ok(String::new(alloc)),
    }
}

/// The bytes that are at a place, in hexadecimal digits.
fn standing(alloc: Global, bytes: &[u8], at: usize) -> Result<String, OutOfMemory> {
    let rest = match bytes.get(at..) {
        Some(rest) => rest,
        None => &[],
    };
    let shown = match rest.get(..MAX_SHOWN) {
        Some(shown) => shown,
        None => rest,
    };
    Ok(hex::encode(alloc, shown)?)
}

/// The sentence: the field, its place, what is wrong, what is there and what is wanted.
fn sentence(
    alloc: Global,
    part: &str,
    place: (&str, usize),
    fault: &str,
    bytes: &[u8],
) -> Result<Answer, OutOfMemory> {
    let (field, at) = place;
    let stands = standing(alloc, bytes, at)?;
    let wanted = wanted(alloc, field)?;
    let text = if stands.is_empty() {
        format!(in alloc; "{field}, byte {at}: {fault}; nothing stands there{wanted}")?
    } else {
        format!(in alloc; "{field}, byte {at}: {fault}; there stands {stands}{wanted}")?
    };
    noted(alloc, INPUT_REFUSED, part, text.as_str())
}

fn snapshot_place(fault: SnapshotFault) -> Option<usize> {
    match fault {
        SnapshotFault::Magic => Some(0),
        SnapshotFault::Truncated { at } => Some(at),
        SnapshotFault::BadField { at } => Some(at),
        SnapshotFault::OutOfOrder { at } => Some(at),
        SnapshotFault::Empty { at } => Some(at),
        SnapshotFault::DataTooLong { at } => Some(at),
        SnapshotFault::SupplyTooLarge => None,
        SnapshotFault::TooManyAccounts => None,
        SnapshotFault::OutOfMemory => None,
    }
}

fn why_snapshot(alloc: Global, bytes: &[u8], fault: SnapshotFault) -> Result<Answer, OutOfMemory> {
    let text = fault.to_string(alloc)?;
    match snapshot_place(fault) {
        Some(at) => {
            let field = snapshot_field(alloc, bytes, at)?;
            sentence(
                alloc,
                "snapshot",
                (field.as_str(), at),
                text.as_str(),
                bytes,
            )
        }
        None => noted(alloc, INPUT_REFUSED, "snapshot", text.as_str()),
    }
}

fn batch_place(fault: BatchFault) -> Option<usize> {
    match fault {
        BatchFault::Magic => Some(0),
        BatchFault::Truncated { at } => Some(at),
        BatchFault::TooMany => Some(48),
        BatchFault::Trailing { at } => Some(at),
        BatchFault::SlotNotLater => Some(8),
        BatchFault::OutOfMemory => None,
    }
}

fn why_batch(alloc: Global, bytes: &[u8], before: u64) -> Result<Answer, OutOfMemory> {
    let fault = match read_batch(alloc, bytes, before) {
        Ok(_) => return written(alloc, b"it is not refused\n"),
        Err(BatchFault::OutOfMemory) => return Err(OutOfMemory),
        Err(fault) => fault,
    };
    let text = fault.to_string(alloc)?;
    match batch_place(fault) {
        Some(at) => {
            let field = batch_field(alloc, bytes, at)?;
            sentence(alloc, "batch", (field.as_str(), at), text.as_str(), bytes)
        }
        None => noted(alloc, INPUT_REFUSED, "batch", text.as_str()),
    }
}

fn record_place(fault: RecordFault) -> Option<usize> {
    match fault {
        RecordFault::Truncated { at } => Some(at),
        RecordFault::BadField { at } => Some(at),
        RecordFault::Trailing { at } => Some(at),
        RecordFault::OutOfMemory => None,
    }
}

fn why_record(alloc: Global, bytes: &[u8]) -> Result<Answer, OutOfMemory> {
    let fault = match read_record(alloc, bytes) {
        Ok(_) => return written(alloc, b"it is not refused\n"),
        Err(RecordFault::OutOfMemory) => return Err(OutOfMemory),
        Err(fault) => fault,
    };
    let text = fault.to_string(alloc)?;
    match record_place(fault) {
        Some(at) => {
            let field = record_field(alloc, bytes, at)?;
            sentence(alloc, "record", (field.as_str(), at), text.as_str(), bytes)
        }
        None => noted(alloc, INPUT_REFUSED, "record", text.as_str()),
    }
}

/// The slot that is refused. None where it is the whole text.
pub(crate) fn refused_slot(fault: VerifyFault) -> Option<u32> {
    match fault {
        VerifyFault::Length | VerifyFault::OpenEnd => None,
        VerifyFault::Opcode { at }
        | VerifyFault::Register { at }
        | VerifyFault::WritesFrame { at }
        | VerifyFault::ZeroDivisor { at }
        | VerifyFault::Shift { at }
        | VerifyFault::HalfWide { at }
        | VerifyFault::Jump { at }
        | VerifyFault::Helper { at }
        | VerifyFault::Field { at } => Some(at),
    }
}

/// The sentence of a text that the verifier refuses. The slots are from byte 16 of the image on.
fn why_text(alloc: Global, bytes: &[u8], fault: VerifyFault) -> Result<Answer, OutOfMemory> {
    let text = fault.to_string(alloc)?;
    let slot = match refused_slot(fault) {
        Some(slot) => slot,
        None => return noted(alloc, INPUT_REFUSED, "image", text.as_str()),
    };
    let field = format!(in alloc; "slot {slot}")?;
    let at = (slot as usize).saturating_mul(8).saturating_add(16);
    let through = match bytes.get(..at.saturating_add(8)) {
        Some(through) => through,
        None => bytes,
    };
    sentence(alloc, "image", (field.as_str(), at), text.as_str(), through)
}

fn why_image(alloc: Global, bytes: &[u8]) -> Result<Answer, OutOfMemory> {
    if let Some(image) = read_image(bytes) {
        return match first_refusal(image.text) {
            Some(fault) => why_text(alloc, bytes, fault),
            None => written(alloc, b"it is not refused\n"),
        };
    }
    let end = image_end(bytes);
    let at = end.at;
    let text = if end.is_cut {
        format!(in alloc; "the image is cut at byte {at}")?
    } else {
        format!(in alloc; "bytes follow the image from byte {at} on")?
    };
    sentence(alloc, "image", (end.field, at), text.as_str(), bytes)
}

/// The refusal of a snapshot, a batch, a record, a program image, an assembler text, or a snapshot and
/// what follows it, as a sentence.
pub(crate) fn explained(alloc: Global, bytes: &[u8]) -> Result<Answer, OutOfMemory> {
    if bytes.starts_with(b"SOLBATC1") {
        return why_batch(alloc, bytes, 0);
    }
    if bytes.starts_with(b"SOLBLCK1") {
        return why_record(alloc, bytes);
    }
    if bytes.starts_with(b"SBPFIMG1") {
        return why_image(alloc, bytes);
    }
    if is_source(bytes) {
        return why_source(alloc, bytes);
    }
    let prefix = match read_snapshot(alloc, bytes) {
        Ok(prefix) => prefix,
        Err(SnapshotFault::OutOfMemory) => return Err(OutOfMemory),
        Err(fault) => return why_snapshot(alloc, bytes, fault),
    };
    let rest = match bytes.get(prefix.length..) {
        Some(rest) => rest,
        None => &[],
    };
    if rest.is_empty() {
        written(alloc, b"it is not refused\n")
    } else if rest.starts_with(b"SOLBLCK1") {
        why_record(alloc, rest)
    } else {
        why_batch(alloc, rest, prefix.snapshot.slot)
    }
}
