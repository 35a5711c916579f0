//! The commands that read one input.
use crate::build::built;
use crate::compared::compared;
use crate::files::{not_written, standard_input};
use crate::json::{told_bytes, told_json};
use crate::kinds::other_kind;
use crate::readings::snapshot_in;
use crate::shape::shaped;
use crate::why::explained;
use block_record::{RecordFault, read_front};
use command_parts::{Answer, DIFFERS, Given, INPUT_REFUSED, noted, path_of, written};
use message_codec::Signature;
use sol_base::{Key, OutOfMemory};
use std::alloc::Global;
use std::fs::File;
use std::rt::Files;
use text_views::{Split, split_output, view_account, view_entry};
use text_words::{Form, Sought, TextCommand, USAGE};
use whole_files::{NewFile, write_files};

/// The answer to a command.
pub(crate) fn answer_command<R: Files<File = File> + Input + AllocGlobal>(
    rt: &R,
    command: &TextCommand,
) -> Result<Answer, OutOfMemory> {
    if let TextCommand::Diff { left, right } = command {
        return compared(rt, path_of(left), path_of(right));
    }
    let input = match standard_input(rt)? {
        Given::Value(input) => input,
        Given::Nothing(told) => return Ok(told),
    };
    match command {
        TextCommand::Split { record, snapshot } => {
            parted(rt, input.as_slice(), path_of(record), path_of(snapshot))
        }
        TextCommand::Build { snapshot } => {
            let file = match snapshot {
                Some(file) => Some(path_of(file)),
                None => None,
            };
            built(rt, input.as_slice(), file)
        }
        TextCommand::Shape { picture } => {
            let file = match picture {
                Some(file) => Some(path_of(file)),
                None => None,
            };
            shaped(rt, input.as_slice(), file)
        }
        TextCommand::View { sought } => viewed(rt.alloc(), input.as_slice(), sought),
        TextCommand::Why => explained(rt.alloc(), input.as_slice()),
        TextCommand::Json { form, look } => told_json(rt.alloc(), *form, *look, input.as_slice()),
        TextCommand::Bytes { form } => told_bytes(rt, *form, input.as_slice()),
        _ => written(rt.alloc(), USAGE.as_bytes()),
    }
}

/// The answer where no record is at the front.
fn no_record(alloc: Global, bytes: &[u8], fault: &RecordFault) -> Result<Answer, OutOfMemory> {
    let text = match other_kind(alloc, Form::Record, bytes)? {
        Some(text) => text,
        None => fault.to_string(alloc)?,
    };
    noted(alloc, INPUT_REFUSED, "record", text.as_str())
}

/// Writes the two parts of what `produce` wrote.
fn parted<R: Files<File = File> + AllocGlobal>(
    rt: &R,
    bytes: &[u8],
    record: &str,
    snapshot: &str,
) -> Result<Answer, OutOfMemory> {
    let alloc = rt.alloc();
    let length = match split_output(alloc, bytes)? {
        Split::Parts { record } => record,
        Split::NoRecord(fault) => return no_record(alloc, bytes, &fault),
        Split::NoSnapshot(fault) => {
            let text = fault.to_string(alloc)?;
            return noted(alloc, INPUT_REFUSED, "snapshot", text.as_str());
        }
        Split::Trailing { count } => {
            let text = format!(in alloc; "{count} bytes follow it")?;
            return noted(alloc, INPUT_REFUSED, "snapshot", text.as_str());
        }
    };
    if length > bytes.len() {
        return Err(OutOfMemory);
    }
    let (front, back) = bytes.split_at(length);
    let files = [
        NewFile {
            name: record,
            bytes: front,
        },
        NewFile {
            name: snapshot,
            bytes: back,
        },
    ];
    match write_files(rt, &files) {
        Ok(()) => written(alloc, b""),
        Err(fault) => not_written(alloc, "split", &fault),
    }
}

/// The account or the transaction of a snapshot or a record, told by the first eight bytes.
fn viewed(alloc: Global, bytes: &[u8], sought: &Sought) -> Result<Answer, OutOfMemory> {
    let is_record = bytes.starts_with(b"SOLBLCK1");
    match *sought {
        Sought::Account(key) if !is_record => viewed_account(alloc, bytes, &key),
        Sought::Account(_) => noted(alloc, INPUT_REFUSED, "record", "it holds no accounts"),
        Sought::Transaction(signature) if is_record => {
            viewed_entry(alloc, bytes, &Signature(signature))
        }
        Sought::Transaction(_) => {
            noted(alloc, INPUT_REFUSED, "snapshot", "it holds no transactions")
        }
    }
}

fn viewed_account(alloc: Global, bytes: &[u8], key: &Key) -> Result<Answer, OutOfMemory> {
    let prefix = match snapshot_in(alloc, "snapshot", bytes)? {
        Given::Value(prefix) => prefix,
        Given::Nothing(told) => return Ok(told),
    };
    match view_account(alloc, &prefix.snapshot.accounts, key)? {
        Some(text) => written(alloc, text.as_slice()),
        None => noted(alloc, DIFFERS, "snapshot", "there is no such account"),
    }
}

fn viewed_entry(alloc: Global, bytes: &[u8], signature: &Signature) -> Result<Answer, OutOfMemory> {
    let front = match read_front(alloc, bytes) {
        Ok(front) => front,
        Err(RecordFault::OutOfMemory) => return Err(OutOfMemory),
        Err(fault) => {
            let text = fault.to_string(alloc)?;
            return noted(alloc, INPUT_REFUSED, "record", text.as_str());
        }
    };
    match view_entry(alloc, &front.block, signature)? {
        Some(mut text) => {
            text.append(b"\n")?;
            written(alloc, text.as_slice())
        }
        None => noted(alloc, DIFFERS, "record", "there is no such transaction"),
    }
}
