//! Data in JSON that are elsewhere: in files, and as assembler texts.
use crate::files::read_cause;
use crate::lines::line_of;
use bank_json::{
    batch_of_json, image_from_value, image_of_json, record_of_json, snapshot_from_value,
    snapshot_of_json,
};
use json_parts::{JsonFault, Step, Way};
use sbpf_asm::{AsmFault, assemble};
use serde_json::Value;
use sol_base::{Blob, Items, OutOfMemory};
use std::alloc::{AllocError, Global};
use std::fs;
use std::rt::Files;
use text_words::Form;

/// The most bytes of an assembler text.
const MAX_ASSEMBLY: usize = u32::MAX as usize;

/// Why data are not there.
#[derive(Drop)]
pub(crate) enum Missing {
    /// The file of this name cannot be read.
    File { name: String, cause: String },
    Assembly(AsmFault),
}

/// Why a text stands for no bytes of a form.
#[derive(Drop)]
pub(crate) enum FormFault {
    Json(JsonFault),
    /// At the end of this path, whose last step is first.
    At { path: Items<Step>, why: Missing },
    OutOfMemory,
}

impl From<OutOfMemory> for FormFault {
    fn from(_e: OutOfMemory) -> FormFault {
        FormFault::OutOfMemory
    }
}

impl From<AllocError> for FormFault {
    fn from(_e: AllocError) -> FormFault {
        FormFault::OutOfMemory
    }
}

impl From<JsonFault> for FormFault {
    fn from(fault: JsonFault) -> FormFault {
        FormFault::Json(fault)
    }
}

/// Why data are not there, at this value.
fn not_there(alloc: Global, why: Missing) -> FormFault {
    FormFault::At {
        path: Items::new(alloc),
        why,
    }
}

/// What was read of a member, or its fault as it is in the object.
fn in_member<T: Drop>(
    alloc: Global,
    name: &str,
    read: Result<T, FormFault>,
) -> Result<T, FormFault> {
    match read {
        Err(FormFault::At { mut path, why }) => {
            let name = Blob::from_slice(alloc, name.as_bytes())?;
            path.push(Step::Member { name })?;
            Err(FormFault::At { path, why })
        }
        other => other,
    }
}

/// What was read of an item, or its fault as it is in the array.
fn in_item<T: Drop>(at: usize, read: Result<T, FormFault>) -> Result<T, FormFault> {
    match read {
        Err(FormFault::At { mut path, why }) => {
            path.push(Step::Item { at })?;
            Err(FormFault::At { path, why })
        }
        other => other,
    }
}

/// The member of that name, where the object has no other.
fn alone<'a>(value: &'a Value, name: &str) -> Option<&'a Value> {
    if value.as_object()?.len() == 1 {
        value.get(name)
    } else {
        None
    }
}

/// The bytes of the file that `{"file": PATH}` names. None where it is no such object.
fn file_bytes<R: Files + AllocGlobal>(rt: &R, value: &Value) -> Result<Option<Blob>, FormFault> {
    let path = match alone(value, "file") {
        Some(path) => path,
        None => return Ok(None),
    };
    let path = match path.as_str() {
        Some(path) => path,
        None => return Ok(None),
    };
    match fs::read(rt, path) {
        Ok(bytes) => Ok(Some(Blob::from_slice(rt.alloc(), bytes.as_slice())?)),
        Err(e) => {
            let cause = read_cause(rt.alloc(), &e)?;
            let name = String::from_str(rt.alloc(), path)?;
            let why = Missing::File { name, cause };
            in_member(rt.alloc(), "file", Err(not_there(rt.alloc(), why)))
        }
    }
}

/// An assembler text, or the file that holds it.
fn assembler_text<R: Files + AllocGlobal>(
    rt: &R,
    value: &Value,
) -> Result<Option<Blob>, FormFault> {
    match value.as_str() {
        Some(text) => Ok(Some(Blob::from_slice(rt.alloc(), text.as_bytes())?)),
        None => file_bytes(rt, value),
    }
}

/// The program image that `{"assembly": TEXT}` or `{"assembly": {"file": PATH}}` comes to. None where
/// it is no such object.
fn assembled<R: Files + AllocGlobal>(rt: &R, value: &Value) -> Result<Option<Blob>, FormFault> {
    let alloc = rt.alloc();
    let inner = match alone(value, "assembly") {
        Some(inner) => inner,
        None => return Ok(None),
    };
    let text = match in_member(alloc, "assembly", assembler_text(rt, inner))? {
        Some(text) => text,
        None => return Ok(None),
    };
    if text.len() > MAX_ASSEMBLY {
        return Ok(None);
    }
    match assemble(alloc, text.as_slice()) {
        Ok(image) => Ok(Some(image)),
        Err(AsmFault::OutOfMemory) => Err(FormFault::OutOfMemory),
        Err(fault) => {
            in_member(
                alloc,
                "assembly",
                Err(not_there(alloc, Missing::Assembly(fault))),
            )
        }
    }
}

/// Puts hexadecimal digits in the place of data that are in a file or as an assembler text.
fn settle<R: Files + AllocGlobal>(rt: &R, value: &mut Value) -> Result<(), FormFault> {
    let found = match file_bytes(rt, value)? {
        Some(bytes) => Some(bytes),
        None => assembled(rt, value)?,
    };
    if let Some(bytes) = found {
        *value = Value::String(hex::encode(rt.alloc(), bytes.as_slice())?);
    }
    Ok(())
}

fn settle_member<R: Files + AllocGlobal>(
    rt: &R,
    value: &mut Value,
    name: &str,
) -> Result<(), FormFault> {
    match value.get_mut(name) {
        Some(member) => in_member(rt.alloc(), name, settle(rt, member)),
        None => Ok(()),
    }
}

fn settle_items<R: Files + AllocGlobal>(rt: &R, accounts: &mut [Value]) -> Result<(), FormFault> {
    for (at, account) in accounts.iter_mut().enumerate() {
        in_item(at, settle_member(rt, account, "data"))?;
    }
    Ok(())
}

/// The data of the accounts of a snapshot.
fn settle_accounts<R: Files + AllocGlobal>(rt: &R, value: &mut Value) -> Result<(), FormFault> {
    let accounts = match value.get_mut("accounts") {
        Some(accounts) => accounts,
        None => return Ok(()),
    };
    match accounts.as_array_mut() {
        Some(accounts) => {
            in_member(
                rt.alloc(),
                "accounts",
                settle_items(rt, accounts.as_mut_slice()),
            )
        }
        None => Ok(()),
    }
}

fn image_bytes<R: Files + AllocGlobal>(rt: &R, mut value: Value) -> Result<Blob, FormFault> {
    if let Some(image) = assembled(rt, &value)? {
        return Ok(image);
    }
    settle_member(rt, &mut value, "text")?;
    settle_member(rt, &mut value, "constants")?;
    Ok(image_from_value(rt.alloc(), &value)?)
}

fn snapshot_bytes<R: Files + AllocGlobal>(rt: &R, mut value: Value) -> Result<Blob, FormFault> {
    settle_accounts(rt, &mut value)?;
    Ok(snapshot_from_value(rt.alloc(), &value)?)
}

/// Whether data may be elsewhere.
fn has_forms(text: &str) -> bool {
    text.contains("\"file\"") || text.contains("\"assembly\"")
}

/// The bytes that a text of that form stands for. The data of accounts, and a program image or its
/// parts, may be in files or as assembler texts.
pub(crate) fn bytes_of<R: Files + AllocGlobal>(
    rt: &R,
    form: Form,
    text: &str,
) -> Result<Blob, FormFault> {
    let alloc = rt.alloc();
    if has_forms(text)
        && let Ok(value) = Value::from_str(alloc, text)
    {
        match form {
            Form::Snapshot => return snapshot_bytes(rt, value),
            Form::Image => return image_bytes(rt, value),
            Form::Batch | Form::Record => {}
        }
    }
    let bytes = match form {
        Form::Snapshot => snapshot_of_json(alloc, text)?,
        Form::Batch => batch_of_json(alloc, text)?,
        Form::Record => record_of_json(alloc, text)?,
        Form::Image => image_of_json(alloc, text)?,
    };
    Ok(bytes)
}

/// Why data are not there, as a sentence with the way to them and their line.
pub(crate) fn missing_text(
    alloc: Global,
    text: &[u8],
    path: &[Step],
    why: &Missing,
) -> Result<String, OutOfMemory> {
    let line = line_of(alloc, text, path)?;
    let way = Way { steps: path };
    let told = match why {
        Missing::File { name, cause } => {
            format!(in alloc;
                "{way}: the file {name} cannot be read: {cause}; it is named at line {line}"
            )?
        }
        Missing::Assembly(fault) => format!(in alloc; "{way}: {fault}; it stands at line {line}")?,
    };
    Ok(told)
}
