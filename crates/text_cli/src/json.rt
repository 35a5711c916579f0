//! The commands `json` and `bytes`: bytes as JSON, and back.
use crate::forms::{FormFault, Missing, bytes_of, missing_text};
use crate::kinds::other_kind;
use crate::lines::line_of;
use bank_json::{Layout, json_of_batch, json_of_image, json_of_record, json_of_snapshot};
use command_parts::{Answer, INPUT_REFUSED, READ_FAILED, noted, written};
use json_parts::{JsonFault, Step, Wanted, Way};
use json_shown::{
    json_of_batch_with_shown, json_of_record_with_shown, json_of_snapshot_with_shown,
};
use sol_base::{Blob, OutOfMemory};
use std::alloc::Global;
use std::rt::Files;
use std::str;
use text_words::{Form, Look};

fn name_of(form: Form) -> &'static str {
    match form {
        Form::Snapshot => "snapshot",
        Form::Batch => "batch",
        Form::Record => "record",
        Form::Image => "image",
    }
}

/// The layout, where no members `shown` are asked for.
fn layout_of(look: Look) -> Layout {
    match look {
        Look::Compact => Layout::Compact,
        Look::Pretty | Look::Shown => Layout::Pretty,
    }
}

fn text_of(alloc: Global, form: Form, look: Look, bytes: &[u8]) -> Result<String, JsonFault> {
    let layout = layout_of(look);
    match (form, look) {
        (Form::Snapshot, Look::Shown) => json_of_snapshot_with_shown(alloc, bytes),
        (Form::Batch, Look::Shown) => json_of_batch_with_shown(alloc, bytes),
        (Form::Record, Look::Shown) => json_of_record_with_shown(alloc, bytes),
        (Form::Snapshot, _) => json_of_snapshot(alloc, bytes, layout),
        (Form::Batch, _) => json_of_batch(alloc, bytes, layout),
        (Form::Record, _) => json_of_record(alloc, bytes, layout),
        (Form::Image, _) => json_of_image(alloc, bytes, layout),
    }
}

/// The answer where a text or bytes are refused as a whole. Out of memory is no refusal.
fn refused(alloc: Global, form: Form, fault: &JsonFault) -> Result<Answer, OutOfMemory> {
    if let JsonFault::OutOfMemory = fault {
        return Err(OutOfMemory);
    }
    let text = match fault {
        JsonFault::NoJson { line, column } => {
            format!(in alloc; "not JSON at line {line}, column {column}")?
        }
        other => other.to_string(alloc)?,
    };
    noted(alloc, INPUT_REFUSED, name_of(form), text.as_str())
}

/// The answer where bytes are refused. What else they are comes before what is wrong with them.
fn refused_bytes(
    alloc: Global,
    form: Form,
    bytes: &[u8],
    fault: &JsonFault,
) -> Result<Answer, OutOfMemory> {
    if let JsonFault::OutOfMemory = fault {
        return Err(OutOfMemory);
    }
    match other_kind(alloc, form, bytes)? {
        Some(text) => noted(alloc, INPUT_REFUSED, name_of(form), text.as_str()),
        None => refused(alloc, form, fault),
    }
}

/// A note that the way to a value begins, with the name of the whole before it.
fn told_at(alloc: Global, status: u8, form: Form, note: &str) -> Result<Answer, OutOfMemory> {
    let name = name_of(form);
    let note = format!(in alloc; "{name}{note}\n")?;
    Ok(Answer {
        status,
        output: Blob::new(alloc),
        notes: Blob::from_slice(alloc, note.as_bytes())?,
    })
}

/// What is wanted at the end of a way, without the line.
fn wanted_text(alloc: Global, path: &[Step], wanted: &Wanted) -> Result<String, OutOfMemory> {
    let way = Way { steps: path };
    let text = match wanted {
        Wanted::Absence { .. } | Wanted::Instruction { .. } => {
            format!(in alloc; "{way}: {wanted}; it stands")?
        }
        _ => format!(in alloc; "{way}: {wanted}")?,
    };
    Ok(text)
}

/// The answer where a text is refused. Where something else is wanted at a place of it, the way to it stands
/// first, and its line last.
pub(crate) fn refused_text(
    alloc: Global,
    form: Form,
    text: &[u8],
    fault: &JsonFault,
) -> Result<Answer, OutOfMemory> {
    let (path, wanted) = match fault {
        JsonFault::Refused { path, wanted } => (path, wanted),
        other => return refused(alloc, form, other),
    };
    let line = line_of(alloc, text, path.as_slice())?;
    let told = wanted_text(alloc, path.as_slice(), wanted)?;
    let note = format!(in alloc; "{told} at line {line}")?;
    told_at(alloc, INPUT_REFUSED, form, note.as_str())
}

/// The answer where data that are elsewhere are not there.
fn missing_data(
    alloc: Global,
    form: Form,
    text: &[u8],
    path: &[Step],
    why: &Missing,
) -> Result<Answer, OutOfMemory> {
    let status = match why {
        Missing::File { .. } => READ_FAILED,
        Missing::Assembly(_) => INPUT_REFUSED,
    };
    let note = missing_text(alloc, text, path, why)?;
    told_at(alloc, status, form, note.as_str())
}

/// The answer to `json`.
pub(crate) fn told_json(
    alloc: Global,
    form: Form,
    look: Look,
    bytes: &[u8],
) -> Result<Answer, OutOfMemory> {
    match text_of(alloc, form, look, bytes) {
        Ok(mut text) => {
            text.push('\n')?;
            written(alloc, text.as_bytes())
        }
        Err(fault) => refused_bytes(alloc, form, bytes, &fault),
    }
}

/// The answer to `bytes`.
pub(crate) fn told_bytes<R: Files + AllocGlobal>(
    rt: &R,
    form: Form,
    input: &[u8],
) -> Result<Answer, OutOfMemory> {
    let alloc = rt.alloc();
    let text = match str::from_utf8(input) {
        Ok(text) => text,
        Err(_) => return noted(
            alloc,
            INPUT_REFUSED,
            name_of(form),
            "the input is not UTF-8",
        ),
    };
    match bytes_of(rt, form, text) {
        Ok(bytes) => written(alloc, bytes.as_slice()),
        Err(FormFault::Json(fault)) => refused_text(alloc, form, input, &fault),
        Err(FormFault::At { path, why }) => missing_data(alloc, form, input, path.as_slice(), &why),
        Err(FormFault::OutOfMemory) => Err(OutOfMemory),
    }
}
