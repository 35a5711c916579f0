//! What bytes are, by the first eight of them.
use sol_base::OutOfMemory;
use std::alloc::Global;
use text_views::{Split, split_output};
use text_words::Form;

/// A kind of bytes.
#[derive(Clone, Copy)]
struct Kind {
    form: Form,
    name: &'static str,
}

/// The kind that the first eight bytes tell.
fn kind_of(bytes: &[u8]) -> Option<Kind> {
    let (form, name) = match bytes.get(..8)? {
        b"SOLSNAP1" => (Form::Snapshot, "a snapshot (SOLSNAP1)"),
        b"SOLSNAP2" => (Form::Snapshot, "a snapshot (SOLSNAP2)"),
        b"SOLBATC1" => (Form::Batch, "a batch (SOLBATC1)"),
        b"SOLBLCK1" => (Form::Record, "a record (SOLBLCK1)"),
        b"SBPFIMG1" => (Form::Image, "a program image (SBPFIMG1)"),
        _ => return None,
    };
    Some(Kind { form, name })
}

/// What bytes of a form begin with.
fn beginning(form: Form) -> &'static str {
    match form {
        Form::Snapshot => "SOLSNAP1 or SOLSNAP2",
        Form::Batch => "SOLBATC1",
        Form::Record => "SOLBLCK1",
        Form::Image => "SBPFIMG1",
    }
}

/// Whether the bytes are what `produce` writes.
fn is_block(alloc: Global, bytes: &[u8]) -> Result<bool, OutOfMemory> {
    match split_output(alloc, bytes)? {
        Split::Parts { record: _ } => Ok(true),
        _ => Ok(false),
    }
}

/// What bytes are that are not of the form that is wanted, where their beginning tells it.
pub(crate) fn other_kind(
    alloc: Global,
    wanted: Form,
    bytes: &[u8],
) -> Result<Option<String>, OutOfMemory> {
    let Some(kind) = kind_of(bytes) else {
        return Ok(None);
    };
    if kind.form == Form::Record && is_block(alloc, bytes)? {
        let text = "these are a record and a snapshot, which `split` parts";
        return Ok(Some(String::from_str(alloc, text)?));
    }
    if kind.form == wanted {
        return Ok(None);
    }
    let (begins, name) = (beginning(wanted), kind.name);
    let text = format!(in alloc; "{begins} is wanted at byte 0; these bytes are {name}")?;
    Ok(Some(text))
}
