//! The command `build`: a batch in the short form as bytes.
use crate::files::file;
use crate::json::refused_text;
use crate::readings::snapshot_in;
use command_parts::{Answer, Given, INPUT_REFUSED, noted, written};
use sol_base::{Hash32, OutOfMemory};
use std::alloc::Global;
use std::rt::Files;
use std::str;
use text_short::short_batch_of_json;
use text_words::Form;

/// The newest blockhash of the snapshot, or the answer where it is none.
fn newest_in(alloc: Global, bytes: &[u8]) -> Result<Given<Option<Hash32>>, OutOfMemory> {
    match snapshot_in(alloc, "snapshot", bytes)? {
        Given::Value(prefix) => Ok(Given::Value(Some(prefix.snapshot.recent.newest()))),
        Given::Nothing(told) => Ok(Given::Nothing(told)),
    }
}

/// The newest blockhash of the snapshot in the file, where one is named.
fn newest<R: Files + AllocGlobal>(
    rt: &R,
    path: Option<&str>,
) -> Result<Given<Option<Hash32>>, OutOfMemory> {
    let path = match path {
        Some(path) => path,
        None => return Ok(Given::Value(None)),
    };
    match file(rt, path)? {
        Given::Value(bytes) => newest_in(rt.alloc(), bytes.as_slice()),
        Given::Nothing(told) => Ok(Given::Nothing(told)),
    }
}

fn batch_of(alloc: Global, input: &[u8], newest: Option<Hash32>) -> Result<Answer, OutOfMemory> {
    let text = match str::from_utf8(input) {
        Ok(text) => text,
        Err(_) => return noted(alloc, INPUT_REFUSED, "batch", "the input is not UTF-8"),
    };
    match short_batch_of_json(alloc, text, newest) {
        Ok(bytes) => written(alloc, bytes.as_slice()),
        Err(fault) => refused_text(alloc, Form::Batch, input, &fault),
    }
}

/// The answer to `build`.
pub(crate) fn built<R: Files + AllocGlobal>(
    rt: &R,
    input: &[u8],
    snapshot: Option<&str>,
) -> Result<Answer, OutOfMemory> {
    match newest(rt, snapshot)? {
        Given::Value(hash) => batch_of(rt.alloc(), input, hash),
        Given::Nothing(told) => Ok(told),
    }
}
