//! The command `diff`: two snapshots or two records.
use crate::files::file;
use crate::readings::{record_in, snapshot_in};
use command_parts::{Answer, DIFFERS, Given, INPUT_REFUSED, noted};
use snapshot_codec::{Prefix, Snapshot};
use sol_base::{Blob, OutOfMemory};
use std::alloc::Global;
use std::rt::Files;
use text_views::{block_differences, snapshot_differences};

/// The lines of two files that differ, and the status where there are any.
pub(crate) fn compared<R: Files + AllocGlobal>(
    rt: &R,
    left: &str,
    right: &str,
) -> Result<Answer, OutOfMemory> {
    let first = match file(rt, left)? {
        Given::Value(bytes) => bytes,
        Given::Nothing(told) => return Ok(told),
    };
    let second = match file(rt, right)? {
        Given::Value(bytes) => bytes,
        Given::Nothing(told) => return Ok(told),
    };
    let (one, two) = (first.as_slice(), second.as_slice());
    let records = one.starts_with(b"SOLBLCK1");
    if records != two.starts_with(b"SOLBLCK1") {
        return noted(
            rt.alloc(),
            INPUT_REFUSED,
            "diff",
            "one is a record, the other is none",
        );
    }
    if records {
        compared_records(rt.alloc(), (left, one), (right, two))
    } else {
        compared_snapshots(rt.alloc(), (left, one), (right, two))
    }
}

/// The lines, and the status that they have.
fn told_lines(alloc: Global, lines: Blob) -> Answer {
    Answer {
        status: if lines.is_empty() { 0 } else { DIFFERS },
        output: lines,
        notes: Blob::new(alloc),
    }
}

fn compared_records(
    alloc: Global,
    left: (&str, &[u8]),
    right: (&str, &[u8]),
) -> Result<Answer, OutOfMemory> {
    let one = match record_in(alloc, left.0, left.1)? {
        Given::Value(block) => block,
        Given::Nothing(told) => return Ok(told),
    };
    let two = match record_in(alloc, right.0, right.1)? {
        Given::Value(block) => block,
        Given::Nothing(told) => return Ok(told),
    };
    Ok(told_lines(alloc, block_differences(alloc, &one, &two)?))
}

/// The file's snapshot, or the answer where it is none or other bytes follow it.
fn whole_snapshot(alloc: Global, name: &str, bytes: &[u8]) -> Result<Given<Snapshot>, OutOfMemory> {
    match snapshot_in(alloc, name, bytes)? {
        Given::Value(Prefix { snapshot, length }) if length == bytes.len() => {
            Ok(Given::Value(snapshot))
        }
        Given::Value(_) => {
            Ok(Given::Nothing(noted(alloc, INPUT_REFUSED, name, "bytes follow the snapshot")?))
        }
        Given::Nothing(told) => Ok(Given::Nothing(told)),
    }
}

fn compared_snapshots(
    alloc: Global,
    left: (&str, &[u8]),
    right: (&str, &[u8]),
) -> Result<Answer, OutOfMemory> {
    let one = match whole_snapshot(alloc, left.0, left.1)? {
        Given::Value(snapshot) => snapshot,
        Given::Nothing(told) => return Ok(told),
    };
    let two = match whole_snapshot(alloc, right.0, right.1)? {
        Given::Value(snapshot) => snapshot,
        Given::Nothing(told) => return Ok(told),
    };
    Ok(told_lines(alloc, snapshot_differences(alloc, &one, &two)?))
}
