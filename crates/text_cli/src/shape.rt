//! The command `shape`: how parallel the block of a snapshot and a batch can be.
ghost use Rattle.std.specs.Prelude.{◌<◌, ◌≤◌, ◌^◌, length};
ghost use Rattle.sol_base.specs.Limits.{max_transaction_keys};

use crate::files::not_written;
use crate::picture::picture;
use admission::admit;
use block_shape::{Shape, Waited, most_waited, shape_of};
use command_parts::{Answer, INPUT_REFUSED, noted, written};
use snapshot_codec::{Batch, BatchFault, Snapshot, SnapshotFault, read_batch, read_snapshot};
use sol_base::{Blob, OutOfMemory, key_text};
use std::alloc::Global;
use std::fs::File;
use std::rt::Files;
use whole_files::{NewFile, write_files};

/// How many lanes can pay at most, with two decimals.
pub(crate) fn lanes_text(alloc: Global, shape: &Shape) -> Result<String, OutOfMemory> {
    let hundredths = shape.lanes();
    let whole = hundredths / 100;
    let part = hundredths % 100;
    Ok(format!(in alloc; "{whole}.{part:02}")?)
}

/// The lines of a shape.
fn shape_text(
    alloc: Global,
    count: usize,
    shape: &Shape,
    waited: &[Waited],
) -> Result<Blob, OutOfMemory> {
    let lanes = lanes_text(alloc, shape)?;
    let (depth, longest, units) = (shape.depth, shape.longest, shape.units);
    let text = format!(in alloc;
        "transactions {count}\ndepth {depth}\nunits on the longest chain {longest}\nunits {units}\nlanes that can pay {lanes}\n"
    )?;
    let mut out = Blob::from_slice(alloc, text.as_bytes())?;
    for Waited { key, count } in waited {
        out.append(b"waited for ")?;
        out.append(&key_text(key))?;
        out.append(format!(in alloc; " {count}\n")?.as_bytes())?;
    }
    Ok(out)
}

/// The shape of the batch after the snapshot, and its picture where a file is named.
fn shape_answer<R: Files<File = File> + AllocGlobal>(
    rt: &R,
    snapshot: &Snapshot,
    batch: &Batch,
    file: Option<&str>,
) -> Result<Answer, OutOfMemory>
    requires keys { snapshot.now.limits.keys ≤ max_transaction_keys }
    requires few { length batch.now.wires < 2 ^ 32 }
{
    let alloc = rt.alloc();
    let told = admit(
        alloc,
        &batch.wires,
        &snapshot.recent,
        &snapshot.accounts,
        &snapshot.limits,
    )?;
    let order = told.order.as_slice();
    let shape = shape_of(alloc, order)?;
    let waited = most_waited(alloc, order)?;
    if let Some(file) = file {
        let text = picture(alloc, order, &shape, waited.as_slice())?;
        let picture = NewFile {
            name: file,
            bytes: text.as_slice(),
        };
        if let Err(fault) = write_files(rt, &[picture]) {
            return not_written(alloc, "shape", &fault);
        }
    }
    let text = shape_text(alloc, order.len(), &shape, waited.as_slice())?;
    written(alloc, text.as_slice())
}

/// The answer to `shape`: a snapshot and a batch after it.
pub(crate) fn shaped<R: Files<File = File> + AllocGlobal>(
    rt: &R,
    bytes: &[u8],
    file: Option<&str>,
) -> Result<Answer, OutOfMemory> {
    let alloc = rt.alloc();
    let prefix = match read_snapshot(alloc, bytes) {
        Ok(prefix) => prefix,
        Err(SnapshotFault::OutOfMemory) => return Err(OutOfMemory),
        Err(fault) => {
            let text = fault.to_string(alloc)?;
            return noted(alloc, INPUT_REFUSED, "snapshot", text.as_str());
        }
    };
    let rest = &bytes[prefix.length..];
    match read_batch(alloc, rest, prefix.snapshot.slot) {
        Ok(batch) => shape_answer(rt, &prefix.snapshot, &batch, file),
        Err(BatchFault::OutOfMemory) => Err(OutOfMemory),
        Err(fault) => {
            let text = fault.to_string(alloc)?;
            noted(alloc, INPUT_REFUSED, "batch", text.as_str())
        }
    }
}
