//! The values that bytes spell, or the answer where they spell none.
use block_record::{Block, RecordFault, read_record};
use command_parts::{Given, INPUT_REFUSED, noted};
use snapshot_codec::{Prefix, SnapshotFault, read_snapshot};
use sol_base::OutOfMemory;
use std::alloc::Global;

/// The snapshot at the front of the bytes, or the answer where there is none.
pub(crate) fn snapshot_in(
    alloc: Global,
    name: &str,
    bytes: &[u8],
) -> Result<Given<Prefix>, OutOfMemory> {
    match read_snapshot(alloc, bytes) {
        Ok(prefix) => Ok(Given::Value(prefix)),
        Err(SnapshotFault::OutOfMemory) => Err(OutOfMemory),
        Err(fault) => {
            let text = fault.to_string(alloc)?;
            Ok(Given::Nothing(noted(alloc, INPUT_REFUSED, name, text.as_str())?))
        }
    }
}

/// The record that the bytes are, or the answer where they are none.
pub(crate) fn record_in(
    alloc: Global,
    name: &str,
    bytes: &[u8],
) -> Result<Given<Block>, OutOfMemory> {
    match read_record(alloc, bytes) {
        Ok(block) => Ok(Given::Value(block)),
        Err(RecordFault::OutOfMemory) => Err(OutOfMemory),
        Err(fault) => {
            let text = fault.to_string(alloc)?;
            Ok(Given::Nothing(noted(alloc, INPUT_REFUSED, name, text.as_str())?))
        }
    }
}
