//! Batches: every front.
use crate::tests::pieces::{joined, start_of};
use snapshot_codec::{BatchFault, read_batch};
use sol_base::OutOfMemory;
use std::alloc::Global;

/// A batch for slot 8 with two transactions of 215 bytes.
const BATCH: [&[u8]; 8] = [
    b"SOLBATC1",
    &[8, 0, 0, 0, 0, 0, 0, 0],
    &[0xc0; 32],
    &[2, 0, 0, 0],
    &[215, 0],
    &[1; 215],
    &[215, 0],
    &[2; 215],
];

/// Where the fields of the batch begin.
const FIELDS: [usize; 8] = [0, 8, 16, 48, 52, 54, 269, 271];

/// Whether each front of the bytes is cut where one of the fields begins.
fn is_cut(alloc: Global, bytes: &[u8]) -> bool {
    for len in 0..bytes.len() {
        let at = start_of(&FIELDS, len);
        if read_batch(alloc, &bytes[..len], 7).err() != Some(BatchFault::Truncated { at }) {
            return false;
        }
    }
    true
}

/// Whether the batch has 486 bytes and is cut so.
fn is_whole(alloc: Global) -> Result<bool, OutOfMemory> {
    let bytes = joined(alloc, &BATCH)?;
    Ok(bytes.len() == 486 && is_cut(alloc, bytes.as_slice()))
}

#[test]
fn every_front_of_a_batch_is_cut(rt: HostRuntime) {
    assert!(rt; is_whole(rt.alloc()) == Ok(true));
}
