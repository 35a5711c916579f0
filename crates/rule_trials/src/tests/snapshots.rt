//! Snapshots: every front.
use crate::tests::pieces::{joined, start_of};
use snapshot_codec::{SnapshotFault, read_snapshot, snapshot_length};
use sol_base::OutOfMemory;
use std::alloc::Global;

/// A snapshot of version 1 with one mark and three accounts.
const FIRST_VERSION: [&[u8]; 17] = [
    b"SOLSNAP1",
    &[7, 0, 0, 0, 0, 0, 0, 0],
    &[1, 0, 0, 0],
    &[0xaa; 32],
    &[0, 0, 0, 0],
    &[3, 0, 0, 0],
    &[0x01; 32],
    &[0x00, 0x94, 0x35, 0x77, 0, 0, 0, 0],
    &[0; 32],
    &[0, 0, 0, 0, 0],
    &[0x02; 32],
    &[0x00, 0x94, 0x35, 0x77, 0, 0, 0, 0],
    &[0; 32],
    &[0, 0, 0, 0, 0],
    &[0xc0; 32],
    &[0x00, 0xca, 0x9a, 0x3b, 0, 0, 0, 0],
    &[0; 37],
];

/// Where the fields of that snapshot begin.
const FIELDS: [usize; 21] = [
    0, 8, 16, 20, 52, 56, 60, 92, 100, 132, 133, 137, 169, 177, 209, 210, 214, 246, 254, 286, 287,
];

/// Whether each front of the bytes is cut where one of the fields begins.
fn is_cut(alloc: Global, bytes: &[u8]) -> bool {
    for len in 0..bytes.len() {
        let at = start_of(&FIELDS, len);
        let front = &bytes[..len];
        if read_snapshot(alloc, front).err() != Some(SnapshotFault::Truncated { at }) {
            return false;
        }
        if snapshot_length(front).is_some() {
            return false;
        }
    }
    true
}

/// Whether the snapshot of version 1 has 291 bytes, and is cut so.
fn is_first_cut(alloc: Global) -> Result<bool, OutOfMemory> {
    let bytes = joined(alloc, &FIRST_VERSION)?;
    Ok(bytes.len() == 291 && is_cut(alloc, bytes.as_slice()))
}

#[test]
fn every_front_of_a_snapshot_is_cut(rt: HostRuntime) {
    assert!(rt; is_first_cut(rt.alloc()) == Ok(true));
}
