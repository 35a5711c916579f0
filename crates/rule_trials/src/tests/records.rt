//! Records of blocks: every front, and the hash of a block.
use crate::tests::pieces::{joined, start_of};
use block_record::{RecordFault, block_hash, read_record};
use sol_base::{Hash32, OutOfMemory, hash};
use std::alloc::Global;

const INVOKE: &[u8] =
    b"Program 0000000000000000000000000000000000000000000000000000000000000000 invoke [1]";

const SUCCESS: &[u8] =
    b"Program 0000000000000000000000000000000000000000000000000000000000000000 success";

/// A record of a block of slot 8 with two entries: each a transaction of 215 bytes, a good status,
/// 150 units, a fee of 5,000 and two lines.
const RECORD: [&[u8]; 28] = [
    b"SOLBLCK1\x08\0\0\0\0\0\0\0",
    &[0xc0; 32],
    &[0xaa; 32],
    b"\x02\0\0\0",
    &[215, 0],
    &[1; 215],
    &[0; 8],
    b"\x96\0\0\0\0\0\0\0",
    b"\x88\x13\0\0\0\0\0\0",
    b"\x02\0",
    b"\x53\0",
    INVOKE,
    b"\x50\0",
    SUCCESS,
    &[215, 0],
    &[1; 215],
    &[0; 8],
    b"\x96\0\0\0\0\0\0\0",
    b"\x88\x13\0\0\0\0\0\0",
    b"\x02\0",
    b"\x53\0",
    INVOKE,
    b"\x50\0",
    SUCCESS,
    b"\x88\x13\0\0\0\0\0\0",
    b"\x88\x13\0\0\0\0\0\0",
    &[0x11; 32],
    &[0x22; 32],
];

/// Where the fields of the record begin.
const FIELDS: [usize; 29] = [
    0, 8, 16, 48, 80, 84, 86, 301, 309, 317, 325, 327, 329, 412, 414, 494, 496, 711, 719, 727, 735,
    737, 739, 822, 824, 904, 912, 920, 952,
];

/// Where the block hash begins.
const HASH: usize = 952;

/// Whether each front of the bytes is cut where one of the fields begins.
fn is_cut(alloc: Global, bytes: &[u8]) -> bool {
    for len in 0..bytes.len() {
        let at = start_of(&FIELDS, len);
        if read_record(alloc, &bytes[..len]).err() != Some(RecordFault::Truncated { at }) {
            return false;
        }
    }
    true
}

/// Whether the record has 984 bytes and is cut so.
fn is_whole(alloc: Global) -> Result<bool, OutOfMemory> {
    let bytes = joined(alloc, &RECORD)?;
    Ok(bytes.len() == 984 && is_cut(alloc, bytes.as_slice()))
}

#[test]
fn every_front_of_a_record_is_cut(rt: HostRuntime) {
    assert!(rt; is_whole(rt.alloc()) == Ok(true));
}

/// The hash of the block that is read of the bytes.
fn hash_read(alloc: Global, bytes: &[u8]) -> Result<Hash32, RecordFault> {
    let block = read_record(alloc, bytes)?;
    Ok(block_hash(alloc, &block)?)
}

/// Whether the block's hash is that of all that is before it.
fn is_hashed(alloc: Global) -> Result<bool, RecordFault> {
    let bytes = joined(alloc, &RECORD)?;
    let before = bytes.as_slice().get(..HASH).unwrap_or(&[]);
    Ok(hash_read(alloc, bytes.as_slice())? == hash(before))
}

#[test]
fn a_block_is_hashed(rt: HostRuntime) {
    assert!(rt; is_hashed(rt.alloc()) == Ok(true));
}
