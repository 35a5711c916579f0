//! Snapshots and batches, put together from their parts.
use sol_base::{Blob, OutOfMemory};
use std::alloc::Global;

/// A transfer: the bytes of the payer's key and of the destination's, and the lamports.
pub type Transfer = (u8, u8, u64);

/// The transfers of example "two transfers".
pub const TWO_TRANSFERS: [Transfer; 2] = [(1, 0x11, 1_000_000_000), (2, 0x12, 1_000_000_000)];

/// The transfers of example "no barrier".
pub const NO_BARRIER: [Transfer; 3] = [
    (1, 0x11, 1_000_000_000),
    (2, 0x12, 900_000),
    (2, 0x12, 900_001),
];

/// The first of the two transfers, twice.
pub const REPEATED: [Transfer; 2] = [(1, 0x11, 1_000_000_000), (1, 0x11, 1_000_000_000)];

/// A snapshot of version 1, up to its mark: slot 7, one mark.
const BEFORE_MARK: &[u8] = b"SOLSNAP1\x07\0\0\0\0\0\0\0\x01\0\0\0";

/// The hash of the mark.
const MARK: &[u8] = &[0xaa; 32];

/// Two billion lamports, the system program as owner, no program, no data.
const TWO_BILLION: &[u8] =
    b"\0\x94\x35\x77\0\0\0\0\0\0\0\0\0\0\0\0\0\0\0\0\0\0\0\0\0\0\0\0\0\0\0\0\0\0\0\0\0\0\0\0\0\0\0\0\0";

/// One billion lamports, the system program as owner, no program, no data.
const ONE_BILLION: &[u8] =
    b"\0\xca\x9a\x3b\0\0\0\0\0\0\0\0\0\0\0\0\0\0\0\0\0\0\0\0\0\0\0\0\0\0\0\0\0\0\0\0\0\0\0\0\0\0\0\0\0";

/// The snapshot of example "two transfers": 291 bytes.
pub const SNAPSHOT: [&[u8]; 9] = [
    BEFORE_MARK,
    MARK,
    b"\0\0\0\0\x03\0\0\0",
    &[1; 32],
    TWO_BILLION,
    &[2; 32],
    TWO_BILLION,
    &[0xc0; 32],
    ONE_BILLION,
];

/// Adds all parts.
fn append_all(out: &mut Blob, parts: &[&[u8]]) -> Result<(), OutOfMemory> {
    for part in parts {
        out.append(part)?;
    }
    Ok(())
}

/// The parts, one after another.
pub fn joined(alloc: Global, parts: &[&[u8]]) -> Result<Blob, OutOfMemory> {
    let mut out = Blob::new(alloc);
    append_all(&mut out, parts)?;
    Ok(out)
}

/// Adds a transaction of 215 bytes.
fn append_transfer(out: &mut Blob, (payer, to, lamports): Transfer) -> Result<(), OutOfMemory> {
    append_all(
        out,
        &[
            &[1],
            &[0; 64],
            &[1, 0, 1, 3],
            &[payer; 32],
            &[to; 32],
            &[0; 32],
            MARK,
            &[1, 2, 2, 0, 1, 12, 2, 0, 0, 0],
            &lamports.to_le_bytes(),
        ],
    )
}

/// Adds a batch of slot 8 up to its transactions.
fn append_head(out: &mut Blob, count: usize) -> Result<(), OutOfMemory> {
    let count = (count as u64).to_le_bytes();
    append_all(
        out,
        &[b"SOLBATC1\x08\0\0\0\0\0\0\0", &[0xc0; 32], &count[..4]],
    )
}

/// The snapshot, and a batch of these transfers.
pub fn input_of(alloc: Global, transfers: &[Transfer]) -> Result<Blob, OutOfMemory> {
    let mut out = joined(alloc, &SNAPSHOT)?;
    append_head(&mut out, transfers.len())?;
    for transfer in transfers {
        out.append(&[215, 0])?;
        append_transfer(&mut out, *transfer)?;
    }
    Ok(out)
}

/// The first bytes, at most so many.
pub fn front(bytes: &[u8], count: usize) -> &[u8] {
    if count <= bytes.len() {
        &bytes[..count]
    } else {
        bytes
    }
}
