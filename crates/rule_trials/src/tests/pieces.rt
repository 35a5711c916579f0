//! Bytes that are made of pieces, and where their fields begin.
use sol_base::{Blob, OutOfMemory};
use std::alloc::Global;

/// The pieces one after the other.
pub fn joined(alloc: Global, pieces: &[&[u8]]) -> Result<Blob, OutOfMemory> {
    let mut out = Blob::new(alloc);
    for piece in pieces {
        out.append(piece)?;
    }
    Ok(out)
}

/// Where the field begins that the place is in.
pub fn start_of(fields: &[usize], place: usize) -> usize {
    let mut start = 0;
    for field in fields {
        if *field <= place {
            start = *field;
        }
    }
    start
}
