//! Bytes of several pieces.
use sol_base::{Blob, OutOfMemory};
use std::alloc::Global;

/// Pieces of bytes.
pub type Pieces = &'static [&'static [u8]];

/// The pieces one after another.
pub fn joined(alloc: Global, pieces: &[&[u8]]) -> Result<Blob, OutOfMemory> {
    let mut bytes = Blob::new(alloc);
    for piece in pieces {
        bytes.append(piece)?;
    }
    Ok(bytes)
}
