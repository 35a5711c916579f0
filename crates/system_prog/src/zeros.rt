//! Bytes that are zero.
ghost use Rattle.std.specs.Prelude.{◌≡◌, IfOk, replicate};

use sol_base::{Blob, OutOfMemory};
use std::alloc::Global;

/// So many zero bytes.
pub(crate) fn zeros(alloc: Global, count: usize) -> Result<Blob, OutOfMemory>
    ensures { IfOk result (λ bytes. bytes ≡ replicate count 0) }
{
    let bytes = vec![in alloc; 0u8; count]?;
    Blob::from_slice(alloc, bytes.as_slice())
}
