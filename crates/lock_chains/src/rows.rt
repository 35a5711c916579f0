//! Rows of positions, one of which changes.
ghost use Rattle.std.specs.Prelude.{◌≡◌, ◌<◌, [], OnOk, OnErr, length, slice_set};
ghost use Rattle.lock_chains.specs.Passing.{pushed_at};

use sol_base::{Items, OutOfMemory};
use std::alloc::Global;
use std::mem;

/// Appends to one row.
pub fn push_at(rows: &mut [Items<u32>], at: usize, item: u32) -> Result<(), OutOfMemory>
    requires { at < length rows.old }
    ensures ok { OnOk result (rows.new ≡ pushed_at rows.old at item) }
    ensures err { OnErr result (rows.new ≡ rows.old) }
{
    let row = &mut rows[at];
    row.push(item)?;
    Ok(())
}

/// Empties one row, and keeps its memory.
pub(crate) fn clear_at(alloc: Global, rows: &mut [Items<u32>], at: usize)
    requires { at < length rows.old }
    ensures { rows.new ≡ slice_set rows.old at [] }
{
    let mut row = mem::replace(&mut rows[at], Items::new(alloc)).into_vec();
    row.clear();
    rows[at] = Items::from_vec(row);
}
