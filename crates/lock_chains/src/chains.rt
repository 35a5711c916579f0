//! The chains of each number: its last writer, and the readers since.
ghost use Rattle.std.specs.Prelude.{◌≡◌, ◌<◌, All, IfOk, OnOk, length};
ghost use Rattle.std.specs.List.{flat_map};
ghost use Rattle.lock_table.specs.Numbers.{EachOnce};
ghost use Rattle.lock_chains.specs.Passing.{awaited_by, PassesWriters, PassesReaders};

use crate::rows::{clear_at, push_at};
use lock_table::NumberedLock;
use sol_base::{Items, OutOfMemory};
use std::alloc::Global;

/// The earlier positions that the locks wait for, each as often as there are locks that do.
pub fn awaited(
    alloc: Global,
    last: &[Option<u32>],
    readers: &[Items<u32>],
    locks: &[NumberedLock],
) -> Result<Vec<u32>, OutOfMemory>
    requires last { All (λ lock. lock.number < length last.now) locks.now }
    requires readers { All (λ lock. lock.number < length readers.now) locks.now }
    ensures { IfOk result
        (λ all. all.items ≡ flat_map (awaited_by last.now readers.now) locks.now) }
{
    let mut earlier = Vec::new(alloc);
    for lock in locks {
        let at = lock.number as usize;
        if let Some(writer) = last[at] {
            earlier.push(writer)?;
        }
        if lock.write {
            earlier.extend_from_slice(readers[at].as_slice())?;
        }
    }
    Ok(earlier)
}

/// Lets a position pass: it is the last writer of what it writes, and one more reader of what it
/// reads.
pub fn pass_locks(
    alloc: Global,
    last: &mut [Option<u32>],
    readers: &mut [Items<u32>],
    locks: &[NumberedLock],
    position: u32,
) -> Result<(), OutOfMemory>
    requires last { All (λ lock. lock.number < length last.old) locks.now }
    requires readers { All (λ lock. lock.number < length readers.old) locks.now }
    requires once { EachOnce locks.now }
    ensures writers { OnOk result (PassesWriters locks.now position last.old last.new) }
    ensures readers { OnOk result (PassesReaders locks.now position readers.old readers.new) }
{
    for lock in locks {
        let at = lock.number as usize;
        if lock.write {
            last[at] = Some(position);
            clear_at(alloc, readers, at);
        } else {
            push_at(readers, at, position)?;
        }
    }
    Ok(())
}
