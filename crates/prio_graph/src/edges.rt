//! The edges between positions.
ghost use Rattle.std.specs.Prelude.{◌≡◌, ℕ, ◌+◌, ◌^◌, ◌<◌, ◌≤◌, All, IfOk, OnOk, length};
ghost use Rattle.prio_graph.specs.Ready.{set_at};
ghost use Rattle.prio_graph.specs.Kept.{CountsEdges, HasEdges, HasNoOthers};
ghost use Rattle.prio_graph.specs.Chained.{Chained};

use crate::rows::{add_edges, empty_rows};
use lock_chains::{awaited, pass_locks};
use lock_table::{LockSet, NumberedLock};
use sol_base::{Items, OutOfMemory};
use std::alloc::Global;

/// The edges between positions: how many lead to each, and the later ends of those from each.
#[derive(Drop)]
pub(crate) struct Edges {
    pub(crate) waits: Vec<usize>,
    pub(crate) later: Vec<Items<u32>>,
}

/// A number above those of all locks, and not below the given one.
fn above_locks(locks: &[NumberedLock], least: usize) -> usize
    ensures above { All (λ lock. lock.number < result) locks.now }
    ensures grows { least ≤ result }
{
    let mut above = least;
    for lock in locks {
        above = above.max(lock.number as usize + 1);
    }
    above
}

/// A number above those of all locks.
fn above_all(sets: &[LockSet]) -> usize
    ensures { (i : ℕ) → All (λ lock. lock.number < result) (set_at sets.now i) }
{
    let mut above = 0;
    for set in sets {
        above = above_locks(set.items(), above);
    }
    above
}

/// Adds the edges to the next position, and lets it pass the chains.
fn add_position(
    alloc: Global,
    sets: &[LockSet],
    position: usize,
    last: &mut [Option<u32>],
    readers: &mut [Items<u32>],
    later: &mut [Items<u32>],
    waits: &mut [usize],
) -> Result<(), OutOfMemory>
    requires few { length sets.now < 2 ^ 32 }
    requires below { position < length sets.now }
    requires chained { Chained sets.now position last.old readers.old later.old waits.old }
    ensures { OnOk result
        (Chained sets.now (position + 1) last.new readers.new later.new waits.new) }
{
    let locks = sets[position].items();
    let earlier = awaited(alloc, last, readers, locks)?;
    waits[position] = add_edges(later, earlier.as_slice(), position as u32)?;
    pass_locks(alloc, last, readers, locks, position as u32)?;
    Ok(())
}

/// The edges of all positions.
pub(crate) fn edges_of(alloc: Global, sets: &[LockSet]) -> Result<Edges, OutOfMemory>
    requires { length sets.now < 2 ^ 32 }
    ensures waits_length { IfOk result (λ e. length e.waits.items ≡ length sets.now) }
    ensures later_length { IfOk result (λ e. length e.later.items ≡ length sets.now) }
    ensures waits { IfOk result (λ e. CountsEdges sets.now e.waits.items) }
    ensures later { IfOk result (λ e. HasEdges sets.now e.later.items) }
    ensures never { IfOk result (λ e. HasNoOthers sets.now e.later.items) }
{
    let numbers = above_all(sets);
    let mut last = vec![in alloc; None; numbers]?;
    let mut readers = empty_rows(alloc, numbers)?;
    let mut later = empty_rows(alloc, sets.len())?;
    let mut waits = vec![in alloc; 0; sets.len()]?;
    for position in 0..sets.len() {
        add_position(
            alloc,
            sets,
            position,
            &mut last,
            &mut readers,
            &mut later,
            &mut waits,
        )?;
    }
    Ok(Edges { waits, later })
}
