//! The locks of positions, numbered beside each other.
ghost use Rattle.std.specs.Prelude.{◌≡◌, ◌<◌, ◌≤◌, ◌^◌, ℕ, IfOk, Some, Option, List, length, map, slice_index_or};
ghost use Rattle.std.specs.List.{IsDistinct};
ghost use Rattle.bank_law.specs.Job.{same_key, keys as keys_at};
ghost use Rattle.lock_table.specs.declared.locks.NumberedLock.{NumberedLock as NumberedLockValue};
ghost use Rattle.lock_table.specs.Numbers.{Numbers};
ghost use Rattle.prio_graph.specs.Ready.{set_at};
ghost use Rattle.bank_core.specs.Openings.{AreKnown, NumbersAt};

use crate::locked::Locked;
use crate::opening::sets_of;
use lock_table::{KeyTable, LockSet, set_of_known};
use side_by_side::for_each_mut;
use sol_base::{Items, OutOfMemory};
use std::alloc::Global;
use std::thread::Threads;

/// So many positions are worth a thread.
const WORTH_A_THREAD: u32 = 256;

/// So many threads at most: each takes longer to start than some hundred positions to number.
const MAX_THREADS: usize = 8;

/// The locks of each position, over the numbers of their keys, on so many threads, a few at most, in
/// equal parts beside each other. Few positions are numbered by the caller alone, and on one thread
/// none is started.
pub(crate) fn sets_on<L: Locked + Sync, R: Threads + Sync>(
    rt: &R,
    alloc: Global,
    threads: u32,
    locked: &L,
    table: &KeyTable,
) -> Result<Items<LockSet>, OutOfMemory>
    requires apart { (i : ℕ) → i < (L.job locked.now).count
        → IsDistinct same_key (keys_at (L.job locked.now) i) }
    requires known { (i : ℕ) → i < (L.job locked.now).count
        → AreKnown table.now ((L.job locked.now).locks i) }
    ensures long { IfOk result (λ sets. length sets ≡ (L.job locked.now).count) }
    ensures numbered { IfOk result (λ sets. (i : ℕ) → i < (L.job locked.now).count
        → Numbers table.now ((L.job locked.now).locks i) (set_at sets i)) }
{
    let count = locked.count();
    if threads < 2 || count < WORTH_A_THREAD {
        return sets_of(alloc, locked, table);
    }
    let mut slots = slots_of(alloc, count as usize)?;
    let threads = (threads as usize).min(MAX_THREADS);
    number_each(rt, alloc, threads, locked, table, slots.as_mut_slice());
    sets_in(alloc, slots)
}

/// A slot for each position, none of them numbered yet.
fn slots_of(alloc: Global, count: usize) -> Result<Vec<Option<LockSet>>, OutOfMemory>
    ensures { IfOk result (λ slots. length slots.items ≡ count) }
{
    let mut slots = Vec::with_capacity(alloc, count)?;
    while slots.len() < count {
        slots.push(None)?;
    }
    Ok(slots)
}

/// Numbers the locks of the position of each slot. A slot is left empty where memory runs short.
fn number_each<L: Locked + Sync, R: Threads + Sync>(
    rt: &R,
    alloc: Global,
    threads: usize,
    locked: &L,
    table: &KeyTable,
    slots: &mut [Option<LockSet>],
)
    requires some { 0 < threads }
    requires few { length slots.old < 2 ^ 32 }
    requires long { length slots.old ≤ (L.job locked.now).count }
    requires apart { (i : ℕ) → i < (L.job locked.now).count
        → IsDistinct same_key (keys_at (L.job locked.now) i) }
    requires known { (i : ℕ) → i < (L.job locked.now).count
        → AreKnown table.now ((L.job locked.now).locks i) }
    ensures { (i : ℕ) (d : Option (List NumberedLockValue)) → i < length slots.old
        → NumbersAt table.now ((L.job locked.now).locks i) (slice_index_or slots.new i d) }
{
    for_each_mut(
        rt,
        slots,
        threads,
        &|at: usize, slot: &mut Option<LockSet>|
            requires { (at < 2 ^ 32) × (at < (L.job locked.now).count)
                × IsDistinct same_key (keys_at (L.job locked.now) at)
                × AreKnown table.now ((L.job locked.now).locks at) }
            ensures { NumbersAt table.entry.now ((L.job locked.entry.now).locks at) slot.new }
        {
            *slot = set_of_position(alloc, table, locked, at as u32);
        },
    );
}

/// The locks of a position over the numbers of their keys, or none where memory runs short.
fn set_of_position<L: Locked>(
    alloc: Global,
    table: &KeyTable,
    locked: &L,
    position: u32,
) -> Option<LockSet>
    requires below { position < (L.job locked.now).count }
    requires apart { IsDistinct same_key (keys_at (L.job locked.now) position) }
    requires known { AreKnown table.now ((L.job locked.now).locks position) }
    ensures { NumbersAt table.now ((L.job locked.now).locks position) result }
{
    match set_of_known(alloc, table, locked.locks(position)) {
        Ok(set) => Some(set),
        Err(OutOfMemory) => None,
    }
}

/// The locks in all slots.
fn sets_in(alloc: Global, slots: Vec<Option<LockSet>>) -> Result<Items<LockSet>, OutOfMemory>
    ensures { IfOk result (λ sets. map (λ set. Some set) sets ≡ slots.items) }
{
    let mut sets = Items::with_capacity(alloc, slots.len())?;
    for slot in slots {
        let Some(set) = slot else {
            return Err(OutOfMemory);
        };
        sets.push(set)?;
    }
    Ok(sets)
}
