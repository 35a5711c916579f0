//! Wires that are weighed beside each other.
ghost use Rattle.std.specs.Prelude.{◌≡◌, ◌<◌, ◌≤◌, ◌^◌, ℕ, All, IfOk, Some, length, map, slice_index_or};
ghost use Rattle.admission.specs.declared.beside.Slot.{Slot as SlotValue};
ghost use Rattle.admission.specs.Admission.{IsSound, start_of};
ghost use Rattle.admission.specs.Beside.{IsFresh, WeighsAt, found_in, fresh};
ghost use Rattle.admission.specs.Weighing.{weighed_from};

use crate::weighing::{Before, Weighed, is_noted, processed_in, weigh_from, weigh_told};
use account_store::Accounts;
use message_codec::Parsed;
use side_by_side::for_each_mut;
use sol_base::{Hash32, Items, Limits, OutOfMemory};
use status_cache::Recent;
use std::alloc::Global;
use std::collections::BTreeSet;
use std::mem;
use std::thread::Threads;

/// So many wires are worth a thread.
const WORTH_A_THREAD: usize = 256;

/// So many threads at most: each takes longer to start than some hundred wires to weigh.
const MAX_THREADS: usize = 8;

/// A place in which a wire is weighed.
#[derive(Drop)]
pub(crate) enum Slot {
    /// A wire, until it is weighed.
    Fresh(Parsed),
    /// What it weighs.
    Done(Weighed),
    /// Memory ran short.
    Short,
}

impl Slot {
    /// Weighs the wire, told by those messages that were processed.
    fn weigh(
        &mut self,
        alloc: Global,
        before: Before<'_>,
        processed: &BTreeSet<Hash32>,
        position: u32,
    )
        requires { IsFresh before.recent.now processed.now self.old }
        ensures { WeighsAt (start_of before.entry.recent.now before.entry.accounts.now
            before.entry.limits.now) position self.old self.new }
    {
        if let Slot::Fresh(wire) = mem::replace(self, Slot::Short) {
            let was_processed = is_noted(processed, &wire);
            if let Ok(weighed) = weigh_told(alloc, before, position, wire, was_processed) {
                *self = Slot::Done(weighed);
            }
        }
    }
}

/// Weighs the wires of a batch on as many threads as lanes, a few at most, in equal parts beside each
/// other. Few wires are weighed by the caller alone, and on one lane no thread is started.
pub(crate) fn weigh_on<R: Threads + Sync>(
    rt: &R,
    alloc: Global,
    lanes: u32,
    recent: &Recent,
    accounts: &Accounts,
    limits: &Limits,
    wires: Items<Parsed>,
) -> Result<Items<Weighed>, OutOfMemory>
    requires few { length wires < 2 ^ 32 }
    requires sound { All IsSound wires }
    ensures { IfOk result (λ found.
        found ≡ weighed_from (start_of recent.now accounts.now limits.now) 0 wires) }
{
    if lanes < 2 || wires.len() < WORTH_A_THREAD {
        return weigh_from(alloc, recent, accounts, limits, 0, wires);
    }
    let processed = processed_in(alloc, recent, wires.as_slice())?;
    let before = Before {
        recent,
        accounts,
        limits,
    };
    let mut slots = slots_of(alloc, wires)?;
    let threads = (lanes as usize).min(MAX_THREADS);
    weigh_each(rt, alloc, threads, before, &processed, slots.as_mut_slice());
    weighed_in(alloc, slots)
}

/// A slot for each wire.
fn slots_of(alloc: Global, wires: Items<Parsed>) -> Result<Vec<Slot>, OutOfMemory>
    ensures { IfOk result (λ slots. slots.items ≡ map fresh wires) }
{
    let slots = wires
        .into_vec()
        .into_iter()
        .map(Slot::Fresh)
        .collect(alloc)?;
    Ok(slots)
}

/// Weighs the wire of each slot.
fn weigh_each<R: Threads + Sync>(
    rt: &R,
    alloc: Global,
    threads: usize,
    before: Before<'_>,
    processed: &BTreeSet<Hash32>,
    slots: &mut [Slot],
)
    requires some { 0 < threads }
    requires few { length slots.old < 2 ^ 32 }
    requires fresh { All (IsFresh before.recent.now processed.now) slots.old }
    ensures { (i : ℕ) (d : SlotValue) → i < length slots.old →
        WeighsAt (start_of before.entry.recent.now before.entry.accounts.now
        before.entry.limits.now) i (slice_index_or slots.old i d) (slice_index_or slots.new i d) }
{
    let Before {
        recent,
        accounts,
        limits,
    } = before;
    for_each_mut(
        rt,
        slots,
        threads,
        &|at: usize, slot: &mut Slot|
            requires { (at < 2 ^ 32) × IsFresh recent.now processed.now slot.old }
            ensures { WeighsAt (start_of recent.entry.now accounts.entry.now limits.entry.now) at
                slot.old slot.new }
        {
            let before = Before {
                recent,
                accounts,
                limits,
            };
            slot.weigh(alloc, before, processed, at as u32)
        },
    );
}

/// What the wires of all slots weigh.
fn weighed_in(alloc: Global, slots: Vec<Slot>) -> Result<Items<Weighed>, OutOfMemory>
    ensures { IfOk result (λ found.
        map (λ one. Some one) found ≡ map found_in slots.items) }
{
    let mut found = Items::with_capacity(alloc, slots.len())?;
    for slot in slots {
        let Slot::Done(weighed) = slot else {
            return Err(OutOfMemory);
        };
        found.push(weighed)?;
    }
    Ok(found)
}
