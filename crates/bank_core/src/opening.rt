//! What a core is made from: the locks, the graph and the slots.
ghost use Rattle.std.specs.Prelude.{◌≡◌, ℕ, ◌+◌, ◌*◌, ◌^◌, ◌<◌, ◌≤◌, ◌++◌, [], Some, None, IfOk, OnOk, length, replicate, vec_len, vec_capacity, slice_index_or, map as each, option_map};
ghost use Rattle.std.specs.Arc.{arc_value};
ghost use Rattle.sol_base.specs.Accounts.{empty_account};
ghost use Rattle.std.specs.List.{IsDistinct};
ghost use Rattle.std.specs.declared.vec.Vec.{Vec as VecValue};
ghost use Rattle.std.specs.declared.alloc.Global.{Global as GlobalValue};
ghost use Rattle.account_store.specs.State.{at};
ghost use Rattle.bank_law.specs.Job.{same_key, keys as keys_at, lock_keys};
ghost use Rattle.lock_table.specs.Numbers.{Numbers, numbered_key};
ghost use Rattle.prio_graph.specs.Ready.{all_waiting, set_at};
ghost use Rattle.bank_core.specs.Slots.{Shared, account_at, in_slot, value_of};
ghost use Rattle.bank_core.specs.Keeping.{IsApart};
ghost use Rattle.bank_core.specs.Openings.{AreNumbered, AreKnown};
ghost use Rattle.bank_core.specs.Counts.{locks_before, max_lane_numbers};
ghost use Rattle.sol_base.specs.Limits.{max_lanes};

use crate::kept::Core;
use crate::locked::{Locked, OfWork};
use crate::numbering::sets_on;
use crate::origin::Origin;
use crate::shared_outcome::SharedOutcome;
use crate::work::Work;
use account_store::{Accounts, TakenOut};
use bank_law::Event;
use lock_table::{HashSeed, KeyTable, LockSet, set_of_known};
use prio_graph::Graph;
use proof_note::Note;
use sol_base::{Account, Items, Key, LockList, OutOfMemory};
use std::alloc::Global;
use std::hash::RandomState;
use std::mem::replace;
use std::sync::Arc;
use std::thread::Threads;

/// The most lanes of a core (the project's own): a thread drives up to 16 of them.
pub const MAX_LANE_NUMBERS: u32 = 1_024;

/// What a core begins with.
fn origin_of<W: Work>(work: &W, accounts: &Accounts) -> Note<Origin<W::Told>>
    ensures { result.value ≡ record { start = accounts.now; told = W.told work.now } }
{
    Note::told_by(&(work, accounts))
}

/// Adds the keys of locks.
fn push_keys(keys: &mut Vec<Key>, locks: &LockList) -> Result<(), OutOfMemory>
    ensures { OnOk result (keys.new.items ≡ keys.old.items ++ lock_keys locks.now) }
{
    let locks = locks.as_slice();
    for lock in locks {
        keys.push(lock.key)?;
    }
    Ok(())
}

/// The keys of all locks.
fn keys_of<L: Locked>(alloc: Global, locked: &L) -> Result<Vec<Key>, OutOfMemory>
    ensures long { IfOk result (λ keys.
        length keys.items ≡ locks_before (L.job locked.now) (L.job locked.now).count) }
    ensures all { IfOk result (λ keys. (i : ℕ) → i < (L.job locked.now).count
        → AreKnown keys.items ((L.job locked.now).locks i)) }
{
    let mut keys = Vec::new(alloc);
    for position in 0..locked.count() {
        push_keys(&mut keys, locked.locks(position))?;
    }
    Ok(keys)
}

/// The locks of each position, over the numbers of their keys.
pub(crate) fn sets_of<L: Locked>(
    alloc: Global,
    locked: &L,
    table: &KeyTable,
) -> Result<Items<LockSet>, OutOfMemory>
    requires apart { (i : ℕ) → i < (L.job locked.now).count
        → IsDistinct same_key (keys_at (L.job locked.now) i) }
    requires known { (i : ℕ) → i < (L.job locked.now).count
        → AreKnown table.now ((L.job locked.now).locks i) }
    ensures long { IfOk result (λ sets. length sets ≡ (L.job locked.now).count) }
    ensures numbered { IfOk result (λ sets. (i : ℕ) → i < (L.job locked.now).count
        → Numbers table.now ((L.job locked.now).locks i) (set_at sets i)) }
{
    let count = locked.count();
    let mut sets = Items::with_capacity(alloc, count as usize)?;
    for position in 0..count {
        sets.push(set_of_known(alloc, table, locked.locks(position))?)?;
    }
    Ok(sets)
}

/// How many locks a position has at most.
fn most_locks(sets: &[LockSet]) -> usize
    ensures { (i : ℕ) → i < length sets.now → length (set_at sets.now i) ≤ result }
{
    let mut most = 0;
    for set in sets {
        most = most.max(set.items().len());
    }
    most
}

/// The keys of locks as numbers, and the graph of the positions whose locks they are.
#[derive(Drop)]
pub struct Numbered {
    pub(crate) table: KeyTable,
    pub(crate) graph: Graph,
    pub(crate) room: usize,
}

/// A hash that is keyed by the keys themselves.
fn hash_for(keys: &[Key]) -> Result<RandomState, OutOfMemory> {
    let mut seed = HashSeed::new();
    for key in keys {
        seed.add(&key.0);
    }
    seed.hash()
}

/// Numbers the keys that positions lock, and makes the graph of the positions.
pub fn number<L: Locked>(alloc: Global, locked: &L) -> Result<Numbered, OutOfMemory>
    requires apart { (i : ℕ) → i < (L.job locked.now).count
        → IsDistinct same_key (keys_at (L.job locked.now) i) }
    requires room { locks_before (L.job locked.now) (L.job locked.now).count < 2 ^ 32 }
    ensures { IfOk result (λ n. AreNumbered (L.job locked.now) n.table n.graph n.room) }
{
    // The contracts of these two tell that the count is small, and that the keys are distinct.
    let _count = locked.count();
    let all = keys_of(alloc, locked)?;
    let hash = hash_for(&all)?;
    let table = KeyTable::of_keys(alloc, hash, all)?;
    let _len = table.len();
    let sets = sets_of(alloc, locked, &table)?;
    with_graph(alloc, table, sets)
}

/// Numbers the keys that positions lock, hashed as given, and makes the graph of the positions, on so
/// many threads and from a list that has the keys of all locks. A list that ascends is not sorted
/// again. Few positions are numbered by the caller alone, and on one thread none is started.
pub fn number_among<L: Locked + Sync, R: Threads + Sync>(
    rt: &R,
    alloc: Global,
    threads: u32,
    locked: &L,
    hash: RandomState,
    keys: Vec<Key>,
) -> Result<Numbered, OutOfMemory>
    requires apart { (i : ℕ) → i < (L.job locked.now).count
        → IsDistinct same_key (keys_at (L.job locked.now) i) }
    requires few { length keys.items < 2 ^ 32 }
    requires known { (i : ℕ) → i < (L.job locked.now).count
        → AreKnown keys.items ((L.job locked.now).locks i) }
    ensures { IfOk result (λ n. AreNumbered (L.job locked.now) n.table n.graph n.room) }
{
    // The contracts of these two tell that the count is small, and that the keys are distinct.
    let _count = locked.count();
    let table = KeyTable::of_keys(alloc, hash, keys)?;
    let _len = table.len();
    let sets = sets_on(rt, alloc, threads, locked, &table)?;
    with_graph(alloc, table, sets)
}

/// Keys as numbers, and the graph of positions with these locks.
fn with_graph(alloc: Global, table: KeyTable, sets: Items<LockSet>) -> Result<Numbered, OutOfMemory>
    requires few { length sets < 2 ^ 32 }
    ensures table { IfOk result (λ n. n.table ≡ table) }
    ensures waiting { IfOk result (λ n. n.graph ≡ all_waiting sets) }
    ensures wide { IfOk result (λ n. (i : ℕ) → i < length sets
        → length (set_at sets i) ≤ n.room) }
{
    let room = most_locks(sets.as_slice());
    let graph = Graph::new(alloc, sets)?;
    Ok(Numbered { table, graph, room })
}

/// The account, or the empty one where it is absent.
fn or_empty(
    account: Option<Arc<Account>>,
    empty: &Arc<Account>,
) -> Result<Arc<Account>, OutOfMemory>
    requires { arc_value empty.now ≡ empty_account }
    ensures { IfOk result (λ share. value_of share ≡ in_slot (option_map value_of account)) }
{
    match account {
        Some(account) => Ok(account),
        None => Ok(Arc::try_clone(empty)?),
    }
}

/// Accounts in slots, the empty one where one is absent.
fn in_slots(
    alloc: Global,
    accounts: Vec<Option<Arc<Account>>>,
) -> Result<Vec<Option<Arc<Account>>>, OutOfMemory>
    ensures { IfOk result (λ slots. each (option_map value_of) slots.items
        ≡ each (λ account. Some (in_slot (option_map value_of account))) accounts.items) }
{
    let empty = Arc::new(alloc, Account::empty(alloc))?;
    let mut slots = Vec::with_capacity(alloc, accounts.len())?;
    for account in accounts {
        slots.push(Some(or_empty(account, &empty)?))?;
    }
    Ok(slots)
}

/// The accounts of the table's keys, which leave the others. An absent one is the empty account.
fn slots_of(
    alloc: Global,
    accounts: &mut Accounts,
    table: &KeyTable,
) -> Result<Vec<Option<Arc<Account>>>, OutOfMemory>
    requires { IsDistinct same_key table.now }
    ensures long { IfOk result (λ slots. length slots.items ≡ length table.now) }
    ensures stored { IfOk result (λ slots. (n : ℕ) → n < length table.now
        → account_at slots.items n ≡ Some (at accounts.old (numbered_key table.now n))) }
    ensures apart { OnOk result (IsApart accounts.old accounts.new table.now) }
{
    // Its contract tells that the accounts are a state.
    let _total = accounts.total();
    let all = replace(accounts, Accounts::new(alloc));
    let keys = table.keys(alloc)?;
    let TakenOut {
        accounts: taken,
        rest,
    } = all.take_out(alloc, keys.as_slice())?;
    let slots = in_slots(alloc, taken)?;
    *accounts = rest;
    Ok(slots)
}

/// An outcome for each position, none of them there yet.
fn no_outcomes(alloc: Global, count: usize) -> Result<Vec<Option<SharedOutcome>>, OutOfMemory>
    ensures { IfOk result (λ outcomes. outcomes.items ≡ replicate count None) }
{
    let mut outcomes = Vec::with_capacity(alloc, count)?;
    while outcomes.len() < count {
        outcomes.push(None)?;
    }
    Ok(outcomes)
}

/// An empty buffer for each lane, with room for so many values.
fn buffers_of(
    alloc: Global,
    lanes: usize,
    room: usize,
) -> Result<Vec<Vec<Arc<Account>>>, OutOfMemory>
    ensures long { IfOk result (λ buffers. length buffers.items ≡ lanes) }
    ensures free { IfOk result (λ buffers. (lane : ℕ) (d : VecValue Shared GlobalValue)
        → lane < lanes → (vec_len (slice_index_or buffers.items lane d) ≡ 0)
        × (room ≤ vec_capacity (slice_index_or buffers.items lane d))) }
{
    let mut buffers = Vec::with_capacity(alloc, lanes)?;
    while buffers.len() < lanes {
        buffers.push(Vec::with_capacity(alloc, room)?)?;
    }
    Ok(buffers)
}

impl<W: Work> Core<W> {
    /// A core over these accounts, with no event yet. It takes all memory that its lanes will need,
    /// but for the shares of read accounts.
    pub fn new(
        alloc: Global,
        accounts: Accounts,
        work: &W,
        lanes: u32,
    ) -> Result<Core<W>, OutOfMemory>
        requires some { 1 ≤ lanes }
        requires most { lanes ≤ max_lanes }
        requires room { locks_before (W.job (W.told work.now)) (W.job (W.told work.now)).count
            < 2 ^ 32 }
        ensures origin { IfOk result
            (λ core. core.origin.value ≡ record { start = accounts; told = W.told work.now }) }
        ensures lanes { IfOk result (λ core. core.lanes ≡ lanes) }
        ensures journal { IfOk result (λ core. core.journal.items ≡ []) }
    {
        let numbered = number(alloc, &OfWork { work })?;
        Core::over(alloc, accounts, work, lanes, numbered)
    }

    /// A core over these accounts, with no event yet, where the keys of the work's locks were numbered
    /// before. It may have more lanes than one that numbers them itself.
    pub fn over(
        alloc: Global,
        accounts: Accounts,
        work: &W,
        lanes: u32,
        numbered: Numbered,
    ) -> Result<Core<W>, OutOfMemory>
        requires some { 1 ≤ lanes }
        requires most { lanes ≤ max_lane_numbers }
        requires numbered { AreNumbered (W.job (W.told work.now)) numbered.table numbered.graph
            numbered.room }
        ensures origin { IfOk result
            (λ core. core.origin.value ≡ record { start = accounts; told = W.told work.now }) }
        ensures lanes { IfOk result (λ core. core.lanes ≡ lanes) }
        ensures journal { IfOk result (λ core. core.journal.items ≡ []) }
    {
        let Numbered { table, graph, room } = numbered;
        let count = work.count() as usize;
        let origin = origin_of(work, &accounts);
        let mut rest = accounts;
        let slots = slots_of(alloc, &mut rest, &table)?;
        let outcomes = no_outcomes(alloc, count)?;
        let buffers = buffers_of(alloc, lanes as usize, room)?;
        let journal = Vec::with_capacity(alloc, 4 * count + (4 * lanes as usize).max(256))?;
        Ok(Core {
            origin,
            lanes,
            table,
            graph,
            slots,
            rest,
            outcomes,
            buffers,
            held: 0,
            journal,
            alloc,
        })
    }
}
