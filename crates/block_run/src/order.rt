//! Transactions in their order, as a work with the programs that they may call.
ghost use Rattle.std.specs.Prelude.{◌≡◌, ◌<◌, ◌≤◌, All, IfOk, length, slice_get};
ghost use Rattle.sol_base.specs.Limits.{max_stack_height, max_transactions};
ghost use Rattle.snapshot_codec.specs.Snapshot.{IsUpTo};
ghost use Rattle.admission.specs.Chosen.{IsChosen};
ghost use Rattle.program_cache.specs.Programs.{programs_of};
ghost use Rattle.bank_core.specs.Openings.{AreNumbered};
ghost use Rattle.tx_exec.specs.AdmittedBlock.{job_of, locks_at};
ghost use Rattle.block_run.specs.SerialRun.{AreKeysIn, keys_in, locked_in, told_in};

use crate::keys::sorted_keys_in;
use account_store::Accounts;
use admission::Candidate;
use bank_core::{Locked, Numbered, number_among};
use bank_lanes::Gate;
use block_end::{Crew, call_both};
use lock_table::HashSeed;
use program_cache::Programs;
use snapshot_codec::Snapshot;
use sol_base::{Items, Key, LockList, OutOfMemory};
use std::alloc::Global;
use std::hash::RandomState;
use std::thread::Threads;
use tx_exec::TxWork;

/// Transactions in their order, by their locks alone.
#[derive(Drop)]
struct InOrder<'a> {
    order: &'a [Candidate],
    ghost few: { length order.now ≤ max_transactions },
}

impl<'a> Locked for InOrder<'a> {
    ghost use Rattle.block_run.specs.SerialRun.{locked_in};
    ghost use Rattle.tx_exec.specs.AdmittedBlock.{job_of};

    ghost job = { λ locked. job_of (locked_in locked.order.now) };

    fn count(&self) -> u32 {
        self.order.len() as u32
    }

    fn locks(&self, position: u32) -> &LockList {
        locks_at(self.order, position)
    }
}

/// The locks of a transaction.
fn locks_at(order: &[Candidate], position: u32) -> &LockList
    requires { position < length order.now }
    ensures { result.now ≡ locks_at (slice_get order.now position) }
{
    &order[position as usize].chosen().locks
}

/// How many bytes of each name the hash of a block's keys depends on.
const NAME_BYTES: usize = 8;

/// A hash of keys that depends on the messages of all transactions: whoever picks keys so that they
/// collide has another hash then.
fn hash_for(order: &[Candidate]) -> Result<RandomState, OutOfMemory> {
    let mut seed = HashSeed::new();
    for one in order {
        seed.add(&one.chosen().name.0[..NAME_BYTES]);
    }
    seed.hash()
}

/// The keys that the transactions lock, as numbers. They are among those that the transactions
/// declare.
fn numbered_in<R: Threads + Sync>(
    rt: &R,
    alloc: Global,
    threads: u32,
    order: &[Candidate],
    keys: &Items<Key>,
) -> Result<Numbered, OutOfMemory>
    requires few { length order.now ≤ max_transactions }
    requires chosen { All IsChosen order.now }
    requires keys { AreKeysIn order.now keys.now }
    ensures { IfOk result (λ n.
        AreNumbered (job_of (locked_in order.now)) n.table n.graph n.room) }
{
    let mut known = Vec::with_capacity(alloc, keys.len())?;
    known.extend_from_slice(keys.as_slice())?;
    let hash = hash_for(order)?;
    number_among(rt, alloc, threads, &InOrder { order }, hash, known)
}

/// The programs among the keys of the transactions, and the keys that they lock as numbers. The
/// keys are sorted once for both. Where there are several lanes, one is made beside the other, and the
/// locks are numbered on several threads.
fn prepare<G: Gate, R: Threads + Sync>(
    crew: &Crew<'_, G, R>,
    accounts: &Accounts,
    order: &[Candidate],
) -> Result<(Programs, Numbered), OutOfMemory>
    requires few { length order.now ≤ max_transactions }
    requires chosen { All IsChosen order.now }
    ensures programs { IfOk result (λ made.
        made.0 ≡ programs_of accounts.now (keys_in order.now)) }
    ensures numbered { IfOk result (λ made.
        AreNumbered (job_of (locked_in order.now)) made.1.table made.1.graph made.1.room) }
{
    let (rt, alloc) = (crew.rt, crew.alloc);
    let threads = crew.lanes_for_many(order.len());
    let sorted = sorted_keys_in(alloc, order)?;
    let keys = &sorted;
    let (numbered, programs) = call_both(
        rt,
        threads,
        || -> Result<Numbered, OutOfMemory>
            requires { (length order.now ≤ max_transactions) × All IsChosen order.now
                × AreKeysIn order.now keys.now }
            ensures { IfOk result (λ n.
                AreNumbered (job_of (locked_in order.entry.now)) n.table n.graph n.room) }
        { numbered_in(rt, alloc, threads, order, keys) },
        || -> Result<Programs, OutOfMemory>
            ensures { IfOk result (λ programs.
                programs ≡ programs_of accounts.entry.now keys.entry.now) }
        { Programs::from_accounts(alloc, accounts, keys) },
    );
    Ok((programs?, numbered?))
}

/// The transactions as a work, with the programs that the snapshot has under their keys; and the
/// keys that they lock, as numbers.
pub(crate) fn work_of<G: Gate, R: Threads + Sync>(
    crew: &Crew<'_, G, R>,
    snapshot: &Snapshot,
    slot: u64,
    order: Items<Candidate>,
) -> Result<(TxWork, Numbered), OutOfMemory>
    requires few { length order ≤ max_transactions }
    requires height { IsUpTo max_stack_height snapshot.now.limits.height }
    requires chosen { All IsChosen order }
    ensures told { IfOk result (λ work. work.0.told ≡ told_in snapshot.now slot order) }
    ensures numbered { IfOk result (λ work.
        AreNumbered (job_of work.0.told) work.1.table work.1.graph work.1.room) }
{
    let (programs, numbered) = prepare(crew, &snapshot.accounts, order.as_slice())?;
    let work = TxWork::over(crew.alloc, order, programs, slot, snapshot.limits.height);
    Ok((work, numbered))
}
