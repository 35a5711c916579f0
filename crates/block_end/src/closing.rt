//! The end of a block: its record, and the snapshot after it.
ghost use Rattle.std.specs.Prelude.{◌≡◌, ◌+◌, ◌<◌, ◌≤◌, ◌^◌, ◌∷◌, All, IfOk, length, take, true};
ghost use Rattle.sha2.specs.Hashers.{Holds256};
ghost use Rattle.sol_base.specs.Limits.{max_transactions};
ghost use Rattle.account_store.specs.State.{len, sum};
ghost use Rattle.tx_report.specs.Outcomes.{IsSmallOutcome};
ghost use Rattle.block_record.specs.Record.{IsCounted, front_bytes};
ghost use Rattle.snapshot_codec.specs.Snapshot.{AreAllowed};
ghost use Rattle.status_cache.specs.Recent.{Ascends, max_marks, newest_of};
ghost use Rattle.block_end.specs.Answers.{IsClosed, IsClosedRecord};
ghost use Rattle.fee_rules.specs.Fees.{split_of};
ghost use Rattle.block_end.specs.BlockEnd.{base_fees, priority_fees};
ghost use Rattle.block_end.specs.Blocks.{ascending, closed_with, processed_in, sealed};
ghost use Rattle.block_end.specs.Closing.{IsEndOf, IsUnsealed};
ghost use Rattle.bank_core.specs.Ends.{state_at_end};
ghost use Rattle.block_end.specs.Ending.{AreOf, MayEnd, ran_of};
ghost use Rattle.block_end.specs.RecordPrefix.{IsBegun, IsWritten};

use crate::activation::activate_all;
use crate::block::{Chain, Closed, ClosedRecord, RecordParts};
use crate::crew::Crew;
use crate::entries::entries_of;
use crate::fees::{Shared, share_split, split_paid};
use crate::names::{ascending, processed_in};
use crate::record_prefix::RecordPrefix;
use crate::rest::take_rest;
use crate::threads::call_both;
use account_store::Accounts;
use admission::Candidate;
use bank_core::{Ended, SharedOutcome, Work};
use block_record::{Block, end_hash, end_record};
use fee_rules::FeeSplit;
use sha2::Sha256;
use snapshot_codec::{Snapshot, state_hash};
use sol_base::{Hash32, Items, Key, OutOfMemory};
use status_cache::Mark;
use std::alloc::Global;
use std::thread::Threads;

/// The accounts after a block with their hash, and the lamports burned and paid.
#[derive(Drop)]
struct EndState {
    accounts: Accounts,
    burned: u64,
    collected: u64,
    state: Hash32,
}

/// Shares the fees; then programs become executable, and the state hash is of these accounts.
fn end_state(
    alloc: Global,
    accounts: Accounts,
    collector: &Key,
    split: FeeSplit,
) -> Result<EndState, OutOfMemory>
    requires supply { sum accounts + split.burned + split.rest < 2 ^ 64 }
    requires room { len accounts + 1 < 2 ^ 32 }
    ensures { IfOk result (IsEndOf accounts collector.now split) }
{
    let Shared {
        accounts,
        burned,
        collected,
    } = share_split(alloc, accounts, collector, split)?;
    let accounts = activate_all(alloc, accounts)?;
    let state = state_hash(alloc, &accounts)?;
    Ok(EndState {
        accounts,
        burned,
        collected,
        state,
    })
}

/// Shares the fees over the accounts that a run leaves, once they are joined, and ends their state; and
/// the names of messages that were processed, in ascending order.
fn end_state_of_run<W: Work>(
    alloc: Global,
    collector: &Key,
    order: &[Candidate],
    ended: Ended<W>,
    outcomes: &Items<SharedOutcome>,
) -> Result<(EndState, Items<Hash32>), OutOfMemory>
    requires one_each { length outcomes.now ≡ length order.now }
    requires supply { sum (state_at_end W.job ended.origin.value) + base_fees outcomes.now
        + priority_fees outcomes.now < 2 ^ 64 }
    requires room { len (state_at_end W.job ended.origin.value) + 1 < 2 ^ 32 }
    ensures end { IfOk result (λ end. IsEndOf (state_at_end W.job ended.origin.value) collector.now
        (split_of (base_fees outcomes.now) (priority_fees outcomes.now)) end.0) }
    ensures names { IfOk result (λ end.
        end.1 ≡ ascending (processed_in order.now outcomes.now)) }
{
    let names = processed_in(alloc, order, outcomes.as_slice())?;
    let split = split_paid(outcomes.as_slice());
    let accounts = ended.joined()?;
    let end = end_state(alloc, accounts, collector, split)?;
    Ok((end, ascending(names)))
}

/// The end of a block, but for its hash: its accounts, its names in ascending order, and its record
/// up to the end of its entries.
#[derive(Drop)]
struct Ends {
    end: EndState,
    names: Items<Hash32>,
    front: RecordPrefix,
}

/// Ends a block whose transactions have these outcomes: the fees are shared, then programs become
/// executable, and the state hash is of these accounts. That is done beside what is left of the
/// entries, where there are several lanes.
fn end_block<W: Work, G, R: Threads + Sync>(
    crew: &Crew<'_, G, R>,
    parts: RecordParts<'_>,
    ended: Ended<W>,
    outcomes: &Items<SharedOutcome>,
    begun: RecordPrefix,
) -> Result<Ends, OutOfMemory>
    requires run { MayEnd parts.wires.now parts.order.now
        (ran_of W.job ended.origin.value outcomes.now) }
    requires begun { IsBegun parts outcomes.now begun }
    ensures end { IfOk result (λ ends. IsEndOf (state_at_end W.job ended.origin.value)
        parts.entry.head.now.collector (split_of (base_fees outcomes.entry.now)
        (priority_fees outcomes.entry.now)) ends.end) }
    ensures names { IfOk result (λ ends. ends.names
        ≡ ascending (processed_in parts.entry.order.now outcomes.entry.now)) }
    ensures front { IfOk result (λ ends. IsWritten parts.entry outcomes.entry.now ends.front) }
{
    let RecordParts {
        head,
        previous,
        wires,
        order,
        kept,
    } = parts;
    let (rt, alloc) = (crew.rt, crew.alloc);
    let threads = crew.lanes_for_many(order.len());
    let (end, front) = call_both(
        rt,
        threads,
        move || -> Result<(EndState, Items<Hash32>), OutOfMemory>
            requires { (length outcomes.now ≡ length order.now)
                × (sum (state_at_end W.job ended.origin.value) + base_fees outcomes.now
                + priority_fees outcomes.now < 2 ^ 64)
                × (len (state_at_end W.job ended.origin.value) + 1 < 2 ^ 32) }
            ensures end { IfOk result (λ end. IsEndOf (state_at_end W.job ended.origin.value)
                head.entry.now.collector (split_of (base_fees outcomes.entry.now)
                (priority_fees outcomes.entry.now)) end.0) }
            ensures names { IfOk result (λ end.
                end.1 ≡ ascending (processed_in order.entry.now outcomes.entry.now)) }
        { end_state_of_run(alloc, &head.collector, order, ended, outcomes) },
        move || -> Result<RecordPrefix, OutOfMemory>
            requires { AreOf wires.now order.now × (length outcomes.now ≡ length order.now)
                × All IsSmallOutcome outcomes.now × IsBegun (record {
                  head = head;
                  previous = previous;
                  wires = wires;
                  order = order;
                  kept = kept;
                })
                outcomes.now begun }
            ensures { IfOk result (IsWritten (record {
              head = head.entry;
              previous = previous;
              wires = wires.entry;
              order = order.entry;
              kept = kept;
            })
                outcomes.entry.now) }
        {
            let parts = RecordParts {
                head,
                previous,
                wires,
                order,
                kept,
            };
            take_rest(rt, alloc, threads, parts, begun, outcomes)
        },
    );
    let (end, names) = end?;
    Ok(Ends {
        end,
        names,
        front: front?,
    })
}

/// A block as far as it is known by its entries, and its hash so far.
#[derive(Drop)]
struct Unsealed {
    block: Block,
    hasher: Sha256,
}

/// Lists the entries.
fn list_entries(
    alloc: Global,
    parts: RecordParts<'_>,
    outcomes: Items<SharedOutcome>,
    front: RecordPrefix,
) -> Result<Unsealed, OutOfMemory>
    requires of { AreOf parts.wires.now parts.order.now }
    requires one_each { length outcomes ≡ length parts.order.now }
    requires small { All IsSmallOutcome outcomes }
    requires front { IsWritten parts outcomes front }
    ensures { IfOk result (IsUnsealed parts.entry outcomes) }
{
    let block = Block {
        slot: parts.head.slot,
        collector: parts.head.collector,
        previous: parts.previous,
        entries: entries_of(alloc, parts.wires, parts.order, outcomes)?,
        burned: 0,
        collected: 0,
        state: Hash32([0; 32]),
        hash: Hash32([0; 32]),
    };
    Ok(Unsealed {
        block,
        hasher: front.hasher,
    })
}

/// The block with the accounts' hash, the lamports burned and paid, and its own hash.
fn seal(unsealed: Unsealed, burned: u64, collected: u64, state: Hash32) -> Block
    requires counted { IsCounted unsealed.block }
    requires hasher { Holds256 unsealed.hasher (front_bytes unsealed.block) }
    ensures exact { result ≡ sealed (record unsealed.block {
      burned = burned;
      collected = collected;
      state = state;
    }) }
    ensures counted { IsCounted result }
{
    let Unsealed { mut block, hasher } = unsealed;
    block.burned = burned;
    block.collected = collected;
    block.state = state;
    block.hash = end_hash(hasher, &block);
    block
}

/// The snapshot after a block that has this hash.
fn snapshot_after(
    slot: u64,
    chain: Chain,
    accounts: Accounts,
    mark: Mark,
) -> Result<Snapshot, OutOfMemory>
    requires { Ascends mark.messages }
    ensures { IfOk result (λ after. after ≡ record {
      slot = slot;
      limits = chain.limits;
      recent = take max_marks (mark ∷ chain.recent);
      accounts = accounts;
    }) }
{
    let Chain { limits, mut recent } = chain;
    recent.advance(mark)?;
    Ok(Snapshot {
        slot,
        limits,
        recent,
        accounts,
    })
}

/// Ends a run: its block, and the snapshot after it (Solana; the formats are the project's own). On
/// several lanes a second thread is started where the transactions are many.
pub fn close<W: Work, G, R: Threads + Sync>(
    crew: &Crew<'_, G, R>,
    chain: Chain,
    parts: RecordParts<'_>,
    ended: Ended<W>,
    outcomes: Items<SharedOutcome>,
    begun: RecordPrefix,
) -> Result<Closed, OutOfMemory>
    requires limits { AreAllowed chain.limits }
    requires messages { All (λ mark. length mark.messages ≤ max_transactions)
        chain.recent }
    requires previous { parts.previous ≡ newest_of chain.recent }
    requires run { MayEnd parts.wires.now parts.order.now (ran_of W.job ended.origin.value outcomes) }
    requires begun { IsBegun parts outcomes begun }
    ensures { IfOk result (IsClosed (closed_with (record {
      slot = 0;
      limits = chain.limits;
      recent = chain.recent;
      accounts = state_at_end W.job ended.origin.value;
    })
        parts.entry.head.now parts.entry.wires.now parts.entry.order.now
        (ran_of W.job ended.origin.value outcomes))) }
{
    let Ends { end, names, front } = end_block(crew, parts, ended, &outcomes, begun)?;
    let unsealed = list_entries(crew.alloc, parts, outcomes, front)?;
    let block = seal(unsealed, end.burned, end.collected, end.state);
    let mark = Mark {
        hash: block.hash,
        messages: names,
    };
    let after = snapshot_after(parts.head.slot, chain, end.accounts, mark)?;
    Ok(Closed { after, block })
}

/// Ends a run whose record was begun and kept: the record of its block, and the snapshot after it.
pub fn close_record<W: Work, G, R: Threads + Sync>(
    crew: &Crew<'_, G, R>,
    chain: Chain,
    parts: RecordParts<'_>,
    ended: Ended<W>,
    outcomes: &Items<SharedOutcome>,
    begun: RecordPrefix,
) -> Result<ClosedRecord, OutOfMemory>
    requires limits { AreAllowed chain.limits }
    requires messages { All (λ mark. length mark.messages ≤ max_transactions)
        chain.recent }
    requires previous { parts.previous ≡ newest_of chain.recent }
    requires run { MayEnd parts.wires.now parts.order.now
        (ran_of W.job ended.origin.value outcomes.now) }
    requires begun { IsBegun parts outcomes.now begun }
    requires kept { parts.kept ≡ true }
    ensures { IfOk result (IsClosedRecord (closed_with (record {
      slot = 0;
      limits = chain.limits;
      recent = chain.recent;
      accounts = state_at_end W.job ended.origin.value;
    })
        parts.entry.head.now parts.entry.wires.now parts.entry.order.now
        (ran_of W.job ended.origin.value outcomes.entry.now))) }
{
    let Ends { end, names, front } = end_block(crew, parts, ended, outcomes, begun)?;
    let RecordPrefix {
        count: _,
        hasher,
        bytes: mut record,
    } = front;
    let hash = end_record(&mut record, hasher, end.burned, end.collected, &end.state)?;
    let mark = Mark {
        hash,
        messages: names,
    };
    let after = snapshot_after(parts.head.slot, chain, end.accounts, mark)?;
    Ok(ClosedRecord { record, after })
}
