//! A block on two lanes that run at once.
ghost use Rattle.std.specs.Prelude.{◌<◌, ◌≤◌, IfOk, length};
ghost use Rattle.snapshot_codec.specs.Snapshot.{IsReadable};

use crate::tests::gates::KeepingGate;
use crate::tests::inputs::{TWO_TRANSFERS, Transfer, input_of};
use bank_lanes::Gate;
use block_run::{BlockResult, run_block};
use snapshot_codec::{Batch, Prefix, Snapshot, read_batch, read_snapshot};
use sol_base::{Hash32, Key};
use std::alloc::Global;
use std::sync::Wait;
use std::test::Fail;
use std::thread::Threads;

/// The block hash of example "two transfers".
const TWO_HASH: Hash32 = Hash32([
    0x5a, 0xc2, 0x78, 0x0a, 0x2c, 0xad, 0x36, 0x51, 0x1b, 0x26, 0x86, 0x59, 0x03, 0x1c, 0xe8, 0x77,
    0x12, 0x47, 0x23, 0x21, 0x9d, 0x91, 0xd9, 0xb9, 0x9e, 0xb7, 0x75, 0x46, 0x78, 0x54, 0x86, 0xb8,
]);

/// The snapshot that an input begins with.
fn prefix_of(alloc: Global, input: &[u8]) -> Result<Prefix, Fail>
    ensures readable { IfOk result (λ prefix. IsReadable prefix.snapshot) }
    ensures within { IfOk result (λ prefix. prefix.length ≤ length input.now) }
{
    Ok(read_snapshot(alloc, input)?)
}

/// The batch behind it, for a slot after this one.
fn batch_of(alloc: Global, input: &[u8], before: u64) -> Result<Batch, Fail>
    ensures later { IfOk result (λ batch. before < batch.slot) }
    ensures few { IfOk result (λ batch. length batch.wires ≤ 16384) }
{
    Ok(read_batch(alloc, input, before)?)
}

/// Runs the batch that follows the snapshot, on two lanes.
fn run<G: Gate, R: Threads + Wait + Sync>(
    rt: &R,
    alloc: Global,
    input: &[u8],
    gate: &G,
) -> Result<BlockResult, Fail> {
    let Prefix { snapshot, length } = prefix_of(alloc, input)?;
    let batch = batch_of(alloc, &input[length..], snapshot.slot)?;
    Ok(run_block(rt, alloc, snapshot, &batch, 2, gate)?)
}

/// Runs these transfers.
fn run_transfers<G: Gate, R: Threads + Wait + Sync>(
    rt: &R,
    alloc: Global,
    transfers: &[Transfer],
    gate: &G,
) -> Result<BlockResult, Fail> {
    let input = input_of(alloc, transfers)?;
    run(rt, alloc, input.as_slice(), gate)
}

/// The lamports of an account, and 0 where it is absent.
fn lamports_of(after: &Snapshot, key: u8) -> u64 {
    match after.accounts.get(&Key([key; 32])) {
        Some(account) => account.lamports,
        None => 0,
    }
}

/// Whether each key, of a byte, has these lamports.
fn have_lamports(after: &Snapshot, wanted: &[(u8, u64)]) -> bool {
    for (key, lamports) in wanted {
        if lamports_of(after, *key) != *lamports {
            return false;
        }
    }
    true
}

/// Whether the block has this hash and burned so much, and none of its transactions is refused.
fn is_block(told: &BlockResult, hash: &Hash32, burned: u64) -> bool {
    told.block.hash == *hash
        && told.after.recent.newest() == *hash
        && told.block.burned == burned
        && told.refused.is_empty()
}

/// What accounts have after example "two transfers".
const AFTER_TWO: [(u8, u64); 5] = [
    (1, 999_995_000),
    (2, 999_995_000),
    (0x11, 1_000_000_000),
    (0x12, 1_000_000_000),
    (0xc0, 1_000_005_000),
];

/// Whether these transfers run to this block, hash and burned lamports, where position 0 is kept
/// until another one passes.
fn meet<R: Threads + Wait + Sync>(
    rt: &R,
    alloc: Global,
    transfers: &[Transfer],
    until: u32,
    (hash, burned): (&Hash32, u64),
    after: &[(u8, u64)],
) -> Result<bool, Fail> {
    let gate = KeepingGate::new(until);
    let told = run_transfers(rt, alloc, transfers, &gate)?;
    Ok(gate.was_passed() && is_block(&told, hash, burned) && have_lamports(&told.after, after))
}

#[test]
fn two_lanes_at_once(rt: HostRuntime) -> Result<(), Fail> {
    let wanted = (&TWO_HASH, 5_000);
    assert!(rt; meet(&rt, rt.alloc(), &TWO_TRANSFERS, 1, wanted, &AFTER_TWO)?);
    Ok(())
}
