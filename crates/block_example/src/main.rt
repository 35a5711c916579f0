//! An example: the block of an input is run in memory, on four lanes with a gate of its own, and the
//! hash of its record is printed.
#![tactic(auto)]

use bank_lanes::Gate;
use block_run::{BlockResult, run_block};
use snapshot_codec::{Prefix, read_batch, read_snapshot};
use sol_io::{StdSource, read_all};
use std::alloc::Global;
use std::sync::Wait;
use std::sync::atomic::{AtomicU32, Ordering};
use std::thread::Threads;

const LANES: u32 = 4;

/// The most bytes that are read.
const LIMIT: usize = 1 << 29;

/// Counts the transactions that the lanes execute.
#[derive(Drop)]
struct CountingGate {
    passed: AtomicU32,
}

impl Gate for CountingGate {
    fn pass(&self, _lane: u32, _position: u32) {
        self.passed.fetch_add(1, Ordering::SeqCst);
    }
}

/// The block of a snapshot and the batch behind it.
fn run_input<G: Gate, R: Threads + Wait + Sync>(
    rt: &R,
    alloc: Global,
    input: &[u8],
    gate: &G,
) -> anyhow::Result<BlockResult> {
    let Prefix { snapshot, length } = read_snapshot(alloc, input)?;
    let batch = read_batch(alloc, &input[length..], snapshot.slot)?;
    Ok(run_block(rt, alloc, snapshot, &batch, LANES, gate)?)
}

fn main(rt: HostRuntime) -> anyhow::Result<()> {
    let input = read_all(rt.alloc(), &mut StdSource::new(rt.reader()), LIMIT)?;
    let gate = CountingGate {
        passed: AtomicU32::new(0),
    };
    let result = run_input(&rt, rt.alloc(), input.as_slice(), &gate)?;
    let hash = hex::encode(rt.alloc(), result.block.hash.0.as_slice())?;
    let passed = gate.passed.load(Ordering::SeqCst);
    println!(rt; "block {hash}, {passed} transactions executed")?;
    Ok(())
}
