//! A chain at its start, and a block for it.
ghost use Rattle.std.specs.Prelude.{◌≡◌, ◌≤◌, ◌<◌, length, All, IfOk, map};
ghost use Rattle.std.specs.List.{range_with_len};
ghost use Rattle.sol_base.specs.Limits.{max_transactions};
ghost use Rattle.snapshot_codec.specs.Batch.{IsShortWire};
ghost use Rattle.snapshot_codec.specs.Snapshot.{IsReadable};
ghost use Rattle.batch_gen.specs.Generator.{made, wire_of};

use crate::draws::Draws;
use crate::start::{COLLECTOR, start_snapshot};
use crate::transfers::draw_wire;
use snapshot_codec::{Batch, Snapshot};
use sol_base::{Blob, Items, OutOfMemory};
use std::alloc::Global;

/// A chain at its start, and a block for it.
#[derive(Drop)]
pub struct Made {
    pub snapshot: Snapshot,
    pub batch: Batch,
}

/// So many transactions, drawn from the number.
fn draw_wires(alloc: Global, number: u64, count: u32) -> Result<Items<Blob>, OutOfMemory>
    ensures wires { IfOk result (λ wires. wires ≡ map (wire_of number) (range_with_len 0 count)) }
    ensures few { IfOk result (λ wires. length wires ≡ count) }
    ensures short { IfOk result (All IsShortWire) }
{
    let mut draws = Draws { state: number };
    let mut wires = Items::with_capacity(alloc, count as usize)?;
    for t in 0..count {
        wires.push(draw_wire(alloc, &mut draws, t)?)?;
    }
    Ok(wires)
}

#[tactic(auto, unfolding(crate::specs::Generator::made))]
/// A snapshot of slot 0 with 64 users and a collector of fees, and a batch of `count` transfers
/// between the users for slot 1, drawn from `number`. Equal numbers make equal blocks, and a longer
/// block begins with a shorter one.
pub fn make(alloc: Global, number: u64, count: u32) -> Result<Made, OutOfMemory>
    requires { (1 ≤ count) × (count ≤ max_transactions) }
    ensures exact { IfOk result (λ m. m ≡ made number count) }
    ensures runnable { IfOk result (λ m. IsReadable m.snapshot × (m.snapshot.slot < m.batch.slot)
        × (length m.batch.wires ≤ max_transactions) × All IsShortWire m.batch.wires) }
{
    let snapshot = start_snapshot(alloc)?;
    let wires = draw_wires(alloc, number, count)?;
    Ok(Made {
        snapshot,
        batch: Batch {
            slot: 1,
            collector: COLLECTOR,
            wires,
        },
    })
}
