//! Batches: what a block is to be made of, as bytes.
ghost use Rattle.std.specs.Prelude.{◌≡◌, ◌++◌, ◌≤◌, Ok, length, All, OnOk, IfOk};
ghost use Rattle.std.specs.List.{flat_map};
ghost use Rattle.spec_base.specs.Reading.{Gives};
ghost use Rattle.spec_base.specs.Bytes.{sized_bytes};
ghost use Rattle.snapshot_codec.specs.declared.batch.Batch.{Batch as BatchValue};
ghost use Rattle.snapshot_codec.specs.Batch.{IsBatch, IsShortWire, batch_bytes as bytes_of};
ghost use Rattle.snapshot_codec.specs.BatchReading.{is_batch_memory, magic_at, slot_at, count_at, batch_at, batch_of};
ghost use Rattle.sol_base.specs.Limits.{max_transactions};

use crate::fault::BatchFault;
use format_fields::{Item, key_field, read_many};
use sol_base::{Blob, Items, Key, MAX_TRANSACTIONS, OutOfMemory};
use spec_base::{array_field, bytes_field, place, u16_field, u32_field, u64_field};
use std::alloc::Global;

/// What a batch begins with.
pub const BATCH_MAGIC: [u8; 8] = *b"SOLBATC1";

/// The bytes of a batch without transactions.
pub const BATCH_HEAD_LEN: usize = 52;

/// The bytes of the length of a transaction.
pub const WIRE_LENGTH_LEN: usize = 2;

/// What a block is to be made of: its slot, who collects the fees, and the transactions as they
/// came.
#[derive(Drop)]
pub struct Batch {
    pub slot: u64,
    pub collector: Key,
    pub wires: Items<Blob>,
}

/// The bytes after the magic.
#[tactic(auto, unfolding(crate::specs::BatchReading::magic_at, spec_base::specs::Reading::read_if))]
fn read_magic(total: usize, bytes: &[u8]) -> Result<([u8; 8], &[u8]), BatchFault>
    ensures { Gives is_batch_memory (λ x. (x.0, x.1.now)) result (magic_at total bytes.now) }
{
    let (magic, rest) = array_field::<BatchFault, 8>(total, bytes)?;
    if magic != BATCH_MAGIC {
        return Err(BatchFault::Magic);
    }
    Ok((magic, rest))
}

#[tactic(auto, unfolding(crate::specs::BatchReading::slot_at, spec_base::specs::Reading::read_if))]
fn read_slot(before: u64, total: usize, bytes: &[u8]) -> Result<(u64, &[u8]), BatchFault>
    ensures { Gives is_batch_memory (λ x. (x.0, x.1.now)) result (slot_at before total bytes.now) }
{
    let (slot, rest) = u64_field::<BatchFault>(total, bytes)?;
    if slot <= before {
        return Err(BatchFault::SlotNotLater);
    }
    Ok((slot, rest))
}

#[tactic(auto, unfolding(crate::specs::BatchReading::count_at, spec_base::specs::Reading::read_if))]
fn read_count(total: usize, bytes: &[u8]) -> Result<(u32, &[u8]), BatchFault>
    ensures { Gives is_batch_memory (λ x. (x.0, x.1.now)) result (count_at total bytes.now) }
{
    let (count, rest) = u32_field::<BatchFault>(total, bytes)?;
    if count > MAX_TRANSACTIONS as u32 {
        return Err(BatchFault::TooMany);
    }
    Ok((count, rest))
}

/// A transaction of a batch, one field after its length.
impl Item<BatchFault> for Blob {
    ghost use Rattle.snapshot_codec.specs.BatchReading.{wire_at};

    ghost item_at = { wire_at };

    const LEAST_LEN: usize = WIRE_LENGTH_LEN;

    #[tactic(auto, unfolding(crate::specs::BatchReading::wire_at))]
    fn read(alloc: Global, total: usize, bytes: &[u8]) -> Result<(Blob, &[u8]), BatchFault> {
        let (len, rest) = u16_field::<BatchFault>(total, bytes)?;
        let (field, rest) = bytes_field::<BatchFault>(total, usize::from(len), rest)?;
        Ok((Blob::from_slice(alloc, field)?, rest))
    }
}

#[tactic(auto, unfolding(crate::specs::BatchReading::batch_at))]
fn read_fields(
    alloc: Global,
    before: u64,
    total: usize,
    bytes: &[u8],
) -> Result<(Batch, &[u8]), BatchFault>
    ensures { Gives is_batch_memory (λ x. (x.0, x.1.now)) result (batch_at before total bytes.now) }
{
    let (_magic, rest) = read_magic(total, bytes)?;
    let (slot, rest) = read_slot(before, total, rest)?;
    let (collector, rest) = key_field::<BatchFault>(total, rest)?;
    let (count, rest) = read_count(total, rest)?;
    let (wires, rest) = read_many::<BatchFault, Blob>(alloc, total, count as usize, rest)?;
    let batch = Batch {
        slot,
        collector,
        wires,
    };
    Ok((batch, rest))
}

#[tactic(auto, unfolding(crate::specs::BatchReading::batch_of))]
fn read_whole(alloc: Global, bytes: &[u8], before: u64) -> Result<Batch, BatchFault>
    ensures { Gives is_batch_memory (λ batch. batch) result (batch_of before bytes.now) }
{
    let total = bytes.len();
    let (batch, rest) = read_fields(alloc, before, total, bytes)?;
    if !rest.is_empty() {
        return Err(BatchFault::Trailing {
            at: place(total, rest),
        });
    }
    Ok(batch)
}

/// The batch that the bytes are, all of them, for a block after the slot `before` (the project's
/// own format).
///
/// The refusals come in the order of the fields.
pub fn read_batch(alloc: Global, bytes: &[u8], before: u64) -> Result<Batch, BatchFault>
    // What is read is spelled so.
    ensures found { IfOk result (λ batch. IsBatch before bytes.now batch) }
    // What is spelled so is read, unless memory runs out.
    ensures only { (batch : BatchValue) → IsBatch before bytes.now batch →
        Gives is_batch_memory (λ v. v) result (Ok batch) }
    // Which refusal it is.
    ensures exact { Gives is_batch_memory (λ v. v) result (batch_of before bytes.now) }
{
    read_whole(alloc, bytes, before)
}

fn write_wire(out: &mut Blob, wire: &Blob) -> Result<(), OutOfMemory>
    requires { IsShortWire wire.now }
    ensures { OnOk result (out.new ≡ out.old ++ sized_bytes wire.now) }
{
    out.append(&(wire.len() as u16).to_le_bytes())?;
    out.append(wire.as_slice())
}

fn write_wires(out: &mut Blob, wires: &[Blob]) -> Result<(), OutOfMemory>
    requires { All IsShortWire wires.now }
    ensures { OnOk result (out.new ≡ out.old ++ flat_map sized_bytes wires.now) }
{
    for wire in wires {
        write_wire(out, wire)?;
    }
    Ok(())
}

/// The bytes of a batch, so that one buffer is reserved for them.
fn batch_len(wires: &[Blob]) -> usize {
    let mut sum = BATCH_HEAD_LEN;
    for wire in wires {
        sum = sum
            .saturating_add(wire.len())
            .saturating_add(WIRE_LENGTH_LEN);
    }
    sum
}

/// The bytes of the batch (the project's own format).
pub fn batch_bytes(alloc: Global, batch: &Batch) -> Result<Blob, OutOfMemory>
    requires few { length batch.now.wires ≤ max_transactions }
    requires short { All IsShortWire batch.now.wires }
    ensures { IfOk result (λ bytes. bytes ≡ bytes_of batch.now) }
{
    let wires = batch.wires.as_slice();
    let mut out = Blob::with_capacity(alloc, batch_len(wires))?;
    out.append(&BATCH_MAGIC)?;
    out.append(&batch.slot.to_le_bytes())?;
    out.append(&batch.collector.0)?;
    out.append(&(wires.len() as u32).to_le_bytes())?;
    write_wires(&mut out, wires)?;
    Ok(out)
}
