//! From bytes to a block.
ghost use Rattle.std.specs.Prelude.{Ok, IfOk};
ghost use Rattle.spec_base.specs.Reading.{Gives};
ghost use Rattle.block_record.specs.declared.block.Block.{Block as BlockValue};
ghost use Rattle.block_record.specs.declared.block.Front.{Front as FrontValue};
ghost use Rattle.block_record.specs.Record.{BeginsWithRecord, IsRecord};
ghost use Rattle.block_record.specs.RecordReading.{is_record_memory, magic_at, block_at, front_of, record_of};

use crate::block::{Block, Front};
use crate::entries::read_entries;
use crate::fault::RecordFault;
use crate::writing::MAGIC;
use format_fields::{hash_field, key_field};
use spec_base::{array_field, place, u64_field};
use std::alloc::Global;

#[tactic(auto, unfolding(crate::specs::RecordReading::magic_at, spec_base::specs::Reading::read_if))]
fn read_magic(total: usize, bytes: &[u8]) -> Result<([u8; 8], &[u8]), RecordFault>
    ensures { Gives is_record_memory (λ x. (x.0, x.1.now)) result (magic_at total bytes.now) }
{
    let (magic, rest) = array_field::<RecordFault, 8>(total, bytes)?;
    if magic != MAGIC {
        return Err(RecordFault::BadField {
            at: place(total, bytes),
        });
    }
    Ok((magic, rest))
}

#[tactic(auto, unfolding(crate::specs::RecordReading::block_at))]
fn read_fields(alloc: Global, total: usize, bytes: &[u8]) -> Result<(Block, &[u8]), RecordFault>
    ensures { Gives is_record_memory (λ x. (x.0, x.1.now)) result (block_at total bytes.now) }
{
    let (_magic, rest) = read_magic(total, bytes)?;
    let (slot, rest) = u64_field::<RecordFault>(total, rest)?;
    let (collector, rest) = key_field::<RecordFault>(total, rest)?;
    let (previous, rest) = hash_field::<RecordFault>(total, rest)?;
    let (entries, rest) = read_entries(alloc, total, rest)?;
    let (burned, rest) = u64_field::<RecordFault>(total, rest)?;
    let (collected, rest) = u64_field::<RecordFault>(total, rest)?;
    let (state, rest) = hash_field::<RecordFault>(total, rest)?;
    let (hash, rest) = hash_field::<RecordFault>(total, rest)?;
    let block = Block {
        slot,
        collector,
        previous,
        entries,
        burned,
        collected,
        state,
        hash,
    };
    Ok((block, rest))
}

#[tactic(auto, unfolding(crate::specs::RecordReading::record_of))]
fn read_whole(alloc: Global, bytes: &[u8]) -> Result<Block, RecordFault>
    ensures { Gives is_record_memory (λ block. block) result (record_of bytes.now) }
{
    let total = bytes.len();
    let (block, rest) = read_fields(alloc, total, bytes)?;
    if !rest.is_empty() {
        return Err(RecordFault::Trailing {
            at: place(total, rest),
        });
    }
    Ok(block)
}

/// The block whose record the bytes are, all of them (the project's own format).
///
/// The refusals come in the order of the fields. The hashes are read and not tested.
pub fn read_record(alloc: Global, bytes: &[u8]) -> Result<Block, RecordFault>
    // What is read is spelled so.
    ensures found { IfOk result (λ block. IsRecord bytes.now block) }
    // What is spelled so is read, unless memory runs out.
    ensures only { (block : BlockValue) → IsRecord bytes.now block →
        Gives is_record_memory (λ v. v) result (Ok block) }
    // Which refusal it is.
    ensures exact { Gives is_record_memory (λ v. v) result (record_of bytes.now) }
{
    read_whole(alloc, bytes)
}

#[tactic(auto, unfolding(crate::specs::RecordReading::front_of))]
fn read_begun(alloc: Global, bytes: &[u8]) -> Result<Front, RecordFault>
    ensures { Gives is_record_memory (λ front. front) result (front_of bytes.now) }
{
    let total = bytes.len();
    let (block, rest) = read_fields(alloc, total, bytes)?;
    let length = place(total, rest);
    Ok(Front { block, length })
}

/// The block whose record the bytes begin with, and how many of them it takes. Other bytes may
/// follow it.
///
/// The refusals are those of `read_record`, but for the last.
pub fn read_front(alloc: Global, bytes: &[u8]) -> Result<Front, RecordFault>
    // What is read is spelled so.
    ensures found { IfOk result (λ front. BeginsWithRecord bytes.now front) }
    // What is spelled so is read, unless memory runs out.
    ensures only { (front : FrontValue) → BeginsWithRecord bytes.now front →
        Gives is_record_memory (λ v. v) result (Ok front) }
    // Which refusal it is.
    ensures exact { Gives is_record_memory (λ v. v) result (front_of bytes.now) }
{
    read_begun(alloc, bytes)
}
