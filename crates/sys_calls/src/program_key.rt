//! The call that derives a program key.
ghost use Rattle.std.specs.Prelude.{◌≡◌, OnErr};
ghost use Rattle.spec_base.specs.Reading.{Gives};
ghost use Rattle.sbpf_memory.specs.Plain.{plain_memory};
ghost use Rattle.sys_calls.specs.Access.{is_sys_memory};
ghost use Rattle.sys_calls.specs.Slices.{all_read, has_long_slice as has_long};
ghost use Rattle.sys_calls.specs.SysCalls.{key_derived, key_written};

use crate::access::write;
use crate::fault::SysFault;
use crate::slices::{Slice, read_slices};
use sbpf_memory::{Memory, read_array, read_blob};
use sol_base::{Blob, Items, Key, MAX_SEED_LEN, MAX_SEEDS};
use std::alloc::Global;

/// Writes the key that a program signs for by the seeds (Solana), and returns 0. Where a seed is
/// too long it returns 1 and writes nothing (the project's own).
#[tactic(auto, unfolding(crate::specs::SysCalls::key_derived))]
pub(crate) fn program_key(
    alloc: Global,
    seeds: u64,
    count: u64,
    program: u64,
    result_at: u64,
    memory: &mut Memory,
) -> Result<u64, SysFault>
    ensures answer { Gives is_sys_memory (λ r0. (r0, plain_memory memory.new)) result
        (key_derived (plain_memory memory.old) seeds count program result_at) }
    ensures refused { OnErr result (plain_memory memory.new ≡ plain_memory memory.old) }
    ensures lent { memory.new.input.lent ≡ memory.old.input.lent }
{
    if count > MAX_SEEDS as u64 {
        return Err(SysFault::TooManySeeds);
    }
    let slices = read_slices(alloc, memory, seeds, count)?;
    write_key(alloc, slices.as_slice(), program, result_at, memory)
}

/// Writes the key of the slices' bytes and the program.
#[tactic(auto, unfolding(crate::specs::SysCalls::key_written))]
fn write_key(
    alloc: Global,
    slices: &[Slice],
    program: u64,
    result_at: u64,
    memory: &mut Memory,
) -> Result<u64, SysFault>
    ensures answer { Gives is_sys_memory (λ r0. (r0, plain_memory memory.new)) result
        (key_written (plain_memory memory.old) program result_at slices.now) }
    ensures refused { OnErr result (plain_memory memory.new ≡ plain_memory memory.old) }
    ensures lent { memory.new.input.lent ≡ memory.old.input.lent }
{
    if has_long_slice(slices) {
        return Ok(1);
    }
    let seeds = read_seeds(alloc, slices, memory)?;
    let program = Key(read_array::<SysFault, 32>(memory, program)?);
    match sol_base::program_key(&seeds, &program) {
        Err(_) => Ok(1),
        Ok(key) => {
            write(memory, result_at, &key.0)?;
            Ok(0)
        }
    }
}

fn has_long_slice(slices: &[Slice]) -> bool
    ensures { result ≡ has_long slices.now }
{
    slices.iter().any(|slice| slice.len > MAX_SEED_LEN as u64)
}

/// The bytes of the slices, read in order.
fn read_seeds(alloc: Global, slices: &[Slice], memory: &Memory) -> Result<Items<Blob>, SysFault>
    ensures { Gives is_sys_memory (λ seeds. seeds) result
        (all_read (plain_memory memory.now) slices.now) }
{
    let mut seeds = Items::with_capacity(alloc, slices.len())?;
    for slice in slices {
        let seed = read_blob::<SysFault>(alloc, memory, slice.addr, slice.len)?;
        seeds.push(seed)?;
    }
    Ok(seeds)
}
