//! The keys that a program signs for by seeds.
ghost use Rattle.std.specs.Prelude.{◌≡◌, ◌≤◌};
ghost use Rattle.spec_base.specs.Reading.{Gives};
ghost use Rattle.sbpf_memory.specs.Plain.{plain_memory};
ghost use Rattle.cpi_calls.specs.Reads.{is_call_memory, items_read, seed_read, seeds_read, signer_read, signers_read};

use crate::fault::CallFault;
use crate::reads::{ITEM_LEN, item_addr};
use sbpf_memory::{Memory, read_array, read_blob};
use sol_base::{Blob, Items, Key, MAX_SEED_LEN, MAX_SEEDS, program_key};
use spec_base::number_in;
use std::alloc::Global;

/// The most signers of a call (Solana).
pub(crate) const MAX_SIGNERS: u64 = 16;

/// The keys of a list of signers, which `caller` signs for.
pub(crate) fn read_signers(
    alloc: Global,
    memory: &Memory,
    list: u64,
    count: u64,
    caller: &Key,
) -> Result<Items<Key>, CallFault>
    ensures { Gives is_call_memory (λ signers. signers) result
        (signers_read (plain_memory memory.now) caller.now list count) }
{
    if count > MAX_SIGNERS {
        return Err(CallFault::TooManySigners);
    }
    read_each_signer(alloc, memory, list, count as u8, caller)
}

fn read_each_signer(
    alloc: Global,
    memory: &Memory,
    list: u64,
    count: u8,
    caller: &Key,
) -> Result<Items<Key>, CallFault>
    ensures { Gives is_call_memory (λ signers. signers) result
        (items_read (signer_read (plain_memory memory.now) caller.now) list count) }
{
    let mut signers = Items::with_capacity(alloc, count as usize)?;
    for index in 0..count {
        let addr = item_addr(list, index);
        let signer = read_signer(alloc, memory, addr, caller)?;
        signers.push(signer)?;
    }
    Ok(signers)
}

/// The program key of a signer's seeds and the caller.
#[tactic(auto, unfolding(crate::specs::Reads::signer_read))]
fn read_signer(alloc: Global, memory: &Memory, addr: u64, caller: &Key) -> Result<Key, CallFault>
    ensures { Gives is_call_memory (λ key. key) result
        (signer_read (plain_memory memory.now) caller.now addr) }
{
    let bytes = read_array::<CallFault, ITEM_LEN>(memory, addr)?;
    let seeds = read_seeds(alloc, memory, number_in(&bytes, 0), number_in(&bytes, 8))?;
    match program_key(&seeds, caller) {
        Ok(key) => Ok(key),
        Err(_) => Err(CallFault::BadSeeds),
    }
}

fn read_seeds(
    alloc: Global,
    memory: &Memory,
    list: u64,
    count: u64,
) -> Result<Items<Blob>, CallFault>
    ensures { Gives is_call_memory (λ seeds. seeds) result
        (seeds_read (plain_memory memory.now) list count) }
{
    if count > MAX_SEEDS as u64 {
        return Err(CallFault::BadSeeds);
    }
    read_each_seed(alloc, memory, list, count as u8)
}

fn read_each_seed(
    alloc: Global,
    memory: &Memory,
    list: u64,
    count: u8,
) -> Result<Items<Blob>, CallFault>
    ensures { Gives is_call_memory (λ seeds. seeds) result
        (items_read (seed_read (plain_memory memory.now)) list count) }
{
    let mut seeds = Items::with_capacity(alloc, count as usize)?;
    for index in 0..count {
        let addr = item_addr(list, index);
        let seed = read_seed(alloc, memory, addr)?;
        seeds.push(seed)?;
    }
    Ok(seeds)
}

/// A seed: its length is tested before its bytes are read.
#[tactic(auto, unfolding(crate::specs::Reads::seed_read))]
fn read_seed(alloc: Global, memory: &Memory, addr: u64) -> Result<Blob, CallFault>
    ensures { Gives is_call_memory (λ seed. seed) result
        (seed_read (plain_memory memory.now) addr) }
{
    let bytes = read_array::<CallFault, ITEM_LEN>(memory, addr)?;
    let len = number_in(&bytes, 8);
    if len > MAX_SEED_LEN as u64 {
        return Err(CallFault::BadSeeds);
    }
    read_blob::<CallFault>(alloc, memory, number_in(&bytes, 0), len)
}
