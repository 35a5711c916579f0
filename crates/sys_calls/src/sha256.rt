//! The call that hashes slices.
ghost use Rattle.std.specs.Prelude.{◌≡◌, ◌-◌, ◌++◌, List, ℕ, MatchResult, OnOk};
ghost use Rattle.sha2.specs.Hashers.{Holds256};
ghost use Rattle.sbpf_memory.specs.Plain.{plain_memory};
ghost use Rattle.sys_calls.specs.Access.{held, IsReadable};
ghost use Rattle.sys_calls.specs.Slices.{gathered, hash_of, slice_cost, slice_read};
ghost use Rattle.sys_calls.specs.SysCalls.{Does, hashed};

use crate::access::{PIECE, check_read, read_piece, write};
use crate::env::Env;
use crate::fault::SysFault;
use crate::slices::{Slice, read_slices};
use crate::table::MIN_BYTES_COST;
use compute_meter::charge;
use sbpf_memory::Memory;
use sha2::{Digest, Sha256};
use std::alloc::Global;

/// The most slices of a call (Solana).
pub(crate) const MAX_SLICES: u64 = 20_000;

/// Writes the SHA-256 of the slices, one after another (FIPS 180-4).
#[tactic(auto, unfolding(crate::specs::SysCalls::hashed))]
pub(crate) fn sha256(
    alloc: Global,
    slices: u64,
    count: u64,
    result_at: u64,
    memory: &mut Memory,
    env: &mut Env,
) -> Result<u64, SysFault>
    ensures { Does (hashed (plain_memory memory.old) env.old slices count result_at)
        memory.old memory.new env.old env.new result }
{
    if count > MAX_SLICES {
        return Err(SysFault::TooManySlices);
    }
    let slices = read_slices(alloc, memory, slices, count)?;
    let hash = hash_slices(slices.as_slice(), memory, &mut env.units)?;
    write(memory, result_at, &hash)?;
    Ok(0)
}

/// The hash of the slices. Each is charged and read before the next.
fn hash_slices(slices: &[Slice], memory: &mut Memory, units: &mut u64) -> Result<[u8; 32], SysFault>
    ensures answer { result ≡ hash_of
        (gathered (plain_memory memory.old) units.old slices.now).bytes }
    ensures units { units.new ≡ (gathered (plain_memory memory.old) units.old slices.now).units }
    ensures memory { memory.new ≡ memory.old }
{
    let mut hasher = Sha256::new();
    for slice in slices {
        hash_slice(*slice, memory, units, &mut hasher)?;
    }
    Ok(hasher.finalize())
}

/// Charges a slice, and adds its bytes to what is hashed.
#[tactic(auto, using(crate::proofs::Pieces::readable))]
fn hash_slice(
    slice: Slice,
    memory: &mut Memory,
    units: &mut u64,
    hasher: &mut Sha256,
) -> Result<(), SysFault>
    ensures answer { MatchResult result
        (λ _. slice_read (plain_memory memory.old) units.old slice
        ≡ Ok (held (plain_memory memory.old) slice.addr slice.len))
        (λ fault. slice_read (plain_memory memory.old) units.old slice ≡ Err fault) }
    ensures units { units.new ≡ units.old - slice_cost slice.len }
    ensures hasher { OnOk result
        ((hashed : List ℕ) → Holds256 hasher.old hashed → Holds256 hasher.new
        (hashed ++ held (plain_memory memory.old) slice.addr slice.len)) }
    ensures memory { memory.new ≡ memory.old }
{
    charge::<SysFault>(units, (slice.len / 2).max(MIN_BYTES_COST))?;
    check_read(memory, slice.addr, slice.len)?;
    hash_pieces(slice, memory, hasher);
    Ok(())
}

/// Adds the bytes of a slice that may be read to what is hashed, piece by piece.
fn hash_pieces(slice: Slice, memory: &Memory, hasher: &mut Sha256)
    requires { IsReadable (plain_memory memory.now) slice.addr slice.len }
    ensures { (hashed : List ℕ) → Holds256 hasher.old hashed → Holds256 hasher.new
        (hashed ++ held (plain_memory memory.now) slice.addr slice.len) }
{
    memory.is_memory();
    let mut buffer = [0; PIECE];
    let mut at = 0;
    while at < slice.len {
        let piece = read_piece(memory, slice.addr, slice.len, at, &mut buffer);
        at += piece.len() as u64;
        hasher.update(piece);
    }
}
