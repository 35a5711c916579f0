//! Lists of slices, as the C interface has them.
ghost use Rattle.std.specs.Prelude.{◌≡◌, ◌+◌, ◌*◌, ◌≤◌, ◌<◌, length, map, IfOk};
ghost use Rattle.std.specs.List.{range_with_len};
ghost use Rattle.spec_base.specs.Reading.{Gives};
ghost use Rattle.sbpf_memory.specs.Plain.{plain_memory};
ghost use Rattle.sys_calls.specs.Access.{is_sys_memory};
ghost use Rattle.sys_calls.specs.Costs.{max_slices};
ghost use Rattle.sys_calls.specs.Slices.{slice_at, slice_len, slices_read};

use crate::fault::SysFault;
use sbpf_memory::{Memory, read_bytes};
use sol_base::{Items, OutOfMemory};
use spec_base::number_in;
use std::alloc::Global;

/// A range of addresses that a program names.
#[derive(Clone, Copy, PartialEq, Eq)]
pub struct Slice {
    pub addr: u64,
    pub len: u64,
}

/// The bytes of a slice in a list.
pub(crate) const SLICE_LEN: usize = 16;

/// The slices of a list.
#[tactic(auto, unfolding(crate::specs::Slices::slices_read))]
pub(crate) fn read_slices(
    alloc: Global,
    memory: &Memory,
    at: u64,
    count: u64,
) -> Result<Items<Slice>, SysFault>
    requires { count ≤ max_slices }
    ensures { Gives is_sys_memory (λ slices. slices) result
        (slices_read (plain_memory memory.now) at count) }
{
    let bytes = read_bytes::<SysFault>(alloc, memory, at, count * SLICE_LEN as u64)?;
    Ok(slices_in(alloc, bytes.as_slice(), count as usize)?)
}

/// The slices that are in bytes.
#[tactic(auto, using(crate::proofs::Loops::ranges))]
fn slices_in(alloc: Global, bytes: &[u8], count: usize) -> Result<Items<Slice>, OutOfMemory>
    requires { slice_len * count ≤ length bytes.now }
    ensures { IfOk result (λ slices. slices ≡ map (slice_at bytes.now) (range_with_len 0 count)) }
{
    let mut slices = Items::with_capacity(alloc, count)?;
    for index in 0..count {
        slices.push(slice_in(bytes, index))?;
    }
    Ok(slices)
}

/// The slice at an index.
fn slice_in(bytes: &[u8], index: usize) -> Slice
    requires { slice_len * index + slice_len ≤ length bytes.now }
    ensures { result ≡ slice_at bytes.now index }
{
    let at = SLICE_LEN * index;
    Slice {
        addr: number_in(bytes, at),
        len: number_in(bytes, at + 8),
    }
}
