//! The calls that keep bytes for the caller, and that hand them out.
ghost use Rattle.std.specs.Prelude.{◌≡◌, OnErr};
ghost use Rattle.spec_base.specs.Reading.{Gives};
ghost use Rattle.sbpf_memory.specs.Plain.{plain_memory};
ghost use Rattle.sys_calls.specs.Access.{is_sys_memory};
ghost use Rattle.sys_calls.specs.SysCalls.{Does, at_cost, return_set, return_got, both_written};

use crate::access::prepare;
use crate::env::Env;
use crate::fault::SysFault;
use sbpf_memory::{Memory, read_blob};
use sol_base::Key;
use std::alloc::Global;

/// The most bytes that are kept (Solana).
pub(crate) const MAX_RETURNED: u64 = 1_024;

/// Keeps bytes, and the program that returns them.
#[tactic(auto, unfolding(crate::specs::SysCalls::return_set))]
pub(crate) fn set_return(
    alloc: Global,
    addr: u64,
    len: u64,
    memory: &Memory,
    env: &mut Env,
) -> Result<u64, SysFault>
    ensures { Does (at_cost env.old (return_set (plain_memory memory.now) env.old addr len))
        memory.now memory.now env.old env.new result }
{
    if len > MAX_RETURNED {
        return Err(SysFault::ReturnTooLong);
    }
    env.returned = read_blob::<SysFault>(alloc, memory, addr, len)?;
    env.returned_by = env.program;
    Ok(0)
}

/// Writes the first bytes that are kept, and the key of the program that returned them. It returns
/// how many are kept.
#[tactic(auto, unfolding(crate::specs::SysCalls::return_got))]
pub(crate) fn get_return(
    to: u64,
    len: u64,
    program: u64,
    returned: &[u8],
    keeper: &Key,
    memory: &mut Memory,
) -> Result<u64, SysFault>
    ensures answer { Gives is_sys_memory (λ r0. (r0, plain_memory memory.new)) result
        (return_got (plain_memory memory.old) returned.now keeper.now to len program) }
    ensures refused { OnErr result (plain_memory memory.new ≡ plain_memory memory.old) }
    ensures lent { memory.new.input.lent ≡ memory.old.input.lent }
{
    if returned.is_empty() {
        return Ok(0);
    }
    let count = len.min(returned.len() as u64);
    write_both(memory, to, &returned[..count as usize], program, &keeper.0)?;
    Ok(returned.len() as u64)
}

/// Writes the bytes of both ranges, or of neither.
#[tactic(auto, using(crate::proofs::Prepares::both, sbpf_memory::proofs::Plain::plain), unfolding(crate::specs::SysCalls::both_written))]
fn write_both(
    memory: &mut Memory,
    to: u64,
    first: &[u8],
    other: u64,
    second: &[u8],
) -> Result<(), SysFault>
    ensures answer { Gives is_sys_memory (λ _. plain_memory memory.new) result
        (both_written (plain_memory memory.old) to first.now other second.now) }
    ensures refused { OnErr result (plain_memory memory.new ≡ plain_memory memory.old) }
    ensures lent { memory.new.input.lent ≡ memory.old.input.lent }
{
    prepare(memory, to, first.len() as u64)?;
    prepare(memory, other, second.len() as u64)?;
    memory.write(to, first)?;
    // it was made ready for, so that it is done
    let _ = memory.write(other, second);
    Ok(())
}
