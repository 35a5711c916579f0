//! Serving one system call.
ghost use Rattle.std.specs.Prelude.{◌≤◌};
ghost use Rattle.sbpf_memory.specs.Plain.{plain_memory};
ghost use Rattle.sbpf_isa.specs.Calls.{IsServed};
ghost use Rattle.sys_calls.specs.SysCalls.{Serves, KeepsBlock, IsServedMemory, Does, sys_row, effect_of};

use crate::block::{get_rent, get_slot};
use crate::env::Env;
use crate::fault::SysFault;
use crate::log::{log, log_64, log_key, log_units};
use crate::memory::{memcmp, memcpy, memmove, memset};
use crate::program_key::program_key;
use crate::returned::{get_return, set_return};
use crate::sha256::sha256;
use crate::table::SystemCall;
use compute_meter::charge;
use sbpf_memory::Memory;
use std::alloc::Global;

/// Serves a system call other than the cross-program call: its cost is taken, then come limits,
/// then reads, then writes. It returns what r0 becomes.
pub fn serve(
    alloc: Global,
    number: u32,
    arguments: [u64; 5],
    memory: &mut Memory,
    env: &mut Env,
) -> Result<u64, SysFault>
    requires { IsServed number }
    ensures answer { Serves (sys_row number arguments (plain_memory memory.old) env.old)
        memory.old memory.new env.old env.new result }
    ensures block { KeepsBlock env.old env.new }
    ensures memory { IsServedMemory memory.old memory.new }
    ensures units { env.new.units ≤ env.old.units }
{
    let call = SystemCall::numbered(number);
    charge::<SysFault>(
        &mut env.units,
        call.cost(arguments, env.returned.len() as u64),
    )?;
    take_effect(alloc, call, arguments, memory, env)
}

/// What a call does once its cost is taken.
fn take_effect(
    alloc: Global,
    call: SystemCall,
    arguments: [u64; 5],
    memory: &mut Memory,
    env: &mut Env,
) -> Result<u64, SysFault>
    ensures { Does (effect_of call arguments (plain_memory memory.old) env.old)
        memory.old memory.new env.old env.new result }
{
    let [a, b, c, d, e] = arguments;
    match call {
        SystemCall::Abort => Err(SysFault::Abort),
        SystemCall::Log => log(alloc, a, b, memory, env),
        SystemCall::Log64 => log_64(alloc, a, [b, c, d, e], env),
        SystemCall::LogKey => log_key(alloc, a, memory, env),
        SystemCall::LogUnits => log_units(alloc, env),
        SystemCall::Sha256 => sha256(alloc, a, b, c, memory, env),
        SystemCall::Memcpy => {
            memcpy(a, b, c, memory)?;
            Ok(0)
        },
        SystemCall::Memmove => {
            memmove(a, b, c, memory)?;
            Ok(0)
        },
        SystemCall::Memcmp => {
            memcmp(a, b, c, d, memory)?;
            Ok(0)
        },
        SystemCall::Memset => {
            memset(a, b, c, memory)?;
            Ok(0)
        },
        SystemCall::ProgramKey => Ok(program_key(alloc, a, b, c, d, memory)?),
        SystemCall::GetSlot => {
            get_slot(a, env.slot, memory)?;
            Ok(0)
        },
        SystemCall::GetRent => {
            get_rent(a, memory)?;
            Ok(0)
        },
        SystemCall::SetReturn => set_return(alloc, a, b, memory, env),
        SystemCall::GetReturn => Ok(get_return(
            a,
            b,
            c,
            env.returned.as_slice(),
            &env.returned_by,
            memory,
        )?),
        SystemCall::GetHeight => Ok(u64::from(env.height)),
    }
}
