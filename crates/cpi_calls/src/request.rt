//! Reading the request of a cross-program call.
ghost use Rattle.std.specs.Prelude.{◌≡◌, ◌-◌, ◌≤◌, length};
ghost use Rattle.spec_base.specs.Reading.{Gives};
ghost use Rattle.sbpf_memory.specs.Plain.{plain_memory};
ghost use Rattle.cpi_calls.specs.Limits.{max_metas};
ghost use Rattle.cpi_calls.specs.Reads.{is_call_memory, call_in as call_of, call_len, flag as flag_of, meta_read, metas_read};
ghost use Rattle.cpi_calls.specs.Calls.{Reads, header_read, lists_read, request_of};

use crate::fault::CallFault;
use crate::reads::{ITEM_LEN, item_addr};
use crate::signers::read_signers;
use compute_meter::{BYTES_OF_UNIT, charge};
use sbpf_memory::{Memory, read_array, read_blob};
use sol_base::{Blob, Items, Key, MAX_METAS};
use spec_base::number_in;
use std::alloc::Global;

/// An account of a request, by its key, and what the callee may do with it.
#[derive(Clone, Copy, PartialEq, Eq)]
pub struct KeyMeta {
    pub key: Key,
    pub signer: bool,
    pub writable: bool,
}

/// What a program asks for: a program, a list of accounts, instruction data, and the keys that it
/// signs for by seeds.
#[derive(Drop)]
pub struct CallRequest {
    pub program: Key,
    pub metas: Items<KeyMeta>,
    pub input: Blob,
    pub signers: Items<Key>,
}

/// The five numbers of a call, as the C interface has them.
#[derive(Clone, Copy)]
struct Call {
    program: u64,
    metas: u64,
    meta_count: u64,
    data_at: u64,
    data_len: u64,
}

/// What a call costs before anything of it is read (Solana).
pub(crate) const CALL_COST: u64 = 1_000;

/// The most bytes of a call's data (Solana).
pub(crate) const MAX_CALL_DATA: u64 = 10_240;

/// The bytes of a call (the C interface).
const CALL_LEN: usize = 40;

/// The request of a cross-program call, by the five arguments of the system call. Units are taken
/// from those given, and are gone after a refusal too.
#[tactic(auto, unfolding(crate::specs::Calls::request_of))]
pub fn read_call(
    alloc: Global,
    arguments: [u64; 5],
    memory: &Memory,
    caller: &Key,
    units: &mut u64,
) -> Result<CallRequest, CallFault>
    ensures request { Reads
        (request_of arguments (plain_memory memory.now) caller.now units.old) units.new result }
    ensures units { units.new ≤ units.old }
{
    charge::<CallFault>(units, CALL_COST)?;
    let (call, program) = read_header(memory, arguments[0])?;
    if call.meta_count > MAX_METAS as u64 {
        return Err(CallFault::TooManyAccounts);
    }
    if call.data_len > MAX_CALL_DATA {
        return Err(CallFault::DataTooLong);
    }
    charge::<CallFault>(units, call.data_len / BYTES_OF_UNIT)?;
    read_lists(alloc, memory, caller, arguments, program, call)
}

/// A call, and the key of its program.
#[tactic(auto, unfolding(crate::specs::Calls::header_read))]
fn read_header(memory: &Memory, addr: u64) -> Result<(Call, Key), CallFault>
    ensures { result ≡ header_read (plain_memory memory.now) addr }
{
    let bytes = read_array::<CallFault, CALL_LEN>(memory, addr)?;
    let call = call_in(&bytes);
    let program = Key(read_array::<CallFault, 32>(memory, call.program)?);
    Ok((call, program))
}

/// The call that is in its bytes.
fn call_in(bytes: &[u8]) -> Call
    requires { length bytes.now ≡ call_len }
    ensures { result ≡ call_of bytes.now }
{
    Call {
        program: number_in(bytes, 0),
        metas: number_in(bytes, 8),
        meta_count: number_in(bytes, 16),
        data_at: number_in(bytes, 24),
        data_len: number_in(bytes, 32),
    }
}

/// The lists of a call, in their order.
#[tactic(auto, unfolding(crate::specs::Calls::lists_read))]
fn read_lists(
    alloc: Global,
    memory: &Memory,
    caller: &Key,
    arguments: [u64; 5],
    program: Key,
    call: Call,
) -> Result<CallRequest, CallFault>
    requires { call.meta_count ≤ max_metas }
    ensures { Gives is_call_memory (λ request. request) result
        (lists_read (plain_memory memory.now) caller.now arguments program call) }
{
    let metas = read_metas(alloc, memory, call.metas, call.meta_count as u8)?;
    let input = read_blob::<CallFault>(alloc, memory, call.data_at, call.data_len)?;
    let signers = read_signers(alloc, memory, arguments[3], arguments[4], caller)?;
    Ok(CallRequest {
        program,
        metas,
        input,
        signers,
    })
}

fn read_metas(
    alloc: Global,
    memory: &Memory,
    list: u64,
    count: u8,
) -> Result<Items<KeyMeta>, CallFault>
    ensures { Gives is_call_memory (λ metas. metas) result
        (metas_read (plain_memory memory.now) list count) }
{
    let mut metas = Items::with_capacity(alloc, count as usize)?;
    for index in 0..count {
        let addr = item_addr(list, index);
        let meta = read_meta(memory, addr)?;
        metas.push(meta)?;
    }
    Ok(metas)
}

/// A meta: its flags are tested before its key is read.
#[tactic(auto, unfolding(crate::specs::Reads::meta_read))]
fn read_meta(memory: &Memory, addr: u64) -> Result<KeyMeta, CallFault>
    ensures { Gives is_call_memory (λ meta. meta) result
        (meta_read (plain_memory memory.now) addr) }
{
    let bytes = read_array::<CallFault, ITEM_LEN>(memory, addr)?;
    let writable = flag(bytes[8])?;
    let signer = flag(bytes[9])?;
    let key = Key(read_array::<CallFault, 32>(memory, number_in(&bytes, 0))?);
    Ok(KeyMeta {
        key,
        signer,
        writable,
    })
}

fn flag(byte: u8) -> Result<bool, CallFault>
    ensures { result ≡ flag_of byte }
{
    match byte {
        0 => Ok(false),
        1 => Ok(true),
        _ => Err(CallFault::BadFlag),
    }
}
