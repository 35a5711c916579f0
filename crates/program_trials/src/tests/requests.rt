//! Calls that are read, that are refused, and signed by seeds.
ghost use Rattle.std.specs.Prelude.{◌≤◌, IfOk, length};
ghost use Rattle.cpi_calls.specs.Limits.{max_metas};

use super::texts::VAULT;
use cpi_calls::{CallFault, CallRequest, Granted, KeyMeta, RightsFault, grant_rights, read_call};
use data_parts::Parts;
use sbpf_memory::{AccessViolation, Memory};
use sol_base::{Blob, Items, Key, Meta, OutOfMemory, SYSTEM_PROGRAM};
use std::alloc::Global;
use std::sync::Arc;
use std::test::Fail;

const PROGRAM: u64 = 0x1_0000_0000;

const HEAP: u64 = 0x3_0000_0000;

/// Where a call is whose last byte is the heap's last.
const LAST: u64 = 0x3_0000_7fd8;

const CALLER: Key = Key([0x77; 32]);

/// A memory of 32,768 bytes of heap.
#[tactic(auto, unfolding(data_parts::specs::Parts::bytes_of))]
fn heap_memory(alloc: Global) -> Result<Memory, OutOfMemory> {
    let image = Arc::new(alloc, Blob::from_slice(alloc, b"vault")?)?;
    let input = Parts::from_items(alloc, Items::new(alloc))?;
    Memory::new(alloc, image, 32_768, input)
}

/// Writes a number at an address.
fn put(memory: &mut Memory, addr: u64, number: u64) -> Result<(), OutOfMemory> {
    match memory.store(addr, 8, number) {
        Ok(()) => Ok(()),
        Err(_) => Err(OutOfMemory),
    }
}

/// Writes numbers at an address, one after another.
fn put_all(memory: &mut Memory, addr: u64, numbers: &[u64]) -> Result<(), OutOfMemory> {
    let mut at = addr;
    for number in numbers {
        put(memory, at, *number)?;
        at = at.wrapping_add(8);
    }
    Ok(())
}

/// Calls that lie: where they are, their five numbers, the units, and the refusal.
const LIES: [(u64, [u64; 5], u64, CallFault); 8] = [
    (
        0x2_0000_1000,
        [0; 5],
        1000,
        CallFault::AccessViolation(AccessViolation {
            addr: 0x2_0000_1000,
            len: 40,
            write: false,
        }),
    ),
    (
        0xffff_ffff_ffff_fff0,
        [0; 5],
        1000,
        CallFault::AccessViolation(AccessViolation {
            addr: 0xffff_ffff_ffff_fff0,
            len: 40,
            write: false,
        }),
    ),
    (
        0x3_0000_7fe0,
        [0; 5],
        1000,
        CallFault::AccessViolation(AccessViolation {
            addr: 0x3_0000_7fe0,
            len: 40,
            write: false,
        }),
    ),
    (
        LAST,
        [HEAP, 0, u64::MAX, 0, 0],
        1000,
        CallFault::TooManyAccounts,
    ),
    (LAST, [HEAP, 0, 0, 0, 1 << 63], 1000, CallFault::DataTooLong),
    (
        LAST,
        [HEAP, 0xffff_ffff_ffff_fff8, 1, 0, 0],
        1000,
        CallFault::AccessViolation(AccessViolation {
            addr: 0xffff_ffff_ffff_fff8,
            len: 16,
            write: false,
        }),
    ),
    (LAST, [HEAP, HEAP + 64, 1, 0, 0], 1000, CallFault::BadFlag),
    (LAST, [HEAP, 0, 0, 0, 0], 999, CallFault::UnitsSpent),
];

/// A memory with a call of these numbers at its end, and a meta whose writable byte is 2.
fn memory_with(alloc: Global, numbers: &[u64; 5]) -> Result<Memory, OutOfMemory> {
    let mut memory = heap_memory(alloc)?;
    put_all(&mut memory, LAST, numbers)?;
    put_all(&mut memory, HEAP + 64, &[HEAP, 2])?;
    Ok(memory)
}

/// Whether the call at an address is refused so, and no units are left.
fn is_refused(
    alloc: Global,
    addr: u64,
    numbers: &[u64; 5],
    given: u64,
    fault: CallFault,
) -> Result<bool, OutOfMemory> {
    let memory = memory_with(alloc, numbers)?;
    let mut units = given;
    let read = read_call(alloc, [addr, 0, 0, 0, 0], &memory, &CALLER, &mut units);
    Ok(read.err() == Some(fault) && units == 0)
}

#[test]
fn calls_that_lie_are_refused(rt: HostRuntime) -> Result<(), Fail> {
    for (addr, numbers, given, fault) in &LIES {
        assert!(rt; is_refused(rt.alloc(), *addr, numbers, *given, *fault)?);
    }
    Ok(())
}

/// What a call stands for: its numbers, a meta, a signer with one seed, and the seed; and then the
/// keys of the program and of the account.
const CALL: [(u64, &[u64]); 6] = [
    (HEAP, &[HEAP + 512, HEAP + 64, 1, PROGRAM, 5]),
    (HEAP + 64, &[HEAP + 544, 0x0001]),
    (HEAP + 128, &[HEAP + 192, 1]),
    (HEAP + 192, &[PROGRAM, 5]),
    (HEAP + 512, &[THREES, THREES, THREES, THREES]),
    (HEAP + 544, &[FOURS, FOURS, FOURS, FOURS]),
];

const THREES: u64 = 0x0303_0303_0303_0303;

const FOURS: u64 = 0x0404_0404_0404_0404;

/// A memory with that call.
fn memory_of_call(alloc: Global) -> Result<Memory, OutOfMemory> {
    let mut memory = heap_memory(alloc)?;
    for (addr, numbers) in &CALL {
        put_all(&mut memory, *addr, numbers)?;
    }
    Ok(memory)
}

/// Whether the account asked for is the one of the call, to be written.
fn is_written(meta: &KeyMeta) -> bool {
    meta.key == Key([4; 32]) && meta.writable && !meta.signer
}

/// Whether the request asks for one account and has one signer, as the call says.
fn has_lists(request: &CallRequest) -> bool {
    match (request.metas.as_slice(), request.signers.as_slice()) {
        ([meta], [signer]) => is_written(meta) && *signer == VAULT,
        _ => false,
    }
}

/// Whether it is the request of the call.
fn is_asked(request: &CallRequest) -> bool {
    request.program == Key([3; 32])
        && request.input.as_slice() == b"vault".as_slice()
        && has_lists(request)
}

/// Whether the call is read, for 1,000 units.
fn is_read(alloc: Global) -> Result<bool, CallFault> {
    let memory = memory_of_call(alloc)?;
    let mut units = 1500;
    let arguments = [HEAP, 0, 0, HEAP + 128, 1];
    let request = read_call(alloc, arguments, &memory, &CALLER, &mut units)?;
    Ok(units == 500 && is_asked(&request))
}

#[test]
fn a_call_is_read(rt: HostRuntime) -> Result<(), Fail> {
    assert!(rt; is_read(rt.alloc())?);
    Ok(())
}

/// What the caller may do: it may write the first account.
const RIGHTS: [Meta; 2] = [
    Meta {
        index: 0,
        signer: false,
        writable: true,
    },
    Meta {
        index: 1,
        signer: false,
        writable: false,
    },
];

/// What the callee may do: it may write the vault's account, which signs.
const ASKED: KeyMeta = KeyMeta {
    key: VAULT,
    signer: true,
    writable: true,
};

/// A list of that alone.
fn asked(alloc: Global) -> Result<Items<KeyMeta>, OutOfMemory>
    ensures { IfOk result (λ metas. length metas ≤ max_metas) }
{
    Ok(Items::from_vec(Vec::from_slice(alloc, &[ASKED])?))
}

/// What is granted for a call of the system program with that list, where these sign.
fn granted(alloc: Global, signers: Items<Key>) -> Result<Granted, RightsFault> {
    let metas = asked(alloc)?;
    let request = CallRequest {
        program: SYSTEM_PROGRAM,
        metas,
        input: Blob::new(alloc),
        signers,
    };
    grant_rights(alloc, &request, &[VAULT, SYSTEM_PROGRAM], &RIGHTS)
}

/// Whether the system program is granted the first account, to be written, with its signature.
fn is_granted(granted: &Granted) -> bool {
    match granted.metas.as_slice() {
        [meta] => granted.program == 1 && meta.index == 0 && meta.signer && meta.writable,
        _ => false,
    }
}

/// Whether it is granted where the vault signs.
fn grants(alloc: Global) -> Result<bool, RightsFault> {
    let mut signers = Items::new(alloc);
    signers.push(VAULT)?;
    Ok(is_granted(&granted(alloc, signers)?))
}

#[test]
fn a_vault_signs_by_its_seeds(rt: HostRuntime) -> Result<(), Fail> {
    let refused = granted(rt.alloc(), Items::new(rt.alloc())).err();
    assert!(rt; refused == Some(RightsFault::PrivilegeEscalation { i: 0 }));
    assert!(rt; grants(rt.alloc())?);
    Ok(())
}
