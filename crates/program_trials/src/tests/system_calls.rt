//! Each system call once, its cost, and its refusals.
use data_parts::Parts;
use sbpf_memory::{AccessViolation, Memory};
use sol_base::{Blob, Items, Key, OutOfMemory};
use std::alloc::Global;
use std::sync::Arc;
use std::test::Fail;
use sys_calls::{Env, SysFault, serve};
use tx_report::Logs;

const PROGRAM: u64 = 0x1_0000_0000;

const HEAP: u64 = 0x3_0000_0000;

/// A memory whose program is five letters and a byte that is no text, with 8,192 bytes of heap.
#[tactic(auto, unfolding(data_parts::specs::Parts::bytes_of))]
fn small_memory(alloc: Global) -> Result<Memory, OutOfMemory> {
    let image = Arc::new(alloc, Blob::from_slice(alloc, b"hello\xff")?)?;
    let input = Parts::from_items(alloc, Items::new(alloc))?;
    Memory::new(alloc, image, 8192, input)
}

/// What a call looks at and changes.
#[derive(Drop)]
struct State {
    memory: Memory,
    env: Env,
}

/// Surroundings with so many units, in which three bytes were returned.
fn env_with(alloc: Global, units: u64) -> Result<Env, OutOfMemory> {
    Ok(Env {
        slot: 0x0102,
        program: Key([7; 32]),
        height: 3,
        units,
        returned: Blob::from_slice(alloc, &[1, 2, 3])?,
        returned_by: Key([9; 32]),
        logs: Logs::new(alloc),
    })
}

fn state_with(alloc: Global, units: u64) -> Result<State, OutOfMemory> {
    let memory = small_memory(alloc)?;
    let env = env_with(alloc, units)?;
    Ok(State { memory, env })
}

/// What a call of a number from 1 to 16 returns; the tests need nothing of its contract.
fn call(
    alloc: Global,
    number: u32,
    arguments: [u64; 5],
    state: &mut State,
) -> Result<u64, SysFault> {
    if number < 1 || number > 16 {
        return Err(SysFault::OutOfMemory);
    }
    serve(alloc, number, arguments, &mut state.memory, &mut state.env)
}

/// Each call at the edge of what it allows: its number and arguments, what it costs in all, and its
/// answer.
const EDGES: [(u32, [u64; 5], u64, Result<u64, SysFault>); 27] = [
    (1, [0; 5], 100, Err(SysFault::Abort)),
    (2, [PROGRAM, 5, 0, 0, 0], 100, Ok(0)),
    (2, [HEAP, 101, 0, 0, 0], 101, Ok(0)),
    (2, [PROGRAM + 5, 1, 0, 0, 0], 100, Err(SysFault::BadText)),
    (
        2,
        [PROGRAM + 5, 2, 0, 0, 0],
        100,
        Err(SysFault::AccessViolation(AccessViolation {
            addr: PROGRAM + 5,
            len: 2,
            write: false,
        })),
    ),
    (3, [1, 2, 3, 4, 5], 100, Ok(0)),
    (4, [HEAP + 8160, 0, 0, 0, 0], 100, Ok(0)),
    (5, [0; 5], 100, Ok(0)),
    (6, [0, 0, HEAP, 0, 0], 85, Ok(0)),
    (
        6,
        [HEAP, 20_001, HEAP, 0, 0],
        85,
        Err(SysFault::TooManySlices),
    ),
    // three slices of nothing at address 0
    (6, [HEAP, 3, HEAP, 0, 0], 115, Ok(0)),
    (7, [HEAP, HEAP + 2750, 2750, 0, 0], 11, Ok(0)),
    (
        7,
        [HEAP, HEAP + 2498, 2499, 0, 0],
        10,
        Err(SysFault::Overlap),
    ),
    // the accesses are tested before the ranges
    (
        7,
        [PROGRAM, PROGRAM, 6, 0, 0],
        10,
        Err(SysFault::AccessViolation(AccessViolation {
            addr: PROGRAM,
            len: 6,
            write: true,
        })),
    ),
    (8, [HEAP, HEAP + 1, 8191, 0, 0], 32, Ok(0)),
    (9, [PROGRAM, PROGRAM + 1, 5, HEAP, 0], 10, Ok(0)),
    (
        9,
        [PROGRAM, PROGRAM + 1, 6, HEAP, 0],
        10,
        Err(SysFault::AccessViolation(AccessViolation {
            addr: PROGRAM + 1,
            len: 6,
            write: false,
        })),
    ),
    (10, [HEAP, 0x1ff, 8192, 0, 0], 32, Ok(0)),
    (
        10,
        [HEAP, 0, 8193, 0, 0],
        32,
        Err(SysFault::AccessViolation(AccessViolation {
            addr: HEAP,
            len: 8193,
            write: true,
        })),
    ),
    (11, [0, 0, HEAP, HEAP, 0], 1500, Ok(0)),
    (
        11,
        [HEAP, 17, HEAP, HEAP, 0],
        1500,
        Err(SysFault::TooManySeeds),
    ),
    (12, [HEAP + 8184, 0, 0, 0, 0], 108, Ok(0)),
    (13, [HEAP + 8176, 0, 0, 0, 0], 116, Ok(0)),
    (14, [HEAP, 1024, 0, 0, 0], 104, Ok(0)),
    (14, [HEAP, 1025, 0, 0, 0], 104, Err(SysFault::ReturnTooLong)),
    (15, [HEAP, 1, HEAP + 8160, 0, 0], 100, Ok(3)),
    (16, [0; 5], 100, Ok(3)),
];

/// Whether a call with so many units returns so, and leaves none.
fn leaves_none(
    alloc: Global,
    number: u32,
    arguments: [u64; 5],
    units: u64,
    answer: Result<u64, SysFault>,
) -> Result<bool, OutOfMemory> {
    let mut state = state_with(alloc, units)?;
    Ok(call(alloc, number, arguments, &mut state) == answer && state.env.units == 0)
}

/// Whether a call takes its cost in all, and one unit less refuses it.
fn takes_cost(
    alloc: Global,
    number: u32,
    arguments: [u64; 5],
    cost: u64,
    answer: Result<u64, SysFault>,
) -> Result<bool, OutOfMemory> {
    let poor = Err(SysFault::UnitsSpent);
    Ok(
        leaves_none(alloc, number, arguments, cost, answer)?
            && leaves_none(alloc, number, arguments, cost.saturating_sub(1), poor)?,
    )
}

#[test]
fn calls_take_their_cost(rt: HostRuntime) -> Result<(), Fail> {
    for (number, arguments, cost, answer) in &EDGES {
        assert!(rt; takes_cost(rt.alloc(), *number, *arguments, *cost, *answer)?);
    }
    Ok(())
}

/// The calls that log, with their lines.
const LINES: [(u32, [u64; 5], &str); 5] = [
    (2, [PROGRAM, 5, 0, 0, 0], "Program log: hello"),
    (
        3,
        [0, 10, 255, 0x1_0000_0000, u64::MAX],
        "Program log: 0x0, 0xa, 0xff, 0x100000000, 0xffffffffffffffff",
    ),
    (
        4,
        [HEAP, 0, 0, 0, 0],
        "Program log: 0000000000000000000000000000000000000000000000000000000000000000",
    ),
    (5, [0; 5], "Program consumption: 900 units remaining"),
    (2, [PROGRAM, 0, 0, 0, 0], "Program log: "),
];

/// Whether the line is there alone.
fn is_only(logs: &Logs, line: &str) -> bool {
    match logs.lines() {
        [only] => only.as_slice() == line.as_bytes(),
        _ => false,
    }
}

/// Whether a call returns 0 and logs the line.
fn logs(alloc: Global, number: u32, arguments: [u64; 5], line: &str) -> Result<bool, OutOfMemory> {
    let mut state = state_with(alloc, 1000)?;
    Ok(call(alloc, number, arguments, &mut state) == Ok(0) && is_only(&state.env.logs, line))
}

#[test]
fn lines_are_logged(rt: HostRuntime) -> Result<(), Fail> {
    for (number, arguments, line) in &LINES {
        assert!(rt; logs(rt.alloc(), *number, *arguments, line)?);
    }
    Ok(())
}

/// What calls write at the heap's start.
const WRITTEN: [(u32, [u64; 5], &[u8]); 6] = [
    (
        6,
        [0, 0, HEAP, 0, 0],
        b"\xe3\xb0\xc4\x42\x98\xfc\x1c\x14\x9a\xfb\xf4\xc8\x99\x6f\xb9\x24\x27\xae\x41\xe4\x64\x9b\x93\x4c\xa4\x95\x99\x1b\x78\x52\xb8\x55",
    ),
    (7, [HEAP, PROGRAM, 6, 0, 0], b"hello\xff"),
    // e from h
    (
        9,
        [PROGRAM + 1, PROGRAM, 4, HEAP, 0],
        &[0xfd, 0xff, 0xff, 0xff],
    ),
    (10, [HEAP, 0x1fe, 2, 0, 0], &[0xfe, 0xfe, 0]),
    (12, [HEAP, 0, 0, 0, 0], &[2, 1, 0, 0, 0, 0, 0, 0]),
    (
        13,
        [HEAP, 0, 0, 0, 0],
        &[0x98, 0x0d, 0, 0, 0, 0, 0, 0, 2, 0, 0, 0, 0, 0, 0, 0],
    ),
];

/// Whether the bytes, at most 32, are at an address.
fn stands(memory: &Memory, addr: u64, bytes: &[u8]) -> bool {
    let mut found = [0; 32];
    match memory.read(addr, &mut found) {
        Ok(()) => found.starts_with(bytes),
        Err(_) => false,
    }
}

/// Whether a call returns 0 and writes these bytes at the heap's start.
fn writes(
    alloc: Global,
    number: u32,
    arguments: [u64; 5],
    written: &[u8],
) -> Result<bool, OutOfMemory> {
    let mut state = state_with(alloc, 2000)?;
    Ok(call(alloc, number, arguments, &mut state) == Ok(0) && stands(&state.memory, HEAP, written))
}

#[test]
fn bytes_are_written(rt: HostRuntime) -> Result<(), Fail> {
    for (number, arguments, written) in &WRITTEN {
        assert!(rt; writes(rt.alloc(), *number, *arguments, written)?);
    }
    Ok(())
}

/// The key of the seed `hello` and a program of zeros.
const HELLO: [u8; 32] = [
    0x26, 0xfe, 0x4c, 0xf8, 0x82, 0xe3, 0xea, 0x98, 0x90, 0x81, 0x40, 0xf1, 0xf5, 0xbe, 0x34, 0x9a,
    0x36, 0x02, 0xa4, 0x89, 0xde, 0xd6, 0x62, 0xcf, 0xe6, 0x62, 0xcf, 0xb6, 0x7b, 0xca, 0xa1, 0x62,
];

/// A state with a seed at the heap's start, which the program begins with and which is so long.
fn seeded(alloc: Global, length: u64) -> Result<State, SysFault> {
    let mut state = state_with(alloc, 2000)?;
    state.memory.store(HEAP, 8, PROGRAM)?;
    state.memory.store(HEAP + 8, 8, length)?;
    Ok(state)
}

/// Whether the derivation of a key from that seed and a program of zeros returns so, and whether
/// this key is then written.
fn derives(alloc: Global, length: u64, answer: u64, key: &[u8; 32]) -> Result<bool, SysFault> {
    let mut state = seeded(alloc, length)?;
    let arguments = [HEAP, 1, HEAP + 64, HEAP + 128, 0];
    Ok(
        call(alloc, 11, arguments, &mut state) == Ok(answer)
            && stands(&state.memory, HEAP + 128, key),
    )
}

#[test]
fn a_key_is_derived_from_seeds(rt: HostRuntime) -> Result<(), Fail> {
    assert!(rt; derives(rt.alloc(), 5, 0, &HELLO)?);
    assert!(rt; derives(rt.alloc(), 33, 1, &[0; 32])?);
    Ok(())
}

/// Whether a call that hands out the returned bytes returns so, and these are at the heap's start.
fn hands_out(
    alloc: Global,
    arguments: [u64; 5],
    answer: Result<u64, SysFault>,
    bytes: &[u8; 32],
) -> Result<bool, OutOfMemory> {
    let mut state = state_with(alloc, 1000)?;
    Ok(call(alloc, 15, arguments, &mut state) == answer && stands(&state.memory, HEAP, bytes))
}

#[test]
fn returned_bytes_are_handed_out(rt: HostRuntime) -> Result<(), Fail> {
    // nothing is written where either range is refused
    let refused = Err(SysFault::AccessViolation(AccessViolation {
        addr: PROGRAM,
        len: 32,
        write: true,
    }));
    assert!(rt; hands_out(rt.alloc(), [HEAP, 3, PROGRAM, 0, 0], refused, &[0; 32])?);
    // with no room for bytes the key is written
    assert!(rt; hands_out(rt.alloc(), [0, 0, HEAP, 0, 0], Ok(3), &[9; 32])?);
    Ok(())
}

/// Whether a call keeps two letters, and the key of the program that returned them.
fn keeps_letters(alloc: Global) -> Result<bool, OutOfMemory> {
    let mut state = state_with(alloc, 1000)?;
    Ok(
        call(alloc, 14, [PROGRAM, 2, 0, 0, 0], &mut state) == Ok(0)
            && state.env.returned.as_slice() == b"he".as_slice()
            && state.env.returned_by == Key([7; 32]),
    )
}

#[test]
fn returned_bytes_are_kept(rt: HostRuntime) -> Result<(), Fail> {
    assert!(rt; keeps_letters(rt.alloc())?);
    Ok(())
}
