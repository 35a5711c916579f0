//! Accesses at the edges of the ranges, numbers, and a copy.
use crate::tests::region::{lent_account, region};
use sbpf_memory::{AccessViolation, MemFault, Memory};
use sol_base::{Blob, OutOfMemory};
use std::alloc::Global;
use std::sync::Arc;

const PROGRAM: u64 = 0x1_0000_0000;

const STACK: u64 = 0x2_0000_0000;

const HEAP: u64 = 0x3_0000_0000;

const INPUT: u64 = 0x4_0000_0000;

/// A memory of three bytes of program, five of heap and five of input.
fn small_memory(alloc: Global) -> Result<Memory, OutOfMemory> {
    let lent = lent_account(alloc)?;
    let input = region(alloc, &lent)?;
    let image = Blob::from_slice(alloc, b"abc")?;
    Memory::new(alloc, Arc::new(alloc, image)?, 5, input)
}

/// Accesses at the edges of each range: address, length, whether it is read, whether it is written.
const EDGES: &[(u64, usize, bool, bool)] = &[
    (0, 1, false, false),
    (PROGRAM - 1, 1, false, false),
    (PROGRAM, 3, true, false),
    (PROGRAM, 4, false, false),
    (PROGRAM + 2, 1, true, false),
    (PROGRAM + 3, 1, false, false),
    // no bytes, anywhere
    (PROGRAM + 3, 0, true, true),
    (STACK - 1, 1, false, false),
    (STACK, 4096, true, true),
    (STACK, 4097, false, false),
    // across the gap between two frames, within it, and into it from before
    (STACK, 8193, false, false),
    (STACK + 4095, 2, false, false),
    (STACK + 4096, 1, false, false),
    (STACK + 8191, 2, false, false),
    (STACK + 8192, 8, true, true),
    (STACK + 63 * 8192 + 4095, 1, true, true),
    (STACK + 64 * 8192, 1, false, false),
    (HEAP, 5, true, true),
    (HEAP + 4, 2, false, false),
    (HEAP + 5, 1, false, false),
    (INPUT, 5, true, true),
    (INPUT + 4, 2, false, false),
    (u64::MAX, 1, false, false),
];

/// The refusal of a write, or of a read.
fn violation(addr: u64, len: u64, write: bool) -> MemFault {
    MemFault::from(AccessViolation { addr, len, write })
}

/// What a write returns that is let pass, or is not.
fn answer_of(addr: u64, len: u64, passes: bool) -> Result<(), MemFault> {
    if passes {
        Ok(())
    } else {
        Err(violation(addr, len, true))
    }
}

/// Whether the bytes are read and written as the row says, and the places prepared as written.
fn is_edge(
    memory: &mut Memory,
    addr: u64,
    bytes: &mut [u8],
    (reads, writes): (bool, bool),
) -> bool {
    let len = bytes.len() as u64;
    let answer = answer_of(addr, len, writes);
    memory.read(addr, bytes).is_ok() == reads
        && memory.write(addr, bytes) == answer
        && memory.prepare(addr, len) == answer
}

/// Whether as many bytes as the row says are read and written as it says, and the places prepared as
/// written.
fn has_edge(
    alloc: Global,
    memory: &mut Memory,
    (addr, len, reads, writes): (u64, usize, bool, bool),
) -> Result<bool, OutOfMemory> {
    let mut bytes = vec![in alloc; 0; len]?;
    Ok(is_edge(memory, addr, bytes.as_mut_slice(), (reads, writes)))
}

/// Whether each row holds of the memory.
fn has_edges(alloc: Global, mut memory: Memory) -> Result<bool, OutOfMemory> {
    for row in EDGES {
        if !has_edge(alloc, &mut memory, *row)? {
            return Ok(false);
        }
    }
    Ok(true)
}

/// Whether each row holds of a small memory.
fn are_edges(alloc: Global) -> Result<bool, OutOfMemory> {
    has_edges(alloc, small_memory(alloc)?)
}

#[test]
fn accesses_lie_in_one_range(rt: HostRuntime) {
    assert!(rt; are_edges(rt.alloc()) == Ok(true));
}

/// Widths of a number, and what is then read of eight bytes that were zero.
const NUMBERS: [(u8, u64); 4] = [
    (1, 0x88),
    (2, 0x7788),
    (4, 0x5566_7788),
    (8, 0x1122_3344_5566_7788),
];

/// Whether so many bytes of a number are stored, and none into the program.
fn is_stored(memory: &mut Memory, width: u8, number: u64) -> bool {
    if width != 1 && width != 2 && width != 4 && width != 8 {
        return false;
    }
    let at = STACK + 8 * u64::from(width);
    memory.store(at, width, 0x1122_3344_5566_7788).is_ok()
        && memory.load(at, 8) == Ok(number)
        && memory.store(PROGRAM, width, 0) == Err(violation(PROGRAM, u64::from(width), true))
}

/// Whether numbers of each width are loaded and stored.
fn has_numbers(memory: &mut Memory) -> bool {
    for (width, number) in NUMBERS {
        if !is_stored(memory, width, number) {
            return false;
        }
    }
    memory.load(PROGRAM, 1) == Ok(0x61) && memory.load(PROGRAM, 2) == Ok(0x6261)
}

/// Whether they are so in a small memory.
fn are_numbers(alloc: Global) -> Result<bool, OutOfMemory> {
    let mut memory = small_memory(alloc)?;
    Ok(has_numbers(&mut memory))
}

#[test]
fn numbers_stand_low_byte_first(rt: HostRuntime) {
    assert!(rt; are_numbers(rt.alloc()) == Ok(true));
}

/// Whether these five bytes are at the address.
fn stand_at(memory: &Memory, addr: u64, bytes: &[u8; 5]) -> bool {
    let mut read = [0xff; 5];
    memory.read(addr, &mut read).is_ok() && read == *bytes
}

/// Writes two bytes into the input.
fn write_input(memory: &mut Memory) -> Result<bool, OutOfMemory> {
    let input = memory.input_mut();
    if input.len() != 5 {
        return Ok(false);
    }
    input.write(1, &[0xaa, 0xbb])?;
    Ok(true)
}

/// Whether the input is copied within itself.
fn copies_input(memory: &mut Memory) -> Result<bool, OutOfMemory> {
    Ok(
        write_input(memory)?
            && memory.prepare(INPUT, 2).is_ok()
            && memory.copy(INPUT, INPUT + 3, 2, true).is_ok()
            && stand_at(memory, INPUT, &[4, 0, 0xbb, 4, 0])
            && memory.input().len() == 5,
    )
}

/// Whether that of a small memory is.
fn input_is_copied(alloc: Global) -> Result<bool, OutOfMemory> {
    let mut memory = small_memory(alloc)?;
    copies_input(&mut memory)
}

#[test]
fn copies_within_the_parts_of_a_region(rt: HostRuntime) {
    assert!(rt; input_is_copied(rt.alloc()) == Ok(true));
}
