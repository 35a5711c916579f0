//! Texts that run to their stops, with values from the rows of the table of instructions.
use crate::tests::slots::{EXIT, Fields, append_slot, append_slots, append_wide, text_of};
use data_parts::{Part, Parts};
use sbpf_machine::{Fault, Machine, Stop};
use sbpf_memory::Memory;
use sbpf_verify::{Verified, verify};
use sol_base::{Blob, Items, OutOfMemory};
use std::alloc::Global;
use std::sync::Arc;

/// An input of sixteen bytes of ones.
#[tactic(auto, unfolding(data_parts::specs::Parts::bytes_of))]
fn input_of(alloc: Global) -> Result<Parts, OutOfMemory> {
    let mut parts = Items::new(alloc);
    parts.push(Part::Bytes(Blob::from_slice(alloc, &[0xff; 16])?))?;
    Parts::from_items(alloc, parts)
}

/// A memory with that input, and neither program nor heap.
fn memory_of(alloc: Global) -> Result<Memory, OutOfMemory> {
    let image = Arc::new(alloc, Blob::new(alloc))?;
    Memory::new(alloc, image, 0, input_of(alloc)?)
}

/// A machine at the start of the program.
fn machine_of(alloc: Global, program: Verified, units: u64) -> Result<Machine, OutOfMemory> {
    let program = Arc::new(alloc, program)?;
    Machine::new(alloc, program, memory_of(alloc)?, units)
}

/// Whether the machine comes to this stop, is at it again, and has these units left.
fn comes_to(machine: &mut Machine, stop: Stop, left: u64) -> Result<bool, OutOfMemory> {
    let first = machine.run()?;
    let again = machine.run()?;
    Ok(first == stop && again == stop && machine.units() == left)
}

/// Whether the program runs to this stop, with so many units left of those given.
fn ends_with(
    alloc: Global,
    program: Verified,
    units: u64,
    stop: Stop,
    left: u64,
) -> Result<bool, OutOfMemory> {
    let mut machine = machine_of(alloc, program, units)?;
    comes_to(&mut machine, stop, left)
}

/// Whether the text runs so.
fn runs_to(
    alloc: Global,
    text: Blob,
    units: u64,
    stop: Stop,
    left: u64,
) -> Result<bool, OutOfMemory> {
    match verify(text) {
        Ok(program) => ends_with(alloc, program, units, stop, left),
        Err(_) => Ok(false),
    }
}

/// The start of a text: numbers in r0 and r2.
fn numbers(alloc: Global, r0: u64, r2: u64) -> Result<Blob, OutOfMemory> {
    let mut text = Blob::new(alloc);
    append_wide(&mut text, 0, r0)?;
    append_wide(&mut text, 2, r2)?;
    Ok(text)
}

/// The registers of an operation or a jump of r0: where its operand is a register, r2.
fn registers_of(opcode: u8) -> u8 {
    if opcode & 0x08 != 0 && opcode != 0xdc {
        0x20
    } else {
        0
    }
}

/// Operations: opcode, destination, source, immediate, and the destination then.
const OPERATIONS: &[(u8, u64, u64, i32, u64)] = &[
    (0x07, u64::MAX, 0, 1, 0),
    (0x0f, u64::MAX, u64::MAX, 0, 0xfffffffffffffffe),
    (0x04, u64::MAX, 0, 1, 0),
    (0x0c, 0xffffffff, 0xffffffff, 0, 0xfffffffe),
    (0x17, 0, 0, 1, u64::MAX),
    (0x1f, 1 << 63, 1, 0, 0x7fffffffffffffff),
    (0x14, 0, 0, 1, 0xffffffff),
    (0x1c, 0x80000000, 1, 0, 0x7fffffff),
    (0x27, u64::MAX, 0, -1, 1),
    (0x2f, 1 << 63, 3, 0, 1 << 63),
    (0x24, u64::MAX, 0, -1, 1),
    (0x2c, 0x80000000, 3, 0, 0x80000000),
    (0x37, u64::MAX, 0, -1, 1),
    (0x3f, 1 << 63, u64::MAX, 0, 0),
    (0x34, u64::MAX, 0, -1, 1),
    (0x3c, u64::MAX, 0x100000001, 0, 0xffffffff),
    (0x47, 1 << 63, 0, -1, u64::MAX),
    (0x4f, 1, 1 << 63, 0, 0x8000000000000001),
    (0x44, 0x80000000, 0, 1, 0x80000001),
    (0x4c, 1 << 63, 0x80000000, 0, 0x80000000),
    (0x57, u64::MAX, 0, -2, 0xfffffffffffffffe),
    (0x5f, u64::MAX, 1 << 63, 0, 1 << 63),
    (0x54, u64::MAX, 0, -2, 0xfffffffe),
    (0x5c, u64::MAX, 0x8000000080000000, 0, 0x80000000),
    (0x67, 1, 0, 63, 1 << 63),
    (0x6f, 1, 0x41, 0, 2),
    (0x64, 1, 0, 31, 0x80000000),
    (0x6c, 3, 0x21, 0, 6),
    (0x77, 1 << 63, 0, 63, 1),
    (0x7f, 1 << 63, 0x7f, 0, 1),
    (0x74, u64::MAX, 0, 31, 1),
    (0x7c, u64::MAX, 0x3f, 0, 1),
    (0x97, u64::MAX, 0, -2, 1),
    (0x9f, 1 << 63, u64::MAX, 0, 1 << 63),
    (0x94, u64::MAX, 0, -2, 1),
    (0x9c, 0x80000000, u64::MAX, 0, 0x80000000),
    (0xa7, u64::MAX, 0, -1, 0),
    (0xaf, 1 << 63, u64::MAX, 0, 0x7fffffffffffffff),
    (0xa4, u64::MAX, 0, -1, 0),
    (0xac, 1 << 63, 0xffffffff, 0, 0xffffffff),
    (0xb7, 1, 0, -1, u64::MAX),
    (0xbf, 0, 1 << 63, 0, 1 << 63),
    (0xb4, 1, 0, -1, 0xffffffff),
    (0xbc, 0, u64::MAX, 0, 0xffffffff),
    (0xc7, 1 << 63, 0, 63, u64::MAX),
    (0xcf, 1 << 63, 0x7e, 0, 0xfffffffffffffffe),
    (0xc4, 0x80000000, 0, 31, 0xffffffff),
    (0xcc, 0x8000000080000000, 0x3e, 0, 0xfffffffe),
    (0x87, 1, 0, 0, u64::MAX),
    (0x84, u64::MAX, 0, 0, 1),
    (0xd4, 0x8877665544332211, 0, 16, 0x2211),
    (0xd4, 0x8877665544332211, 0, 32, 0x44332211),
    (0xd4, 0x8877665544332211, 0, 64, 0x8877665544332211),
    (0xdc, 0x8877665544332211, 0, 16, 0x1122),
    (0xdc, 0x8877665544332211, 0, 32, 0x11223344),
    (0xdc, 0x8877665544332211, 0, 64, 0x1122334455667788),
];

/// The text of an operation.
fn operation(alloc: Global, opcode: u8, d: u64, s: u64, imm: i32) -> Result<Blob, OutOfMemory> {
    let mut text = numbers(alloc, d, s)?;
    append_slots(&mut text, &[(opcode, registers_of(opcode), 0, imm), EXIT])?;
    Ok(text)
}

/// Whether an operation gives this value.
fn operates(
    alloc: Global,
    (opcode, d, s, imm, r0): (u8, u64, u64, i32, u64),
) -> Result<bool, OutOfMemory> {
    let text = operation(alloc, opcode, d, s, imm)?;
    runs_to(alloc, text, 10, Stop::Exit { r0 }, 6)
}

#[test]
fn operations_have_their_values(rt: HostRuntime) {
    for row in OPERATIONS {
        assert!(rt; operates(rt.alloc(), *row) == Ok(true));
    }
}

/// Jumps: opcode, destination, source, immediate, and whether the jump is taken.
const JUMPS: &[(u8, u64, u64, i32, bool)] = &[
    (0x05, 0, 0, 0, true),
    (0x15, u64::MAX, 0, -1, true),
    (0x1d, 0, u64::MAX, 0, false),
    (0x55, 1, 0, -1, true),
    (0x5d, 1 << 63, 1 << 63, 0, false),
    (0x25, u64::MAX, 0, 1, true),
    (0x2d, 1, 1 << 63, 0, false),
    (0x35, 0, 0, 0, true),
    (0x3d, 1, 1 << 63, 0, false),
    (0xa5, 0, 0, -1, true),
    (0xad, 1 << 63, 1, 0, false),
    (0xb5, 1, 0, 1, true),
    (0xbd, u64::MAX, 0, 0, false),
    (0x45, 1 << 63, 0, -1, true),
    (0x4d, 1, 1 << 63, 0, false),
    (0x65, 0, 0, -1, true),
    (0x6d, 1 << 63, 1, 0, false),
    (0x75, u64::MAX, 0, -1, true),
    (0x7d, 1 << 63, 0, 0, false),
    (0xc5, u64::MAX, 0, 0, true),
    (0xcd, 1, 1 << 63, 0, false),
    (0xd5, 1 << 63, 0, 0, true),
    (0xdd, 0, u64::MAX, 0, false),
    (0x15, 1, 0, 0, false),
    (0x55, 1, 0, 1, false),
    (0x25, 1, 0, 1, false),
    (0x35, 0, 0, 1, false),
    (0xa5, 1, 0, 1, false),
    (0xb5, 1, 0, 0, false),
    (0x45, 2, 0, 1, false),
    (0x65, 1, 0, 1, false),
    (0x75, 1 << 63, 0, 1, false),
    (0xc5, 1, 0, 1, false),
    (0xd5, 1, 0, 0, false),
];

/// What is behind a jump: the end with 0, and the end with 1 where it is taken.
const ENDS: [Fields; 4] = [(0xb7, 0, 0, 0), EXIT, (0xb7, 0, 0, 1), EXIT];

/// The text of a jump.
fn jump(alloc: Global, opcode: u8, d: u64, s: u64, imm: i32) -> Result<Blob, OutOfMemory> {
    let mut text = numbers(alloc, d, s)?;
    append_slot(&mut text, (opcode, registers_of(opcode), 2, imm))?;
    append_slots(&mut text, &ENDS)?;
    Ok(text)
}

/// Whether a jump is taken, or is not.
fn jumps(
    alloc: Global,
    (opcode, d, s, imm, taken): (u8, u64, u64, i32, bool),
) -> Result<bool, OutOfMemory> {
    let text = jump(alloc, opcode, d, s, imm)?;
    let r0 = u64::from(taken);
    runs_to(alloc, text, 10, Stop::Exit { r0 }, 5)
}

#[test]
fn jumps_are_taken_or_not(rt: HostRuntime) {
    for row in JUMPS {
        assert!(rt; jumps(rt.alloc(), *row) == Ok(true));
    }
}

/// Leaves r0 as it is.
const SAME: Fields = (0xbf, 0, 0, 0);

/// Loads the eight bytes at the place into r0.
const LOAD: Fields = (0x79, 0x10, 8, 0);

/// Loads and stores of an input of ones: what r2 holds, the instruction and the next one, and the
/// eight bytes at the place then, or those that a load gives.
const MOVES: &[(u64, &[Fields], u64)] = &[
    (0, &[(0x71, 0x10, 8, 0), SAME, EXIT], 0xff),
    (0, &[(0x69, 0x10, 8, 0), SAME, EXIT], 0xffff),
    (0, &[(0x61, 0x10, 8, 0), SAME, EXIT], 0xffff_ffff),
    (0, &[(0x79, 0x10, 8, 0), SAME, EXIT], u64::MAX),
    (
        0,
        &[(0x72, 0x01, 8, 0x1234_5601), LOAD, EXIT],
        0xffff_ffff_ffff_ff01,
    ),
    (
        0,
        &[(0x6a, 0x01, 8, 0x1234_8001), LOAD, EXIT],
        0xffff_ffff_ffff_8001,
    ),
    (0, &[(0x62, 0x01, 8, 1), LOAD, EXIT], 0xffff_ffff_0000_0001),
    (
        0,
        &[(0x7a, 0x01, 8, i32::MIN), LOAD, EXIT],
        0xffff_ffff_8000_0000,
    ),
    (
        0x1122_3344_5566_7700,
        &[(0x73, 0x21, 8, 0), LOAD, EXIT],
        0xffff_ffff_ffff_ff00,
    ),
    (
        0x1122_3344_5566_0080,
        &[(0x6b, 0x21, 8, 0), LOAD, EXIT],
        0xffff_ffff_ffff_0080,
    ),
    (
        0x1122_3344_8000_0000,
        &[(0x63, 0x21, 8, 0), LOAD, EXIT],
        0xffff_ffff_8000_0000,
    ),
    (1 << 63, &[(0x7b, 0x21, 8, 0), LOAD, EXIT], 1 << 63),
];

/// The text of a load or a store.
fn moving(alloc: Global, r2: u64, slots: &[Fields]) -> Result<Blob, OutOfMemory> {
    let mut text = Blob::new(alloc);
    append_wide(&mut text, 2, r2)?;
    append_slots(&mut text, slots)?;
    Ok(text)
}

/// Whether a load or a store gives these bytes.
fn moves(alloc: Global, r2: u64, slots: &[Fields], r0: u64) -> Result<bool, OutOfMemory> {
    let text = moving(alloc, r2, slots)?;
    runs_to(alloc, text, 10, Stop::Exit { r0 }, 6)
}

#[test]
fn loads_and_stores_move_their_bytes(rt: HostRuntime) {
    for (r2, slots, r0) in MOVES {
        assert!(rt; moves(rt.alloc(), *r2, slots, *r0) == Ok(true));
    }
}

/// Texts with what they stop for, and the units then left of a thousand.
const STOPS: &[(&[Fields], Stop, u64)] = &[
    // a division by a register of 0
    (
        &[(0x9f, 0x20, 0, 0), EXIT],
        Stop::Fault(Fault::DivideByZero),
        999,
    ),
    // and one of class 4 by a register whose low half is 0
    (
        &[(0x18, 2, 0, 0), (0, 0, 0, 1), (0x3c, 0x20, 0, 0), EXIT],
        Stop::Fault(Fault::DivideByZero),
        998,
    ),
    // a wide number alone
    (
        &[(0x18, 0, 0, 1), (0, 0, 0, 2), EXIT],
        Stop::Exit { r0: 8_589_934_593 },
        998,
    ),
    // an endless loop
    (&[(0x05, 0, -1, 0)], Stop::Fault(Fault::UnitsSpent), 0),
    // an endless recursion
    (
        &[(0x85, 0x10, 0, -1), EXIT],
        Stop::Fault(Fault::CallDepth),
        936,
    ),
    // a store into the program
    (
        &[(0x18, 2, 0, 0), (0, 0, 0, 1), (0x72, 2, 0, 7), EXIT],
        Stop::Fault(Fault::AccessViolation {
            addr: 0x1_0000_0000,
            len: 1,
            write: true,
        }),
        998,
    ),
    // a call to the second half of `lddw`
    (
        &[(0x18, 3, 0, 8), (0, 0, 0, 1), (0x8d, 0, 0, 3), EXIT],
        Stop::Fault(Fault::BadCallTarget {
            value: 0x1_0000_0008,
        }),
        998,
    ),
    // a call through a register, whose function keeps r9 and r10 for its caller
    (
        &[
            (0xb7, 9, 0, 5),
            (0x18, 3, 0, 0x40),
            (0, 0, 0, 1),
            (0x8d, 0, 0, 3),
            (0xbf, 0xa0, 0, 0),
            (0x1f, 0x40, 0, 0),
            (0x0f, 0x90, 0, 0),
            EXIT,
            (0xb7, 9, 0, 1),
            (0xbf, 0xa4, 0, 0),
            EXIT,
        ],
        Stop::Exit {
            r0: u64::MAX - 8186,
        },
        990,
    ),
];

/// A call of the function that it is in.
const RECURSION: [Fields; 2] = [(0x85, 0x10, 0, -1), EXIT];

/// Whether the text of slots runs to this stop, with so many units left of those given.
fn stops(
    alloc: Global,
    slots: &[Fields],
    units: u64,
    stop: Stop,
    left: u64,
) -> Result<bool, OutOfMemory> {
    let text = text_of(alloc, slots)?;
    runs_to(alloc, text, units, stop, left)
}

#[test]
fn texts_run_to_their_stops(rt: HostRuntime) {
    for (slots, stop, left) in STOPS {
        assert!(rt; stops(rt.alloc(), slots, 1000, *stop, *left) == Ok(true));
    }
    let spent = Stop::Fault(Fault::UnitsSpent);
    assert!(rt; stops(rt.alloc(), &RECURSION, 10, spent, 0) == Ok(true));
}

/// The first address of the input.
const INPUT: u64 = 0x4_0000_0000;

/// A system call of number 16, whose answer is raised by one.
const CALL: [Fields; 4] = [(0xb7, 5, 0, 9), (0x85, 0, 0, 16), (0x07, 0, 0, 1), EXIT];

/// Whether the machine has the arguments of the call, and its input.
fn has_arguments(machine: &Machine) -> bool {
    machine.arguments() == [INPUT, 0, 0, 0, 9] && machine.memory().input().len() == 16
}

/// Whether a byte of the input is set.
fn is_set(memory: &mut Memory) -> bool {
    memory.store(INPUT, 1, 0).is_ok()
}

/// Whether the machine keeps a byte of its input that is set.
fn keeps_byte(machine: &mut Machine) -> bool {
    is_set(machine.memory_mut()) && machine.memory().load(INPUT, 2) == Ok(0xff00)
}

/// Whether the machine is at a system call, which is then answered.
fn is_answered(machine: &mut Machine) -> Result<bool, OutOfMemory> {
    match machine.run()? {
        Stop::Helper { number: _ } => {
            machine.resume(41);
            Ok(true)
        }
        _ => Ok(false),
    }
}

/// Whether the machine has fifty units once the others are taken away.
fn gives_units(machine: &mut Machine) -> bool {
    if machine.units() < 50 {
        return false;
    }
    machine.set_units(50);
    machine.units() == 50
}

/// Whether the machine stops for the call, and goes on with its answer.
fn calls(machine: &mut Machine) -> Result<bool, OutOfMemory> {
    Ok(
        comes_to(machine, Stop::Helper { number: 16 }, 98)?
            && has_arguments(machine)
            && keeps_byte(machine)
            && is_answered(machine)?
            && comes_to(machine, Stop::Exit { r0: 42 }, 96)?
            && gives_units(machine),
    )
}

/// Whether a machine over the program stops for the call, and goes on with its result.
fn program_calls(alloc: Global, program: Verified) -> Result<bool, OutOfMemory> {
    let mut machine = machine_of(alloc, program, 100)?;
    calls(&mut machine)
}

/// Whether a machine over the text stops for the call, and goes on with its result.
fn text_calls(alloc: Global) -> Result<bool, OutOfMemory> {
    match verify(text_of(alloc, &CALL)?) {
        Ok(program) => program_calls(alloc, program),
        Err(_) => Ok(false),
    }
}

#[test]
fn a_system_call_is_answered(rt: HostRuntime) {
    assert!(rt; text_calls(rt.alloc()) == Ok(true));
}
