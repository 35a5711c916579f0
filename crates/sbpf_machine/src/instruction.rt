//! One instruction.
ghost use Rattle.std.specs.Prelude.{◌≡◌, ◌≢◌, ◌<◌, ◌+◌, ◌%◌, ℕ, false, true, if◌then◌else◌, IfSome};
ghost use Rattle.sbpf_memory.specs.Memory.{IsWidth, load_from, store_to};
ghost use Rattle.sbpf_machine.specs.Flows.{Follows, LandsOn, WantsOnlyAt, IsNext, IsNextOrWant, IsTo, IsToStart, IsCalling, GoBack, operands_of};
ghost use Rattle.sbpf_machine.specs.Steps as Steps;
ghost use Rattle.sbpf_machine.specs.Values.{divides, holds};
ghost use Rattle.sbpf_machine.specs.declared.instruction.Flow.TheVariants.{Next as next_one, Jump as jumps};
ghost use Rattle.sbpf_verify.specs.Entries.{Fits};
ghost use Rattle.sbpf_verify.specs.Opcodes.{meaning};
ghost use Rattle.sbpf_verify.specs.Places.{is_start, max_slots};
ghost use Rattle.sbpf_verify.specs.Verified.{IsVerified};
ghost use Rattle.sbpf_isa.specs.Calls.{IsCallNumber};

use crate::context::Context;
use crate::frames::{Kept, MAX_FRAMES};
use crate::stop::{Fault, Stop};
use crate::values::{
    is_taken, low, low_bits, negative32, negative64, swapped_bits, value32, value64,
};
use sbpf_isa::{Condition, Operation};
use sbpf_memory::{FRAME_STEP, MemFault, PROGRAM_START};
use sbpf_verify::{Entry, Opcode, Verified};

/// Where the machine goes from an instruction.
#[derive(Clone, Copy)]
pub enum Flow {
    /// To the next place.
    Next,
    /// To the target of the instruction.
    Jump,
    /// To another place.
    To(u32),
    /// Nowhere: it stops.
    Off(Stop),
    /// Nowhere: a store found no memory, and nothing has changed.
    NoMemory,
}

/// A new value of a register.
#[inline(always)]
fn set(dst: usize, value: u64, context: &mut Context) -> Flow
    requires { dst < 11 }
    ensures way { result ≡ next_one }
    ensures does { context.new ≡ Steps.put dst value context.old }
{
    context.registers[dst] = value;
    Flow::Next
}

/// An operation of class 7 without a divisor.
#[inline(always)]
fn binary64(operation: Operation, place: u32, dst: usize, s: u64, context: &mut Context) -> Flow
    requires dst { dst < 11 }
    requires plain { divides operation ≡ false }
    ensures way { result ≡ next_one }
    ensures frames { context.new.frames ≡ context.old.frames }
    ensures does { (target : ℕ)
        → Follows (Steps.binary64 operation dst s place context.old) target place context.new
        result }
{
    context.registers[dst] = value64(operation, context.registers[dst], s);
    Flow::Next
}

/// An operation of class 4 without a divisor.
#[inline(always)]
fn binary32(operation: Operation, place: u32, dst: usize, s: u64, context: &mut Context) -> Flow
    requires dst { dst < 11 }
    requires plain { divides operation ≡ false }
    ensures way { result ≡ next_one }
    ensures frames { context.new.frames ≡ context.old.frames }
    ensures does { (target : ℕ)
        → Follows (Steps.binary32 operation dst s place context.old) target place context.new
        result }
{
    context.registers[dst] = u64::from(value32(operation, low(context.registers[dst]), low(s)));
    Flow::Next
}

/// A division of class 7.
#[inline(always)]
fn divide64(operation: Operation, place: u32, dst: usize, s: u64, context: &mut Context) -> Flow
    requires dst { dst < 11 }
    requires divides { divides operation ≡ true }
    ensures way { IsNext result }
    ensures frames { context.new.frames ≡ context.old.frames }
    ensures does { (target : ℕ)
        → Follows (Steps.binary64 operation dst s place context.old) target place context.new
        result }
{
    if s == 0 {
        return Flow::Off(Stop::Fault(Fault::DivideByZero));
    }
    context.registers[dst] = value64(operation, context.registers[dst], s);
    Flow::Next
}

/// A division of class 4.
#[inline(always)]
fn divide32(operation: Operation, place: u32, dst: usize, s: u64, context: &mut Context) -> Flow
    requires dst { dst < 11 }
    requires divides { divides operation ≡ true }
    ensures way { IsNext result }
    ensures frames { context.new.frames ≡ context.old.frames }
    ensures does { (target : ℕ)
        → Follows (Steps.binary32 operation dst s place context.old) target place context.new
        result }
{
    let divisor = low(s);
    if divisor == 0 {
        return Flow::Off(Stop::Fault(Fault::DivideByZero));
    }
    context.registers[dst] = u64::from(value32(operation, low(context.registers[dst]), divisor));
    Flow::Next
}

/// The address of a load or a store.
#[inline(always)]
fn address(entry: Entry, register: usize, context: &Context) -> u64
    requires { register < 11 }
    ensures { result ≡ Steps.address register (operands_of entry) context.now }
{
    context.registers[register].wrapping_add(entry.offset)
}

#[inline(always)]
fn load(width: u8, place: u32, dst: usize, addr: u64, context: &mut Context) -> Flow
    requires dst { dst < 11 }
    requires width { IsWidth width }
    ensures way { IsNext result }
    ensures frames { context.new.frames ≡ context.old.frames }
    ensures does { (target : ℕ)
        → Follows (Steps.load dst place context.old (load_from context.old.memory addr width))
        target place context.new result }
{
    match context.memory.load(addr, width) {
        Ok(value) => {
            context.registers[dst] = value;
            Flow::Next
        }
        Err(violation) => Flow::Off(Stop::Fault(Fault::AccessViolation {
            addr: violation.addr,
            len: violation.len,
            write: violation.write,
        })),
    }
}

#[inline(always)]
fn store(width: u8, place: u32, addr: u64, value: u64, context: &mut Context) -> Flow
    requires width { IsWidth width }
    ensures way { let row = Steps.store place context.old
        (store_to context.old.memory addr width value) in
        IsNextOrWant addr width row context.old context.new result }
    ensures frames { context.new.frames ≡ context.old.frames }
    ensures does { (target : ℕ)
        → Follows (Steps.store place context.old (store_to context.old.memory addr width value))
        target place context.new result }
{
    match context.memory.store(addr, width, value) {
        Ok(()) => Flow::Next,
        Err(MemFault::AccessViolation { addr, len, write }) => {
            Flow::Off(Stop::Fault(Fault::AccessViolation { addr, len, write }))
        }
        Err(MemFault::Overlap) => unreachable!(),
        Err(MemFault::OutOfMemory) => Flow::NoMemory,
    }
}

#[inline(always)]
fn jump(when: Condition, d: u64, s: u64) -> Flow
    ensures { result ≡ (if holds when d s then jumps else next_one) }
{
    if is_taken(when, d, s) {
        Flow::Jump
    } else {
        Flow::Next
    }
}

/// A call into the program.
fn enter(program: &Verified, to: u32, place: u32, context: &mut Context) -> Flow
    requires room { place < max_slots }
    requires next { is_start program.now (place + 1) ≡ true }
    requires backs { GoBack program.now context.old.frames }
    ensures way { IsTo to result }
    ensures backs { GoBack program.now context.new.frames }
    ensures does { (target : ℕ)
        → Follows (Steps.enter to place context.old) target place context.new result }
{
    if context.frames.len() >= MAX_FRAMES - 1 {
        return Flow::Off(Stop::Fault(Fault::CallDepth));
    }
    let r = context.registers;
    context.frames.push(Kept {
        back: place + 1,
        r6: r[6],
        r7: r[7],
        r8: r[8],
        r9: r[9],
        r10: r[10],
    });
    context.registers[10] = r[10].wrapping_add(FRAME_STEP);
    Flow::To(to)
}

/// `exit`.
fn leave(program: &Verified, context: &mut Context) -> Flow
    requires { GoBack program.now context.old.frames }
    ensures way { IsToStart program.now result }
    ensures backs { GoBack program.now context.new.frames }
    ensures does { (target place : ℕ)
        → Follows (Steps.leave (Steps.last_kept context.old) context.old) target place context.new
        result }
{
    match context.frames.pop() {
        None => Flow::Off(Stop::Exit {
            r0: context.registers[0],
        }),
        Some(kept) => {
            context.registers[6] = kept.r6;
            context.registers[7] = kept.r7;
            context.registers[8] = kept.r8;
            context.registers[9] = kept.r9;
            context.registers[10] = kept.r10;
            Flow::To(kept.back)
        }
    }
}

/// The slot whose address a value is, where an instruction starts there.
#[tactic(auto, unfolding(crate::specs::Steps::start_at_address), using(std::proofs::lemmas::Bool::Decides::nat_tests))]
fn start_at_address(program: &Verified, value: u64) -> Option<u32>
    requires { IsVerified program.now }
    ensures value { result ≡ Steps.start_at_address program.now value }
    ensures start { IfSome result (λ to. is_start program.now to ≡ true) }
{
    if value < PROGRAM_START {
        return None;
    }
    let past = value - PROGRAM_START;
    if past % 8 != 0 {
        return None;
    }
    let slot = past / 8;
    if program.is_start(slot as usize) {
        Some(slot as u32)
    } else {
        None
    }
}

/// `callx`.
fn callx(program: &Verified, value: u64, place: u32, context: &mut Context) -> Flow
    requires room { place < max_slots }
    requires verified { IsVerified program.now }
    requires next { is_start program.now (place + 1) ≡ true }
    requires backs { GoBack program.now context.old.frames }
    ensures way { IsToStart program.now result }
    ensures backs { GoBack program.now context.new.frames }
    ensures does { (target : ℕ)
        → Follows
        (Steps.enter_at value place context.old (Steps.start_at_address program.now value))
        target place context.new result }
{
    match start_at_address(program, value) {
        Some(to) => enter(program, to, place, context),
        None => Flow::Off(Stop::Fault(Fault::BadCallTarget { value })),
    }
}

/// `call`.
#[inline(always)]
fn call(program: &Verified, entry: Entry, place: u32, context: &mut Context) -> Flow
    requires room { place < max_slots }
    requires next { is_start program.now (place + 1) ≡ true }
    requires to { is_start program.now entry.target ≡ true }
    requires helper { entry.src ≢ 1 → IsCallNumber entry.imm }
    requires backs { GoBack program.now context.old.frames }
    ensures lands { (target : ℕ) → LandsOn program.now target place result }
    ensures backs { GoBack program.now context.new.frames }
    ensures want { IsCalling result }
    ensures does { (target : ℕ)
        → Follows (Steps.call (operands_of entry) place context.old) target place context.new
        result }
{
    if entry.src == 1 {
        enter(program, entry.target, place, context)
    } else {
        Flow::Off(Stop::Helper {
            number: low(entry.imm),
        })
    }
}

/// One instruction, after its unit was taken.
#[inline(always)]
pub fn step(program: &Verified, entry: Entry, place: u32, context: &mut Context) -> Flow
    requires verified { IsVerified program.now }
    requires room { place < max_slots }
    requires fits { Fits program.now place entry }
    requires backs { GoBack program.now context.old.frames }
    ensures lands { LandsOn program.now entry.target place result }
    ensures backs { GoBack program.now context.new.frames }
    ensures want { let row = Steps.act (meaning entry.opcode) program.now (operands_of entry) place
        context.old in
        WantsOnlyAt (meaning entry.opcode) (operands_of entry) row context.old context.new result }
    ensures does { Follows
        (Steps.act (meaning entry.opcode) program.now (operands_of entry) place context.old)
        entry.target place context.new result }
{
    let dst = entry.dst as usize;
    let src = entry.src as usize;
    let d = context.registers[dst];
    let s = context.registers[src];
    let i = entry.imm;
    match entry.opcode {
        Opcode::Add64Immediate => binary64(Operation::Add, place, dst, i, context),
        Opcode::Add64Register => binary64(Operation::Add, place, dst, s, context),
        Opcode::Add32Immediate => binary32(Operation::Add, place, dst, i, context),
        Opcode::Add32Register => binary32(Operation::Add, place, dst, s, context),
        Opcode::Sub64Immediate => binary64(Operation::Sub, place, dst, i, context),
        Opcode::Sub64Register => binary64(Operation::Sub, place, dst, s, context),
        Opcode::Sub32Immediate => binary32(Operation::Sub, place, dst, i, context),
        Opcode::Sub32Register => binary32(Operation::Sub, place, dst, s, context),
        Opcode::Mul64Immediate => binary64(Operation::Mul, place, dst, i, context),
        Opcode::Mul64Register => binary64(Operation::Mul, place, dst, s, context),
        Opcode::Mul32Immediate => binary32(Operation::Mul, place, dst, i, context),
        Opcode::Mul32Register => binary32(Operation::Mul, place, dst, s, context),
        Opcode::Or64Immediate => binary64(Operation::Or, place, dst, i, context),
        Opcode::Or64Register => binary64(Operation::Or, place, dst, s, context),
        Opcode::Or32Immediate => binary32(Operation::Or, place, dst, i, context),
        Opcode::Or32Register => binary32(Operation::Or, place, dst, s, context),
        Opcode::And64Immediate => binary64(Operation::And, place, dst, i, context),
        Opcode::And64Register => binary64(Operation::And, place, dst, s, context),
        Opcode::And32Immediate => binary32(Operation::And, place, dst, i, context),
        Opcode::And32Register => binary32(Operation::And, place, dst, s, context),
        Opcode::Lsh64Immediate => binary64(Operation::Lsh, place, dst, i, context),
        Opcode::Lsh64Register => binary64(Operation::Lsh, place, dst, s, context),
        Opcode::Lsh32Immediate => binary32(Operation::Lsh, place, dst, i, context),
        Opcode::Lsh32Register => binary32(Operation::Lsh, place, dst, s, context),
        Opcode::Rsh64Immediate => binary64(Operation::Rsh, place, dst, i, context),
        Opcode::Rsh64Register => binary64(Operation::Rsh, place, dst, s, context),
        Opcode::Rsh32Immediate => binary32(Operation::Rsh, place, dst, i, context),
        Opcode::Rsh32Register => binary32(Operation::Rsh, place, dst, s, context),
        Opcode::Xor64Immediate => binary64(Operation::Xor, place, dst, i, context),
        Opcode::Xor64Register => binary64(Operation::Xor, place, dst, s, context),
        Opcode::Xor32Immediate => binary32(Operation::Xor, place, dst, i, context),
        Opcode::Xor32Register => binary32(Operation::Xor, place, dst, s, context),
        Opcode::Mov64Immediate => binary64(Operation::Mov, place, dst, i, context),
        Opcode::Mov64Register => binary64(Operation::Mov, place, dst, s, context),
        Opcode::Mov32Immediate => binary32(Operation::Mov, place, dst, i, context),
        Opcode::Mov32Register => binary32(Operation::Mov, place, dst, s, context),
        Opcode::Arsh64Immediate => binary64(Operation::Arsh, place, dst, i, context),
        Opcode::Arsh64Register => binary64(Operation::Arsh, place, dst, s, context),
        Opcode::Arsh32Immediate => binary32(Operation::Arsh, place, dst, i, context),
        Opcode::Arsh32Register => binary32(Operation::Arsh, place, dst, s, context),
        Opcode::Div64Immediate => divide64(Operation::Div, place, dst, i, context),
        Opcode::Div64Register => divide64(Operation::Div, place, dst, s, context),
        Opcode::Div32Immediate => divide32(Operation::Div, place, dst, i, context),
        Opcode::Div32Register => divide32(Operation::Div, place, dst, s, context),
        Opcode::Mod64Immediate => divide64(Operation::Mod, place, dst, i, context),
        Opcode::Mod64Register => divide64(Operation::Mod, place, dst, s, context),
        Opcode::Mod32Immediate => divide32(Operation::Mod, place, dst, i, context),
        Opcode::Mod32Register => divide32(Operation::Mod, place, dst, s, context),
        Opcode::JumpIfEqualImmediate => jump(Condition::Equal, d, i),
        Opcode::JumpIfEqualRegister => jump(Condition::Equal, d, s),
        Opcode::JumpIfNotEqualImmediate => jump(Condition::NotEqual, d, i),
        Opcode::JumpIfNotEqualRegister => jump(Condition::NotEqual, d, s),
        Opcode::JumpIfGreaterImmediate => jump(Condition::Greater, d, i),
        Opcode::JumpIfGreaterRegister => jump(Condition::Greater, d, s),
        Opcode::JumpIfGreaterOrEqualImmediate => jump(Condition::GreaterOrEqual, d, i),
        Opcode::JumpIfGreaterOrEqualRegister => jump(Condition::GreaterOrEqual, d, s),
        Opcode::JumpIfLessImmediate => jump(Condition::Less, d, i),
        Opcode::JumpIfLessRegister => jump(Condition::Less, d, s),
        Opcode::JumpIfLessOrEqualImmediate => jump(Condition::LessOrEqual, d, i),
        Opcode::JumpIfLessOrEqualRegister => jump(Condition::LessOrEqual, d, s),
        Opcode::JumpIfSetImmediate => jump(Condition::Set, d, i),
        Opcode::JumpIfSetRegister => jump(Condition::Set, d, s),
        Opcode::JumpIfSignedGreaterImmediate => jump(Condition::SignedGreater, d, i),
        Opcode::JumpIfSignedGreaterRegister => jump(Condition::SignedGreater, d, s),
        Opcode::JumpIfSignedGreaterOrEqualImmediate => jump(Condition::SignedGreaterOrEqual, d, i),
        Opcode::JumpIfSignedGreaterOrEqualRegister => jump(Condition::SignedGreaterOrEqual, d, s),
        Opcode::JumpIfSignedLessImmediate => jump(Condition::SignedLess, d, i),
        Opcode::JumpIfSignedLessRegister => jump(Condition::SignedLess, d, s),
        Opcode::JumpIfSignedLessOrEqualImmediate => jump(Condition::SignedLessOrEqual, d, i),
        Opcode::JumpIfSignedLessOrEqualRegister => jump(Condition::SignedLessOrEqual, d, s),
        Opcode::LoadOne => load(1, place, dst, address(entry, src, context), context),
        Opcode::StoreOneImmediate => store(1, place, address(entry, dst, context), i, context),
        Opcode::StoreOneRegister => store(1, place, address(entry, dst, context), s, context),
        Opcode::LoadTwo => load(2, place, dst, address(entry, src, context), context),
        Opcode::StoreTwoImmediate => store(2, place, address(entry, dst, context), i, context),
        Opcode::StoreTwoRegister => store(2, place, address(entry, dst, context), s, context),
        Opcode::LoadFour => load(4, place, dst, address(entry, src, context), context),
        Opcode::StoreFourImmediate => store(4, place, address(entry, dst, context), i, context),
        Opcode::StoreFourRegister => store(4, place, address(entry, dst, context), s, context),
        Opcode::LoadEight => load(8, place, dst, address(entry, src, context), context),
        Opcode::StoreEightImmediate => store(8, place, address(entry, dst, context), i, context),
        Opcode::StoreEightRegister => store(8, place, address(entry, dst, context), s, context),
        Opcode::Negate64 => set(dst, negative64(d), context),
        Opcode::Negate32 => set(dst, u64::from(negative32(low(d))), context),
        Opcode::LittleEndian => set(dst, low_bits(i, d), context),
        Opcode::BigEndian => set(dst, swapped_bits(i, d), context),
        Opcode::Jump => Flow::Jump,
        Opcode::Call => call(program, entry, place, context),
        Opcode::CallRegister => callx(program, context.registers[i as usize], place, context),
        Opcode::Exit => leave(program, context),
        Opcode::LoadWide => {
            context.registers[dst] = i;
            Flow::To(place + 2)
        }
    }
}
