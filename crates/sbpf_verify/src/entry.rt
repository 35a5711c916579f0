//! Decoded instructions.
ghost use Rattle.std.specs.Prelude.{◌≡◌, ◌<◌, ◌+◌, ◌*◌, ◌^◌, true, unwrap_or, IfOk, Some, pos};
ghost use Rattle.std.specs.Int.{w32, w64, cast_unsigned};
ghost use Rattle.sbpf_isa.specs.Slots.{slot_of};
ghost use Rattle.sbpf_verify.specs.Entries.{Decodes, IsDecoded, immediate_of};
ghost use Rattle.sbpf_verify.specs.Places.{slot_count, is_start, instruction_at, leads_to};
ghost use Rattle.sbpf_verify.specs.Verified.{IsVerified};

use crate::opcode::{Opcode, opcode_of};
use sbpf_isa::{OpKind, Slot, kind_of, slot_at};
use sbpf_rules::leads_to;
use sol_base::{Items, OutOfMemory};
use std::alloc::Global;

/// A decoded instruction.
#[derive(Clone, Copy, PartialEq, Eq)]
pub struct Entry {
    pub opcode: Opcode,
    /// The destination register, at most 10.
    pub dst: u8,
    /// The source register, at most 10.
    pub src: u8,
    /// The place of the slot that a jump, or a call into the program, leads to; 0 for others.
    pub target: u32,
    /// The offset, sign-extended.
    pub offset: u64,
    /// The immediate, sign-extended; of `lddw` its 64 bits.
    pub imm: u64,
}

/// What is in place of an entry for the second half of `lddw`, which is never reached.
const SECOND_HALF: Entry = Entry {
    opcode: Opcode::Exit,
    dst: 0,
    src: 0,
    target: 0,
    offset: 0,
    imm: 0,
};

/// The 64 bits of `lddw`, of which each slot has one half.
fn joined(low: i32, high: i32) -> u64
    ensures { result ≡ cast_unsigned w32 low + 2 ^ 32 * cast_unsigned w32 high }
{
    u64::from(low.cast_unsigned()) | u64::from(high.cast_unsigned()) << 32
}

/// The immediate of an instruction in 64 bits.
fn immediate_of(text: &[u8], place: u32, slot: Slot, kind: OpKind) -> u64
    requires verified { IsVerified text.now }
    requires same { slot ≡ slot_of text.now place }
    requires there { instruction_at text.now place ≡ Some kind }
    ensures { result ≡ immediate_of text.now place kind }
{
    match kind {
        OpKind::LoadWide => joined(slot.imm, slot_at(text, place as usize + 1).imm),
        _ => i64::from(slot.imm).cast_unsigned(),
    }
}

/// The place of the slot that an instruction leads to, or 0.
fn target_of(text: &[u8], place: u32, slot: Slot, kind: OpKind) -> u32
    requires verified { IsVerified text.now }
    requires same { slot ≡ slot_of text.now place }
    requires there { instruction_at text.now place ≡ Some kind }
    ensures { pos result ≡ unwrap_or (leads_to kind slot place) (pos 0) }
{
    match leads_to(kind, slot, place) {
        None => 0,
        Some(target) => target as u32,
    }
}

/// The offset of a slot in 64 bits.
fn offset_of(slot: Slot) -> u64
    ensures { result ≡ cast_unsigned w64 slot.offset }
{
    i64::from(slot.offset).cast_unsigned()
}

/// The entry of an instruction.
fn instruction_entry(text: &[u8], place: u32, slot: Slot, kind: OpKind) -> Entry
    requires verified { IsVerified text.now }
    requires same { slot ≡ slot_of text.now place }
    requires there { instruction_at text.now place ≡ Some kind }
    ensures { Decodes text.now place result }
{
    Entry {
        opcode: opcode_of(kind),
        dst: slot.dst,
        src: slot.src,
        target: target_of(text, place, slot, kind),
        offset: offset_of(slot),
        imm: immediate_of(text, place, slot, kind),
    }
}

/// The entry of a slot.
fn entry_of(text: &[u8], place: u32) -> Entry
    requires verified { IsVerified text.now }
    requires there { place < slot_count text.now }
    ensures { is_start text.now place ≡ true → Decodes text.now place result }
{
    let slot = slot_at(text, place as usize);
    match kind_of(slot.opcode) {
        Some(kind) => instruction_entry(text, place, slot, kind),
        None => SECOND_HALF,
    }
}

/// The entries of a text, one for each slot.
pub fn entries_of(alloc: Global, text: &[u8]) -> Result<Items<Entry>, OutOfMemory>
    requires { IsVerified text.now }
    ensures { IfOk result (λ entries. IsDecoded text.now entries) }
{
    let count = text.len() / 8;
    let mut entries = Items::with_capacity(alloc, count)?;
    for place in 0..count as u32 {
        entries.push(entry_of(text, place))?;
    }
    Ok(entries)
}
