//! The rows of the table of refusals, each by itself.
ghost use Rattle.std.specs.Prelude.{◌≡◌, ◌<◌, ◌≤◌, ◌&&◌, length, not, pos};
ghost use Rattle.std.specs.Ordering.{int_eq};
ghost use Rattle.sbpf_isa.specs.Fields.{used};
ghost use Rattle.sbpf_rules.specs.Places.{slot_count};
ghost use Rattle.sbpf_rules.specs.Table as Table;

use crate::places::{is_start_at, leads_to};
use sbpf_isa::{
    EXIT, INVOKE_CALL, JUMP, LOAD_WIDE, OpKind, Operand, Operation, Slot, Width, slot_at, used,
};

/// The most slots of a text (the project's own).
pub const MAX_SLOTS: usize = 65_536;

/// Row `Length` of the table of refusals: what the length of a text may not be.
pub fn has_bad_length(text: &[u8]) -> bool
    ensures { result ≡ Table.has_bad_length text.now }
{
    text.is_empty() || text.len() % 8 != 0 || text.len() / 8 > MAX_SLOTS
}

/// Whether the slot before is `lddw`: then opcode 0 may be in a slot.
pub fn follows_wide(text: &[u8], place: usize) -> bool
    requires { place < slot_count text.now }
    ensures { result ≡ Table.follows_wide text.now place }
{
    place > 0 && slot_at(text, place - 1).opcode == LOAD_WIDE
}

/// Whether a slot is there that can be the second half of `lddw`.
pub fn is_second_half(text: &[u8], place: usize) -> bool
    ensures { result ≡ Table.is_second_half text.now place }
{
    if place >= text.len() / 8 {
        return false;
    }
    let slot = slot_at(text, place);
    slot.opcode == 0 && slot.dst == 0 && slot.src == 0 && slot.offset == 0
}

/// Row `HalfWide`: the instruction is `lddw`, and its second half is missing.
pub fn is_half_wide(text: &[u8], place: u32, kind: OpKind) -> bool
    ensures { result ≡ Table.is_half_wide text.now place kind }
{
    kind == OpKind::LoadWide && !is_second_half(text, place as usize + 1)
}

fn is_outside(low: i32, high: i32, number: i32) -> bool
    ensures { result ≡ Table.is_outside low high number }
{
    number < low || number > high
}

/// Row `Register`: a register is named that is not there.
pub fn has_bad_register(slot: Slot, kind: OpKind) -> bool
    ensures { result ≡ Table.has_bad_register slot kind }
{
    slot.dst > 10 || slot.src > 10 || kind == OpKind::CallRegister && is_outside(0, 9, slot.imm)
}

/// Row `WritesFrame`: the instruction is of a class that writes its destination, which is r10.
pub fn writes_frame(slot: Slot) -> bool
    ensures { result ≡ Table.writes_frame slot }
{
    matches!(slot.opcode % 8, 0 | 1 | 4 | 7) && slot.dst == 10
}

fn is_zero(number: i32) -> bool
    ensures { result ≡ int_eq number (pos 0) }
{
    number == 0
}

fn is_stray(is_used: bool, is_zero: bool) -> bool
    ensures { result ≡ (not is_used && not is_zero) }
{
    !is_used && !is_zero
}

/// Whether a field that the instruction does not use is not 0.
fn has_stray_field(slot: Slot, kind: OpKind) -> bool
    ensures { result ≡ Table.has_stray_field slot (used kind) }
{
    let row = used(kind);
    is_stray(row.dst, slot.dst == 0)
        || is_stray(row.src, slot.src == 0)
        || is_stray(row.offset, is_zero(i32::from(slot.offset)))
        || is_stray(row.imm, is_zero(slot.imm))
}

/// Whether a field that the instruction uses has a value that means nothing.
fn has_bad_value(slot: Slot, kind: OpKind) -> bool
    ensures { result ≡ Table.has_bad_value slot kind }
{
    match kind {
        OpKind::LittleEndian | OpKind::BigEndian => !matches!(slot.imm, 16 | 32 | 64),
        OpKind::Call => slot.src > 1,
        _ => false,
    }
}

/// Row `Field`: a field has a value that the instruction does not allow.
pub fn has_bad_field(slot: Slot, kind: OpKind) -> bool
    ensures { result ≡ Table.has_bad_field slot kind }
{
    has_stray_field(slot, kind) || has_bad_value(slot, kind)
}

/// Row `ZeroDivisor`: the instruction divides by the immediate 0.
pub fn divides_by_zero(slot: Slot, kind: OpKind) -> bool
    ensures { result ≡ Table.divides_by_zero slot kind }
{
    match kind {
        OpKind::Binary(Operation::Div | Operation::Mod, _, Operand::Immediate) => slot.imm == 0,
        _ => false,
    }
}

/// Row `Shift`: the instruction shifts by more bits than its class has.
pub fn shifts_too_far(slot: Slot, kind: OpKind) -> bool
    ensures { result ≡ Table.shifts_too_far slot kind }
{
    match kind {
        OpKind::Binary(
            Operation::Lsh | Operation::Rsh | Operation::Arsh,
            Width::Bits64,
            Operand::Immediate,
        ) => is_outside(0, 63, slot.imm),
        OpKind::Binary(
            Operation::Lsh | Operation::Rsh | Operation::Arsh,
            Width::Bits32,
            Operand::Immediate,
        ) => is_outside(0, 31, slot.imm),
        _ => false,
    }
}

/// Row `Jump`: no instruction starts where the jump or the call leads to.
pub fn jumps_astray(text: &[u8], place: u32, slot: Slot, kind: OpKind) -> bool
    ensures { result ≡ Table.jumps_astray text.now place slot kind }
{
    match leads_to(kind, slot, place) {
        None => false,
        Some(target) => !is_start_at(text, target),
    }
}

/// Row `Helper`: no system call has the number.
pub fn calls_no_helper(slot: Slot, kind: OpKind) -> bool
    ensures { result ≡ Table.calls_no_helper slot kind }
{
    kind == OpKind::Call && slot.src == 0 && is_outside(1, INVOKE_CALL as i32, slot.imm)
}

/// Row `OpenEnd`: the last slot neither ends the program nor jumps.
pub fn has_open_end(text: &[u8]) -> bool
    requires { 8 ≤ length text.now }
    ensures { result ≡ Table.has_open_end text.now }
{
    !matches!(slot_at(text, text.len() / 8 - 1).opcode, EXIT | JUMP)
}
