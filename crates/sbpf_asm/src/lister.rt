//! From an image to its listing.
ghost use Rattle.std.specs.Prelude.{◌≡◌, ◌++◌, ◌*◌, ◌<◌, ◌≤◌, OnOk, Some, codes, find, length, map, option_map};
ghost use Rattle.std.specs.Fork.{slice_chunk};
ghost use Rattle.spec_base.specs.Reading.{Gives};
ghost use Rattle.std.specs.Fmt.{signed_decimal};
ghost use Rattle.sbpf_isa.specs.Rows.{kind_at};
ghost use Rattle.sbpf_isa.specs.Slots.{slot_of};
ghost use Rattle.sbpf_verify.specs.Places.{slot_count};
ghost use Rattle.sbpf_verify.specs.Verified.{IsVerified};
ghost use Rattle.sbpf_asm.specs.Rows.{is_row_of, operand_text, row_text};
ghost use Rattle.sbpf_asm.specs.Operands.{register_text, signed_text, place_text};
ghost use Rattle.sbpf_asm.specs.Listing.{constant_line, constant_lines, instruction_lines, instruction_of, instruction_text, is_list_memory, listed, slot_line};
ghost use Rattle.sbpf_asm.specs.Views.{row_view};

use crate::fault::ListFault;
use crate::instruction::{Instruction, is_call, takes_register, with_immediate};
use crate::row::{Operand, Row, operands_of, rows};
use itoa::Buffer;
use sbpf_isa::{OpKind, kind_of, opcode_of, slot_at};
use sbpf_verify::{first_refusal, read_image};
use sol_base::{Blob, OutOfMemory};
use std::alloc::Global;

fn append_number(out: &mut Blob, number: i128) -> Result<(), OutOfMemory>
    ensures { OnOk result (out.new ≡ out.old ++ signed_decimal number) }
{
    out.append(Buffer::new().format(number).as_bytes())
}

fn append_register(out: &mut Blob, register: u8) -> Result<(), OutOfMemory>
    ensures { OnOk result (out.new ≡ out.old ++ register_text register) }
{
    out.append(b"r")?;
    out.append(Buffer::new().format(register).as_bytes())
}

/// A number with its sign.
fn append_signed(out: &mut Blob, number: i128) -> Result<(), OutOfMemory>
    ensures { OnOk result (out.new ≡ out.old ++ signed_text number) }
{
    if number >= 0 {
        out.append(b"+")?;
    }
    append_number(out, number)
}

fn append_place(out: &mut Blob, register: u8, offset: i128) -> Result<(), OutOfMemory>
    ensures { OnOk result (out.new ≡ out.old ++ place_text register offset) }
{
    out.append(b"[")?;
    append_register(out, register)?;
    append_signed(out, offset)?;
    out.append(b"]")
}

fn append_operand(out: &mut Blob, i: Instruction, operand: Operand) -> Result<(), OutOfMemory>
    ensures { OnOk result (out.new ≡ out.old ++ operand_text i operand) }
{
    match operand {
        Operand::Destination => append_register(out, i.dst),
        Operand::Source => append_register(out, i.src),
        Operand::RegisterOrNumber => {
            if takes_register(i.kind) {
                append_register(out, i.src)
            } else {
                append_number(out, i.imm)
            }
        }
        Operand::Number => append_number(out, i.imm),
        Operand::JumpTarget => append_signed(out, if is_call(i.kind) { i.imm } else { i.offset }),
        Operand::DestinationPlace => append_place(out, i.dst, i.offset),
        Operand::SourcePlace => append_place(out, i.src, i.offset),
        Operand::RegisterNumber => {
            out.append(b"r")?;
            out.append(Buffer::new().format(i.imm.unsigned_abs()).as_bytes())
        }
    }
}

/// Whether a row names an instruction: it has its kind, but for a register in place of the
/// immediate, and its source or its bits where it has them by itself.
fn is_row_of(row: Row, i: Instruction) -> bool
    ensures { result ≡ is_row_of i (row_view row) }
{
    opcode_of(row.kind) == opcode_of(with_immediate(i.kind))
        && match row.kind {
            OpKind::Call => row.src == i.src,
            OpKind::LittleEndian | OpKind::BigEndian => row.imm == i.imm,
            _ => true,
        }
}

fn row_in(rows: &[Row], i: Instruction) -> Option<Row>
    ensures { option_map row_view result ≡ find (is_row_of i) (map row_view rows.now) }
{
    for row in rows {
        if is_row_of(*row, i) {
            return Some(*row);
        }
    }
    None
}

fn append_row(out: &mut Blob, row: Row, i: Instruction) -> Result<(), OutOfMemory>
    ensures { OnOk result (out.new ≡ out.old ++ row_text (row_view row) i) }
{
    out.append(row.mnemonic)?;
    let mut parting: &[u8] = b" ";
    for operand in operands_of(row) {
        out.append(parting)?;
        append_operand(out, i, *operand)?;
        parting = b", ";
    }
    Ok(())
}

/// The number of an instruction in a slot: the immediate, or that of the two slots of `lddw`.
#[tactic(auto, using(crate::proofs::Wide::second_there))]
fn immediate_of(text: &[u8], place: usize, kind: OpKind) -> i128
    requires verified { IsVerified text.now }
    requires there { place < slot_count text.now }
    requires known { kind_at (slot_of text.now place).opcode ≡ Some kind }
    ensures { result ≡ (instruction_of text.now place kind).imm }
{
    let low = slot_at(text, place).imm;
    match kind {
        OpKind::LoadWide => {
            let high = slot_at(text, place + 1).imm.cast_unsigned();
            i128::from(u64::from(low.cast_unsigned()) | u64::from(high) << 32)
        }
        _ => i128::from(low),
    }
}

/// The instruction of a slot, which is of this kind.
fn instruction_of(text: &[u8], place: usize, kind: OpKind) -> Instruction
    requires verified { IsVerified text.now }
    requires there { place < slot_count text.now }
    requires known { kind_at (slot_of text.now place).opcode ≡ Some kind }
    ensures { result ≡ instruction_of text.now place kind }
{
    let slot = slot_at(text, place);
    Instruction {
        kind,
        dst: slot.dst,
        src: slot.src,
        offset: i128::from(slot.offset),
        imm: immediate_of(text, place, kind),
    }
}

/// Appends the line of an instruction.
fn append_line(out: &mut Blob, i: Instruction) -> Result<(), OutOfMemory>
    ensures { OnOk result (out.new ≡ out.old ++ (instruction_text i ++ codes "\n")) }
{
    if let Some(row) = row_in(rows(), i) {
        append_row(out, row, i)?;
    }
    out.append(b"\n")
}

/// Appends the line of a slot. The second slot of `lddw` has none.
fn append_slot(out: &mut Blob, text: &[u8], place: usize) -> Result<(), OutOfMemory>
    requires verified { IsVerified text.now }
    requires there { place < slot_count text.now }
    ensures { OnOk result (out.new ≡ out.old ++ slot_line text.now place) }
{
    match kind_of(slot_at(text, place).opcode) {
        None => Ok(()),
        Some(kind) => append_line(out, instruction_of(text, place, kind)),
    }
}

fn append_instructions(out: &mut Blob, text: &[u8]) -> Result<(), OutOfMemory>
    requires { IsVerified text.now }
    ensures { OnOk result (out.new ≡ out.old ++ instruction_lines text.now) }
{
    for place in 0..text.len() / 8 {
        append_slot(out, text, place)?;
    }
    Ok(())
}

/// The bytes of a line of constants.
fn chunk(bytes: &[u8], line: usize) -> &[u8]
    requires { 32 * line ≤ length bytes.now }
    ensures { result.now ≡ slice_chunk bytes.now 32 line }
{
    let rest = &bytes[line * 32..];
    &rest[..rest.len().min(32)]
}

fn append_constant_line(
    alloc: Global,
    out: &mut Blob,
    constants: &[u8],
    line: usize,
) -> Result<(), OutOfMemory>
    requires { 32 * line ≤ length constants.now }
    ensures { OnOk result (out.new ≡ out.old ++ constant_line constants.now line) }
{
    out.append(b".const ")?;
    out.append(hex::encode(alloc, chunk(constants, line))?.as_bytes())?;
    out.append(b"\n")
}

/// Appends the constants, 32 bytes a line.
fn append_constants(alloc: Global, out: &mut Blob, constants: &[u8]) -> Result<(), OutOfMemory>
    ensures { OnOk result (out.new ≡ out.old ++ constant_lines constants.now) }
{
    for line in 0..constants.len().div_ceil(32) {
        append_constant_line(alloc, out, constants, line)?;
    }
    Ok(())
}

/// The text of a program image (the project's own format): a line for each instruction, then the
/// constants, 32 bytes a line. Each line ends with a line feed.
#[tactic(auto, unfolding(crate::specs::Listing::listed))]
pub fn list(alloc: Global, image: &[u8]) -> Result<Blob, ListFault>
    ensures exact { Gives is_list_memory (λ b. b) result (listed image.now) }
{
    let Some(parts) = read_image(image) else {
        return Err(ListFault::BadImage);
    };
    if let Some(fault) = first_refusal(parts.text) {
        return Err(ListFault::Unverified(fault));
    }
    let mut out = Blob::new(alloc);
    append_instructions(&mut out, parts.text)?;
    append_constants(alloc, &mut out, parts.constants)?;
    Ok(out)
}
