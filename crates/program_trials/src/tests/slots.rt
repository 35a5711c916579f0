//! Texts that are made of slots.
use sol_base::{Blob, OutOfMemory};
use std::alloc::Global;

/// A slot: opcode, registers (the source in the high nibble), offset and immediate.
pub type Fields = (u8, u8, i16, i32);

pub const EXIT: Fields = (0x95, 0, 0, 0);

/// Appends a slot.
pub fn append_slot(text: &mut Blob, slot: Fields) -> Result<(), OutOfMemory> {
    let (opcode, registers, offset, imm) = slot;
    let [a, b] = offset.to_le_bytes();
    let [c, d, e, f] = imm.to_le_bytes();
    text.append(&[opcode, registers, a, b, c, d, e, f])
}

/// Appends the two slots of `lddw`.
pub fn append_wide(text: &mut Blob, register: u8, value: u64) -> Result<(), OutOfMemory> {
    let [a, b, c, d, e, f, g, h] = value.to_le_bytes();
    text.append(&[0x18, register, 0, 0, a, b, c, d, 0, 0, 0, 0, e, f, g, h])
}

/// Appends slots.
pub fn append_slots(text: &mut Blob, slots: &[Fields]) -> Result<(), OutOfMemory> {
    for slot in slots {
        append_slot(text, *slot)?;
    }
    Ok(())
}

/// The text of slots.
pub fn text_of(alloc: Global, slots: &[Fields]) -> Result<Blob, OutOfMemory> {
    let mut text = Blob::new(alloc);
    append_slots(&mut text, slots)?;
    Ok(text)
}
