//! Slots, and how one is read from a text.
ghost use Rattle.std.specs.Prelude.{◌≡◌, ◌≤◌, ◌+◌, ◌*◌, length};
ghost use Rattle.sbpf_isa.specs.Slots.{slot_of};

/// A slot of eight bytes: an instruction, or one half of `lddw`.
#[derive(Clone, Copy, PartialEq, Eq)]
pub struct Slot {
    pub opcode: u8,
    /// The destination register, of 4 bits.
    pub dst: u8,
    /// The source register, of 4 bits.
    pub src: u8,
    pub offset: i16,
    pub imm: i32,
}

/// The slot of an index, counted from 0.
#[inline]
#[tactic(auto, unfolding(crate::specs::Slots::slot_of))]
pub fn slot_at(text: &[u8], index: usize) -> Slot
    requires { 8 * index + 8 ≤ length text.now }
    ensures { result ≡ slot_of text.now index }
{
    let at = 8 * index;
    let registers = text[at + 1];
    Slot {
        opcode: text[at],
        dst: registers % 16,
        src: registers / 16,
        offset: i16::from_le_bytes([text[at + 2], text[at + 3]]),
        imm: i32::from_le_bytes([text[at + 4], text[at + 5], text[at + 6], text[at + 7]]),
    }
}
