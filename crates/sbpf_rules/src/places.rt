//! The places of a text, and where an instruction leads.
ghost use Rattle.std.specs.Prelude.{◌≡◌, ◌<◌, ◌/◌, ◌^◌};
ghost use Rattle.sbpf_rules.specs.Places.{is_start, is_start_at, leads_to};

use sbpf_isa::{OpKind, Slot, slot_at};

/// Whether a slot is there whose opcode is not 0.
#[tactic(auto, unfolding(crate::specs::Places::is_start))]
pub fn is_start(text: &[u8], place: usize) -> bool
    ensures { result ≡ is_start text.now place }
{
    place < text.len() / 8 && slot_at(text, place).opcode != 0
}

/// Whether a jump leads to a slot that is there and whose opcode is not 0.
pub fn is_start_at(text: &[u8], place: i64) -> bool
    ensures { result ≡ is_start_at text.now place }
{
    place >= 0 && is_start(text, place as usize)
}

/// The place that a jump, or a call into the program, leads to.
pub fn leads_to(kind: OpKind, slot: Slot, place: u32) -> Option<i64>
    ensures { result ≡ leads_to kind slot place }
{
    let next = i64::from(place) + 1;
    match kind {
        OpKind::Jump | OpKind::JumpIf(..) => Some(next + i64::from(slot.offset)),
        OpKind::Call if slot.src == 1 => Some(next + i64::from(slot.imm)),
        _ => None,
    }
}
