//! The first refusal of a text.
ghost use Rattle.std.specs.Prelude.{◌≡◌, ◌<◌, ◌≤◌, ◌^◌, Some};
ghost use Rattle.sbpf_verify.specs.Places.{slot_count};
ghost use Rattle.sbpf_verify.specs.Verified as Table;

use crate::fault::VerifyFault;
use sbpf_isa::{OpKind, Slot, kind_of, slot_at};
use sbpf_rules::{
    calls_no_helper, divides_by_zero, follows_wide, has_bad_field, has_bad_length,
    has_bad_register, has_open_end, is_half_wide, jumps_astray, shifts_too_far, writes_frame,
};

/// The first refusal of the instruction of a slot.
fn instruction_refusal(text: &[u8], at: u32, slot: Slot, kind: OpKind) -> Option<VerifyFault>
    ensures { result ≡ Table.first_applying (Table.instruction_rows text.now at slot kind) }
{
    if is_half_wide(text, at, kind) {
        return Some(VerifyFault::HalfWide { at });
    }
    if has_bad_register(slot, kind) {
        return Some(VerifyFault::Register { at });
    }
    if writes_frame(slot) {
        return Some(VerifyFault::WritesFrame { at });
    }
    if has_bad_field(slot, kind) {
        return Some(VerifyFault::Field { at });
    }
    if divides_by_zero(slot, kind) {
        return Some(VerifyFault::ZeroDivisor { at });
    }
    if shifts_too_far(slot, kind) {
        return Some(VerifyFault::Shift { at });
    }
    if jumps_astray(text, at, slot, kind) {
        return Some(VerifyFault::Jump { at });
    }
    calls_no_helper(slot, kind).then_some(VerifyFault::Helper { at })
}

/// The first refusal of a slot.
#[tactic(auto, unfolding(crate::specs::Verified::slot_rows))]
fn slot_refusal(text: &[u8], at: u32) -> Option<VerifyFault>
    requires { at < slot_count text.now }
    ensures { result ≡ Table.first_applying (Table.slot_rows text.now at) }
{
    let slot = slot_at(text, at as usize);
    match kind_of(slot.opcode) {
        Some(kind) => instruction_refusal(text, at, slot, kind),
        None if slot.opcode == 0 && follows_wide(text, at as usize) => None,
        None => Some(VerifyFault::Opcode { at }),
    }
}

/// The first refusal of a text.
pub fn text_refusal(text: &[u8]) -> Option<VerifyFault>
    ensures { result ≡ Table.unfit text.now }
{
    if has_bad_length(text) {
        return Some(VerifyFault::Length);
    }
    for at in 0..(text.len() / 8) as u32 {
        if let Some(fault) = slot_refusal(text, at) {
            return Some(fault);
        }
    }
    has_open_end(text).then_some(VerifyFault::OpenEnd)
}
