//! The fields of a slot that an instruction uses.
ghost use Rattle.std.specs.Prelude.{◌≡◌};
ghost use Rattle.sbpf_isa.specs.Fields.{fields, used};

use crate::rows::{OpKind, Operand};

/// Which fields of its slot an instruction uses. The others are 0.
#[derive(Clone, Copy)]
pub struct Fields {
    pub dst: bool,
    pub src: bool,
    pub offset: bool,
    pub imm: bool,
}

/// By destination, source, offset and immediate.
fn which(dst: bool, src: bool, offset: bool, imm: bool) -> Fields
    ensures { result ≡ fields dst src offset imm }
{
    Fields {
        dst,
        src,
        offset,
        imm,
    }
}

/// The fields that an instruction uses.
pub fn used(kind: OpKind) -> Fields
    ensures { result ≡ used kind }
{
    match kind {
        OpKind::Binary(_, _, Operand::Immediate)
        | OpKind::LittleEndian
        | OpKind::BigEndian
        | OpKind::LoadWide => which(true, false, false, true),
        OpKind::Binary(_, _, Operand::Register) => which(true, true, false, false),
        OpKind::Negate(_) => which(true, false, false, false),
        OpKind::Jump => which(false, false, true, false),
        OpKind::JumpIf(_, Operand::Immediate) | OpKind::Store(_, Operand::Immediate) => {
            which(true, false, true, true)
        }
        OpKind::JumpIf(_, Operand::Register)
        | OpKind::Load(_)
        | OpKind::Store(_, Operand::Register) => which(true, true, true, false),
        OpKind::Call => which(false, true, false, true),
        OpKind::CallRegister => which(false, false, false, true),
        OpKind::Exit => which(false, false, false, false),
    }
}
