//! Instructions with their numbers as lines write them.
ghost use Rattle.std.specs.Prelude.{◌≡◌};
ghost use Rattle.sbpf_asm.specs.Rows.{is_call, is_wide, takes_register, with_immediate, with_register};

use sbpf_isa::{OpKind, Operand as Second};

/// An instruction with its numbers as a line writes them, which are not yet known to be in range.
/// The immediate of `lddw` is its whole number.
#[derive(Clone, Copy)]
pub struct Instruction {
    pub kind: OpKind,
    pub dst: u8,
    pub src: u8,
    pub offset: i128,
    pub imm: i128,
}

/// Whether it is `lddw`, the only instruction of two slots.
pub fn is_wide(kind: OpKind) -> bool
    ensures { result ≡ is_wide kind }
{
    matches!(kind, OpKind::LoadWide)
}

/// Whether it is `call`, which has its target in its immediate.
pub fn is_call(kind: OpKind) -> bool
    ensures { result ≡ is_call kind }
{
    matches!(kind, OpKind::Call)
}

/// Whether the second operand is a register, where it may be an immediate too.
pub(crate) fn takes_register(kind: OpKind) -> bool
    ensures { result ≡ takes_register kind }
{
    matches!(
        kind,
        OpKind::Binary(_, _, Second::Register) | OpKind::JumpIf(_, Second::Register)
    )
}

/// The kind with a register as its second operand, where it may have one.
pub(crate) fn with_register(kind: OpKind) -> OpKind
    ensures { result ≡ with_register kind }
{
    match kind {
        OpKind::Binary(operation, width, _) => {
            OpKind::Binary(operation, width, Second::Register)
        }
        OpKind::JumpIf(when, _) => OpKind::JumpIf(when, Second::Register),
        _ => kind,
    }
}

/// The kind with an immediate as its second operand, where a register may be too.
pub(crate) fn with_immediate(kind: OpKind) -> OpKind
    ensures { result ≡ with_immediate kind }
{
    match kind {
        OpKind::Binary(operation, width, _) => {
            OpKind::Binary(operation, width, Second::Immediate)
        }
        OpKind::JumpIf(when, _) => OpKind::JumpIf(when, Second::Immediate),
        _ => kind,
    }
}
