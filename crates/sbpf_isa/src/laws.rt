//! Laws of the table of instructions.
ghost use Rattle.std.specs.Prelude.{◌≡◌, Some};
ghost use Rattle.std.specs.List.{AllByRecursion};
ghost use Rattle.sbpf_isa.specs.Rows.{kind_at, opcode_of, rows};
ghost use Rattle.sbpf_isa.specs.declared.rows.OpKind.{OpKind};

use crate::call::INVOKE_CALL;

/// The number of the cross-program call (the project's own).
pub fn numbers_are_as_stated()
    ensures { INVOKE_CALL ≡ 17 }
{}

/// A law: each row of the table is what its opcode leads to, so that no opcode is in two rows.
#[tactic(auto, unfolding(crate::specs::Rows::kind_at))]
pub fn rows_have_their_own_opcodes()
    ensures opcodes { AllByRecursion (λ r. kind_at r.opcode ≡ Some r.kind) rows }
{}

/// A law: the opcode of an instruction leads to what it is.
pub fn opcodes_lead_to_their_kinds()
    ensures kinds { (k : OpKind) → kind_at (opcode_of k) ≡ Some k }
{}
