//! The instructions of sBPF in this project's profile: the slots of a text, and the table that says
//! which opcodes there are (RFC 9669).
#![tactic(auto)]

mod call;
mod fields;
mod laws;
mod rows;
mod slot;

pub use call::INVOKE_CALL;
pub use fields::{Fields, used};
pub use laws::{numbers_are_as_stated, opcodes_lead_to_their_kinds, rows_have_their_own_opcodes};
pub use rows::{
    Condition, EXIT, JUMP, LOAD_WIDE, OpKind, Operand, Operation, Size, Width, kind_of, opcode_of,
};
pub use slot::{Slot, slot_at};
