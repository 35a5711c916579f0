//! Assembler text and images of programs: the assembler and the lister (the project's own format).
#![tactic(auto)]

mod assembler;
mod draft;
mod fault;
mod instruction;
mod laws;
mod line;
mod lister;
mod number;
mod operand;
mod piece;
mod row;
mod source;

pub use assembler::assemble;
pub use draft::{Draft, first_operand, operands_left, other_operands};
pub use fault::{AsmFault, ListFault};
pub use instruction::{Instruction, is_call, is_wide};
pub use laws::{
    assembled_texts_are_lines_of_items, listings_assemble_again, opcodes_have_their_mnemonics,
};
pub use line::{Item, item_of};
pub use lister::list;
pub use number::number_of;
pub use operand::{Place, Target, is_name, place_of, register_of, target_of};
pub use piece::{Cut, Mark, cut_at, text_behind, trim};
pub use row::{Operand, Row, operands_of, row_of, rows};
pub use source::{first_line, is_text_byte};
