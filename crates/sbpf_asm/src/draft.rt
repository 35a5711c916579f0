//! Instructions whose labels are still to be put in.
ghost use Rattle.std.specs.Prelude.{◌≡◌, option_map, Some};
ghost use Rattle.sbpf_asm.specs.Rows.{behind_first, draft_of, first_of, leading, start, with_fields, with_operand, with_target};
ghost use Rattle.sbpf_asm.specs.Lines.{operands_of};
ghost use Rattle.sbpf_asm.specs.Views.{behind, draft_view, operands_left, rest_view, row_view, target_view};

use crate::instruction::{Instruction, is_call, with_register};
use crate::number::number_of;
use crate::operand::{Target, place_of, register_of, target_of};
use crate::piece::{Mark, cut_at, trim};
use crate::row::{Operand, Row, operands_of};

/// An instruction as a line writes it: its target may be a label that is still to be put in.
#[derive(Clone, Copy)]
pub struct Draft<'a> {
    pub instruction: Instruction,
    pub target: Option<&'a [u8]>,
}

/// The instruction that leads so many slots on from the next.
pub(crate) fn leading(away: i128, instruction: Instruction) -> Instruction
    ensures { result ≡ leading away instruction }
{
    if is_call(instruction.kind) {
        Instruction {
            imm: away,
            ..instruction
        }
    } else {
        Instruction {
            offset: away,
            ..instruction
        }
    }
}

fn with_target<'a>(draft: Draft<'a>, target: Target<'a>) -> Draft<'a>
    ensures { draft_view result ≡ with_target (draft_view draft.entry) (target_view target.entry) }
{
    match target {
        Target::Label(name) => Draft {
            instruction: draft.instruction,
            target: Some(name),
        },
        Target::Offset(away) => Draft {
            instruction: leading(away, draft.instruction),
            target: draft.target,
        },
    }
}

/// The instruction with the fields that an operand gives it. A target gives none.
fn with_fields(operand: Operand, text: &[u8], i: Instruction) -> Option<Instruction>
    ensures { result ≡ with_fields operand text.now i }
{
    Some(match operand {
        Operand::Destination => Instruction {
            dst: register_of(text)?,
            ..i
        },
        Operand::Source => Instruction {
            src: register_of(text)?,
            ..i
        },
        Operand::RegisterOrNumber => match register_of(text) {
            Some(src) => Instruction {
                kind: with_register(i.kind),
                src,
                ..i
            },
            None => Instruction {
                imm: number_of(text)?,
                ..i
            },
        },
        Operand::Number => Instruction {
            imm: number_of(text)?,
            ..i
        },
        Operand::DestinationPlace => {
            let place = place_of(text)?;
            Instruction {
                dst: place.register,
                offset: place.offset,
                ..i
            }
        }
        Operand::SourcePlace => {
            let place = place_of(text)?;
            Instruction {
                src: place.register,
                offset: place.offset,
                ..i
            }
        }
        Operand::RegisterNumber => Instruction {
            imm: i128::from(register_of(text)?),
            ..i
        },
        Operand::JumpTarget => return None,
    })
}

/// The draft with one more operand.
fn with_operand<'a>(operand: Operand, text: &'a [u8], draft: Draft<'a>) -> Option<Draft<'a>>
    ensures { option_map draft_view result
        ≡ with_operand operand text.entry.now (draft_view draft.entry) }
{
    match operand {
        Operand::JumpTarget => Some(with_target(draft, target_of(text)?)),
        _ => Some(Draft {
            instruction: with_fields(operand, text, draft.instruction)?,
            target: draft.target,
        }),
    }
}

/// What a row has by itself.
fn start<'a>(row: Row) -> Draft<'a>
    ensures { draft_view result ≡ start (row_view row) }
{
    Draft {
        instruction: Instruction {
            kind: row.kind,
            dst: 0,
            src: row.src,
            offset: 0,
            imm: row.imm,
        },
        target: None,
    }
}

/// The operands, or None where there is none.
pub fn operands_left(operands: &[u8]) -> Option<&[u8]>
    ensures { operands_left (option_map (λ text. text.now) result) ≡ operands_of operands.now }
{
    if operands.is_empty() {
        None
    } else {
        Some(operands)
    }
}

/// What follows the byte that a text is cut at.
fn text_behind<'a>(rest: Option<(u8, &'a [u8])>) -> Option<&'a [u8]>
    ensures { option_map (λ text. text.now) result ≡ behind (rest_view rest.entry) }
{
    match rest {
        None => None,
        Some((_, text)) => Some(text),
    }
}

/// The first operand of a text that is left.
pub fn first_operand<'a>(rest: Option<&'a [u8]>) -> Option<&'a [u8]>
    ensures { option_map (λ text. text.now) result
        ≡ first_of (operands_left (option_map (λ text. text.now) rest.entry)) }
{
    Some(trim(cut_at(Mark::Comma, rest?).front))
}

/// What is left behind the first operand of a text.
pub fn other_operands<'a>(rest: Option<&'a [u8]>) -> Option<&'a [u8]>
    ensures { operands_left (option_map (λ text. text.now) result)
        ≡ behind_first (operands_left (option_map (λ text. text.now) rest.entry)) }
{
    text_behind(cut_at(Mark::Comma, rest?).rest)
}

/// The instruction of a row with these operands.
pub(crate) fn draft_of(row: Row, operands: &[u8]) -> Option<Draft<'_>>
    ensures { option_map draft_view result
        ≡ draft_of (Some (row_view row)) (operands_of operands.now) }
{
    let mut draft = start(row);
    let mut rest = operands_left(operands);
    for operand in operands_of(row) {
        draft = with_operand(*operand, first_operand(rest)?, draft)?;
        rest = other_operands(rest);
    }
    match rest {
        None => Some(draft),
        Some(_) => None,
    }
}
