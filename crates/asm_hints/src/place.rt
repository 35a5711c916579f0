//! What was wanted at the place where a text is refused.
ghost use Rattle.std.specs.Prelude.{◌≡◌, option_and_then};
ghost use Rattle.sbpf_asm.specs.Lines.{lines_of};
ghost use Rattle.sbpf_asm.specs.Views.{draft_view, item_view};
ghost use Rattle.asm_hints.specs.Hints.{hint_at, limit_of, line_in, line_of_slot, range_hint, same_hint, slots_of};

use crate::hint::{Hint, Limit};
use crate::line::{byte_hint, code_of, line_hint};
use sbpf_asm::{AsmFault, Draft, Item, first_line, is_call, is_wide, item_of};

/// The line of a number, which counts from 1.
pub fn line_at(text: &[u8], number: u32) -> &[u8]
    ensures { result.now ≡ line_in number (lines_of text.now) }
{
    let mut rest = text;
    for _at in 1..number {
        if rest.is_empty() {
            return rest;
        }
        rest = first_line(rest).1;
    }
    if rest.is_empty() {
        rest
    } else {
        first_line(rest).0
    }
}

/// The first line with this code.
fn same_hint(text: &[u8], code: &[u8]) -> Option<Hint>
    ensures { result ≡ same_hint 0 code.now (lines_of text.now) }
{
    let mut before = 0usize;
    let mut rest = text;
    while !rest.is_empty() {
        let lines = first_line(rest);
        before += 1;
        if code_of(lines.0) == code {
            return Some(Hint::Repeated { line: before });
        }
        rest = lines.1;
    }
    None
}

/// The range that a number of an instruction is out of, or the distance to its label.
fn limit_of(draft: Draft<'_>) -> Limit
    ensures { result ≡ limit_of (draft_view draft.entry) }
{
    let i = draft.instruction;
    let is_wide = is_wide(i.kind);
    if i.offset < -0x8000 || 0x7fff < i.offset {
        Limit::Offset
    } else if is_wide && (i.imm < -0x8000_0000_0000_0000 || 0xffff_ffff_ffff_ffff < i.imm) {
        Limit::Wide
    } else if !is_wide && (i.imm < -0x8000_0000 || 0x7fff_ffff < i.imm) {
        Limit::Immediate
    } else if is_call(i.kind) {
        Limit::Call
    } else {
        Limit::Jump
    }
}

fn range_hint(item: Option<Item<'_>>) -> Option<Hint>
    ensures { result ≡ range_hint (option_and_then item_view item.entry) }
{
    match item {
        Some(Item::Instruction(draft)) => Some(Hint::Range {
            limit: limit_of(draft),
        }),
        _ => None,
    }
}

/// How many slots what a line stands for takes.
fn slots_taken(item: Option<Item<'_>>) -> usize
    ensures { result ≡ slots_of (option_and_then item_view item.entry) }
{
    match item {
        Some(Item::Instruction(draft)) if is_wide(draft.instruction.kind) => 2,
        Some(Item::Instruction(_)) => 1,
        _ => 0,
    }
}

/// The number of the line whose instruction has a slot, both of them where it has two.
pub fn line_of_slot(text: &[u8], slot: u32) -> Option<usize>
    ensures { result ≡ line_of_slot slot 0 (lines_of text.now) }
{
    let mut left = slot as usize;
    let mut before = 0usize;
    let mut rest = text;
    while !rest.is_empty() {
        let lines = first_line(rest);
        before += 1;
        let taken = slots_taken(item_of(lines.0));
        if left < taken {
            return Some(before);
        }
        left -= taken;
        rest = lines.1;
    }
    None
}

/// What was wanted where a text is refused. None where that is the verifier's to say.
#[tactic(auto, unfolding(crate::specs::Hints::hint_at))]
pub fn hint_of(text: &[u8], fault: AsmFault) -> Option<Hint>
    ensures { result ≡ hint_at fault text.now }
{
    match fault {
        AsmFault::NotText { line } => byte_hint(line_at(text, line)),
        AsmFault::Syntax { line } => line_hint(line_at(text, line)),
        AsmFault::Range { line } => range_hint(item_of(line_at(text, line))),
        AsmFault::RepeatedLabel { line } => same_hint(text, code_of(line_at(text, line))),
        AsmFault::UnknownLabel { line: _ } => Some(Hint::Label),
        AsmFault::TooLong => Some(Hint::Shorter),
        _ => None,
    }
}
