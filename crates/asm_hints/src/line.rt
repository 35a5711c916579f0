//! What was wanted of a line.
ghost use Rattle.std.specs.Prelude.{◌≡◌, map, option_map};
ghost use Rattle.sbpf_asm.specs.Lines.{code_of, operands_of as texts_of};
ghost use Rattle.sbpf_asm.specs.Rows.{operands_of};
ghost use Rattle.sbpf_asm.specs.Views.{operands_left, row_view};
ghost use Rattle.asm_hints.specs.Hints.{byte_hint, code_hint, is_operand, line_hint, name_hint, operand_hint, operands_hint, word_hint, word_of};

use crate::hint::Hint;
use sbpf_asm::{
    Mark, Operand, cut_at, first_operand, is_name, is_text_byte, number_of, operands_left,
    operands_of, other_operands, place_of, register_of, row_of, target_of, text_behind, trim,
};

/// Whether a text is spelled as an operand of this kind.
fn is_operand(wanted: Operand, text: &[u8]) -> bool
    ensures { result ≡ is_operand wanted text.now }
{
    match wanted {
        Operand::Destination | Operand::Source | Operand::RegisterNumber => {
            register_of(text).is_some()
        }
        Operand::RegisterOrNumber => register_of(text).is_some() || number_of(text).is_some(),
        Operand::Number => number_of(text).is_some(),
        Operand::JumpTarget => target_of(text).is_some(),
        Operand::DestinationPlace | Operand::SourcePlace => place_of(text).is_some(),
    }
}

/// What was wanted of an operand. None where it is spelled as it should be.
fn operand_hint<'a>(number: usize, wanted: Operand, text: Option<&'a [u8]>) -> Option<Hint>
    ensures { result ≡ operand_hint number wanted (option_map (λ text. text.now) text.entry) }
{
    let Some(text) = text else {
        return Some(Hint::Missing { number, wanted });
    };
    if is_operand(wanted, text) {
        return None;
    }
    let parts = cut_at(Mark::Blank, text);
    if parts.rest.is_some() && is_operand(wanted, parts.front) {
        Some(Hint::Comma { operand: number })
    } else {
        Some(Hint::Operand { number, wanted })
    }
}

/// What was wanted of the operands of a line.
fn operands_hint(operands: &[Operand], text: &[u8]) -> Option<Hint>
    ensures { result ≡ operands_hint 0 operands.now (texts_of text.now) }
{
    let mut rest = operands_left(text);
    for at in 0..operands.len() {
        let hint = operand_hint(at + 1, operands[at], first_operand(rest));
        if hint.is_some() {
            return hint;
        }
        rest = other_operands(rest);
    }
    match rest {
        None => None,
        Some(_) => Some(Hint::End {
            operands: operands.len(),
        }),
    }
}

fn word_hint(word: &[u8], rest: &[u8]) -> Option<Hint>
    ensures { result ≡ word_hint word.now rest.now }
{
    if word == b".const".as_slice() {
        return Some(Hint::Digits);
    }
    match row_of(word) {
        Some(row) => operands_hint(operands_of(row), rest),
        None if word.ends_with(b":") => Some(Hint::Alone),
        None => Some(Hint::Mnemonic),
    }
}

fn name_hint(name: &[u8]) -> Option<Hint>
    ensures { result ≡ name_hint name.now }
{
    if is_name(name) {
        None
    } else {
        Some(Hint::Name)
    }
}

fn code_hint(code: &[u8]) -> Option<Hint>
    ensures { result ≡ code_hint code.now }
{
    if code.is_empty() {
        return None;
    }
    if code.ends_with(b":") {
        return name_hint(&code[..code.len() - 1]);
    }
    let parts = cut_at(Mark::Blank, code);
    word_hint(parts.front, trim(text_behind(parts.rest)))
}

/// A line without its comment, and without blanks at both ends.
pub(crate) fn code_of(line: &[u8]) -> &[u8]
    ensures { result.now ≡ code_of line.now }
{
    trim(cut_at(Mark::Semicolon, line).front)
}

/// The first word of a line.
pub fn word_of(line: &[u8]) -> &[u8]
    ensures { result.now ≡ word_of line.now }
{
    cut_at(Mark::Blank, code_of(line)).front
}

/// What was wanted of a line that is spelled as nothing that there is.
#[tactic(auto, unfolding(crate::specs::Hints::line_hint))]
pub fn line_hint(line: &[u8]) -> Option<Hint>
    ensures { result ≡ line_hint line.now }
{
    code_hint(code_of(line))
}

/// The first byte that no line may have.
pub(crate) fn byte_hint(line: &[u8]) -> Option<Hint>
    ensures { result ≡ byte_hint 0 line.now }
{
    for at in 0..line.len() {
        if !is_text_byte(line[at]) {
            return Some(Hint::Byte {
                column: at + 1,
                byte: line[at],
            });
        }
    }
    None
}
