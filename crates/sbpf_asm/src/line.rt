//! What one line stands for.
ghost use Rattle.std.specs.Prelude.{◌≡◌, option_and_then};
ghost use Rattle.sbpf_asm.specs.Lines.{code_item, constants_item, item_of, label_item, word_item};
ghost use Rattle.sbpf_asm.specs.Views.{item_view};

use crate::draft::{Draft, draft_of};
use crate::number::are_hex_digits;
use crate::operand::is_name;
use crate::piece::{Mark, cut_at, text_behind, trim};
use crate::row::row_of;

/// What a line stands for.
#[derive(Clone, Copy)]
pub enum Item<'a> {
    Nothing,
    Label(&'a [u8]),
    /// Lower case hexadecimal digits, of which there may be an odd number.
    Constants(&'a [u8]),
    Instruction(Draft<'a>),
}

fn label_item(name: &[u8]) -> Option<Item<'_>>
    ensures { option_and_then item_view result ≡ label_item name.now }
{
    if is_name(name) {
        Some(Item::Label(name))
    } else {
        None
    }
}

fn constants_item(digits: &[u8]) -> Option<Item<'_>>
    ensures { option_and_then item_view result ≡ constants_item digits.now }
{
    if are_hex_digits(digits) && 0 < digits.len() {
        Some(Item::Constants(digits))
    } else {
        None
    }
}

fn word_item<'a>(word: &[u8], rest: &'a [u8]) -> Option<Item<'a>>
    ensures { option_and_then item_view result ≡ word_item word.now rest.entry.now }
{
    if word == b".const".as_slice() {
        return constants_item(rest);
    }
    Some(Item::Instruction(draft_of(row_of(word)?, rest)?))
}

fn code_item(code: &[u8]) -> Option<Item<'_>>
    ensures { option_and_then item_view result ≡ code_item code.now }
{
    if code.is_empty() {
        return Some(Item::Nothing);
    }
    if code.ends_with(b":") {
        return label_item(&code[..code.len() - 1]);
    }
    let parts = cut_at(Mark::Blank, code);
    word_item(parts.front, trim(text_behind(parts.rest)))
}

/// What a line stands for, or None where it is spelled as nothing that there is.
pub fn item_of(line: &[u8]) -> Option<Item<'_>>
    ensures { option_and_then item_view result ≡ item_of line.now }
{
    code_item(trim(cut_at(Mark::Semicolon, line).front))
}
