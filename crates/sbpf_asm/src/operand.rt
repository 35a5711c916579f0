//! Operands: registers, places in memory and targets.
ghost use Rattle.std.specs.Prelude.{◌≡◌, option_map};
ghost use Rattle.std.specs.List.{list_all};
ghost use Rattle.sbpf_asm.specs.Operands.{is_name, is_name_byte, place_of, place_within, register_of, target_of};
ghost use Rattle.sbpf_asm.specs.Views.{cut_view, target_view};

use crate::number::signed_of;
use crate::piece::{Cut, Mark, cut_at};

/// Where an instruction leads: to a label, or so many slots on from the next.
#[derive(Clone, Copy)]
pub enum Target<'a> {
    Label(&'a [u8]),
    Offset(i128),
}

/// A place in memory: what a register holds, and an offset.
#[derive(Clone, Copy)]
pub struct Place {
    pub register: u8,
    pub offset: i128,
}

/// The register of a text, where it is one.
pub fn register_of(text: &[u8]) -> Option<u8>
    ensures { result ≡ register_of text.now }
{
    if text == b"r10".as_slice() {
        return Some(10);
    }
    if text.len() == 2 && text.starts_with(b"r") && text[1].is_ascii_digit() {
        return Some(text[1] - b'0');
    }
    None
}

fn are_name_bytes(text: &[u8]) -> bool
    ensures { result ≡ list_all is_name_byte text.now }
{
    text.iter()
        .all(|byte| byte.is_ascii_alphanumeric() || *byte == b'_')
}

/// Whether a text is a name: 1 to 64 letters, digits and `_`, and no digit first.
pub fn is_name(text: &[u8]) -> bool
    ensures { result ≡ is_name text.now }
{
    are_name_bytes(text) && 0 < text.len() && text.len() <= 64 && !text[0].is_ascii_digit()
}

/// The target of a text, where it is one.
pub fn target_of(text: &[u8]) -> Option<Target<'_>>
    ensures { option_map target_view result ≡ target_of text.now }
{
    if text.starts_with(b"+") || text.starts_with(b"-") {
        return Some(Target::Offset(signed_of(text[0], &text[1..])?));
    }
    if is_name(text) {
        return Some(Target::Label(text));
    }
    None
}

fn place_within(parts: Cut<'_>) -> Option<Place>
    ensures { result ≡ place_within (cut_view parts.entry) }
{
    let register = register_of(parts.front)?;
    let offset = match parts.rest {
        None => 0,
        Some((sign, digits)) => signed_of(sign, digits)?,
    };
    Some(Place { register, offset })
}

/// The place in memory of a text, where it is one.
pub fn place_of(text: &[u8]) -> Option<Place>
    ensures { result ≡ place_of text.now }
{
    if 1 < text.len() && text.starts_with(b"[") && text.ends_with(b"]") {
        place_within(cut_at(Mark::Sign, &text[1..text.len() - 1]))
    } else {
        None
    }
}
