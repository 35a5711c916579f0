//! What the lines of a text have together.
ghost use Rattle.std.specs.Prelude.{◌≡◌, ◌+◌, ◌*◌, ◌<◌, ◌≤◌, ◌^◌, ◌∷◌, Some, length};
ghost use Rattle.spec_base.specs.Reading.{Gives, ok_if};
ghost use Rattle.sbpf_asm.specs.declared.fault.AsmFault.TheVariants.{Range};
ghost use Rattle.sbpf_asm.specs.Assembly.{empty, is_asm_memory, is_in_range, is_text, is_text_byte, place_in, with_draft, with_item, with_label, with_line, with_lines};
ghost use Rattle.sbpf_asm.specs.Lines.{decoded, lines_of};
ghost use Rattle.sbpf_asm.specs.Views.{draft_view, source_view};
ghost use Rattle.hex.specs.Hex.{decode_of};

use crate::draft::Draft;
use crate::fault::AsmFault;
use crate::instruction::{Instruction, is_wide};
use crate::line::{Item, item_of};
use crate::piece::{Mark, cut_at, text_behind};
use indexmap::IndexMap;
use sol_base::{Blob, Items};
use std::alloc::Global;

/// An instruction with the number of its line, and with its place: the number of slots before it.
#[derive(Clone, Copy)]
pub(crate) struct Placed<'a> {
    pub line: u32,
    pub place: u64,
    pub draft: Draft<'a>,
}

/// What the lines of a text have, in their order.
#[derive(Drop)]
pub(crate) struct Source<'a> {
    alloc: Global,
    pub instructions: Items<Placed<'a>>,
    pub labels: IndexMap<&'a [u8], u64>,
    pub constants: Blob,
    pub slots: u64,
}

/// Whether a line may have a byte: a tab, or 0x20 to 0x7e.
pub fn is_text_byte(byte: u8) -> bool
    ensures { result ≡ is_text_byte byte }
{
    byte == b'\t' || (32 <= byte && byte <= 126)
}

fn is_text(line: &[u8]) -> bool
    ensures { result ≡ is_text line.now }
{
    line.iter().all(|byte| is_text_byte(*byte))
}

/// Whether the numbers of an instruction are in their ranges.
pub(crate) fn is_in_range(i: Instruction) -> bool
    ensures { result ≡ is_in_range i }
{
    let fits_offset = -0x8000 <= i.offset && i.offset <= 0x7fff;
    if is_wide(i.kind) {
        fits_offset && -0x8000_0000_0000_0000 <= i.imm && i.imm <= 0xffff_ffff_ffff_ffff
    } else {
        fits_offset && -0x8000_0000 <= i.imm && i.imm <= 0x7fff_ffff
    }
}

/// The first line of a text, and what follows it.
pub fn first_line<'a>(text: &'a [u8]) -> (&'a [u8], &'a [u8])
    requires { 0 < length text.now }
    ensures lines { lines_of text.entry.now ≡ result.0.now ∷ lines_of result.1.now }
    ensures shorter { length result.1.now < length text.entry.now }
{
    let parts = cut_at(Mark::LineFeed, text);
    (parts.front, text_behind(parts.rest))
}

impl<'a> Source<'a> {
    /// A source without lines.
    pub fn new(alloc: Global) -> Source<'a>
        ensures value { source_view result ≡ empty }
        ensures slots { result.slots ≡ 0 }
    {
        Source {
            alloc,
            instructions: Items::new(alloc),
            labels: IndexMap::new(alloc),
            constants: Blob::new(alloc),
            slots: 0,
        }
    }

    fn add_label(&mut self, line: u32, name: &'a [u8]) -> Result<(), AsmFault>
        ensures added { let before = source_view self.old in
            Gives is_asm_memory (λ _. source_view self.new) result
            (with_label line before name.entry.now (place_in name.entry.now before.labels)) }
        ensures slots { self.new.slots ≡ self.old.slots }
    {
        if self.labels.contains_key(name) {
            return Err(AsmFault::RepeatedLabel { line });
        }
        match self.labels.insert(name, self.slots) {
            Ok(_) => Ok(()),
            Err(_) => Err(AsmFault::OutOfMemory),
        }
    }

    fn add_constants(&mut self, line: u32, digits: &[u8]) -> Result<(), AsmFault>
        ensures added { Gives is_asm_memory (λ _. source_view self.new) result
            (with_item line (source_view self.old) (decoded (decode_of digits.now))) }
        ensures slots { self.new.slots ≡ self.old.slots }
    {
        match hex::decode(self.alloc, digits) {
            Ok(bytes) => Ok(self.constants.append(bytes.as_slice())?),
            Err(hex::FromHexError::OutOfMemory) => Err(AsmFault::OutOfMemory),
            Err(_) => Err(AsmFault::Syntax { line }),
        }
    }

    fn add_instruction(&mut self, line: u32, draft: Draft<'a>) -> Result<(), AsmFault>
        requires { self.old.slots < 2 ^ 62 }
        ensures added { let d = draft_view draft.entry in
            Gives is_asm_memory (λ _. source_view self.new) result
            (ok_if (is_in_range d.instruction) (Range line)
            (with_draft line (source_view self.old) d)) }
        ensures slots { self.new.slots ≤ self.old.slots + 2 }
    {
        if !is_in_range(draft.instruction) {
            return Err(AsmFault::Range { line });
        }
        self.instructions.push(Placed {
            line,
            place: self.slots,
            draft,
        })?;
        self.slots += if is_wide(draft.instruction.kind) {
            2
        } else {
            1
        };
        Ok(())
    }

    /// Adds what a line stands for.
    fn add_line(&mut self, line: u32, text: &'a [u8]) -> Result<(), AsmFault>
        requires { self.old.slots < 2 ^ 62 }
        ensures added { Gives is_asm_memory (λ _. source_view self.new) result
            (with_line line (source_view self.old) text.entry.now) }
        ensures slots { self.new.slots ≤ self.old.slots + 2 }
    {
        if !is_text(text) {
            return Err(AsmFault::NotText { line });
        }
        match item_of(text) {
            None => Err(AsmFault::Syntax { line }),
            Some(Item::Nothing) => Ok(()),
            Some(Item::Label(name)) => self.add_label(line, name),
            Some(Item::Constants(digits)) => self.add_constants(line, digits),
            Some(Item::Instruction(draft)) => self.add_instruction(line, draft),
        }
    }

    /// Adds the lines of a text, in their order.
    pub fn add_lines(&mut self, text: &'a [u8]) -> Result<(), AsmFault>
        requires new { self.old.slots ≡ 0 }
        requires few { length text.now < 2 ^ 32 }
        ensures { Gives is_asm_memory (λ _. source_view self.new) result
            (with_lines 1 (source_view self.old) (lines_of text.entry.now)) }
    {
        let mut number = 0;
        let mut rest = text;
        while !rest.is_empty() {
            let lines = first_line(rest);
            number += 1;
            self.add_line(number, lines.0)?;
            rest = lines.1;
        }
        Ok(())
    }
}
