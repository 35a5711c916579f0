//! From an assembler text to an image.
ghost use Rattle.std.specs.Prelude.{◌≡◌, ◌++◌, ◌<◌, ◌≤◌, ◌*◌, ◌+◌, ◌^◌, [], IfOk, OnOk, length, pos, ◌-ℤ◌};
ghost use Rattle.spec_base.specs.Reading.{Gives};
ghost use Rattle.sbpf_asm.specs.Assembly.{assembled, image_of, instruction_bytes, is_asm_memory, is_too_long, led_to, linked, slots_after, verified_image};
ghost use Rattle.sbpf_asm.specs.Views.{labels_view, placed_view, source_view};
ghost use Rattle.sol_base.specs.Accounts.{max_data_len};
ghost use Rattle.sbpf_verify.specs.Images.{image_bytes};
ghost use Rattle.sbpf_verify.specs.Places.{max_slots};

use crate::draft::leading;
use crate::fault::AsmFault;
use crate::instruction::{Instruction, is_wide};
use crate::source::{Placed, Source, is_in_range};
use indexmap::IndexMap;
use sbpf_isa::opcode_of;
use sbpf_verify::{MAX_SLOTS, first_refusal};
use sol_base::{Blob, MAX_DATA_LEN, OutOfMemory};
use std::alloc::Global;

/// Whether it has more slots than a text may have, or more bytes than an account can hold.
fn is_too_long(source: &Source<'_>) -> bool
    ensures { result ≡ is_too_long (source_view source.now) }
{
    source.slots > MAX_SLOTS as u64
        || source.constants.len() as u64 > MAX_DATA_LEN as u64 - 16 - 8 * source.slots
}

/// How many slots on from the next a place is.
fn distance(target: u64, place: u64) -> i128
    ensures { result ≡ pos target -ℤ pos (place + 1) }
{
    i128::from(target) - i128::from(place) - 1
}

/// The instruction that leads to a label's place.
fn led_to(placed: Placed<'_>, target: Option<u64>) -> Result<Instruction, AsmFault>
    ensures { result ≡ led_to (placed_view placed.entry) target }
{
    let Some(target) = target else {
        return Err(AsmFault::UnknownLabel { line: placed.line });
    };
    let instruction = leading(distance(target, placed.place), placed.draft.instruction);
    if is_in_range(instruction) {
        Ok(instruction)
    } else {
        Err(AsmFault::Range { line: placed.line })
    }
}

/// The instruction with its label put in.
fn linked(labels: &IndexMap<&[u8], u64>, placed: Placed<'_>) -> Result<Instruction, AsmFault>
    ensures { let p = placed_view placed.entry
        in result ≡ linked (labels_view labels.now.entries) p p.draft.target }
{
    match placed.draft.target {
        None => Ok(placed.draft.instruction),
        Some(name) => led_to(placed, labels.get(name).copied()),
    }
}

/// Appends the slot of an instruction, or its two.
fn append_instruction(out: &mut Blob, i: Instruction) -> Result<(), OutOfMemory>
    ensures { OnOk result (out.new ≡ out.old ++ instruction_bytes i) }
{
    out.append(&[opcode_of(i.kind), 16 * (i.src % 16) + i.dst % 16])?;
    out.append(&i.offset.to_le_bytes()[..2])?;
    out.append(&i.imm.to_le_bytes()[..4])?;
    if is_wide(i.kind) {
        out.append(&[0, 0, 0, 0])?;
        out.append(&i.imm.to_le_bytes()[4..8])?;
    }
    Ok(())
}

/// The slots of the instructions.
fn text_of(alloc: Global, source: &Source<'_>) -> Result<Blob, AsmFault>
    requires { source.now.slots ≤ max_slots }
    ensures { let s = source_view source.now
        in Gives is_asm_memory (λ b. b) result (slots_after s.labels [] s.instructions) }
{
    let mut text = Blob::with_capacity(alloc, 8 * source.slots as usize)?;
    for placed in source.instructions.as_slice() {
        append_instruction(&mut text, linked(&source.labels, *placed)?)?;
    }
    Ok(text)
}

fn write_image(alloc: Global, text: &[u8], constants: &[u8]) -> Result<Blob, OutOfMemory>
    requires slots { length text.now ≤ 8 * max_slots }
    requires bytes { length constants.now ≤ max_data_len }
    ensures { IfOk result
        (λ image. image ≡ image_bytes (record { text = text.now; constants = constants.now })) }
{
    let mut image = Blob::with_capacity(alloc, 16 + text.len() + constants.len())?;
    image.append(b"SBPFIMG1")?;
    image.append(&((text.len() / 8) as u32).to_le_bytes())?;
    image.append(&(constants.len() as u32).to_le_bytes())?;
    image.append(text)?;
    image.append(constants)?;
    Ok(image)
}

/// The image of a text and its constants, if the text is verified.
fn verified_image(alloc: Global, text: &[u8], constants: &[u8]) -> Result<Blob, AsmFault>
    requires { length constants.now ≤ max_data_len }
    ensures { Gives is_asm_memory (λ b. b) result (verified_image text.now constants.now) }
{
    match first_refusal(text) {
        Some(fault) => Err(AsmFault::Unverified(fault)),
        None => Ok(write_image(alloc, text, constants)?),
    }
}

/// The image of a source.
fn image_of(alloc: Global, source: &Source<'_>) -> Result<Blob, AsmFault>
    ensures { Gives is_asm_memory (λ b. b) result (image_of (source_view source.now)) }
{
    if is_too_long(source) {
        return Err(AsmFault::TooLong);
    }
    let text = text_of(alloc, source)?;
    verified_image(alloc, text.as_slice(), source.constants.as_slice())
}

/// The image of an assembler text (the project's own format). Refusals are looked for in four
/// rounds: in each line, then how much there is, then the labels, then the verifier.
#[tactic(auto, unfolding(crate::specs::Assembly::assembled))]
pub fn assemble(alloc: Global, text: &[u8]) -> Result<Blob, AsmFault>
    requires { length text.now < 2 ^ 32 }
    ensures exact { Gives is_asm_memory (λ b. b) result (assembled text.now) }
{
    let mut source = Source::new(alloc);
    source.add_lines(text)?;
    image_of(alloc, &source)
}
