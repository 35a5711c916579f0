//! The texts of notes and lines, and results that are one of them.
ghost use Rattle.std.specs.Prelude.{◌≡◌, ◌++◌, false, IfOk, OnOk};
ghost use Rattle.std.specs.Fmt.{decimal};
ghost use Rattle.hex.specs.Hex.{encode_lower};
ghost use Rattle.snapshot_codec.specs.SnapshotReading.{is_snapshot_memory};
ghost use Rattle.snapshot_codec.specs.BatchReading.{is_batch_memory};
ghost use Rattle.block_record.specs.RecordReading.{is_record_memory};
ghost use Rattle.sbpf_asm.specs.Assembly.{is_asm_memory};
ghost use Rattle.sbpf_asm.specs.Listing.{is_list_memory};
ghost use Rattle.admission.specs.Refusals.{at_place};
ghost use Rattle.bank_cli.specs.Answer.{input_refused, refused};
ghost use Rattle.command_parts.specs.Answers.{written};
ghost use Rattle.bank_cli.specs.Texts.{asm_text, batch_text, line, list_text, record_text, snapshot_text, verify_text};

use block_record::RecordFault;
use command_parts::{Answer, INPUT_REFUSED};
use hex::encode_to_slice;
use itoa::Buffer;
use sbpf_asm::{AsmFault, ListFault};
use sbpf_verify::VerifyFault;
use snapshot_codec::{BatchFault, SnapshotFault};
use sol_base::{Blob, Hash32, OutOfMemory};
use std::alloc::Global;

/// An answer that is one line of a note.
pub(crate) fn refuse(alloc: Global, status: u8, text: &[u8]) -> Result<Answer, OutOfMemory>
    ensures { IfOk result (λ told. told ≡ refused status text.now) }
{
    let mut notes = Blob::from_slice(alloc, text)?;
    notes.append(b"\n")?;
    Ok(Answer {
        status,
        output: Blob::new(alloc),
        notes,
    })
}

/// An answer that is output alone.
pub(crate) fn tell(alloc: Global, output: Blob) -> Answer
    ensures { result ≡ written output }
{
    Answer {
        status: 0,
        output,
        notes: Blob::new(alloc),
    }
}

/// Adds a number in decimal digits.
pub(crate) fn append_number(text: &mut Blob, number: u64) -> Result<(), OutOfMemory>
    ensures { OnOk result (text.new ≡ text.old ++ decimal number) }
{
    text.append(Buffer::new().format(number).as_bytes())
}

/// Adds a hash in 64 lower case hexadecimal digits.
pub(crate) fn append_hash(text: &mut Blob, hash: &Hash32) -> Result<(), OutOfMemory>
    ensures { OnOk result (text.new ≡ text.old ++ encode_lower hash.now.0) }
{
    let mut digits = [0; 64];
    let _ = encode_to_slice(&hash.0, &mut digits);
    text.append(&digits)
}

/// A name and the place after it.
fn at_place(alloc: Global, name: &[u8], place: usize) -> Result<Blob, OutOfMemory>
    ensures { IfOk result (λ text. text ≡ at_place name.now place) }
{
    let mut text = Blob::from_slice(alloc, name)?;
    text.append(b" at ")?;
    append_number(&mut text, place as u64)?;
    Ok(text)
}

fn snapshot_note(alloc: Global, fault: SnapshotFault) -> Result<Blob, OutOfMemory>
    ensures told { IfOk result (λ text. text ≡ snapshot_text fault) }
    ensures cause { IfOk result (λ _. is_snapshot_memory fault ≡ false) }
{
    match fault {
        SnapshotFault::Magic => Blob::from_slice(alloc, b"snapshot: Magic"),
        SnapshotFault::Truncated { at } => at_place(alloc, b"snapshot: Truncated", at),
        SnapshotFault::BadField { at } => at_place(alloc, b"snapshot: BadField", at),
        SnapshotFault::OutOfOrder { at } => at_place(alloc, b"snapshot: OutOfOrder", at),
        SnapshotFault::Empty { at } => at_place(alloc, b"snapshot: Empty", at),
        SnapshotFault::SupplyTooLarge => Blob::from_slice(alloc, b"snapshot: SupplyTooLarge"),
        SnapshotFault::TooManyAccounts => Blob::from_slice(alloc, b"snapshot: TooManyAccounts"),
        SnapshotFault::DataTooLong { at } => at_place(alloc, b"snapshot: DataTooLong", at),
        SnapshotFault::OutOfMemory => Err(OutOfMemory),
    }
}

fn batch_note(alloc: Global, fault: BatchFault) -> Result<Blob, OutOfMemory>
    ensures told { IfOk result (λ text. text ≡ batch_text fault) }
    ensures cause { IfOk result (λ _. is_batch_memory fault ≡ false) }
{
    match fault {
        BatchFault::Magic => Blob::from_slice(alloc, b"batch: Magic"),
        BatchFault::Truncated { at } => at_place(alloc, b"batch: Truncated", at),
        BatchFault::TooMany => Blob::from_slice(alloc, b"batch: TooMany"),
        BatchFault::Trailing { at } => at_place(alloc, b"batch: Trailing", at),
        BatchFault::SlotNotLater => Blob::from_slice(alloc, b"batch: SlotNotLater"),
        BatchFault::OutOfMemory => Err(OutOfMemory),
    }
}

fn record_note(alloc: Global, fault: RecordFault) -> Result<Blob, OutOfMemory>
    ensures told { IfOk result (λ text. text ≡ record_text fault) }
    ensures cause { IfOk result (λ _. is_record_memory fault ≡ false) }
{
    match fault {
        RecordFault::Truncated { at } => at_place(alloc, b"record: Truncated", at),
        RecordFault::BadField { at } => at_place(alloc, b"record: BadField", at),
        RecordFault::Trailing { at } => at_place(alloc, b"record: Trailing", at),
        RecordFault::OutOfMemory => Err(OutOfMemory),
    }
}

fn verify_note(alloc: Global, fault: VerifyFault) -> Result<Blob, OutOfMemory>
    ensures { IfOk result (λ text. text ≡ verify_text fault) }
{
    match fault {
        VerifyFault::Length => Blob::from_slice(alloc, b"Length"),
        VerifyFault::Opcode { at } => at_place(alloc, b"Opcode", at as usize),
        VerifyFault::Register { at } => at_place(alloc, b"Register", at as usize),
        VerifyFault::WritesFrame { at } => at_place(alloc, b"WritesFrame", at as usize),
        VerifyFault::ZeroDivisor { at } => at_place(alloc, b"ZeroDivisor", at as usize),
        VerifyFault::Shift { at } => at_place(alloc, b"Shift", at as usize),
        VerifyFault::HalfWide { at } => at_place(alloc, b"HalfWide", at as usize),
        VerifyFault::Jump { at } => at_place(alloc, b"Jump", at as usize),
        VerifyFault::Helper { at } => at_place(alloc, b"Helper", at as usize),
        VerifyFault::OpenEnd => Blob::from_slice(alloc, b"OpenEnd"),
        VerifyFault::Field { at } => at_place(alloc, b"Field", at as usize),
    }
}

/// What the verifier says, behind the name of a part.
fn unverified_note(alloc: Global, name: &[u8], fault: VerifyFault) -> Result<Blob, OutOfMemory>
    ensures { IfOk result (λ text. text ≡ name.now ++ verify_text fault) }
{
    let mut text = Blob::from_slice(alloc, name)?;
    text.append(verify_note(alloc, fault)?.as_slice())?;
    Ok(text)
}

fn asm_note(alloc: Global, fault: AsmFault) -> Result<Blob, OutOfMemory>
    ensures told { IfOk result (λ text. text ≡ asm_text fault) }
    ensures cause { IfOk result (λ _. is_asm_memory fault ≡ false) }
{
    match fault {
        AsmFault::NotText { line } => at_place(alloc, b"asm: NotText", line as usize),
        AsmFault::Syntax { line } => at_place(alloc, b"asm: Syntax", line as usize),
        AsmFault::Range { line } => at_place(alloc, b"asm: Range", line as usize),
        AsmFault::RepeatedLabel { line } => at_place(alloc, b"asm: RepeatedLabel", line as usize),
        AsmFault::UnknownLabel { line } => at_place(alloc, b"asm: UnknownLabel", line as usize),
        AsmFault::TooLong => Blob::from_slice(alloc, b"asm: TooLong"),
        AsmFault::Unverified(fault) => unverified_note(alloc, b"asm: Unverified ", fault),
        AsmFault::OutOfMemory => Err(OutOfMemory),
    }
}

fn list_note(alloc: Global, fault: ListFault) -> Result<Blob, OutOfMemory>
    ensures told { IfOk result (λ text. text ≡ list_text fault) }
    ensures cause { IfOk result (λ _. is_list_memory fault ≡ false) }
{
    match fault {
        ListFault::BadImage => Blob::from_slice(alloc, b"list: BadImage"),
        ListFault::Unverified(fault) => unverified_note(alloc, b"list: Unverified ", fault),
        ListFault::OutOfMemory => Err(OutOfMemory),
    }
}

pub(crate) fn refuse_snapshot(alloc: Global, fault: SnapshotFault) -> Result<Answer, OutOfMemory>
    ensures told { IfOk result (λ told. told ≡ input_refused (snapshot_text fault)) }
    ensures cause { IfOk result (λ _. is_snapshot_memory fault ≡ false) }
{
    let text = snapshot_note(alloc, fault)?;
    refuse(alloc, INPUT_REFUSED, text.as_slice())
}

pub(crate) fn refuse_batch(alloc: Global, fault: BatchFault) -> Result<Answer, OutOfMemory>
    ensures told { IfOk result (λ told. told ≡ input_refused (batch_text fault)) }
    ensures cause { IfOk result (λ _. is_batch_memory fault ≡ false) }
{
    let text = batch_note(alloc, fault)?;
    refuse(alloc, INPUT_REFUSED, text.as_slice())
}

pub(crate) fn refuse_record(alloc: Global, fault: RecordFault) -> Result<Answer, OutOfMemory>
    ensures told { IfOk result (λ told. told ≡ input_refused (record_text fault)) }
    ensures cause { IfOk result (λ _. is_record_memory fault ≡ false) }
{
    let text = record_note(alloc, fault)?;
    refuse(alloc, INPUT_REFUSED, text.as_slice())
}

pub(crate) fn refuse_asm(alloc: Global, fault: AsmFault) -> Result<Answer, OutOfMemory>
    ensures told { IfOk result (λ told. told ≡ input_refused (asm_text fault)) }
    ensures cause { IfOk result (λ _. is_asm_memory fault ≡ false) }
{
    let text = asm_note(alloc, fault)?;
    refuse(alloc, INPUT_REFUSED, text.as_slice())
}

pub(crate) fn refuse_list(alloc: Global, fault: ListFault) -> Result<Answer, OutOfMemory>
    ensures told { IfOk result (λ told. told ≡ input_refused (list_text fault)) }
    ensures cause { IfOk result (λ _. is_list_memory fault ≡ false) }
{
    let text = list_note(alloc, fault)?;
    refuse(alloc, INPUT_REFUSED, text.as_slice())
}
