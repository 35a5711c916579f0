//! The command `why` over an assembler text.
use crate::why::refused_slot;
use asm_hints::{Hint, hint_of, line_at, line_of_slot, nearest_mnemonic, word_of};
use command_parts::{Answer, INPUT_REFUSED, noted, written};
use sbpf_asm::{AsmFault, assemble, trim};
use sol_base::OutOfMemory;
use std::alloc::Global;
use std::str;

/// The most bytes of a line that are shown.
const MAX_SHOWN: usize = 64;

/// What bytes of a format begin with, and JSON texts.
static OTHERS: [&[u8]; 5] = [b"SOLSNAP", b"SOLBATC", b"SOLBLCK", b"SBPFIMG", b"{"];

/// Whether bytes are an assembler text: they have no byte 0, and do not begin as others do.
pub(crate) fn is_source(bytes: &[u8]) -> bool {
    !bytes.is_empty()
        && bytes.iter().all(|byte| *byte != 0)
        && OTHERS
            .iter()
            .all(|it| !bytes.starts_with(*it) && !it.starts_with(bytes))
}

/// The number of the line that is refused. None where that is the whole text.
fn refused_line(bytes: &[u8], fault: AsmFault) -> Option<u32> {
    match fault {
        AsmFault::NotText { line }
        | AsmFault::Syntax { line }
        | AsmFault::Range { line }
        | AsmFault::RepeatedLabel { line }
        | AsmFault::UnknownLabel { line } => Some(line),
        AsmFault::Unverified(fault) => {
            let line = line_of_slot(bytes, refused_slot(fault)?)?;
            u32::try_from(line).ok()
        }
        AsmFault::TooLong | AsmFault::OutOfMemory => None,
    }
}

/// The mnemonic that is meant, where one is near.
fn meant(alloc: Global, line: &[u8]) -> Result<String, OutOfMemory> {
    match nearest_mnemonic(alloc, word_of(line))? {
        None => Ok(String::new(alloc)),
        Some(row) => match str::from_utf8(row.mnemonic) {
            Ok(name) => Ok(format!(in alloc; ", and {name} is near")?),
            Err(_) => Ok(String::new(alloc)),
        },
    }
}

/// What was wanted, or what the verifier says.
fn wanted(
    alloc: Global,
    bytes: &[u8],
    line: &[u8],
    fault: AsmFault,
) -> Result<String, OutOfMemory> {
    let Some(hint) = hint_of(bytes, fault) else {
        return Ok(fault.to_string(alloc)?);
    };
    let near = match hint {
        Hint::Mnemonic => meant(alloc, line)?,
        _ => String::new(alloc),
    };
    Ok(format!(in alloc; "{hint}{near}")?)
}

/// The start of what a line says, where it is text without tabs.
fn shown(line: &[u8]) -> &str {
    let line = trim(line);
    let start = match line.get(..MAX_SHOWN) {
        Some(start) => start,
        None => line,
    };
    match str::from_utf8(start) {
        Ok(text) if start.iter().all(|byte| 32 <= *byte && *byte <= 126) => text,
        _ => "",
    }
}

fn why_line(
    alloc: Global,
    bytes: &[u8],
    number: u32,
    fault: AsmFault,
) -> Result<Answer, OutOfMemory> {
    let line = line_at(bytes, number);
    let wanted = wanted(alloc, bytes, line, fault)?;
    let shown = shown(line);
    let text = if shown.is_empty() {
        format!(in alloc; "line {number}: {wanted}")?
    } else {
        format!(in alloc; "line {number}: {wanted}; there stands {shown}")?
    };
    noted(alloc, INPUT_REFUSED, "asm", text.as_str())
}

/// The refusal of an assembler text as a sentence.
pub(crate) fn why_source(alloc: Global, bytes: &[u8]) -> Result<Answer, OutOfMemory> {
    if bytes.len() > u32::MAX as usize {
        return noted(
            alloc,
            INPUT_REFUSED,
            "asm",
            "a text has at most 4294967295 bytes",
        );
    }
    let fault = match assemble(alloc, bytes) {
        Ok(_) => return written(alloc, b"it is not refused\n"),
        Err(AsmFault::OutOfMemory) => return Err(OutOfMemory),
        Err(fault) => fault,
    };
    match refused_line(bytes, fault) {
        Some(number) => why_line(alloc, bytes, number, fault),
        None => {
            let text = wanted(alloc, bytes, &[], fault)?;
            noted(alloc, INPUT_REFUSED, "asm", text.as_str())
        }
    }
}
