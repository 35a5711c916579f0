//! What is answered: a status, an output and notes.
ghost use Rattle.std.specs.Prelude.{◌≡◌, IfOk};
ghost use Rattle.command_parts.specs.Answers.{noted, written};

use sol_base::{Blob, OutOfMemory};
use std::alloc::Global;

/// A status, and what is written for it.
#[derive(Drop)]
pub struct Answer {
    pub status: u8,
    pub output: Blob,
    pub notes: Blob,
}

/// An answer that is output alone, with status 0.
pub fn written(alloc: Global, output: &[u8]) -> Result<Answer, OutOfMemory>
    ensures { IfOk result (λ told. told ≡ written output.now) }
{
    Ok(Answer {
        status: 0,
        output: Blob::from_slice(alloc, output)?,
        notes: Blob::new(alloc),
    })
}

/// An answer that is one line of a note: what is spoken of, and what is to be said.
pub fn noted(alloc: Global, status: u8, part: &str, text: &str) -> Result<Answer, OutOfMemory>
    ensures { IfOk result (λ told. told ≡ noted status part.now text.now) }
{
    let mut notes = Blob::from_slice(alloc, part.as_bytes())?;
    notes.append(b": ")?;
    notes.append(text.as_bytes())?;
    notes.append(b"\n")?;
    Ok(Answer {
        status,
        output: Blob::new(alloc),
        notes,
    })
}
