//! The commands `asm` and `list`: the image of a text, and the text of an image.
ghost use Rattle.std.specs.Prelude.{◌≡◌, ◌≤◌, length, IfOk};
ghost use Rattle.bank_cli.specs.Answer.{assembled_answer, input_limit, listed_answer};

use crate::texts::{refuse_asm, refuse_list, tell};
use command_parts::Answer;
use sbpf_asm::{assemble, list};
use sol_base::{Blob, OutOfMemory};
use std::alloc::Global;

/// The answer to `asm`: a text.
pub(crate) fn assembled(alloc: Global, input: Blob) -> Result<Answer, OutOfMemory>
    requires { length input ≤ input_limit }
    ensures { IfOk result (λ told. told ≡ assembled_answer input) }
{
    match assemble(alloc, input.as_slice()) {
        Ok(image) => Ok(tell(alloc, image)),
        Err(fault) => refuse_asm(alloc, fault),
    }
}

/// The answer to `list`: an image.
pub(crate) fn listed(alloc: Global, input: Blob) -> Result<Answer, OutOfMemory>
    ensures { IfOk result (λ told. told ≡ listed_answer input) }
{
    match list(alloc, input.as_slice()) {
        Ok(text) => Ok(tell(alloc, text)),
        Err(fault) => refuse_list(alloc, fault),
    }
}
