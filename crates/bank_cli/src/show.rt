//! The command `show`: the block of a record as one JSON object.
ghost use Rattle.std.specs.Prelude.{◌≡◌, IfOk};
ghost use Rattle.bank_cli.specs.Answer.{shown as shown_of};

use crate::texts::{refuse_record, tell};
use bank_show::block_text;
use block_record::read_record;
use command_parts::Answer;
use sol_base::{Blob, OutOfMemory};
use std::alloc::Global;

/// The answer to `show`: a record.
pub(crate) fn shown(alloc: Global, input: Blob) -> Result<Answer, OutOfMemory>
    ensures { IfOk result (λ told. told ≡ shown_of input) }
{
    match read_record(alloc, input.as_slice()) {
        Ok(block) => {
            let mut text = block_text(alloc, &block)?;
            text.append(b"\n")?;
            Ok(tell(alloc, text))
        }
        Err(fault) => refuse_record(alloc, fault),
    }
}
