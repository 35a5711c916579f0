//! The input of a command.
ghost use Rattle.std.specs.Prelude.{◌≡◌, IfOk, Some};
ghost use Rattle.command_parts.specs.Inputs.{given_of};

use crate::answer::{Answer, noted};
use crate::status::{INPUT_REFUSED, READ_FAILED};
use sol_base::{Blob, OutOfMemory};
use sol_io::ReadFault;
use std::alloc::Global;

/// The most bytes of an input (the project's own).
pub const INPUT_LIMIT: usize = 536_870_912;

/// What was asked for, or the answer where there is none.
#[derive(Drop)]
pub enum Given<T> {
    Value(T),
    Nothing(Answer),
}

/// The input as it was read, or the answer to one that is too long or could not be read.
pub fn given_of(alloc: Global, read: Result<Blob, ReadFault>) -> Result<Given<Blob>, OutOfMemory>
    ensures { IfOk result (λ given. Some given ≡ given_of read) }
{
    match read {
        Ok(bytes) => Ok(Given::Value(bytes)),
        Err(ReadFault::TooLong) => Ok(Given::Nothing(noted(
            alloc,
            INPUT_REFUSED,
            "input",
            "TooLong",
        )?)),
        Err(ReadFault::Failed) => Ok(Given::Nothing(noted(
            alloc,
            READ_FAILED,
            "input",
            "read failed",
        )?)),
        Err(ReadFault::OutOfMemory) => Err(OutOfMemory),
    }
}
