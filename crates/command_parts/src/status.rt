//! The statuses that a program ends with (the project's own).
ghost use Rattle.std.specs.Prelude.{◌≡◌};
ghost use Rattle.command_parts.specs.Statuses.{status_after};

use crate::delivery::Undelivered;

/// The status where two inputs differ, or where what is looked for is not there.
pub const DIFFERS: u8 = 1;

/// The status where the arguments are no command.
pub const WORDS_REFUSED: u8 = 2;

/// The status where an input is refused.
pub const INPUT_REFUSED: u8 = 3;

/// The status where an input could not be read.
pub const READ_FAILED: u8 = 4;

/// The status where an output could not be written.
pub const WRITE_FAILED: u8 = 5;

/// The status where memory ran out.
pub const OUT_OF_MEMORY: u8 = 6;

/// The status of an answer that was delivered, or why it was not.
pub fn status_after(delivered: Result<(), Undelivered>, status: u8) -> u8
    ensures { result ≡ status_after delivered status }
{
    match delivered {
        Ok(()) => status,
        Err(Undelivered::SinkFailed) => WRITE_FAILED,
        Err(Undelivered::OutOfMemory) => OUT_OF_MEMORY,
    }
}
