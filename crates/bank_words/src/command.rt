//! The commands.
use std::alloc::AllocError;

/// A command with its numbers.
#[derive(Clone, Copy, PartialEq, Eq)]
pub enum Command {
    /// Executes a batch over a snapshot.
    Produce {
        lanes: u32,
        senders: u32,
    },
    /// Compares a record with its execution over a snapshot.
    Replay {
        lanes: u32,
    },
    /// Writes a record as a text.
    Show,
    /// Makes a snapshot and a batch of `count` transactions, the same for the same number.
    Make {
        number: u64,
        count: u32,
        run: bool,
        lanes: u32,
    },
    /// Makes a program image of a text.
    Assemble,
    /// Writes a program image as a text.
    List,
}

/// Why there is no command.
#[derive(Clone, Copy, PartialEq, Eq)]
pub enum WordsFault {
    /// The arguments are not in form.
    Refused,
    OutOfMemory,
}

impl From<AllocError> for WordsFault {
    ghost use Rattle.std.specs.Prelude.{◌≡◌};
    ghost use Rattle.bank_words.specs.declared.command.WordsFault.TheVariants.{OutOfMemory as no_memory};

    ghost from_gives = { λ _ e. e ≡ no_memory };

    fn from(_e: AllocError) -> WordsFault {
        WordsFault::OutOfMemory
    }
}
