//! What is wrong with the arguments of a command.
use sol_base::{Blob, OutOfMemory};

/// The first thing that is wrong.
#[derive(Drop)]
pub enum WordsFault {
    /// There is no such command.
    Command,
    /// The command has no option of this name.
    Unknown {
        name: Blob,
    },
    /// The option is given twice.
    Repeated {
        name: Blob,
    },
    /// No value follows the option.
    NoValue {
        name: Blob,
    },
    /// The option has no value, and one is given.
    Valued {
        name: Blob,
    },
    /// The command takes no further argument.
    Surplus {
        word: Blob,
    },
    /// The value is no number in this range.
    Range {
        name: Blob,
        low: u64,
        high: u64,
        value: Blob,
    },
    /// The value is not the name of a file or a folder.
    Path {
        name: Blob,
    },
    /// The value has not the form that is wanted.
    Form {
        name: Blob,
        value: Blob,
    },
    /// The two options exclude each other.
    Excluded {
        name: Blob,
    },
    /// The command needs this argument.
    Missing {
        name: Blob,
    },
    OutOfMemory,
}

impl From<OutOfMemory> for WordsFault {
    ghost use Rattle.std.specs.Prelude.{◌≡◌};
    ghost use Rattle.command_words.specs.declared.fault.WordsFault.TheVariants.{OutOfMemory as no_memory};

    ghost from_gives = { λ _ e. e ≡ no_memory };

    fn from(_e: OutOfMemory) -> WordsFault {
        WordsFault::OutOfMemory
    }
}
