//! The names of files.
use std::fmt;
use std::fmt::{Display, Formatter};

/// A file of the folder (the project's own). The slot is in 20 decimal digits, so that names
/// are in the order of slots.
#[derive(Clone, Copy, Debug, PartialEq, Eq)]
pub enum Name {
    /// What the chain is: `chain`.
    Chain,
    /// All accounts after the block of a slot: `SLOT.state`.
    State { slot: u64 },
    /// The accounts that the block of a slot changed: `SLOT.changes`.
    Changes { slot: u64 },
    /// The block of a slot: `SLOT.block`.
    Block { slot: u64 },
}

impl Display for Name {
    fn fmt<W: fmt::Write>(&self, f: &mut Formatter<W>) -> fmt::Result {
        match self {
            Name::Chain => f.write_str("chain"),
            Name::State { slot } => write!(f, "{slot:020}.state"),
            Name::Changes { slot } => write!(f, "{slot:020}.changes"),
            Name::Block { slot } => write!(f, "{slot:020}.block"),
        }
    }
}

/// The slot of a block's file. None where the text is the name of no such file.
pub(crate) fn slot_of_block(text: &str) -> Option<u64> {
    let digits = text.strip_suffix(".block")?;
    if digits.len() != 20 || !digits.bytes().all(|digit| digit.is_ascii_digit()) {
        return None;
    }
    digits.parse::<u64>().ok()
}
