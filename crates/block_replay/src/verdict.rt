//! What a replay comes to.
ghost use Rattle.std.specs.Prelude.{◌≡◌};
ghost use Rattle.block_replay.specs.Verdict.{name_of};

use sol_base::Blob;

/// What differs: a field of the block, of an entry, or that an entry is admitted at all.
#[derive(Clone, Copy, PartialEq, Eq)]
pub enum Field {
    Slot,
    Previous,
    Admission,
    Status,
    Units,
    Fee,
    Lines,
    Burned,
    Collected,
    State,
    Hash,
}

impl Field {
    /// The field's name, in lower case.
    pub fn name(self) -> &'static str
        ensures { result.now ≡ name_of self }
    {
        match self {
            Field::Slot => "slot",
            Field::Previous => "previous",
            Field::Admission => "admission",
            Field::Status => "status",
            Field::Units => "units",
            Field::Fee => "fee",
            Field::Lines => "lines",
            Field::Burned => "burned",
            Field::Collected => "collected",
            Field::State => "state",
            Field::Hash => "hash",
        }
    }
}

/// What a replay comes to.
#[derive(Drop)]
pub enum Verdict {
    /// The replayed block is the record's.
    Match,
    /// The first difference.
    Differ {
        /// The place of the entry, from 0; 4,294,967,295 for a field of the block.
        entry: u32,
        field: Field,
        /// What the replay gives, as it is in a record.
        expected: Blob,
        /// What the record has.
        found: Blob,
    },
}
