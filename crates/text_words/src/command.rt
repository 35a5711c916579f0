//! The commands for texts.
use sol_base::{Blob, Key};

/// What bytes are of.
#[derive(Clone, Copy, PartialEq, Eq)]
pub enum Form {
    Snapshot,
    Batch,
    Record,
    Image,
}

/// How `json` writes.
#[derive(Clone, Copy, PartialEq, Eq)]
pub enum Look {
    /// On one line.
    Compact,
    /// Each member and item on a line of its own.
    Pretty,
    /// And with what a person wants to see in members `shown`.
    Shown,
}

/// What `view` looks for.
#[derive(Clone, Copy, PartialEq, Eq)]
pub enum Sought {
    /// The account under a key, in a snapshot.
    Account(Key),
    /// The transaction whose first signature this is, in a record.
    Transaction([u8; 64]),
}

/// A command with what its arguments say. Files are texts.
#[derive(Drop)]
pub enum TextCommand {
    Help,
    Version,
    /// Bytes to JSON.
    Json { form: Form, look: Look },
    /// JSON to bytes.
    Bytes { form: Form },
    /// JSON in the short form to a batch, with the newest blockhash of a snapshot.
    Build { snapshot: Option<Blob> },
    /// A record and a snapshot to two files.
    Split { record: Blob, snapshot: Blob },
    View { sought: Sought },
    Diff { left: Blob, right: Blob },
    /// How parallel a block is, and a picture of it.
    Shape { picture: Option<Blob> },
    Why,
}
