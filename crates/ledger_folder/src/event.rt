//! What a folder did.
use crate::name::Name;
use sol_base::{Blob, Items};

/// A call of a folder with what it came to. Events exist in proofs alone, the newest first.
#[derive(Drop)]
pub enum Event {
    /// `NAME.new` was written whole.
    Wrote { name: Name, bytes: Blob },
    /// `NAME.new` was synced.
    Synced { name: Name },
    /// `NAME.new` was to be written or synced, and that failed.
    Spoiled { name: Name },
    /// `NAME.new` was moved to `NAME`.
    Renamed { name: Name },
    /// `NAME.new` was to be moved to `NAME`, and that failed.
    RenameFailed { name: Name },
    /// The folder was synced.
    FolderSynced,
    /// `NAME` was read. None: there was no such file.
    Read { name: Name, found: Option<Blob> },
    /// These slots had a block.
    Listed { slots: Items<u64> },
}
