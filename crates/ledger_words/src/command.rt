//! The commands for chains.
use sol_base::Blob;

/// A command with what its arguments say. Folders and files are texts.
#[derive(Drop)]
pub enum ChainCommand {
    Help,
    Version,
    /// Begins a chain, which keeps a full state each so many blocks.
    New {
        folder: Blob,
        every: u32,
    },
    /// Runs a batch over the newest state.
    Add {
        folder: Blob,
        lanes: u32,
        senders: u32,
    },
    /// The state after the block of a slot, or the newest.
    State {
        folder: Blob,
        slot: Option<u64>,
    },
    /// The record of the block of a slot.
    Block {
        folder: Blob,
        slot: u64,
    },
    /// Replays the blocks from a slot to another, several at once.
    Check {
        folder: Blob,
        from: Option<u64>,
        to: Option<u64>,
        jobs: u32,
    },
    List {
        folder: Blob,
    },
    /// Writes the chain as tables.
    Export {
        folder: Blob,
        file: Blob,
    },
}
