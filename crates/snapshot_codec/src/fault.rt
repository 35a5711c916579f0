//! Why bytes begin with no snapshot, and why they are no batch.
ghost use Rattle.std.specs.Prelude.{◌≡◌};

use format_fields::MemoryRefusal;
use sol_base::OutOfMemory;
use spec_base::Refusal;
use thiserror::Error;

/// Why bytes begin with no snapshot. A place counts from the first byte of the snapshot, and is
/// that of the first byte of the field concerned.
#[derive(Clone, Copy, Debug, PartialEq, Eq, Error)]
pub enum SnapshotFault {
    #[error("the first eight bytes are those of no version")]
    Magic,
    #[error("the snapshot is cut at byte {at}")]
    Truncated { at: usize },
    #[error("the number at byte {at} is out of its range")]
    BadField { at: usize },
    #[error("the key or name at byte {at} is not above the one before")]
    OutOfOrder { at: usize },
    #[error("the account with the lamports at byte {at} has none")]
    Empty { at: usize },
    #[error("the lamports sum to more than 2^64 - 1")]
    SupplyTooLarge,
    #[error("there are more than 4,194,304 accounts")]
    TooManyAccounts,
    #[error("the account with the length at byte {at} has more than 10,485,760 data bytes")]
    DataTooLong { at: usize },
    #[error("out of memory")]
    OutOfMemory,
}

impl From<OutOfMemory> for SnapshotFault {
    ghost use Rattle.snapshot_codec.specs.declared.fault.SnapshotFault.TheVariants.{OutOfMemory as no_memory};

    ghost from_gives = { λ _ e. e ≡ no_memory };

    fn from(_e: OutOfMemory) -> SnapshotFault {
        SnapshotFault::OutOfMemory
    }
}

impl Refusal for SnapshotFault {
    ghost use Rattle.snapshot_codec.specs.SnapshotReading.{is_snapshot_memory};
    ghost use Rattle.snapshot_codec.specs.declared.fault.SnapshotFault.TheVariants.{Truncated};

    ghost cut_at = { Truncated };

    ghost is_memory = { is_snapshot_memory };

    fn truncated(at: usize) -> SnapshotFault {
        SnapshotFault::Truncated { at }
    }
}

impl MemoryRefusal for SnapshotFault {
    fn out_of_memory() -> SnapshotFault {
        SnapshotFault::OutOfMemory
    }
}

/// Why bytes are no batch. A place counts from the first byte of the batch, and is that of the
/// first byte of the field concerned.
#[derive(Clone, Copy, Debug, PartialEq, Eq, Error)]
pub enum BatchFault {
    #[error("the first eight bytes are not those of a batch")]
    Magic,
    #[error("the batch is cut at byte {at}")]
    Truncated { at: usize },
    #[error("there are more than 16,384 transactions")]
    TooMany,
    #[error("bytes follow the last transaction from byte {at} on")]
    Trailing { at: usize },
    #[error("the slot is not after the snapshot's")]
    SlotNotLater,
    #[error("out of memory")]
    OutOfMemory,
}

impl From<OutOfMemory> for BatchFault {
    ghost use Rattle.snapshot_codec.specs.declared.fault.BatchFault.TheVariants.{OutOfMemory as no_memory};

    ghost from_gives = { λ _ e. e ≡ no_memory };

    fn from(_e: OutOfMemory) -> BatchFault {
        BatchFault::OutOfMemory
    }
}

impl Refusal for BatchFault {
    ghost use Rattle.snapshot_codec.specs.BatchReading.{is_batch_memory};
    ghost use Rattle.snapshot_codec.specs.declared.fault.BatchFault.TheVariants.{Truncated};

    ghost cut_at = { Truncated };

    ghost is_memory = { is_batch_memory };

    fn truncated(at: usize) -> BatchFault {
        BatchFault::Truncated { at }
    }
}

impl MemoryRefusal for BatchFault {
    fn out_of_memory() -> BatchFault {
        BatchFault::OutOfMemory
    }
}
