//! Why bytes are no record.
ghost use Rattle.std.specs.Prelude.{◌≡◌};

use format_fields::MemoryRefusal;
use sol_base::OutOfMemory;
use spec_base::Refusal;
use thiserror::Error;

/// Why bytes are no record. A place counts from the first byte of the record, and is that of the
/// first byte of the field concerned.
#[derive(Clone, Copy, Debug, PartialEq, Eq, Error)]
pub enum RecordFault {
    #[error("the record is cut at byte {at}")]
    Truncated { at: usize },
    #[error("the field at byte {at} has none of its values")]
    BadField { at: usize },
    #[error("bytes follow the block hash from byte {at} on")]
    Trailing { at: usize },
    #[error("out of memory")]
    OutOfMemory,
}

impl From<OutOfMemory> for RecordFault {
    ghost use Rattle.block_record.specs.declared.fault.RecordFault.TheVariants.{OutOfMemory as no_memory};

    ghost from_gives = { λ _ e. e ≡ no_memory };

    fn from(_e: OutOfMemory) -> RecordFault {
        RecordFault::OutOfMemory
    }
}

impl Refusal for RecordFault {
    ghost use Rattle.block_record.specs.RecordReading.{is_record_memory};
    ghost use Rattle.block_record.specs.declared.fault.RecordFault.TheVariants.{Truncated};

    ghost cut_at = { Truncated };

    ghost is_memory = { is_record_memory };

    fn truncated(at: usize) -> RecordFault {
        RecordFault::Truncated { at }
    }
}

impl MemoryRefusal for RecordFault {
    fn out_of_memory() -> RecordFault {
        RecordFault::OutOfMemory
    }
}
