//! What a device returns where it fails.
use sol_base::OutOfMemory;
use thiserror::Error;

/// The source failed, and has counted it.
#[derive(Clone, Copy, Debug, PartialEq, Eq, Error)]
#[error("the source failed")]
pub struct Failed;

/// Why a sink took nothing.
#[derive(Clone, Copy, Debug, PartialEq, Eq, Error)]
pub enum SinkFault {
    /// The sink failed, and has counted it.
    #[error("the sink failed")]
    Failed,
    #[error("out of memory")]
    OutOfMemory,
}

/// Why a source was not read to its end.
#[derive(Clone, Copy, Debug, PartialEq, Eq, Error)]
pub enum ReadFault {
    /// The source failed, and has counted it.
    #[error("the source failed")]
    Failed,
    /// There are more bytes than the limit.
    #[error("there are more bytes than the limit")]
    TooLong,
    #[error("out of memory")]
    OutOfMemory,
}

/// Why bytes were not written whole. The sink has taken the first `written` of them.
#[derive(Clone, Copy, Debug, PartialEq, Eq, Error)]
pub enum WriteFault {
    /// The sink failed, and has counted it.
    #[error("the sink failed after {written} bytes")]
    Failed { written: usize },
    #[error("out of memory after {written} bytes")]
    OutOfMemory { written: usize },
}

impl From<Failed> for ReadFault {
    ghost use Rattle.std.specs.Prelude.{◌≡◌};
    ghost use Rattle.sol_io.specs.declared.fault.ReadFault.TheVariants.{Failed as read_failed};

    ghost from_gives = { λ _ e. e ≡ read_failed };

    fn from(_e: Failed) -> ReadFault {
        ReadFault::Failed
    }
}

impl From<OutOfMemory> for ReadFault {
    ghost use Rattle.std.specs.Prelude.{◌≡◌};
    ghost use Rattle.sol_io.specs.declared.fault.ReadFault.TheVariants.{OutOfMemory as no_memory};

    ghost from_gives = { λ _ e. e ≡ no_memory };

    fn from(_e: OutOfMemory) -> ReadFault {
        ReadFault::OutOfMemory
    }
}

impl From<OutOfMemory> for SinkFault {
    ghost use Rattle.std.specs.Prelude.{◌≡◌};
    ghost use Rattle.sol_io.specs.declared.fault.SinkFault.TheVariants.{OutOfMemory as no_memory};

    ghost from_gives = { λ _ e. e ≡ no_memory };

    fn from(_e: OutOfMemory) -> SinkFault {
        SinkFault::OutOfMemory
    }
}
