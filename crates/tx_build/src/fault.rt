//! Why no transaction is built.
ghost use Rattle.std.specs.Prelude.{◌≡◌};
ghost use Rattle.tx_build.specs.declared.fault.BuildFault.TheVariants.{OutOfMemory as no_memory};

use sol_base::OutOfMemory;
use thiserror::Error;

/// Why no transaction is built.
#[derive(Clone, Copy, Debug, PartialEq, Eq, Error)]
pub enum BuildFault {
    /// More than 38 keys are in the message, which has no room for them, or it names more than
    /// 256 in all.
    #[error("the transaction has more than 38 keys of its own, or more than 256 with loaded ones")]
    TooManyKeys,
    /// The transaction, or one of its lists, is longer than 1,232 (Solana).
    #[error("the transaction has more than 1,232 bytes")]
    TooLong,
    #[error("out of memory")]
    OutOfMemory,
}

impl From<OutOfMemory> for BuildFault {
    ghost from_gives = { λ _ e. e ≡ no_memory };

    fn from(_e: OutOfMemory) -> BuildFault {
        BuildFault::OutOfMemory
    }
}
