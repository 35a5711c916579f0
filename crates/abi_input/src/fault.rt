//! Why accounts are not taken back, and why a region is not patched.

use sol_base::OutOfMemory;
use thiserror::Error;

/// Why no accounts are taken back. `i` is the place in the list of the account's first listing.
#[derive(Clone, Copy, Debug, PartialEq, Eq, Error)]
pub enum BackFault {
    #[error("the account listed at place {i} has a length that it may not have")]
    LengthTooLarge { i: u8 },
    #[error("out of memory")]
    OutOfMemory,
}

/// Why a region is not patched. `i` is the place in the list of the account's first listing.
#[derive(Clone, Copy, Debug, PartialEq, Eq, Error)]
pub enum PatchFault {
    #[error("the account listed at place {i} is longer than its place in the region")]
    LengthTooLarge { i: u8 },
    #[error("out of memory")]
    OutOfMemory,
}

impl From<OutOfMemory> for BackFault {
    ghost use Rattle.std.specs.Prelude.{◌≡◌};
    ghost use Rattle.abi_input.specs.declared.fault.BackFault.TheVariants.{OutOfMemory as no_memory};

    ghost from_gives = { λ _ e. e ≡ no_memory };

    fn from(_e: OutOfMemory) -> BackFault {
        BackFault::OutOfMemory
    }
}

impl From<OutOfMemory> for PatchFault {
    ghost use Rattle.std.specs.Prelude.{◌≡◌};
    ghost use Rattle.abi_input.specs.declared.fault.PatchFault.TheVariants.{OutOfMemory as no_memory};

    ghost from_gives = { λ _ e. e ≡ no_memory };

    fn from(_e: OutOfMemory) -> PatchFault {
        PatchFault::OutOfMemory
    }
}
