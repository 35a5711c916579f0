//! Accounts with their keys, and why a list of them is no state.
ghost use Rattle.std.specs.Prelude.{◌≡◌};
ghost use Rattle.account_store.specs.declared.sorted.StoreFault.TheVariants.{OutOfMemory as no_memory};

use sol_base::{Account, Key, OutOfMemory};
use std::alloc::{AllocError, AllocFailed};
use thiserror::Error;

/// An account and its key.
#[derive(Drop)]
pub struct KeyedAccount {
    pub key: Key,
    pub account: Account,
}

/// Why a list of entries is no state. `at` is the number of entries before the one that is refused.
#[derive(Clone, Copy, Debug, PartialEq, Eq, Error)]
pub enum StoreFault {
    #[error("the key of entry {at} is not above the one before")]
    OutOfOrder { at: u32 },
    #[error("entry {at} has no lamports")]
    Empty { at: u32 },
    #[error("the lamports sum to more than 2^64 - 1")]
    SupplyTooLarge,
    #[error("out of memory")]
    OutOfMemory,
}

impl From<AllocError> for StoreFault {
    ghost from_gives = { λ _ e. e ≡ no_memory };

    fn from(_e: AllocError) -> StoreFault {
        StoreFault::OutOfMemory
    }
}

impl<T: Drop> From<AllocFailed<T>> for StoreFault {
    ghost from_gives = { λ _ e. e ≡ no_memory };

    fn from(_e: AllocFailed<T>) -> StoreFault {
        StoreFault::OutOfMemory
    }
}

impl From<OutOfMemory> for StoreFault {
    ghost from_gives = { λ _ e. e ≡ no_memory };

    fn from(_e: OutOfMemory) -> StoreFault {
        StoreFault::OutOfMemory
    }
}
