//! The refusals of the loader.
use account_rules::RuleFault;
use sol_base::OutOfMemory;
use spec_base::Refusal;
use std::alloc::AllocError;
use thiserror::Error;

/// Why the loader refuses an instruction.
#[derive(Clone, Copy, Debug, PartialEq, Eq, Error)]
pub enum LoaderFault {
    #[error("the data are no instruction of the loader")]
    InvalidInstruction,
    #[error("the instruction lists too few accounts")]
    NotEnoughAccounts,
    /// The account is named by its place in the list of the instruction.
    #[error("account {i} does not sign")]
    MissingSignature { i: u8 },
    /// What else the loader refuses, by the numbers of its table.
    #[error("custom error {code}")]
    Custom { code: u32 },
    #[error("{0}")]
    Rule(RuleFault),
    #[error("out of memory")]
    OutOfMemory,
}

/// The first account is not owned by the loader.
pub(crate) const FOREIGN: LoaderFault = LoaderFault::Custom { code: 1 };

/// The account has no room for the head of a buffer.
pub(crate) const TOO_SHORT: LoaderFault = LoaderFault::Custom { code: 2 };

/// The account is not blank where the magic of a buffer is.
pub(crate) const NOT_BLANK: LoaderFault = LoaderFault::Custom { code: 3 };

/// The account is no buffer.
pub(crate) const NO_BUFFER: LoaderFault = LoaderFault::Custom { code: 4 };

/// The second account is not the authority of the buffer.
pub(crate) const NOT_AUTHORITY: LoaderFault = LoaderFault::Custom { code: 5 };

/// The bytes would be written past the end of the buffer.
pub(crate) const PAST_THE_END: LoaderFault = LoaderFault::Custom { code: 6 };

/// The buffer holds no image.
pub(crate) const NO_IMAGE: LoaderFault = LoaderFault::Custom { code: 7 };

/// The text of the image is not verified.
pub(crate) const UNVERIFIED: LoaderFault = LoaderFault::Custom { code: 8 };

impl From<RuleFault> for LoaderFault {
    ghost use Rattle.std.specs.Prelude.{◌≡◌};
    ghost use Rattle.loader_prog.specs.declared.fault.LoaderFault.TheVariants.{Rule};

    ghost from_gives = { λ fault e. e ≡ Rule fault };

    fn from(fault: RuleFault) -> LoaderFault {
        LoaderFault::Rule(fault)
    }
}

impl From<OutOfMemory> for LoaderFault {
    ghost use Rattle.std.specs.Prelude.{◌≡◌};
    ghost use Rattle.loader_prog.specs.declared.fault.LoaderFault.TheVariants.{OutOfMemory as no_memory};

    ghost from_gives = { λ _ e. e ≡ no_memory };

    fn from(_e: OutOfMemory) -> LoaderFault {
        LoaderFault::OutOfMemory
    }
}

impl From<AllocError> for LoaderFault {
    ghost use Rattle.std.specs.Prelude.{◌≡◌};
    ghost use Rattle.loader_prog.specs.declared.fault.LoaderFault.TheVariants.{OutOfMemory as no_memory};

    ghost from_gives = { λ _ e. e ≡ no_memory };

    fn from(_e: AllocError) -> LoaderFault {
        LoaderFault::OutOfMemory
    }
}

impl Refusal for LoaderFault {
    ghost use Rattle.loader_prog.specs.Requests.{cut, is_loader_memory};

    ghost cut_at = { cut };

    ghost is_memory = { is_loader_memory };

    fn truncated(_at: usize) -> LoaderFault {
        LoaderFault::InvalidInstruction
    }
}
