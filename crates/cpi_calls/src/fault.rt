//! The refusals of requests and of rights.
use compute_meter::UnitsFault;
use sbpf_memory::{AccessViolation, ReadFault};
use sol_base::OutOfMemory;
use std::alloc::AllocError;
use thiserror::Error;

/// Why the request of a cross-program call is refused.
#[derive(Clone, Copy, Debug, PartialEq, Eq, Error)]
pub enum CallFault {
    #[error("{0}")]
    AccessViolation(AccessViolation),
    #[error("there are more than 255 metas")]
    TooManyAccounts,
    #[error("the data are more than 10,240 bytes")]
    DataTooLong,
    #[error("there are more than 16 signers")]
    TooManySigners,
    #[error("a signer has more than 16 seeds, or a seed more than 32 bytes")]
    BadSeeds,
    #[error("a flag is neither 0 nor 1")]
    BadFlag,
    #[error("the compute units are spent")]
    UnitsSpent,
    #[error("out of memory")]
    OutOfMemory,
}

impl From<OutOfMemory> for CallFault {
    ghost use Rattle.std.specs.Prelude.{◌≡◌};
    ghost use Rattle.cpi_calls.specs.declared.fault.CallFault.TheVariants.{OutOfMemory as no_memory};

    ghost from_gives = { λ _ e. e ≡ no_memory };

    fn from(_e: OutOfMemory) -> CallFault {
        CallFault::OutOfMemory
    }
}

impl From<AllocError> for CallFault {
    ghost use Rattle.std.specs.Prelude.{◌≡◌};
    ghost use Rattle.cpi_calls.specs.declared.fault.CallFault.TheVariants.{OutOfMemory as no_memory};

    ghost from_gives = { λ _ e. e ≡ no_memory };

    fn from(_e: AllocError) -> CallFault {
        CallFault::OutOfMemory
    }
}

impl ReadFault for CallFault {
    ghost use Rattle.cpi_calls.specs.Reads.{is_call_memory, violated_by};

    ghost violated = { violated_by };

    ghost is_memory = { is_call_memory };

    fn access_violation(violation: AccessViolation) -> CallFault {
        CallFault::AccessViolation(violation)
    }

    fn out_of_memory() -> CallFault {
        CallFault::OutOfMemory
    }
}

impl UnitsFault for CallFault {
    ghost use Rattle.cpi_calls.specs.declared.fault.CallFault.TheVariants.{UnitsSpent as units_spent};

    ghost spent = { units_spent };

    fn units_spent() -> CallFault {
        CallFault::UnitsSpent
    }
}

/// Why a callee is not given what the request asks for. A place `i` is one in the request's list;
/// that of the program is the number of its metas.
#[derive(Clone, Copy, Debug, PartialEq, Eq, Error)]
pub enum RightsFault {
    #[error("account {i} is not in the caller's list")]
    MissingAccount { i: u8 },
    #[error("account {i} is given more rights than the caller has")]
    PrivilegeEscalation { i: u8 },
    #[error("out of memory")]
    OutOfMemory,
}

impl From<OutOfMemory> for RightsFault {
    ghost use Rattle.std.specs.Prelude.{◌≡◌};
    ghost use Rattle.cpi_calls.specs.declared.fault.RightsFault.TheVariants.{OutOfMemory as no_memory};

    ghost from_gives = { λ _ e. e ≡ no_memory };

    fn from(_e: OutOfMemory) -> RightsFault {
        RightsFault::OutOfMemory
    }
}
