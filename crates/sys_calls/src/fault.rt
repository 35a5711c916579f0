//! The refusals of system calls.
use compute_meter::UnitsFault;
use sbpf_memory::{AccessViolation, MemFault, ReadFault};
use sol_base::OutOfMemory;
use std::alloc::AllocError;
use thiserror::Error;

/// Why a system call is refused.
#[derive(Clone, Copy, Debug, PartialEq, Eq, Error)]
pub enum SysFault {
    #[error("the program aborted")]
    Abort,
    #[error("{0}")]
    AccessViolation(AccessViolation),
    #[error("the ranges of a copy meet")]
    Overlap,
    #[error("the compute units are spent")]
    UnitsSpent,
    #[error("there are more than 16 seeds")]
    TooManySeeds,
    #[error("the returned bytes are more than 1,024")]
    ReturnTooLong,
    #[error("the text is not UTF-8")]
    BadText,
    #[error("there are more than 20,000 slices")]
    TooManySlices,
    #[error("out of memory")]
    OutOfMemory,
}

impl From<OutOfMemory> for SysFault {
    ghost use Rattle.std.specs.Prelude.{◌≡◌};
    ghost use Rattle.sys_calls.specs.declared.fault.SysFault.TheVariants.{OutOfMemory as no_memory};

    ghost from_gives = { λ _ e. e ≡ no_memory };

    fn from(_e: OutOfMemory) -> SysFault {
        SysFault::OutOfMemory
    }
}

impl From<AllocError> for SysFault {
    ghost use Rattle.std.specs.Prelude.{◌≡◌};
    ghost use Rattle.sys_calls.specs.declared.fault.SysFault.TheVariants.{OutOfMemory as no_memory};

    ghost from_gives = { λ _ e. e ≡ no_memory };

    fn from(_e: AllocError) -> SysFault {
        SysFault::OutOfMemory
    }
}

impl ReadFault for SysFault {
    ghost use Rattle.sys_calls.specs.Access.{is_sys_memory, violated_by};

    ghost violated = { violated_by };

    ghost is_memory = { is_sys_memory };

    fn access_violation(violation: AccessViolation) -> SysFault {
        SysFault::AccessViolation(violation)
    }

    fn out_of_memory() -> SysFault {
        SysFault::OutOfMemory
    }
}

impl UnitsFault for SysFault {
    ghost use Rattle.sys_calls.specs.declared.fault.SysFault.TheVariants.{UnitsSpent as units_spent};

    ghost spent = { units_spent };

    fn units_spent() -> SysFault {
        SysFault::UnitsSpent
    }
}

impl From<MemFault> for SysFault {
    ghost use Rattle.std.specs.Prelude.{◌≡◌};
    ghost use Rattle.sys_calls.specs.Access.{fault_of};

    ghost from_gives = { λ fault e. e ≡ fault_of fault };

    fn from(fault: MemFault) -> SysFault {
        match fault {
            MemFault::AccessViolation { addr, len, write } => {
                SysFault::AccessViolation(AccessViolation { addr, len, write })
            }
            MemFault::Overlap => SysFault::Overlap,
            MemFault::OutOfMemory => SysFault::OutOfMemory,
        }
    }
}
