//! Why an access is refused.
ghost use Rattle.std.specs.Prelude.{◌≡◌};
ghost use Rattle.sbpf_memory.specs.Faults.{fault_number};
ghost use Rattle.sbpf_memory.specs.Memory.{violation_of};

use sol_base::OutOfMemory;
use thiserror::Error;

/// An access that is refused: `len` bytes from `addr` on lie in no range, or a write not in a
/// writable one.
#[derive(Clone, Copy, Debug, PartialEq, Eq, Error)]
#[error("access of {len} bytes at {addr:#x}")]
pub struct AccessViolation {
    pub addr: u64,
    pub len: u64,
    pub write: bool,
}

/// An access that is refused.
pub(crate) fn violation(addr: u64, len: u64, write: bool) -> AccessViolation
    ensures { result ≡ violation_of addr len write }
{
    AccessViolation { addr, len, write }
}

/// Why a memory is not changed.
#[derive(Clone, Copy, Debug, PartialEq, Eq, Error)]
pub enum MemFault {
    #[error("access of {len} bytes at {addr:#x}")]
    AccessViolation { addr: u64, len: u64, write: bool },
    /// Two ranges that must be apart meet.
    #[error("the ranges of a copy meet")]
    Overlap,
    #[error("out of memory")]
    OutOfMemory,
}

impl MemFault {
    /// The number of the refusal, from 1. Out of memory has none.
    pub fn number(&self) -> Option<u8>
        ensures { result ≡ fault_number self.now }
    {
        match self {
            MemFault::AccessViolation { .. } => Some(1),
            MemFault::Overlap => Some(2),
            MemFault::OutOfMemory => None,
        }
    }
}

impl From<OutOfMemory> for MemFault {
    ghost use Rattle.std.specs.Prelude.{◌≡◌};
    ghost use Rattle.sbpf_memory.specs.declared.fault.MemFault.TheVariants.{OutOfMemory as no_memory};

    ghost from_gives = { λ _ e. e ≡ no_memory };

    fn from(_e: OutOfMemory) -> MemFault {
        MemFault::OutOfMemory
    }
}

impl From<AccessViolation> for MemFault {
    ghost use Rattle.std.specs.Prelude.{◌≡◌};
    ghost use Rattle.sbpf_memory.specs.Memory.{refusal_of};

    ghost from_gives = { λ violation e. e ≡ refusal_of violation };

    fn from(violation: AccessViolation) -> MemFault {
        MemFault::AccessViolation {
            addr: violation.addr,
            len: violation.len,
            write: violation.write,
        }
    }
}
