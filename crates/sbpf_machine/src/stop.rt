//! The stops of a machine, and its faults.
ghost use Rattle.std.specs.Prelude.{◌≡◌};
ghost use Rattle.sbpf_machine.specs.Faults.{fault_number};

use thiserror::Error;

/// Why an instruction cannot act.
#[derive(Clone, Copy, Debug, PartialEq, Eq, Error)]
pub enum Fault {
    #[error("no units are left")]
    UnitsSpent,
    #[error("division by zero")]
    DivideByZero,
    #[error("access of {len} bytes at {addr:#x}")]
    AccessViolation { addr: u64, len: u64, write: bool },
    #[error("64 frames are active")]
    CallDepth,
    #[error("no instruction starts at {value:#x}")]
    BadCallTarget { value: u64 },
}

impl Fault {
    /// The number of the fault, from 1.
    pub fn number(&self) -> u8
        ensures { result ≡ fault_number self.now }
    {
        match self {
            Fault::UnitsSpent => 1,
            Fault::DivideByZero => 2,
            Fault::AccessViolation { .. } => 3,
            Fault::CallDepth => 4,
            Fault::BadCallTarget { .. } => 5,
        }
    }
}

/// What a machine stops for.
#[derive(Clone, Copy, PartialEq, Eq)]
pub enum Stop {
    /// The program ended with this value in r0.
    Exit { r0: u64 },
    /// The program calls the system call of this number.
    Helper { number: u32 },
    /// An instruction could not act.
    Fault(Fault),
}
