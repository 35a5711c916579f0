//! Why the verifier refuses a text.
ghost use Rattle.std.specs.Prelude.{◌≡◌};
ghost use Rattle.sbpf_verify.specs.Faults.{fault_number};

use std::error::Error;
use std::fmt;

/// Why a text is refused, with the slot that is refused. The rules are in the order of their
/// numbers, from 1; the order in which they are looked for is that of the verifier's table.
#[derive(Clone, Copy, PartialEq, Eq)]
pub enum VerifyFault {
    Length,
    Opcode { at: u32 },
    Register { at: u32 },
    WritesFrame { at: u32 },
    ZeroDivisor { at: u32 },
    Shift { at: u32 },
    HalfWide { at: u32 },
    Jump { at: u32 },
    Helper { at: u32 },
    OpenEnd,
    Field { at: u32 },
}

impl VerifyFault {
    /// The slot that is refused. None where the fault is one of the whole text.
    fn slot(&self) -> Option<u32> {
        match *self {
            VerifyFault::Length | VerifyFault::OpenEnd => None,
            VerifyFault::Opcode { at }
            | VerifyFault::Register { at }
            | VerifyFault::WritesFrame { at }
            | VerifyFault::ZeroDivisor { at }
            | VerifyFault::Shift { at }
            | VerifyFault::HalfWide { at }
            | VerifyFault::Jump { at }
            | VerifyFault::Helper { at }
            | VerifyFault::Field { at } => Some(at),
        }
    }

    /// The words before the slot and after it.
    fn words(&self) -> (&'static str, &'static str) {
        match self {
            VerifyFault::Length => (
                "the length is 0, no multiple of 8, or above 65,536 slots",
                "",
            ),
            VerifyFault::Opcode { .. } => ("no instruction has the opcode of ", ""),
            VerifyFault::Register { .. } => ("", " names a register that is not there"),
            VerifyFault::WritesFrame { .. } => ("", " writes the frame pointer"),
            VerifyFault::ZeroDivisor { .. } => ("", " divides by 0"),
            VerifyFault::Shift { .. } => ("", " shifts by more bits than there are"),
            VerifyFault::HalfWide { .. } => {
                ("", " is the first half of a wide load without its second")
            }
            VerifyFault::Jump { .. } => ("", " jumps to where no instruction starts"),
            VerifyFault::Helper { .. } => ("", " calls a system call that is not there"),
            VerifyFault::OpenEnd => ("the last slot neither ends the program nor jumps", ""),
            VerifyFault::Field { .. } => {
                (
                    "a field of ",
                    " has a value that its instruction does not allow",
                )
            }
        }
    }

    /// The number of the rule, from 1.
    pub fn number(&self) -> u8
        ensures { result ≡ fault_number self.now }
    {
        match self {
            VerifyFault::Length => 1,
            VerifyFault::Opcode { .. } => 2,
            VerifyFault::Register { .. } => 3,
            VerifyFault::WritesFrame { .. } => 4,
            VerifyFault::ZeroDivisor { .. } => 5,
            VerifyFault::Shift { .. } => 6,
            VerifyFault::HalfWide { .. } => 7,
            VerifyFault::Jump { .. } => 8,
            VerifyFault::Helper { .. } => 9,
            VerifyFault::OpenEnd => 10,
            VerifyFault::Field { .. } => 11,
        }
    }
}

impl fmt::Display for VerifyFault {
    fn fmt<W: fmt::Write>(&self, f: &mut fmt::Formatter<W>) -> fmt::Result {
        let (before, after) = self.words();
        match self.slot() {
            None => f.write_str(before),
            Some(at) => write!(f, "{before}slot {at}{after}"),
        }
    }
}

impl fmt::Debug for VerifyFault {
    fn fmt<W: fmt::Write>(&self, f: &mut fmt::Formatter<W>) -> fmt::Result {
        fmt::Display::fmt(self, f)
    }
}

impl Error for VerifyFault {}
