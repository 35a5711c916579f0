//! Why the system program refuses an instruction.
use account_rules::RuleFault;
use sol_base::OutOfMemory;
use spec_base::Refusal;
use std::error::Error;
use std::fmt;

/// Why the system program refuses an instruction.
#[derive(Clone, Copy, Debug, PartialEq, Eq)]
pub enum SystemFault {
    InvalidInstruction,
    NotEnoughAccounts,
    /// `i` is the place in the list of the account that does not sign.
    MissingSignature { i: u8 },
    InvalidArgument,
    /// 0: the account is in use. 1: there are too few lamports. 3: the space is too large. 4: the
    /// seed is too long. 5: the account's key is not the one that is derived.
    Custom { code: u32 },
    Rule(RuleFault),
    OutOfMemory,
}

impl SystemFault {
    /// The number that the text names: a place in the list, or a code. None where it names none.
    fn number(&self) -> Option<u32> {
        match *self {
            SystemFault::MissingSignature { i } => Some(u32::from(i)),
            SystemFault::Custom { code } => Some(code),
            _ => None,
        }
    }

    /// The words before the number and after it.
    fn words(&self) -> (&'static str, &'static str) {
        match self {
            SystemFault::InvalidInstruction => {
                ("the data are no instruction of the system program", "")
            }
            SystemFault::NotEnoughAccounts => {
                ("fewer accounts are listed than the instruction needs", "")
            }
            SystemFault::MissingSignature { .. } => {
                ("the account listed at place ", " does not sign")
            }
            SystemFault::InvalidArgument => ("an argument is not allowed", ""),
            SystemFault::Custom { .. } => ("the system program's own refusal ", ""),
            SystemFault::Rule(_) => ("an account rule is broken", ""),
            SystemFault::OutOfMemory => ("out of memory", ""),
        }
    }
}

impl fmt::Display for SystemFault {
    fn fmt<W: fmt::Write>(&self, f: &mut fmt::Formatter<W>) -> fmt::Result {
        let (before, after) = self.words();
        match self.number() {
            None => f.write_str(before),
            Some(number) => write!(f, "{before}{number}{after}"),
        }
    }
}

impl Error for SystemFault {}

impl From<OutOfMemory> for SystemFault {
    ghost use Rattle.std.specs.Prelude.{◌≡◌};
    ghost use Rattle.system_prog.specs.declared.fault.SystemFault.TheVariants.{OutOfMemory as no_memory};

    ghost from_gives = { λ _ e. e ≡ no_memory };

    fn from(_e: OutOfMemory) -> SystemFault {
        SystemFault::OutOfMemory
    }
}

impl From<RuleFault> for SystemFault {
    ghost use Rattle.std.specs.Prelude.{◌≡◌};
    ghost use Rattle.system_prog.specs.declared.fault.SystemFault.TheVariants.{Rule as broken};

    ghost from_gives = { λ fault e. e ≡ broken fault };

    fn from(fault: RuleFault) -> SystemFault {
        SystemFault::Rule(fault)
    }
}

impl Refusal for SystemFault {
    ghost use Rattle.std.specs.Prelude.{ℕ};
    ghost use Rattle.system_prog.specs.Faults.{is_system_memory};
    ghost use Rattle.system_prog.specs.Instructions.{invalid};

    ghost cut_at = { invalid };

    ghost is_memory = { is_system_memory };

    fn truncated(_at: usize) -> SystemFault {
        SystemFault::InvalidInstruction
    }
}
