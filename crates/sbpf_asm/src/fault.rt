//! Why a text is not assembled, and why an image is not listed.
use sbpf_verify::VerifyFault;
use sol_base::OutOfMemory;
use std::alloc::AllocError;
use thiserror::Error;

/// Why a text is not assembled. Lines count from 1.
#[derive(Clone, Copy, Debug, PartialEq, Eq, Error)]
pub enum AsmFault {
    #[error("line {line} has a byte other than tab and 0x20 to 0x7e")]
    NotText { line: u32 },
    #[error("line {line} is spelled as nothing that there is")]
    Syntax { line: u32 },
    #[error("line {line} has a number, or a label's distance, outside its range")]
    Range { line: u32 },
    #[error("line {line} is a label that stands before")]
    RepeatedLabel { line: u32 },
    #[error("line {line} leads to a label that no line is")]
    UnknownLabel { line: u32 },
    #[error("more than 65,536 slots or 10,485,760 image bytes")]
    TooLong,
    #[error("the verifier refuses the text: {0}")]
    Unverified(VerifyFault),
    #[error("out of memory")]
    OutOfMemory,
}

impl From<OutOfMemory> for AsmFault {
    ghost use Rattle.std.specs.Prelude.{◌≡◌};
    ghost use Rattle.sbpf_asm.specs.declared.fault.AsmFault.TheVariants.{OutOfMemory as no_memory};

    ghost from_gives = { λ _ e. e ≡ no_memory };

    fn from(_e: OutOfMemory) -> AsmFault {
        AsmFault::OutOfMemory
    }
}

/// Why an image is not listed.
#[derive(Clone, Copy, Debug, PartialEq, Eq, Error)]
pub enum ListFault {
    #[error("the bytes are no program image")]
    BadImage,
    #[error("the verifier refuses the text: {0}")]
    Unverified(VerifyFault),
    #[error("out of memory")]
    OutOfMemory,
}

impl From<OutOfMemory> for ListFault {
    ghost use Rattle.std.specs.Prelude.{◌≡◌};
    ghost use Rattle.sbpf_asm.specs.declared.fault.ListFault.TheVariants.{OutOfMemory as no_memory};

    ghost from_gives = { λ _ e. e ≡ no_memory };

    fn from(_e: OutOfMemory) -> ListFault {
        ListFault::OutOfMemory
    }
}
