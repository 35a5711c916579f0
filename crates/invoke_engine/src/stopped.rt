//! Why a frame fails, by what the crates below refuse.
ghost use Rattle.std.specs.Prelude.{◌≡◌};
ghost use Rattle.invoke_engine.specs.Reasons as Reasons;
ghost use Rattle.invoke_engine.specs.declared.stopped.Stopped.TheVariants.{Refused};

use abi_input::{BackFault, PatchFault};
use account_rules::RuleFault;
use cpi_calls::{CallFault, RightsFault};
use loader_prog::LoaderFault;
use sbpf_memory::AccessViolation;
use sol_base::OutOfMemory;
use sys_calls::SysFault;
use system_prog::SystemFault;
use tx_report::Cause;

/// A cause with its detail, and the access that was refused, where that is the cause.
#[derive(Clone, Copy)]
pub struct Reason {
    pub cause: Cause,
    pub detail: u32,
    pub access: Option<AccessViolation>,
}

impl Reason {
    pub fn with(cause: Cause, detail: u32) -> Reason
        ensures { result ≡ Reasons.reason cause detail }
    {
        Reason {
            cause,
            detail,
            access: None,
        }
    }

    pub fn plainly(cause: Cause) -> Reason
        ensures { result ≡ Reasons.reason cause 0 }
    {
        Reason::with(cause, 0)
    }

    pub fn violated(access: AccessViolation) -> Reason
        ensures { Refused result ≡ Reasons.violated access }
    {
        Reason {
            cause: Cause::AccessViolation,
            detail: 0,
            access: Some(access),
        }
    }
}

/// Why a frame does not go on.
#[derive(Clone, Copy)]
pub enum Stopped {
    Refused(Reason),
    OutOfMemory,
}

impl From<OutOfMemory> for Stopped {
    ghost use Rattle.std.specs.Prelude.{◌≡◌};
    ghost use Rattle.invoke_engine.specs.declared.stopped.Stopped.TheVariants.{OutOfMemory as no_memory};

    ghost from_gives = { λ _ e. e ≡ no_memory };

    fn from(_e: OutOfMemory) -> Stopped {
        Stopped::OutOfMemory
    }
}

impl Stopped {
    pub fn plainly(cause: Cause) -> Stopped
        ensures { result ≡ Reasons.plainly cause }
    {
        Stopped::with(cause, 0)
    }

    pub fn at(cause: Cause, i: u8) -> Stopped
        ensures { result ≡ Reasons.at cause i }
    {
        Stopped::with(cause, u32::from(i))
    }

    pub fn with(cause: Cause, detail: u32) -> Stopped
        ensures { result ≡ Reasons.at cause detail }
    {
        Stopped::Refused(Reason::with(cause, detail))
    }

    pub fn violated(access: AccessViolation) -> Stopped
        ensures { result ≡ Reasons.violated access }
    {
        Stopped::Refused(Reason::violated(access))
    }
}

impl From<CallFault> for Stopped {
    ghost use Rattle.std.specs.Prelude.{◌≡◌};
    ghost use Rattle.invoke_engine.specs.Reasons.{by_call};

    ghost from_gives = { λ fault e. e ≡ by_call fault };

    fn from(fault: CallFault) -> Stopped {
        match fault {
            CallFault::AccessViolation(access) => Stopped::violated(access),
            CallFault::TooManyAccounts => Stopped::plainly(Cause::TooManyAccounts),
            CallFault::DataTooLong => Stopped::plainly(Cause::DataTooLong),
            CallFault::TooManySigners => Stopped::plainly(Cause::TooManySigners),
            CallFault::BadSeeds => Stopped::plainly(Cause::BadSeeds),
            CallFault::BadFlag => Stopped::plainly(Cause::BadFlag),
            CallFault::UnitsSpent => Stopped::plainly(Cause::UnitsSpent),
            CallFault::OutOfMemory => Stopped::OutOfMemory,
        }
    }
}

impl From<RightsFault> for Stopped {
    ghost use Rattle.std.specs.Prelude.{◌≡◌};
    ghost use Rattle.invoke_engine.specs.Reasons.{by_rights};

    ghost from_gives = { λ fault e. e ≡ by_rights fault };

    fn from(fault: RightsFault) -> Stopped {
        match fault {
            RightsFault::MissingAccount { i } => Stopped::at(Cause::MissingAccount, i),
            RightsFault::PrivilegeEscalation { i } => Stopped::at(Cause::PrivilegeEscalation, i),
            RightsFault::OutOfMemory => Stopped::OutOfMemory,
        }
    }
}

impl From<BackFault> for Stopped {
    ghost use Rattle.std.specs.Prelude.{◌≡◌};
    ghost use Rattle.invoke_engine.specs.Reasons.{by_back_fault};

    ghost from_gives = { λ fault e. e ≡ by_back_fault fault };

    fn from(fault: BackFault) -> Stopped {
        match fault {
            BackFault::LengthTooLarge { i } => Stopped::at(Cause::LengthTooLarge, i),
            BackFault::OutOfMemory => Stopped::OutOfMemory,
        }
    }
}

impl From<PatchFault> for Stopped {
    ghost use Rattle.std.specs.Prelude.{◌≡◌};
    ghost use Rattle.invoke_engine.specs.Reasons.{by_patch_fault};

    ghost from_gives = { λ fault e. e ≡ by_patch_fault fault };

    fn from(fault: PatchFault) -> Stopped {
        match fault {
            PatchFault::LengthTooLarge { i } => Stopped::at(Cause::LengthTooLarge, i),
            PatchFault::OutOfMemory => Stopped::OutOfMemory,
        }
    }
}

impl From<RuleFault> for Stopped {
    ghost use Rattle.std.specs.Prelude.{◌≡◌};
    ghost use Rattle.invoke_engine.specs.Reasons.{by_rule};

    ghost from_gives = { λ fault e. e ≡ by_rule fault };

    fn from(fault: RuleFault) -> Stopped {
        match fault {
            RuleFault::ReadonlyChanged { i } => Stopped::at(Cause::ReadonlyChanged, i),
            RuleFault::ExecutableChanged { i } => Stopped::at(Cause::ExecutableChanged, i),
            RuleFault::OwnerChange { i } => Stopped::at(Cause::OwnerChange, i),
            RuleFault::ForeignDebit { i } => Stopped::at(Cause::ForeignDebit, i),
            RuleFault::ForeignData { i } => Stopped::at(Cause::ForeignData, i),
            RuleFault::TooLarge { i } => Stopped::at(Cause::TooLarge, i),
            RuleFault::Unbalanced => Stopped::plainly(Cause::Unbalanced),
        }
    }
}

impl From<SysFault> for Stopped {
    ghost use Rattle.std.specs.Prelude.{◌≡◌};
    ghost use Rattle.invoke_engine.specs.Reasons.{by_sys};

    ghost from_gives = { λ fault e. e ≡ by_sys fault };

    fn from(fault: SysFault) -> Stopped {
        match fault {
            SysFault::Abort => Stopped::plainly(Cause::Abort),
            SysFault::AccessViolation(access) => Stopped::violated(access),
            SysFault::Overlap => Stopped::plainly(Cause::Overlap),
            SysFault::UnitsSpent => Stopped::plainly(Cause::UnitsSpent),
            SysFault::TooManySeeds => Stopped::plainly(Cause::TooManySeeds),
            SysFault::ReturnTooLong => Stopped::plainly(Cause::ReturnTooLong),
            SysFault::BadText => Stopped::plainly(Cause::BadText),
            SysFault::TooManySlices => Stopped::plainly(Cause::TooManySlices),
            SysFault::OutOfMemory => Stopped::OutOfMemory,
        }
    }
}

impl From<SystemFault> for Stopped {
    ghost use Rattle.std.specs.Prelude.{◌≡◌};
    ghost use Rattle.invoke_engine.specs.Reasons.{by_system};

    ghost from_gives = { λ fault e. e ≡ by_system fault };

    fn from(fault: SystemFault) -> Stopped {
        match fault {
            SystemFault::InvalidInstruction => Stopped::plainly(Cause::InvalidInstruction),
            SystemFault::NotEnoughAccounts => Stopped::plainly(Cause::NotEnoughAccounts),
            SystemFault::MissingSignature { i } => Stopped::at(Cause::MissingSignature, i),
            SystemFault::InvalidArgument => Stopped::plainly(Cause::InvalidArgument),
            SystemFault::Custom { code } => Stopped::with(Cause::Custom, code),
            SystemFault::Rule(fault) => Stopped::from(fault),
            SystemFault::OutOfMemory => Stopped::OutOfMemory,
        }
    }
}

impl From<LoaderFault> for Stopped {
    ghost use Rattle.std.specs.Prelude.{◌≡◌};
    ghost use Rattle.invoke_engine.specs.Reasons.{by_loader};

    ghost from_gives = { λ fault e. e ≡ by_loader fault };

    fn from(fault: LoaderFault) -> Stopped {
        match fault {
            LoaderFault::InvalidInstruction => Stopped::plainly(Cause::InvalidInstruction),
            LoaderFault::NotEnoughAccounts => Stopped::plainly(Cause::NotEnoughAccounts),
            LoaderFault::MissingSignature { i } => Stopped::at(Cause::MissingSignature, i),
            LoaderFault::Custom { code } => Stopped::with(Cause::Custom, code),
            LoaderFault::Rule(fault) => Stopped::from(fault),
            LoaderFault::OutOfMemory => Stopped::OutOfMemory,
        }
    }
}
