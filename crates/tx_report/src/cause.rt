//! Why transactions fail or are dropped.
ghost use Rattle.std.specs.Prelude.{◌≡◌};
ghost use Rattle.tx_report.specs.Causes.{code_of, name_of, cause_with, drop_code_of, drop_name_of, drop_cause_with, numbered};

/// Why an instruction failed, or its whole transaction (the project's own numbers; most names are
/// Solana's). A status has a number beside its cause, the detail. It says which account is meant
/// where a line below says so, and it is 0 where no line speaks of it.
#[derive(Clone, Copy, PartialEq, Eq)]
pub enum Cause {
    /// The program's own error. The detail is its number.
    Custom = 1,
    /// The data of an instruction of a native program are not in form.
    InvalidInstruction = 2,
    /// An account does not sign where it has to. The detail is its place in the frame's list.
    MissingSignature = 3,
    /// The instruction lists too few accounts.
    NotEnoughAccounts = 4,
    /// A native program refuses an account or a key that it was given.
    InvalidArgument = 5,
    /// There is no executable account under the program's key.
    UnknownProgram = 6,
    /// The program's data are not a program image.
    BadImage = 7,
    /// The verifier refuses the program's text. The detail, from 1 to 11, is its refusal.
    Unverified = 8,
    /// The compute units are spent.
    UnitsSpent = 9,
    /// A division by zero.
    DivideByZero = 10,
    /// An access of memory that is not mapped, or a write where none is allowed.
    AccessViolation = 11,
    /// A call into the program with 64 of its frames active.
    CallDepth = 12,
    /// A call to a place that is not the start of an instruction.
    BadCallTarget = 13,
    /// The program called abort.
    Abort = 14,
    /// The two ranges of a copy meet.
    Overlap = 15,
    /// A program key of more than 16 seeds.
    TooManySeeds = 16,
    /// More than 1,024 returned bytes.
    ReturnTooLong = 17,
    /// A text that is not UTF-8.
    BadText = 18,
    /// More than 20,000 slices to hash.
    TooManySlices = 19,
    /// The program ended with a number that stands for no error.
    InvalidError = 20,
    /// A read-only account changed. For this and the next five causes the detail is the first place
    /// of the account in the frame's list.
    ReadonlyChanged = 21,
    /// An executable account changed, or an account became executable.
    ExecutableChanged = 22,
    /// A program took lamports from an account that it does not own.
    ForeignDebit = 23,
    /// A program changed the data of an account that it does not own.
    ForeignData = 24,
    /// The owner of an account changed where it may not.
    OwnerChange = 25,
    /// An account's data grew above 10,485,760 bytes.
    TooLarge = 26,
    /// The lamports of the accounts no longer have the same sum.
    Unbalanced = 27,
    /// An account's data grew by more than 10,240 bytes in one frame, or above 10,485,760 bytes.
    /// The detail is its first place in the frame's list.
    LengthTooLarge = 28,
    /// An instruction lists more than 255 accounts.
    TooManyAccounts = 29,
    /// More than 10,240 data bytes for a called program.
    DataTooLong = 30,
    /// More than 16 signers for a called program.
    TooManySigners = 31,
    /// A signer of more than 16 seeds, or a seed of more than 32 bytes.
    BadSeeds = 32,
    /// A flag that is neither 0 nor 1.
    BadFlag = 33,
    /// A called program lists an account that its caller does not have. The detail is its place in
    /// the request's list, or the number of accounts there where the called program is missing.
    MissingAccount = 34,
    /// A called program would get a right that its caller does not have. The detail is the
    /// account's place in the request's list.
    PrivilegeEscalation = 35,
    /// A program calls one that is in an outer frame and is not the caller itself.
    Reentrancy = 36,
    /// A call above the greatest stack height.
    StackHeight = 37,
    /// More than 64 instructions started in one transaction.
    TraceTooLong = 38,
    /// The transaction leaves an account below the rent-exempt balance where it may not. The detail
    /// is the account's place among the transaction's keys.
    RentState = 39,
    /// The data of the transaction's accounts are longer than its budget loads.
    LoadedDataTooLarge = 40,
}

/// Why a transaction pays no fee and changes nothing.
#[derive(Clone, Copy, PartialEq, Eq)]
pub enum DropCause {
    /// The fee payer has no lamports.
    PayerAbsent = 1,
    /// The fee payer is not a plain account of the system program.
    PayerNotSystem = 2,
    /// The fee payer has fewer lamports than the fee.
    CannotPayFee = 3,
    /// The fee would leave the payer below the rent-exempt balance where it may not be.
    PayerRent = 4,
}

/// All causes, in the order of their codes.
const CAUSES: [Cause; 40] = [
    Cause::Custom,
    Cause::InvalidInstruction,
    Cause::MissingSignature,
    Cause::NotEnoughAccounts,
    Cause::InvalidArgument,
    Cause::UnknownProgram,
    Cause::BadImage,
    Cause::Unverified,
    Cause::UnitsSpent,
    Cause::DivideByZero,
    Cause::AccessViolation,
    Cause::CallDepth,
    Cause::BadCallTarget,
    Cause::Abort,
    Cause::Overlap,
    Cause::TooManySeeds,
    Cause::ReturnTooLong,
    Cause::BadText,
    Cause::TooManySlices,
    Cause::InvalidError,
    Cause::ReadonlyChanged,
    Cause::ExecutableChanged,
    Cause::ForeignDebit,
    Cause::ForeignData,
    Cause::OwnerChange,
    Cause::TooLarge,
    Cause::Unbalanced,
    Cause::LengthTooLarge,
    Cause::TooManyAccounts,
    Cause::DataTooLong,
    Cause::TooManySigners,
    Cause::BadSeeds,
    Cause::BadFlag,
    Cause::MissingAccount,
    Cause::PrivilegeEscalation,
    Cause::Reentrancy,
    Cause::StackHeight,
    Cause::TraceTooLong,
    Cause::RentState,
    Cause::LoadedDataTooLarge,
];

/// All causes of dropped transactions, in the order of their codes.
const DROP_CAUSES: [DropCause; 4] = [
    DropCause::PayerAbsent,
    DropCause::PayerNotSystem,
    DropCause::CannotPayFee,
    DropCause::PayerRent,
];

impl Cause {
    /// The number that a status has for the cause.
    pub fn code(self) -> u16
        ensures { result ≡ code_of self }
    {
        self as u16
    }

    /// The cause that a status has this number for.
    pub fn with_code(code: u16) -> Option<Cause>
        ensures { result ≡ cause_with code }
    {
        numbered_item(&CAUSES, code)
    }

    /// The name of the cause, as texts have it.
    pub fn name(self) -> &'static str
        ensures { result.now ≡ name_of self }
    {
        match self {
            Cause::Custom => "Custom",
            Cause::InvalidInstruction => "InvalidInstruction",
            Cause::MissingSignature => "MissingSignature",
            Cause::NotEnoughAccounts => "NotEnoughAccounts",
            Cause::InvalidArgument => "InvalidArgument",
            Cause::UnknownProgram => "UnknownProgram",
            Cause::BadImage => "BadImage",
            Cause::Unverified => "Unverified",
            Cause::UnitsSpent => "UnitsSpent",
            Cause::DivideByZero => "DivideByZero",
            Cause::AccessViolation => "AccessViolation",
            Cause::CallDepth => "CallDepth",
            Cause::BadCallTarget => "BadCallTarget",
            Cause::Abort => "Abort",
            Cause::Overlap => "Overlap",
            Cause::TooManySeeds => "TooManySeeds",
            Cause::ReturnTooLong => "ReturnTooLong",
            Cause::BadText => "BadText",
            Cause::TooManySlices => "TooManySlices",
            Cause::InvalidError => "InvalidError",
            Cause::ReadonlyChanged => "ReadonlyChanged",
            Cause::ExecutableChanged => "ExecutableChanged",
            Cause::ForeignDebit => "ForeignDebit",
            Cause::ForeignData => "ForeignData",
            Cause::OwnerChange => "OwnerChange",
            Cause::TooLarge => "TooLarge",
            Cause::Unbalanced => "Unbalanced",
            Cause::LengthTooLarge => "LengthTooLarge",
            Cause::TooManyAccounts => "TooManyAccounts",
            Cause::DataTooLong => "DataTooLong",
            Cause::TooManySigners => "TooManySigners",
            Cause::BadSeeds => "BadSeeds",
            Cause::BadFlag => "BadFlag",
            Cause::MissingAccount => "MissingAccount",
            Cause::PrivilegeEscalation => "PrivilegeEscalation",
            Cause::Reentrancy => "Reentrancy",
            Cause::StackHeight => "StackHeight",
            Cause::TraceTooLong => "TraceTooLong",
            Cause::RentState => "RentState",
            Cause::LoadedDataTooLarge => "LoadedDataTooLarge",
        }
    }
}

impl DropCause {
    /// The number that a status has for the cause.
    pub fn code(self) -> u16
        ensures { result ≡ drop_code_of self }
    {
        self as u16
    }

    /// The cause that a status has this number for.
    pub fn with_code(code: u16) -> Option<DropCause>
        ensures { result ≡ drop_cause_with code }
    {
        numbered_item(&DROP_CAUSES, code)
    }

    /// The name of the cause, as texts have it.
    pub fn name(self) -> &'static str
        ensures { result.now ≡ drop_name_of self }
    {
        match self {
            DropCause::PayerAbsent => "PayerAbsent",
            DropCause::PayerNotSystem => "PayerNotSystem",
            DropCause::CannotPayFee => "CannotPayFee",
            DropCause::PayerRent => "PayerRent",
        }
    }
}

/// The item of this number, from 1 on.
fn numbered_item<T: Copy>(items: &[T], number: u16) -> Option<T>
    ensures { result ≡ numbered items.now number }
{
    items.get(usize::from(number).checked_sub(1)?).copied()
}
