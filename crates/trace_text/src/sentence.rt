//! Causes of failures as sentences.

use tx_report::{Cause, DropCause};

/// Why a program or an access of it failed.
fn of_machine(cause: Cause) -> Option<&'static str> {
    Some(match cause {
        Cause::UnitsSpent => "the compute units are spent",
        Cause::DivideByZero => "a division by zero",
        Cause::AccessViolation =>
            "an access of memory that is not mapped, or a write where none is allowed",
        Cause::CallDepth => "64 functions of the program are active",
        Cause::BadCallTarget => "a call to a place where no instruction starts",
        Cause::Abort => "the program called abort",
        Cause::Overlap => "the two ranges of a copy meet",
        Cause::TooManySeeds => "a program key has more than 16 seeds",
        Cause::ReturnTooLong => "more than 1,024 bytes are returned",
        Cause::BadText => "a text is not UTF-8",
        Cause::TooManySlices => "more than 20,000 slices are hashed",
        Cause::InvalidError => "the program ended with a number that stands for no error",
        Cause::Custom => "the program ended with its own error",
        _ => return None,
    })
}

/// Why a call of another program failed.
fn of_call(cause: Cause) -> Option<&'static str> {
    Some(match cause {
        Cause::DataTooLong => "a called program is given more than 10,240 bytes of data",
        Cause::TooManySigners => "a called program is given more than 16 signers",
        Cause::BadSeeds => "a signer has more than 16 seeds, or a seed more than 32 bytes",
        Cause::BadFlag => "a flag of a called program's account is neither 0 nor 1",
        Cause::MissingAccount => "a called program lists an account that its caller does not have",
        Cause::PrivilegeEscalation =>
            "a called program would get a right, to sign or to write, that its caller does not have",
        Cause::Reentrancy => "a program calls one that waits for it",
        Cause::StackHeight => "a call is above the greatest stack height",
        Cause::TraceTooLong => "the transaction starts more than 64 instructions",
        _ => return None,
    })
}

/// Which rule of accounts was broken.
fn of_rule(cause: Cause) -> Option<&'static str> {
    Some(match cause {
        Cause::ReadonlyChanged => "a read-only account changed",
        Cause::ExecutableChanged => "an executable account changed",
        Cause::ForeignDebit => "lamports were taken from an account that the program does not own",
        Cause::ForeignData => "data changed of an account that the program does not own",
        Cause::OwnerChange => "the owner of an account changed where it may not",
        Cause::TooLarge => "the data of an account grew above 10,485,760 bytes",
        Cause::Unbalanced => "the lamports of the accounts no longer have the same sum",
        Cause::LengthTooLarge => "the data of an account grew by more than 10,240 bytes",
        Cause::RentState => "an account is left below the rent-exempt balance",
        Cause::LoadedDataTooLarge => "the accounts have more data than the budget loads",
        _ => return None,
    })
}

/// Why a program did not start, or a native one refused.
fn of_program(cause: Cause) -> &'static str {
    match cause {
        Cause::InvalidInstruction => "the data are no instruction of this native program",
        Cause::MissingSignature => "an account does not sign where it has to",
        Cause::NotEnoughAccounts => "the instruction lists too few accounts",
        Cause::InvalidArgument =>
            "the native program refuses an account or a key that it was given",
        Cause::UnknownProgram => "there is no executable account under the program's key",
        Cause::BadImage => "the program's data are no program image",
        Cause::Unverified => "the verifier refuses the program's text",
        Cause::TooManyAccounts => "the instruction lists more than 255 accounts",
        _ => "it failed",
    }
}

/// A cause as a sentence.
pub(crate) fn sentence_of(cause: Cause) -> &'static str {
    let text = of_machine(cause).or(of_call(cause)).or(of_rule(cause));
    match text {
        Some(text) => text,
        None => of_program(cause),
    }
}

/// Whether the detail of a cause is the place of an account in the frame's list.
pub(crate) fn names_account(cause: Cause) -> bool {
    matches!(
        cause,
        Cause::MissingSignature
            | Cause::ReadonlyChanged
            | Cause::ExecutableChanged
            | Cause::ForeignDebit
            | Cause::ForeignData
            | Cause::OwnerChange
            | Cause::TooLarge
            | Cause::LengthTooLarge
    )
}

/// What the detail of a cause is: the words before it and behind it.
pub(crate) fn detail_words(cause: Cause) -> Option<(&'static str, &'static str)> {
    match cause {
        Cause::Unverified => Some((": refusal ", "")),
        Cause::MissingAccount => Some((
            ": place ",
            " of the call's accounts, behind which is the program",
        )),
        Cause::PrivilegeEscalation => Some((": account ", " of the call")),
        Cause::RentState => Some((": account ", " of the transaction")),
        _ => {
            if names_account(cause) {
                Some((": account ", " of its list"))
            } else {
                None
            }
        }
    }
}

/// Why a transaction is dropped.
pub(crate) fn of_drop(cause: DropCause) -> &'static str {
    match cause {
        DropCause::PayerAbsent => "the fee payer has no lamports",
        DropCause::PayerNotSystem => "the fee payer is no plain account of the system program",
        DropCause::CannotPayFee => "the fee payer has fewer lamports than the fee",
        DropCause::PayerRent => "the fee would leave the payer below the rent-exempt balance",
    }
}
