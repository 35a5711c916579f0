//! The refusals of bytes and of transactions.
ghost use Rattle.std.specs.Prelude.{◌≡◌};

use format_fields::{LengthRefusal, MemoryRefusal};
use sol_base::OutOfMemory;
use spec_base::Refusal;
use thiserror::Error;

/// Why bytes are no transaction. A place counts from the first byte of the transaction, and is that
/// of the first byte of the field, item or compact length concerned.
#[derive(Clone, Copy, Debug, PartialEq, Eq, Error)]
pub enum WireFault {
    #[error("the transaction has more than 1,232 bytes")]
    TooLong,
    #[error("the transaction is cut at byte {at}")]
    Truncated { at: usize },
    #[error("there is no compact length at byte {at}")]
    BadLength { at: usize },
    #[error("the message has version byte {byte}")]
    Version { byte: u8 },
    #[error("bytes follow the message from byte {at} on")]
    Trailing { at: usize },
    #[error("out of memory")]
    OutOfMemory,
}

impl From<OutOfMemory> for WireFault {
    ghost use Rattle.message_codec.specs.declared.fault.WireFault.TheVariants.{OutOfMemory as no_memory};

    ghost from_gives = { λ _ e. e ≡ no_memory };

    fn from(_e: OutOfMemory) -> WireFault {
        WireFault::OutOfMemory
    }
}

impl Refusal for WireFault {
    ghost use Rattle.message_codec.specs.WireReading.{is_wire_memory};
    ghost use Rattle.message_codec.specs.declared.fault.WireFault.TheVariants.{Truncated};

    ghost cut_at = { Truncated };

    ghost is_memory = { is_wire_memory };

    fn truncated(at: usize) -> WireFault {
        WireFault::Truncated { at }
    }
}

impl LengthRefusal for WireFault {
    ghost use Rattle.message_codec.specs.declared.fault.WireFault.TheVariants.{BadLength};

    ghost bad_at = { BadLength };

    fn bad_length(at: usize) -> WireFault {
        WireFault::BadLength { at }
    }
}

impl MemoryRefusal for WireFault {
    fn out_of_memory() -> WireFault {
        WireFault::OutOfMemory
    }
}

/// Why a transaction is not sane.
#[derive(Clone, Copy, Debug, PartialEq, Eq, Error)]
pub enum SanitizeFault {
    #[error("there are not as many signatures as signing keys")]
    SignatureCount,
    #[error("the header speaks of more keys than there are static keys")]
    HeaderRange,
    #[error("the fee payer is read only")]
    NoWritablePayer,
    #[error("an instruction's program is the fee payer or no static key")]
    ProgramIndex,
    #[error("an instruction's account is no key of the message")]
    AccountIndex,
    #[error("the message has more keys than the chain allows")]
    TooManyKeys,
    #[error("a static key is given twice")]
    RepeatedKey,
    #[error("the fee payer is a reserved key")]
    PayerReserved,
    #[error("lookup {lookup} loads no key")]
    EmptyLookup { lookup: u16 },
}
