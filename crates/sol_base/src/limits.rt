ghost use Rattle.std.specs.Prelude.{◌≡◌};
ghost use Rattle.sol_base.specs.Limits.{first_limits};

/// The most transactions of a block (the project's own).
pub const MAX_TRANSACTIONS: usize = 16_384;

/// The most lanes that execute a block (the project's own).
pub const MAX_LANES: u32 = 64;

/// The most senders that a batch is gathered from (the project's own).
pub const MAX_SENDERS: u32 = 8;

/// The most keys that a chain may allow a transaction (Solana).
pub const MAX_TRANSACTION_KEYS: u16 = 128;

/// The greatest stack height that a chain may allow (Solana).
pub const MAX_STACK_HEIGHT: u8 = 9;

/// The most compute units that a chain may allow a block, for one key or in all (the project's
/// own).
pub const MAX_BLOCK_UNITS: u64 = 1_000_000_000_000;

/// What a chain allows, as its snapshot carries it.
#[derive(Clone, Copy, PartialEq, Eq)]
pub struct Limits {
    /// The most keys of a transaction.
    pub keys: u16,
    /// The greatest stack height of programs that call each other.
    pub height: u8,
    /// The most compute units of one block for one writable key.
    pub key_units: u64,
    /// The most compute units of one block.
    pub block_units: u64,
}

impl Limits {
    /// The limits that a snapshot of version 1 stands for.
    pub fn first() -> Limits
        ensures { result ≡ first_limits }
    {
        Limits {
            keys: 64,
            height: 5,
            key_units: 12_000_000,
            block_units: 48_000_000,
        }
    }
}
