//! The values of the constants that definitions cite, here and in other crates.
ghost use Rattle.std.specs.Prelude.{◌≡◌, codes, replicate};
ghost use Rattle.sol_base.specs.Base58.{base58_number, number_in};
ghost use Rattle.sol_base.specs.DerivedKeys.{marker};

use crate::account::MAX_DATA_LEN;
use crate::derived::{DERIVED_KEY_MARKER, MAX_SEED_LEN, MAX_SEEDS};
use crate::key::{
    CLOCK_SYSVAR, COMPUTE_BUDGET_PROGRAM, LOADER_PROGRAM, RENT_SYSVAR, SYSTEM_PROGRAM,
};
use crate::limits::{
    MAX_BLOCK_UNITS, MAX_LANES, MAX_SENDERS, MAX_STACK_HEIGHT, MAX_TRANSACTION_KEYS,
    MAX_TRANSACTIONS,
};
use crate::lock::MAX_METAS;

/// The bounds and the text are those of Solana.
pub fn bounds_are_as_published()
    ensures data { MAX_DATA_LEN ≡ 10_485_760 }
    ensures metas { MAX_METAS ≡ 255 }
    ensures keys { MAX_TRANSACTION_KEYS ≡ 128 }
    ensures height { MAX_STACK_HEIGHT ≡ 9 }
    ensures seed { MAX_SEED_LEN ≡ 32 }
    ensures seeds { MAX_SEEDS ≡ 16 }
    ensures text { DERIVED_KEY_MARKER ≡ marker }
{}

/// The bounds of the project's own.
pub fn bounds_of_blocks()
    ensures transactions { MAX_TRANSACTIONS ≡ 16_384 }
    ensures lanes { MAX_LANES ≡ 64 }
    ensures senders { MAX_SENDERS ≡ 8 }
    ensures units { MAX_BLOCK_UNITS ≡ 1_000_000_000_000 }
{}

/// The two keys that are one byte over and over.
pub fn native_keys_repeat_one_byte()
    ensures system { SYSTEM_PROGRAM.0 ≡ replicate 32 0 }
    ensures loader { LOADER_PROGRAM.0 ≡ replicate 32 0x1d }
{}

/// The other fixed keys are those of Solana: the bytes of each, the greatest first, are the number
/// of its published text.
pub fn fixed_keys_are_as_published()
    ensures compute_budget { number_in 256 COMPUTE_BUDGET_PROGRAM.0
        ≡ base58_number (codes "ComputeBudget111111111111111111111111111111") }
    ensures clock { number_in 256 CLOCK_SYSVAR.0
        ≡ base58_number (codes "SysvarC1ock11111111111111111111111111111111") }
    ensures rent { number_in 256 RENT_SYSVAR.0
        ≡ base58_number (codes "SysvarRent111111111111111111111111111111111") }
{}
