//! The numbers that the definitions of this crate cite.
ghost use Rattle.std.specs.Prelude.{◌≡◌};

use crate::rent::{ACCOUNT_OVERHEAD, EXEMPTION_YEARS, LAMPORTS_PER_BYTE_YEAR};

/// The numbers of rent, as Solana has them.
pub fn numbers_are_as_stated()
    ensures overhead { ACCOUNT_OVERHEAD ≡ 128 }
    ensures price { LAMPORTS_PER_BYTE_YEAR ≡ 3_480 }
    ensures years { EXEMPTION_YEARS ≡ 2 }
{}
