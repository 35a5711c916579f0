//! The number that definitions of other crates cite.
ghost use Rattle.std.specs.Prelude.{◌≡◌};

use crate::units::BYTES_OF_UNIT;

/// The bytes that cost one unit, as Solana has them.
pub fn numbers_are_as_stated()
    ensures { BYTES_OF_UNIT ≡ 250 }
{}
