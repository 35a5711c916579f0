//! The numbers that the definitions of this crate cite.
ghost use Rattle.std.specs.Prelude.{◌≡◌};

use crate::start::{COLLECTOR_LAMPORTS, USER_LAMPORTS, USERS};
use crate::transfers::PRICES;

/// The numbers of a chain at its start and of its transfers (the project's own).
pub fn numbers_are_as_stated()
    ensures users { USERS ≡ 64 }
    ensures user { USER_LAMPORTS ≡ 1_000_000_000_000 }
    ensures collector { COLLECTOR_LAMPORTS ≡ 1_000_000_000 }
    ensures prices { PRICES ≡ 1_000_000 }
{}
