//! The number that the definitions of this crate cite.
ghost use Rattle.std.specs.Prelude.{◌≡◌};

use crate::recent::MAX_MARKS;

/// So many blocks a chain remembers (the project's own).
pub fn numbers_are_as_stated()
    ensures { MAX_MARKS ≡ 150 }
{}
