//! Laws over the definitions that the contracts of this crate cite. Their calls do nothing.
ghost use Rattle.std.specs.Prelude.{◌≡◌};
ghost use Rattle.tx_build.specs.Laws.{BuiltWiresAreRead};

use crate::message::{MAX_KEYS, MAX_OWN_KEYS};
use crate::tables::MAX_ADDRESSES;

/// The most keys of a transaction, and the most addresses of a table that it can name: 38 keys are
/// all that fit into the 1,232 bytes of Solana, and a place and an index are one byte there.
pub fn numbers_are_as_stated()
    ensures own { MAX_OWN_KEYS ≡ 38 }
    ensures keys { MAX_KEYS ≡ 256 }
    ensures addresses { MAX_ADDRESSES ≡ 256 }
{}

/// A law: the bytes that are built are read as a transaction.
pub fn built_wires_are_read()
    ensures { BuiltWiresAreRead }
{}
