//! Keys as numbers: a table that numbers them, the locks of a position over these numbers, and when
//! two positions conflict.
#![tactic(auto)]

mod hashed;
mod keys;
mod laws;
mod locks;
mod sets;

pub use hashed::HashSeed;
pub use keys::KeyTable;
pub use laws::{conflict_is_clash, equal_keys_have_equal_numbers, tables_grow_by_what_is_put_in};
pub use locks::{NumberedLock, has_distinct_keys};
pub use sets::{LockSet, conflict, set_of, set_of_known};
