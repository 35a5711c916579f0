//! The values that every crate speaks of: keys and hashes, lists of bytes and of items, accounts,
//! locks and limits, and the keys that are derived from others.
#![tactic(auto)]

mod account;
mod blob;
mod derived;
mod items;
mod key;
mod laws;
mod limits;
mod lock;
mod memory;
mod text;

pub use account::{Account, MAX_DATA_LEN, share_all};
pub use blob::Blob;
pub use derived::{
    DERIVED_KEY_MARKER, MAX_SEED_LEN, MAX_SEEDS, SeedFault, SeedsFault, program_key, seed_key,
};
pub use items::{Items, push_with_room};
pub use key::{
    CLOCK_SYSVAR, COMPUTE_BUDGET_PROGRAM, Hash32, Key, LOADER_PROGRAM, RENT_SYSVAR, SYSTEM_PROGRAM,
    hash, key_text,
};
pub use laws::{
    bounds_are_as_published, bounds_of_blocks, fixed_keys_are_as_published,
    native_keys_repeat_one_byte,
};
pub use limits::{
    Limits, MAX_BLOCK_UNITS, MAX_LANES, MAX_SENDERS, MAX_STACK_HEIGHT, MAX_TRANSACTION_KEYS,
    MAX_TRANSACTIONS,
};
pub use lock::{Lock, LockList, MAX_METAS, Meta};
pub use memory::OutOfMemory;
pub use text::is_text;
