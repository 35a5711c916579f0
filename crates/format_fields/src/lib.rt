//! What the formats of the product share: fields that are keys and hashes, compact lengths, lists of
//! so many items, and where the bytes of a format go.
#![tactic(auto)]

mod fields;
mod lengths;
mod many;
mod output;

pub use fields::{hash_field, key_field};
pub use lengths::{LengthRefusal, read_length};
pub use many::{Item, MemoryRefusal, read_many};
pub use output::{ByteCount, Output};
