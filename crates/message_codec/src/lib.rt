//! Transactions and messages as Solana has them: their wire format, the roles of their keys, and
//! the tests that a transaction must pass before anything else is asked of it.
#![tactic(auto)]

mod array;
mod compact;
mod fault;
mod laws;
mod message;
mod parsed;
mod parts;
mod reading;
mod roles;
mod sanity;
mod writing;

pub use compact::{MAX_COUNT, write_length};
pub use fault::{SanitizeFault, WireFault};
pub use laws::{
    lengths_are_read_or_cut_or_bad, lengths_have_one_spelling, locks_stand_beside_the_keys,
    numbers_are_as_stated, sane_payers_sign_and_are_writable, sane_transactions_name_their_keys,
    wires_are_read_as_they_are_spelled, written_wires_are_read_again,
};
pub use message::{Header, Instruction, Loaded, Lookup, Message, MessageKind, Signature, Tx};
pub use parsed::{Parsed, parse};
pub use reading::{MAX_WIRE_LEN, read_wire};
pub use roles::{is_signer, is_writable, keys_of, locks, reserved};
pub use sanity::{has_repeated_key, sanitize};
pub use writing::{message_key, write_wire};
