//! What the JSON of snapshots, batches and records is made of: numbers, digits, data, lists, members
//! and transactions, and why a JSON value is refused.
#![tactic(auto)]

mod data;
mod fault;
mod laws;
mod list;
mod parts;
mod show;
mod text;
mod transaction_in;
mod transaction_out;
mod written;

pub use data::data_member;
pub use fault::{
    JsonFault, Step, Wanted, in_item, in_member, refused, refused_instruction, refused_member,
    refused_name,
};
pub use laws::{shown_members_are_passed_over, transactions_come_back};
pub use list::{InJson, Part, array, list_member, list_value};
pub use parts::{
    byte_member, digits, digits_member, flag_member, found, is_digits, known, number_member,
    one_of, short_member,
};
pub use show::Way;
pub use text::value_of_text;
pub use transaction_in::transaction;
pub use transaction_out::transaction_value;
pub use written::hex_value;
