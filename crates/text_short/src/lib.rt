//! Batches in a short form of JSON, with keys by name and instructions by what they do.
#![tactic(auto)]

mod accounts;
mod batch;
mod budget;
mod call;
mod laws;
mod list;
mod loader;
mod members;
mod names;
mod seeded;
mod system;
mod transaction;

pub use batch::short_batch_of_json;
pub use laws::{built_batches_are_read, digits_are_the_key, mistyped_keys_are_refused};
pub use names::named_key;
