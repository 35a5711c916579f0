//! The record of a block as a text: one JSON object.
#![tactic(auto)]

mod json;

pub use json::{block_text, entry_text};
