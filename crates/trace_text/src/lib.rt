//! The command `trace`: what transactions of a block did, as text or as JSON.
#![tactic(auto)]

mod answer;
mod changes;
mod frames;
mod json;
mod listing;
mod page;
mod place;
mod sentence;
mod stop;
mod telling;
mod values;
mod words;

pub use answer::answer_of;
