//! The commands for chains: arguments and an input in, a folder of files, and an answer out.
#![tactic(auto)]

mod add;
mod begin;
mod chain;
mod check;
mod clock;
mod commands;
mod export;
mod failures;
mod input;
mod lines;
mod reads;
mod replaying;
mod word_faults;

pub use commands::answer_words;
