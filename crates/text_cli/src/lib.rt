//! The commands for texts: arguments, the input and files in, an answer and files out.
#![tactic(auto)]

mod build;
mod commands;
mod compared;
mod files;
mod forms;
mod json;
mod kinds;
mod lines;
mod picture;
mod places;
mod readings;
mod refusal;
mod rows;
mod shape;
mod source;
mod top;
mod why;

pub use top::answer_of;
