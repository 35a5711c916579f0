//! Account data as a list of parts: bytes that are lent by accounts and copied only when they are
//! written, with a piece that stays open for the next write and hints at where a place lies.
#![tactic(auto)]

mod moves;
mod near;
mod parts;
mod piece;
mod pieces;
mod range;

pub use parts::{Part, Parts};
