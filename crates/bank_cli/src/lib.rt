//! The top call: arguments and bytes in, a status, an output and notes out.
#![tactic(auto)]

mod ahead;
mod alone;
mod answer;
mod asm;
mod make;
mod produce;
mod replay;
mod show;
mod texts;
mod top;

pub use top::bank_main;
