//! Programs: the machine that runs them, part by part, and then whole instructions.
mod images;
mod instructions;
mod loader;
mod memory;
mod parts;
mod pieces;
mod region;
mod regions;
mod requests;
mod runs;
mod slots;
mod system;
mod system_calls;
mod texts;
mod verifier;
