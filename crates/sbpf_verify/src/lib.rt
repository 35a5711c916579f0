//! The verifier of sBPF texts: which texts a machine may run, and why another is refused.
#![tactic(auto)]

mod decoded;
mod entry;
mod fault;
mod image;
mod laws;
mod opcode;
mod refusal;
mod verified;

pub use decoded::Decoded;
pub use entry::Entry;
pub use fault::VerifyFault;
pub use image::{ImageSlices, read_image};
pub use laws::{
    entries_fit, first_slot_is_a_start, images_are_read_again, images_are_written_as_they_are_read,
    jumps_lead_to_starts, numbers_are_as_stated, reached_places_are_starts, registers_are_there,
    second_halves_are_never_reached, starts_have_instructions, values_are_allowed,
    verified_is_without_refusal, what_follows_is_a_start,
};
pub use opcode::Opcode;
pub use sbpf_rules::MAX_SLOTS;
pub use verified::{Unfit, Verified, first_refusal, verify};
