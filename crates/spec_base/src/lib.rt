//! What the contracts of all crates are written with: bytes and little-endian numbers, the reading
//! of formats from left to right, and counts of faults. Nothing here names a type of the product.
#![tactic(auto)]

mod fields;
mod numbers;

pub use fields::{
    Refusal, array_field, byte_field, bytes_field, place, u16_field, u32_field, u64_field,
};
pub use numbers::number_in;
