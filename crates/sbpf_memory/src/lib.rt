//! The memory of a machine: bytes by address, in four ranges.
#![tactic(auto)]

mod buffer;
mod bytes;
mod fault;
mod laws;
mod memory;
mod place;
mod reads;

pub use fault::{AccessViolation, MemFault};
pub use laws::{
    memory_is_a_map, preparation_is_not_seen, reads_lie_in_one_range,
    writes_lie_in_a_writable_range,
};
pub use memory::Memory;
pub use place::{FRAME_COUNT, FRAME_SIZE, FRAME_STEP, INPUT_START, PROGRAM_START, STACK_START};
pub use reads::{ReadFault, read_array, read_blob, read_bytes};
