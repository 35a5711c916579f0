//! The context of a run: the registers, the frames that wait, and the memory.
use crate::frames::Frames;
use sbpf_memory::Memory;

/// What instructions work on.
#[derive(Drop)]
pub struct Context {
    pub registers: [u64; 11],
    pub frames: Frames,
    pub memory: Memory,
}
