//! The frames that wait for a function that they called.
ghost use Rattle.std.specs.Prelude.{◌≡◌, ◌<◌, ◌-◌, ◌++◌, ◌∷◌, [], length, take, slice_get};
ghost use Rattle.sbpf_memory.specs.Memory.{frame_count};

use arrayvec::ArrayVec;
use sbpf_memory::FRAME_COUNT;
use std::marker::Model;

/// The most frames of a machine, with the one that runs.
pub const MAX_FRAMES: usize = FRAME_COUNT as usize;

/// A frame that waits: where it goes on, and its own registers.
#[derive(Clone, Copy, Default, PartialEq, Eq)]
pub struct Kept {
    pub back: u32,
    pub r6: u64,
    pub r7: u64,
    pub r8: u64,
    pub r9: u64,
    pub r10: u64,
}

/// The frames that wait, the first of them first.
#[derive(Drop)]
pub struct Frames {
    kept: ArrayVec<Kept, MAX_FRAMES>,
}

impl Model for Frames {
    ghost use Rattle.std.specs.Prelude.{List};
    ghost use Rattle.sbpf_machine.specs.declared.frames.Kept.{Kept};

    ghost Value = { List Kept };

    ghost view = { λ f. f.kept.items };
}

impl Frames {
    pub fn new() -> Frames
        ensures { result ≡ [] }
    {
        Frames {
            kept: ArrayVec::new(),
        }
    }

    #[inline(always)]
    pub fn len(&self) -> usize
        ensures { result ≡ length self.now }
    {
        self.kept.len()
    }

    #[inline(always)]
    pub fn push(&mut self, frame: Kept)
        requires { length self.old < frame_count }
        ensures { self.new ≡ self.old ++ frame ∷ [] }
    {
        self.kept.push(frame);
    }

    #[inline(always)]
    pub fn pop(&mut self) -> Option<Kept>
        ensures value { result ≡ slice_get self.old (length self.old - 1) }
        ensures rest { self.new ≡ take (length self.old - 1) self.old }
    {
        self.kept.pop()
    }
}
