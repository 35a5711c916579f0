//! Where an access lies: its range, and the place in the bytes of it.
ghost use Rattle.std.specs.Prelude.{◌≡◌, ◌≤◌, ◌+◌, ◌*◌, ◌/◌, ◌%◌, ◌^◌, ◌&&◌, nat_le, nat_lt, None, if◌then◌else◌};
ghost use Rattle.sbpf_memory.specs.Memory.{at_place, frame_count, frame_size, frame_step, meet as ranges_meet};
ghost use Rattle.sbpf_memory.specs.declared.place.Region.TheVariants.{Stack};

/// A range of addresses.
#[derive(Clone, Copy, PartialEq, Eq)]
pub enum Region {
    Program,
    Stack,
    Heap,
    Input,
}

/// A place in the bytes of a range.
#[derive(Clone, Copy, PartialEq, Eq)]
pub struct Place {
    pub region: Region,
    pub at: u64,
}

/// The first address of the program (the project's own).
pub const PROGRAM_START: u64 = 0x1_0000_0000;

/// The first address of the stack (the project's own).
pub const STACK_START: u64 = 0x2_0000_0000;

/// The first address of the heap (the project's own).
pub(crate) const HEAP_START: u64 = 0x3_0000_0000;

/// The first address of the input (the project's own).
pub const INPUT_START: u64 = 0x4_0000_0000;

/// The first addresses are this far apart (the project's own).
pub(crate) const RANGE_STEP: u64 = 0x1_0000_0000;

/// The bytes of a frame of the stack (the project's own).
pub const FRAME_SIZE: u64 = 4096;

/// How far apart frames of the stack begin (the project's own).
pub const FRAME_STEP: u64 = 8192;

/// The frames of the stack (the project's own).
pub const FRAME_COUNT: u64 = 64;

/// The bytes of all frames of the stack.
pub(crate) const STACK_SIZE: usize = (FRAME_SIZE * FRAME_COUNT) as usize;

/// A place of a range, where the range has `len` bytes from it on.
#[inline(always)]
pub(crate) fn within(region: Region, at: u64, len: u64, size: u64) -> Option<Place>
    requires { size ≤ 2 ^ 32 }
    ensures { result ≡ (if nat_le (at + len) size then at_place region at else None) }
{
    if at.saturating_add(len) <= size {
        Some(Place { region, at })
    } else {
        None
    }
}

/// A place of the stack, where its frame has `len` bytes from it on.
#[inline(always)]
pub(crate) fn within_frame(at: u64, len: u64) -> Option<Place>
    ensures { result
        ≡ (if nat_lt (at / frame_step) frame_count && nat_le (at % frame_step + len) frame_size
        then at_place Stack (frame_size * (at / frame_step) + at % frame_step) else None) }
{
    let frame = at / FRAME_STEP;
    let inside = at % FRAME_STEP;
    if frame < FRAME_COUNT && inside.saturating_add(len) <= FRAME_SIZE {
        Some(Place {
            region: Region::Stack,
            at: FRAME_SIZE * frame + inside,
        })
    } else {
        None
    }
}

/// Whether two ranges of `len` addresses that must be apart meet.
pub(crate) fn overlaps(apart: bool, one: u64, other: u64, len: u64) -> bool
    ensures { result ≡ (apart && nat_lt 0 len && ranges_meet one other len) }
{
    apart && meet(one, other, len)
}

/// Whether two ranges of `len` addresses meet.
#[tactic(auto, using(std::proofs::lemmas::Bool::Decides::nat_tests))]
fn meet(one: u64, other: u64, len: u64) -> bool
    ensures { result ≡ (nat_lt 0 len && ranges_meet one other len) }
{
    one.abs_diff(other) < len
}
