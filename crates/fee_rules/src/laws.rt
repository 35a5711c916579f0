//! The numbers that the definitions of this crate cite.
ghost use Rattle.std.specs.Prelude.{◌≡◌};

use crate::budget::{MAX_LOADED_DATA, MAX_UNITS, UNITS_PER_INSTRUCTION};
use crate::pricing::{LAMPORTS_PER_SIGNATURE, MICRO_LAMPORTS_PER_LAMPORT};
use crate::request::{HEAP_FRAME_STEP, MAX_HEAP_FRAME, MIN_HEAP_FRAME};

/// The numbers of budgets and fees, as Solana has them.
pub fn numbers_are_as_stated()
    ensures units { MAX_UNITS ≡ 1_400_000 }
    ensures each { UNITS_PER_INSTRUCTION ≡ 200_000 }
    ensures loaded { MAX_LOADED_DATA ≡ 67_108_864 }
    ensures least_heap { MIN_HEAP_FRAME ≡ 32_768 }
    ensures most_heap { MAX_HEAP_FRAME ≡ 262_144 }
    ensures heap_step { HEAP_FRAME_STEP ≡ 1_024 }
    ensures signature { LAMPORTS_PER_SIGNATURE ≡ 5_000 }
    ensures micro { MICRO_LAMPORTS_PER_LAMPORT ≡ 1_000_000 }
{}
