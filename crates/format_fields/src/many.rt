//! So many items of a format, one after the other.
ghost use Rattle.spec_base.specs.Reading.{Gives, many};

use sol_base::Items;
use spec_base::Refusal;
use std::alloc::Global;

/// The refusals of a format whose lists take memory.
pub trait MemoryRefusal: Refusal {
    ghost use Rattle.std.specs.Prelude.{◌≡◌, true};

    /// Memory ran out.
    fn out_of_memory() -> Self
        ensures { Self.Refusal.is_memory result ≡ true };
}

/// What a format repeats, each item read by itself. `E` has the refusals of the format.
pub trait Item<E: MemoryRefusal>: Sized + Drop {
    ghost use Rattle.std.specs.Prelude.{ℕ, List, Result};
    ghost use Rattle.spec_base.specs.Reading.{Gives};

    /// The item at the front of the bytes that are left, by the length of the whole text.
    ghost item_at: { ℕ → List ℕ → Result (Self × List ℕ) E };

    /// The least bytes of an item. No clause speaks of them: room is reserved by them.
    const LEAST_LEN: usize;

    /// The item at the front of the bytes, and the bytes after it. `total` is the length of the
    /// whole text.
    fn read(alloc: Global, total: usize, bytes: &[u8]) -> Result<(Self, &[u8]), E>
        ensures { Gives E.is_memory (λ x. (x.0, x.1.now)) result (item_at total bytes.now) };
}

/// So many items at the front of the bytes, and the bytes after them. `total` is the length of the
/// whole text.
pub fn read_many<E: MemoryRefusal, T: Item<E>>(
    alloc: Global,
    total: usize,
    count: usize,
    bytes: &[u8],
) -> Result<(Items<T>, &[u8]), E>
    ensures { Gives E.is_memory (λ x. (x.0, x.1.now)) result
        (many (T.item_at total) count bytes.now) }
{
    let room = count.min(bytes.len() / T::LEAST_LEN.max(1));
    let Ok(mut items) = Items::with_capacity(alloc, room) else {
        return Err(E::out_of_memory());
    };
    let mut rest = bytes;
    for _ in 0..count {
        let (item, after) = T::read(alloc, total, rest)?;
        let Ok(()) = items.push(item) else {
            return Err(E::out_of_memory());
        };
        rest = after;
    }
    Ok((items, rest))
}
