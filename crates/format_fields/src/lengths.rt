//! Compact lengths (Solana): 7 bits a byte, low bits first, in as few bytes as hold the number.
ghost use Rattle.std.specs.Prelude.{◌≡◌, ◌<◌};
ghost use Rattle.spec_base.specs.Reading.{Gives};
ghost use Rattle.format_fields.specs.Lengths.{length_at, second_at, third_at};

use spec_base::{Refusal, place};

/// The refusals of a format that has compact lengths.
pub trait LengthRefusal: Refusal {
    ghost use Rattle.std.specs.Prelude.{◌≡◌, ℕ, false};

    /// The refusal of bytes that begin with no compact length, by the place of the first.
    ghost bad_at: { ℕ → Self };

    /// No compact length is at this place.
    fn bad_length(at: usize) -> Self
        ensures value { result ≡ bad_at at }
        ensures by_input { Self.Refusal.is_memory result ≡ false };
}

/// The length at the front of the bytes, and the bytes after it. `total` is the length of the whole
/// text.
#[tactic(auto, unfolding(crate::specs::Lengths::length_at))]
pub fn read_length<E: LengthRefusal>(total: usize, bytes: &[u8]) -> Result<(usize, &[u8]), E>
    ensures { Gives E.is_memory (λ x. (x.0, x.1.now)) result
        (length_at E.cut_at E.bad_at total bytes.now) }
{
    let at = place(total, bytes);
    match bytes {
        [] => Err(E::truncated(at)),
        [first, rest @ ..] if *first < 128 => Ok((usize::from(*first), rest)),
        [first, rest @ ..] => second_digit(at, usize::from(*first) - 128, rest),
    }
}

fn second_digit<E: LengthRefusal>(at: usize, low: usize, bytes: &[u8]) -> Result<(usize, &[u8]), E>
    requires { low < 128 }
    ensures { Gives E.is_memory (λ x. (x.0, x.1.now)) result
        (second_at E.cut_at E.bad_at at low bytes.now) }
{
    match bytes {
        [] => Err(E::truncated(at)),
        [0, ..] => Err(E::bad_length(at)),
        [second, rest @ ..] if *second < 128 => Ok((low + 128 * usize::from(*second), rest)),
        [second, rest @ ..] => third_digit(at, low + 128 * (usize::from(*second) - 128), rest),
    }
}

fn third_digit<E: LengthRefusal>(at: usize, low: usize, bytes: &[u8]) -> Result<(usize, &[u8]), E>
    requires { low < 16384 }
    ensures { Gives E.is_memory (λ x. (x.0, x.1.now)) result
        (third_at E.cut_at E.bad_at at low bytes.now) }
{
    match bytes {
        [] => Err(E::truncated(at)),
        [third, rest @ ..] if 1 <= *third && *third <= 3 => Ok((
            low + 16384 * usize::from(*third),
            rest,
        )),
        _ => Err(E::bad_length(at)),
    }
}
