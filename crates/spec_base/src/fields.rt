//! The fields of a format, each read from the front of the bytes that are left.
ghost use Rattle.std.specs.Prelude.{◌≡◌, length, IfOk};
ghost use Rattle.std.specs.Int.{w16, w32, w64};
ghost use Rattle.spec_base.specs.Reading.{Gives, place as place_of, field_at, byte_at, number_at};

/// The refusals of one format: each format has its own, and all have a field that is cut short.
pub trait Refusal {
    ghost use Rattle.std.specs.Prelude.{ℕ, Bool, false};

    /// The refusal of a field that does not fit in the bytes left, by its place.
    ghost cut_at: { ℕ → Self };

    /// Whether it is out of memory, which no input shows.
    ghost is_memory: { Self → Bool };

    /// The field at this place does not fit in the bytes left.
    fn truncated(at: usize) -> Self
        ensures value { result ≡ cut_at at }
        ensures by_input { is_memory result ≡ false };
}

/// The place of the first byte that is left.
pub fn place(total: usize, bytes: &[u8]) -> usize
    ensures { result ≡ place_of total bytes.now }
{
    total.saturating_sub(bytes.len())
}

/// A field of `count` bytes, and the bytes after it. `total` is the length of the whole text.
#[tactic(auto, unfolding(crate::specs::Reading::field_at))]
pub fn bytes_field<E: Refusal>(
    total: usize,
    count: usize,
    bytes: &[u8],
) -> Result<(&[u8], &[u8]), E>
    ensures gives { Gives E.is_memory (λ x. (x.0.now, x.1.now)) result
        (field_at E.cut_at total count bytes.now) }
    ensures len { IfOk result (λ x. length x.0.now ≡ count) }
{
    match bytes.split_at_checked(count) {
        Some((field, rest)) => Ok((field, rest)),
        None => Err(E::truncated(place(total, bytes))),
    }
}

/// A field of `N` bytes as an array, and the bytes after it.
#[tactic(auto, unfolding(crate::specs::Reading::field_at))]
pub fn array_field<E: Refusal, const N: usize>(
    total: usize,
    bytes: &[u8],
) -> Result<([u8; N], &[u8]), E>
    ensures { Gives E.is_memory (λ x. (x.0, x.1.now)) result (field_at E.cut_at total N bytes.now) }
{
    match bytes.split_first_chunk::<N>() {
        Some((field, rest)) => Ok((*field, rest)),
        None => Err(E::truncated(place(total, bytes))),
    }
}

/// A field of one byte.
#[tactic(auto, unfolding(crate::specs::Reading::byte_at))]
pub fn byte_field<E: Refusal>(total: usize, bytes: &[u8]) -> Result<(u8, &[u8]), E>
    ensures { Gives E.is_memory (λ x. (x.0, x.1.now)) result (byte_at E.cut_at total bytes.now) }
{
    let (field, rest) = array_field::<E, 1>(total, bytes)?;
    Ok((field[0], rest))
}

/// A field that is a u16.
#[tactic(auto, unfolding(crate::specs::Reading::number_at))]
pub fn u16_field<E: Refusal>(total: usize, bytes: &[u8]) -> Result<(u16, &[u8]), E>
    ensures { Gives E.is_memory (λ x. (x.0, x.1.now)) result
        (number_at E.cut_at w16 total bytes.now) }
{
    let (field, rest) = array_field::<E, 2>(total, bytes)?;
    Ok((u16::from_le_bytes(field), rest))
}

/// A field that is a u32.
#[tactic(auto, unfolding(crate::specs::Reading::number_at))]
pub fn u32_field<E: Refusal>(total: usize, bytes: &[u8]) -> Result<(u32, &[u8]), E>
    ensures { Gives E.is_memory (λ x. (x.0, x.1.now)) result
        (number_at E.cut_at w32 total bytes.now) }
{
    let (field, rest) = array_field::<E, 4>(total, bytes)?;
    Ok((u32::from_le_bytes(field), rest))
}

/// A field that is a u64.
#[tactic(auto, unfolding(crate::specs::Reading::number_at))]
pub fn u64_field<E: Refusal>(total: usize, bytes: &[u8]) -> Result<(u64, &[u8]), E>
    ensures { Gives E.is_memory (λ x. (x.0, x.1.now)) result
        (number_at E.cut_at w64 total bytes.now) }
{
    let (field, rest) = array_field::<E, 8>(total, bytes)?;
    Ok((u64::from_le_bytes(field), rest))
}
