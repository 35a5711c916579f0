//! Fields of formats that are keys and hashes.
ghost use Rattle.spec_base.specs.Reading.{Gives};
ghost use Rattle.format_fields.specs.Fields.{key_at, hash_at};

use sol_base::{Hash32, Key};
use spec_base::{Refusal, array_field};

/// A field that is a key, and the bytes after it. `total` is the length of the whole text.
#[tactic(auto, unfolding(spec_base::specs::Reading::read_as))]
pub fn key_field<E: Refusal>(total: usize, bytes: &[u8]) -> Result<(Key, &[u8]), E>
    ensures { Gives E.is_memory (λ x. (x.0, x.1.now)) result (key_at E.cut_at total bytes.now) }
{
    let (field, rest) = array_field::<E, 32>(total, bytes)?;
    Ok((Key(field), rest))
}

/// A field that is a hash, and the bytes after it. `total` is the length of the whole text.
#[tactic(auto, unfolding(spec_base::specs::Reading::read_as))]
pub fn hash_field<E: Refusal>(total: usize, bytes: &[u8]) -> Result<(Hash32, &[u8]), E>
    ensures { Gives E.is_memory (λ x. (x.0, x.1.now)) result (hash_at E.cut_at total bytes.now) }
{
    let (field, rest) = array_field::<E, 32>(total, bytes)?;
    Ok((Hash32(field), rest))
}
