//! Keys that are derived from others and from seeds.
ghost use Rattle.std.specs.Prelude.{◌≡◌};
ghost use Rattle.sol_base.specs.DerivedKeys.{seed_key_of, program_key_of, signing_key_of, has_long};

use crate::blob::Blob;
use crate::items::Items;
use crate::key::Key;
use sha2::{Digest, Sha256};
use thiserror::Error;

/// The most bytes of a seed (Solana).
pub const MAX_SEED_LEN: usize = 32;

/// The most seeds of a program key (Solana).
pub const MAX_SEEDS: usize = 16;

/// The text that ends what a program key is the hash of (Solana).
pub const DERIVED_KEY_MARKER: [u8; 21] = *b"ProgramDerivedAddress";

/// Why no key is derived from a base and a seed.
#[derive(Clone, Copy, Debug, PartialEq, Eq, Error)]
pub enum SeedFault {
    #[error("the seed has more than 32 bytes")]
    TooLong,
    #[error("the owner ends with the text ProgramDerivedAddress")]
    IllegalOwner,
}

/// Why no program key is derived from seeds.
#[derive(Clone, Copy, Debug, PartialEq, Eq, Error)]
pub enum SeedsFault {
    #[error("there are more than 16 seeds")]
    TooMany,
    #[error("a seed has more than 32 bytes")]
    TooLong,
}

/// The key that belongs to a base key, a seed and an owner (Solana).
pub fn seed_key(base: &Key, seed: &[u8], owner: &Key) -> Result<Key, SeedFault>
    ensures { result ≡ seed_key_of base.now seed.now owner.now }
{
    if seed.len() > MAX_SEED_LEN {
        return Err(SeedFault::TooLong);
    }
    if owner.0.ends_with(&DERIVED_KEY_MARKER) {
        return Err(SeedFault::IllegalOwner);
    }
    let mut hasher = Sha256::new();
    hasher.update(&base.0);
    hasher.update(seed);
    hasher.update(&owner.0);
    Ok(Key(hasher.finalize()))
}

/// The key that a program signs for by its seeds (Solana). That the key lies off the curve is not
/// tested (the project's own).
pub fn program_key(seeds: &Items<Blob>, program: &Key) -> Result<Key, SeedsFault>
    ensures { result ≡ program_key_of seeds.now program.now }
{
    let seeds = seeds.as_slice();
    if seeds.len() > MAX_SEEDS {
        return Err(SeedsFault::TooMany);
    }
    if has_long_seed(seeds) {
        return Err(SeedsFault::TooLong);
    }
    Ok(signing_key(seeds, program))
}

fn has_long_seed(seeds: &[Blob]) -> bool
    ensures { result ≡ has_long seeds.now }
{
    seeds.iter().any(|seed| seed.len() > MAX_SEED_LEN)
}

fn signing_key(seeds: &[Blob], program: &Key) -> Key
    ensures { result ≡ signing_key_of seeds.now program.now }
{
    let mut hasher = Sha256::new();
    for seed in seeds {
        hasher.update(seed.as_slice());
    }
    hasher.update(&program.0);
    hasher.update(&DERIVED_KEY_MARKER);
    Key(hasher.finalize())
}
