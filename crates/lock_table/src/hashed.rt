//! How keys are hashed.
use sha2::{Digest, Sha256};
use sol_base::{Key, OutOfMemory};
use std::hash::{Hash, Hasher, RandomState};
use std::io;
use std::random::RandomSource;

/// A key whose bytes are hashed in one piece, and not one after another.
#[derive(Clone, Copy, PartialEq, Eq)]
pub struct HashedKey(pub(crate) Key);

impl Hash for HashedKey {
    ghost use Rattle.std.specs.Prelude.{[], ◌∷◌};
    ghost use Rattle.std.proofs.Common.{rules};

    ghost hash_input = { λ key. key.0.0 ∷ [] };

    ghost respects_eq = { Prim.search rules };

    fn hash<H: Hasher>(&self, state: &mut H) {
        state.write(&self.0.0);
    }
}

/// What a hash of keys depends on: whoever changes a byte changes the hash. No answer rests on it.
#[derive(Drop)]
pub struct HashSeed {
    bytes: Sha256,
}

impl HashSeed {
    /// No bytes yet.
    pub fn new() -> HashSeed {
        HashSeed {
            bytes: Sha256::new(),
        }
    }

    /// Adds bytes.
    pub fn add(&mut self, bytes: &[u8]) {
        self.bytes.update(bytes);
    }

    /// The hash that is keyed by the first half of the SHA-256 of all bytes.
    pub fn hash(self) -> Result<RandomState, OutOfMemory> {
        match RandomState::new(&Sum(self.bytes.finalize())) {
            Ok(hash) => Ok(hash),
            Err(_) => Err(OutOfMemory),
        }
    }
}

/// A SHA-256, in the place of bytes that a system draws.
#[derive(Drop)]
struct Sum([u8; 32]);

impl RandomSource for Sum {
    fn fill_bytes(&self, buf: &mut [u8]) -> io::Result<()> {
        for (to, from) in buf.iter_mut().zip(self.0.iter()) {
            *to = *from;
        }
        Ok(())
    }
}
