//! Keys and hashes, and the keys that are fixed.
ghost use Rattle.std.specs.Prelude.{◌≡◌, refl, take};
ghost use Rattle.std.specs.Cmp.{unsigned_ties};
ghost use Rattle.std.specs.Cmp.Derive.{on_agrees};
ghost use Rattle.std.specs.Cmp.Lexicographic.{slice_cmp, lists_agrees, lists_ties};
ghost use Rattle.std.specs.Int.{w64, from_be_bytes};
ghost use Rattle.std.specs.Ordering.{nat_cmp};
ghost use Rattle.std.proofs.lemmas.Cmp.{nat_list_cmp_total, on_total};
ghost use Rattle.sol_base.specs.Keys.{key_cmp};
ghost use Rattle.sha2.specs.Sha256.{sha256};
ghost use Rattle.hex.specs.Hex.{encode_lower};

use hex::encode_to_slice;
use sha2::{Digest, Sha256};
use std::cmp::Ordering;

/// The name of an account: 32 bytes, ordered as bytes are.
#[derive(Clone, Copy, PartialEq, Eq, PartialOrd, Hash)]
pub struct Key(pub [u8; 32]);

/// A SHA-256 digest (FIPS 180-4): 32 bytes, ordered as bytes are.
#[derive(Clone, Copy, PartialEq, Eq, PartialOrd, Ord, Hash)]
pub struct Hash32(pub [u8; 32]);

impl Ord for Key {
    ghost cmp = { key_cmp };

    ghost total = { on_total (λ key. key.0) nat_list_cmp_total };

    ghost matches_partial_cmp = { on_agrees (λ key. key.0) (lists_agrees (λ x y. refl)) };

    ghost matches_eq = { λ x y. lists_ties nat_cmp unsigned_ties x.0 y.0 };

    #[inline(always)]
    fn cmp(&self, other: &Key) -> Ordering {
        order(&self.0, &other.0)
    }
}

/// The order of 32 bytes. Nearly always the first eight decide, which are compared as one number.
#[inline(always)]
fn order(a: &[u8; 32], b: &[u8; 32]) -> Ordering
    ensures { result ≡ slice_cmp nat_cmp a.now b.now }
{
    let (x, y) = (front(a), front(b));
    if x == y { a.cmp(b) } else { x.cmp(&y) }
}

/// The first eight bytes as a number, the first the greatest.
#[inline(always)]
fn front(bytes: &[u8; 32]) -> u64
    ensures { result ≡ from_be_bytes w64 (take 8 bytes.now) }
{
    let mut front = [0; 8];
    front.copy_from_slice(&bytes[..8]);
    u64::from_be_bytes(front)
}

/// The system program, which owns every account that no other program owns.
pub const SYSTEM_PROGRAM: Key = Key([0; 32]);

/// The compute budget program, whose instructions set the limits of their transaction.
pub const COMPUTE_BUDGET_PROGRAM: Key = Key([
    0x03, 0x06, 0x46, 0x6f, 0xe5, 0x21, 0x17, 0x32, 0xff, 0xec, 0xad, 0xba, 0x72, 0xc3, 0x9b, 0xe7,
    0xbc, 0x8c, 0xe5, 0xbb, 0xc5, 0xf7, 0x12, 0x6b, 0x2c, 0x43, 0x9b, 0x3a, 0x40, 0x00, 0x00, 0x00,
]);

/// The account that Solana keeps the clock in.
pub const CLOCK_SYSVAR: Key = Key([
    0x06, 0xa7, 0xd5, 0x17, 0x18, 0xc7, 0x74, 0xc9, 0x28, 0x56, 0x63, 0x98, 0x69, 0x1d, 0x5e, 0xb6,
    0x8b, 0x5e, 0xb8, 0xa3, 0x9b, 0x4b, 0x6d, 0x5c, 0x73, 0x55, 0x5b, 0x21, 0x00, 0x00, 0x00, 0x00,
]);

/// The account that Solana keeps the rent in.
pub const RENT_SYSVAR: Key = Key([
    0x06, 0xa7, 0xd5, 0x17, 0x19, 0x2c, 0x5c, 0x51, 0x21, 0x8c, 0xc9, 0x4c, 0x3d, 0x4a, 0xf1, 0x7f,
    0x58, 0xda, 0xee, 0x08, 0x9b, 0xa1, 0xfd, 0x44, 0xe3, 0xdb, 0xd9, 0x8a, 0x00, 0x00, 0x00, 0x00,
]);

/// The loader program, whose accounts become programs (the project's own).
pub const LOADER_PROGRAM: Key = Key([0x1d; 32]);

/// The SHA-256 of the bytes (FIPS 180-4).
pub fn hash(bytes: &[u8]) -> Hash32
    ensures { result.0 ≡ sha256 bytes.now }
{
    Hash32(Sha256::digest(bytes))
}

/// The key in 64 lower case hexadecimal digits.
pub fn key_text(key: &Key) -> [u8; 64]
    ensures { result ≡ encode_lower key.now.0 }
{
    let mut text = [0; 64];
    let _ = encode_to_slice(&key.0, &mut text);
    text
}
