//! Keys that are derived from others and from seeds.
use sol_base::{
    Blob, Items, Key, OutOfMemory, SeedFault, SeedsFault, key_text, program_key, seed_key,
};
use std::alloc::Global;

/// A seed of as many bytes as it may have.
const LONGEST: [u8; 32] = [b's'; 32];

/// One byte more than a seed may have.
const LONG: [u8; 33] = [b's'; 33];

const ZEROS: Key = Key([0; 32]);

const ONES: Key = Key([1; 32]);

const TWOS: Key = Key([2; 32]);

/// An owner whose last 21 bytes are the text of program keys.
const MARKED: Key = Key(*b"___________ProgramDerivedAddress");

/// An owner that has that text at its front.
const MARKED_IN_FRONT: Key = Key(*b"ProgramDerivedAddress___________");

/// A base, a seed and an owner, and the text of their key.
const SEED_KEYS: [(Key, &[u8], Key, Result<[u8; 64], SeedFault>); 7] = [
    (
        ZEROS,
        b"",
        ZEROS,
        Ok(*b"f5a5fd42d16a20302798ef6ed309979b43003d2320d9f0e8ea9831a92759fb4b"),
    ),
    (
        ONES,
        b"stake",
        TWOS,
        Ok(*b"22dfddbefe15f331e907dd0ff173240ae4b1842175653a39a89940e1de4a6537"),
    ),
    (
        ONES,
        &LONGEST,
        TWOS,
        Ok(*b"e3ac872ae72dbce2ee2713462649e109e07e1bff86f6fac70aeaee519a1581f3"),
    ),
    (
        ONES,
        b"",
        MARKED_IN_FRONT,
        Ok(*b"7b1a1b628d0c2282ba8d773f7c16fd7fb41abf58171a67c5b655ba08748de69c"),
    ),
    (ONES, &LONG, TWOS, Err(SeedFault::TooLong)),
    (ONES, b"stake", MARKED, Err(SeedFault::IllegalOwner)),
    (ONES, &LONG, MARKED, Err(SeedFault::TooLong)),
];

/// The text of the key that belongs to a base, a seed and an owner.
fn seed_text(base: &Key, seed: &[u8], owner: &Key) -> Result<[u8; 64], SeedFault> {
    Ok(key_text(&seed_key(base, seed, owner)?))
}

#[test]
fn keys_are_derived_from_a_seed(rt: HostRuntime) {
    for (base, seed, owner, text) in &SEED_KEYS {
        assert!(rt; seed_text(base, seed, owner) == *text);
    }
}

/// Adds a seed.
fn add_seed(alloc: Global, seeds: &mut Items<Blob>, seed: &[u8]) -> Result<(), OutOfMemory> {
    seeds.push(Blob::from_slice(alloc, seed)?)
}

/// So many seeds of the greatest length, and one more.
fn seeds_of(alloc: Global, count: usize, last: &[u8]) -> Result<Items<Blob>, OutOfMemory> {
    let mut seeds = Items::new(alloc);
    for _ in 0..count {
        add_seed(alloc, &mut seeds, &LONGEST)?;
    }
    add_seed(alloc, &mut seeds, last)?;
    Ok(seeds)
}

/// The text of the key that the program of fives has by these seeds.
fn program_text(seeds: &Items<Blob>) -> Result<[u8; 64], SeedsFault> {
    Ok(key_text(&program_key(seeds, &Key([5; 32]))?))
}

/// Whether so many seeds and one more give that text, or that refusal.
fn have_text(
    alloc: Global,
    count: usize,
    last: &[u8],
    text: &Result<[u8; 64], SeedsFault>,
) -> Result<bool, OutOfMemory> {
    let seeds = seeds_of(alloc, count, last)?;
    Ok(program_text(&seeds) == *text)
}

/// How many seeds of the greatest length are before the last, and the text of their key.
const PROGRAM_KEYS: [(usize, &[u8], Result<[u8; 64], SeedsFault>); 6] = [
    (
        0,
        b"vault\xff",
        Ok(*b"1cb56705d56537440110cb00045d83f88897acc19405e8ddcd80a02e6c263457"),
    ),
    (
        15,
        &LONGEST,
        Ok(*b"e61eada5d8aff5551a4b239c372393a5db7e85494ebf07d27c1ff03b906db934"),
    ),
    (0, &LONG, Err(SeedsFault::TooLong)),
    (15, &LONG, Err(SeedsFault::TooLong)),
    (16, b"", Err(SeedsFault::TooMany)),
    (16, &LONG, Err(SeedsFault::TooMany)),
];

#[test]
fn keys_of_a_program_are_derived(rt: HostRuntime) {
    for (count, last, text) in &PROGRAM_KEYS {
        assert!(rt; have_text(rt.alloc(), *count, last, text) == Ok(true));
    }
}
