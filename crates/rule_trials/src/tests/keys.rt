//! Published hashes, the keys that are fixed, and texts.
use sol_base::{
    CLOCK_SYSVAR, COMPUTE_BUDGET_PROGRAM, Key, LOADER_PROGRAM, RENT_SYSVAR, SYSTEM_PROGRAM, hash,
    is_text, key_text,
};

/// The one-block example of FIPS 180-4, and the digest of no bytes.
const DIGESTS: [(&[u8], [u8; 64]); 2] = [
    (
        b"abc",
        *b"ba7816bf8f01cfea414140de5dae2223b00361a396177a9cb410ff61f20015ad",
    ),
    (
        b"",
        *b"e3b0c44298fc1c149afbf4c8996fb92427ae41e4649b934ca495991b7852b855",
    ),
];

#[test]
fn hashes_are_as_published(rt: HostRuntime) {
    for (bytes, text) in &DIGESTS {
        assert!(rt; key_text(&Key(hash(bytes).0)) == *text);
    }
}

/// The keys that are fixed, and their texts.
const NAMED: [(Key, [u8; 64]); 5] = [
    (
        SYSTEM_PROGRAM,
        *b"0000000000000000000000000000000000000000000000000000000000000000",
    ),
    (
        COMPUTE_BUDGET_PROGRAM,
        *b"0306466fe5211732ffecadba72c39be7bc8ce5bbc5f7126b2c439b3a40000000",
    ),
    (
        CLOCK_SYSVAR,
        *b"06a7d51718c774c928566398691d5eb68b5eb8a39b4b6d5c73555b2100000000",
    ),
    (
        RENT_SYSVAR,
        *b"06a7d517192c5c51218cc94c3d4af17f58daee089ba1fd44e3dbd98a00000000",
    ),
    (
        LOADER_PROGRAM,
        *b"1d1d1d1d1d1d1d1d1d1d1d1d1d1d1d1d1d1d1d1d1d1d1d1d1d1d1d1d1d1d1d1d",
    ),
];

#[test]
fn keys_are_as_solana_names_them(rt: HostRuntime) {
    for (key, text) in &NAMED {
        assert!(rt; key_text(key) == *text);
    }
}

/// The first and the last character of each length in UTF-8, and bytes that RFC 3629 refuses.
const TEXTS: [(&[u8], bool); 14] = [
    (b"", true),
    (b"\x7f", true),
    (b"\xc2\x80", true),
    (b"\xdf\xbf", true),
    (b"\xe0\xa0\x80", true),
    (b"\xef\xbf\xbf", true),
    (b"\xf0\x90\x80\x80", true),
    (b"\xf4\x8f\xbf\xbf", true),
    (b"\x80", false),
    (b"\xc0\xaf", false),
    (b"\xe2\x89", false),
    (b"\xed\xa0\x80", false),
    (b"\xf4\x90\x80\x80", false),
    (b"a\xff", false),
];

#[test]
fn texts_are_told(rt: HostRuntime) {
    for (bytes, text) in &TEXTS {
        assert!(rt; is_text(bytes) == *text);
    }
}
