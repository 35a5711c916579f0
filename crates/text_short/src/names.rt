//! Keys in digits and by name.
ghost use Rattle.std.specs.Prelude.{◌≡◌};
ghost use Rattle.std.specs.List.{list_all};
ghost use Rattle.text_short.specs.Names.{is_name_byte, is_like_a_key, is_name, program_named, key_of_digits, key_of_name, key_wanted, named_key};

use hex::FromHex;
use json_parts::{JsonFault, Wanted, is_digits, refused};
use sol_base::{COMPUTE_BUDGET_PROGRAM, Key, LOADER_PROGRAM, SYSTEM_PROGRAM, hash};
use std::alloc::Global;

fn is_name_byte(byte: u8) -> bool
    ensures { result ≡ is_name_byte byte }
{
    byte.is_ascii_alphanumeric() || byte == b'_' || byte == b'-' || byte == b'.'
}

fn are_name_bytes(text: &[u8]) -> bool
    ensures { result ≡ list_all is_name_byte text.now }
{
    text.iter().all(|byte| is_name_byte(*byte))
}

/// So many digits alone are a key that was mistyped.
fn is_like_a_key(text: &str) -> bool
    ensures { result ≡ is_like_a_key text.now }
{
    16 <= text.len() && is_digits(text)
}

fn is_name(text: &str) -> bool
    ensures { result ≡ is_name text.now }
{
    let bytes = text.as_bytes();
    are_name_bytes(bytes)
        && 0 < bytes.len()
        && bytes.len() <= 31
        && bytes[0].is_ascii_alphabetic()
        && !is_like_a_key(text)
}

#[tactic(auto, unfolding(crate::specs::Names::program_named))]
fn program_named(text: &str) -> Option<Key>
    ensures { result ≡ program_named text.now }
{
    match text {
        "system" => Some(SYSTEM_PROGRAM),
        "loader" => Some(LOADER_PROGRAM),
        "budget" => Some(COMPUTE_BUDGET_PROGRAM),
        _ => None,
    }
}

fn key_of_digits(text: &str) -> Option<Key>
    ensures { result ≡ key_of_digits text.now }
{
    match <[u8; 32] as FromHex>::from_hex(text) {
        Ok(key) => Some(Key(key)),
        Err(_) => None,
    }
}

fn key_of_name(text: &str) -> Option<Key>
    ensures { result ≡ key_of_name text.now }
{
    if is_name(text) {
        Some(Key(hash(text.as_bytes()).0))
    } else {
        None
    }
}

/// What is wanted in place of a text that stands for no key.
fn key_wanted(text: &str) -> Wanted
    ensures { result ≡ key_wanted text.now }
{
    if is_digits(text) {
        Wanted::DigitCount {
            bytes: 32,
            found: text.len(),
        }
    } else {
        Wanted::KeyOrName
    }
}

/// The key that a text stands for (the project's own rule): 64 hexadecimal digits are the key itself;
/// `system`, `loader` and `budget` are those programs; any other name stands for the SHA-256 of its
/// bytes. A name has 1 to 31 letters, digits, `_`, `-` and `.`, begins with a letter, and is not of 16
/// or more hexadecimal digits alone. All other texts are refused, so that no mistyped key is a name.
#[tactic(auto, unfolding(crate::specs::Names::named_key))]
pub fn named_key(alloc: Global, text: &str) -> Result<Key, JsonFault>
    ensures { result ≡ named_key text.now }
{
    if let Some(program) = program_named(text) {
        return Ok(program);
    }
    if let Some(key) = key_of_digits(text) {
        return Ok(key);
    }
    match key_of_name(text) {
        Some(key) => Ok(key),
        None => Err(refused(alloc, key_wanted(text))),
    }
}
