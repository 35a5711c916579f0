//! The texts of the tables.
ghost use Rattle.std.specs.Prelude.{◌≡◌, ◌++◌, IfOk, OnOk};
ghost use Rattle.hex.specs.Hex.{encode_lower};
ghost use Rattle.ledger_tables.specs.Texts.{items_json, key_digits, key_json, keys_json, others_json, signature_digits};

use hex::encode_to_slice;
use message_codec::Signature;
use sol_base::{Blob, Hash32, Key, OutOfMemory, key_text};
use std::alloc::Global;

/// The digits of a key.
pub(crate) fn key_digits(alloc: Global, key: &Key) -> Result<Blob, OutOfMemory>
    ensures { IfOk result (λ text. text ≡ key_digits key.now) }
{
    Blob::from_slice(alloc, &key_text(key))
}

/// The digits of a hash.
pub(crate) fn hash_digits(alloc: Global, hash: &Hash32) -> Result<Blob, OutOfMemory>
    ensures { IfOk result (λ text. text ≡ encode_lower hash.now.0) }
{
    let mut digits = [0; 64];
    let _ = encode_to_slice(&hash.0, &mut digits);
    Blob::from_slice(alloc, &digits)
}

/// The digits of a signature.
pub(crate) fn signature_digits(alloc: Global, signature: &Signature) -> Result<Blob, OutOfMemory>
    ensures { IfOk result (λ text. text ≡ signature_digits signature.now) }
{
    let mut digits = [0; 128];
    let _ = encode_to_slice(&signature.0, &mut digits);
    Blob::from_slice(alloc, &digits)
}

/// Adds a key in quotes, or null.
fn append_key(text: &mut Blob, key: &Option<Key>) -> Result<(), OutOfMemory>
    ensures { OnOk result (text.new ≡ text.old ++ key_json key.now) }
{
    match key {
        None => text.append(b"null"),
        Some(key) => {
            text.append(b"\"")?;
            text.append(&key_text(key))?;
            text.append(b"\"")
        }
    }
}

/// Adds each key behind a comma.
fn append_others(text: &mut Blob, keys: &[Option<Key>]) -> Result<(), OutOfMemory>
    ensures { OnOk result (text.new ≡ text.old ++ others_json keys.now) }
{
    for key in keys {
        text.append(b",")?;
        append_key(text, key)?;
    }
    Ok(())
}

/// Adds the keys with commas between them.
fn append_keys(text: &mut Blob, keys: &[Option<Key>]) -> Result<(), OutOfMemory>
    ensures { OnOk result (text.new ≡ text.old ++ items_json keys.now) }
{
    match keys {
        [] => Ok(()),
        [first, others @ ..] => {
            append_key(text, first)?;
            append_others(text, others)
        }
    }
}

/// The keys as a JSON array.
pub(crate) fn keys_json(alloc: Global, keys: &[Option<Key>]) -> Result<Blob, OutOfMemory>
    ensures { IfOk result (λ text. text ≡ keys_json keys.now) }
{
    let mut text = Blob::from_slice(alloc, b"[")?;
    append_keys(&mut text, keys)?;
    text.append(b"]")?;
    Ok(text)
}
