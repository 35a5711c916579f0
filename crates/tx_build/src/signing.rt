//! Signatures that are filled in by a rule.
ghost use Rattle.std.specs.Prelude.{◌≡◌, ◌++◌, IfOk, map};
ghost use Rattle.message_codec.specs.Wire.{HasShortLists, AllowsLookups};
ghost use Rattle.tx_build.specs.Signing.{signature_of, signer_keys, signed};

use message_codec::{Message, Signature, Tx, message_key};
use sha2::{Digest, Sha256};
use sol_base::{Hash32, Items, Key, OutOfMemory};
use std::alloc::Global;

/// 32 bytes, and 32 more.
fn joined(first: &[u8; 32], second: &[u8; 32]) -> [u8; 64]
    ensures { result ≡ first.now ++ second.now }
{
    let mut bytes = [0; 64];
    bytes[..32].copy_from_slice(first);
    bytes[32..].copy_from_slice(second);
    bytes
}

fn signature_of(name: &Hash32, key: &Key) -> Signature
    ensures { result ≡ signature_of name.now key.now }
{
    let mut hasher = Sha256::new();
    hasher.update(&name.0);
    hasher.update(&key.0);
    let second = hasher.finalize();
    Signature(joined(&name.0, &second))
}

/// The keys that sign.
fn signer_keys(message: &Message) -> &[Key]
    ensures { result.now ≡ signer_keys message.now }
{
    let keys = message.keys.as_slice();
    let required = usize::from(message.header.required);
    if required < keys.len() {
        &keys[..required]
    } else {
        keys
    }
}

fn signatures_of(
    alloc: Global,
    message: &Message,
    name: &Hash32,
) -> Result<Items<Signature>, OutOfMemory>
    ensures { IfOk result (λ all. all ≡ map (signature_of name.now) (signer_keys message.now)) }
{
    let mut signatures = Items::new(alloc);
    let keys = signer_keys(message);
    for key in keys {
        signatures.push(signature_of(name, key))?;
    }
    Ok(signatures)
}

/// The transaction of the message.
pub(crate) fn signed(alloc: Global, message: Message) -> Result<Tx, OutOfMemory>
    requires lists { HasShortLists message }
    requires allows { AllowsLookups message.kind message.lookups }
    ensures { IfOk result (λ tx. tx ≡ signed message) }
{
    let name = message_key(alloc, &message)?;
    let signatures = signatures_of(alloc, &message, &name)?;
    Ok(Tx {
        signatures,
        message,
    })
}
