//! Bytes of any number in a JSON text.
ghost use Rattle.std.specs.Prelude.{◌≡◌, ◌≤◌, IfOk, length};
ghost use Rattle.spec_base.specs.Reading.{Gives};
ghost use Rattle.serde_json.specs.View.{view};
ghost use Rattle.json_parts.specs.Faults.{is_json_memory};
ghost use Rattle.json_parts.specs.Parts.{spelled_in, alone_in, data_in, member_in};

use crate::fault::{JsonFault, Wanted, in_member, refused};
use crate::parts::{found, known};
use base64::DecodeAllocError;
use base64::engine::general_purpose::STANDARD;
use hex::FromHexError;
use serde_json::Value;
use sol_base::{Blob, OutOfMemory};
use std::alloc::Global;

/// How a text spells bytes.
trait Spelling {
    ghost use Rattle.std.specs.Prelude.{◌≡◌, List, ℕ, Option, IfOk, option_map};

    ghost bytes_of: { List ℕ → Option (List ℕ) };

    /// The bytes that the text spells. None where it spells none.
    fn bytes(alloc: Global, text: &str) -> Result<Option<Blob>, OutOfMemory>
        ensures { IfOk result (λ found. option_map (λ bytes. bytes) found ≡ bytes_of text.now) };
}

/// Hexadecimal digits.
struct Hex;

/// Base64 with its padding (RFC 4648, section 4).
struct Base64;

/// The text as it is.
struct Plain;

impl Spelling for Hex {
    ghost use Rattle.json_parts.specs.Parts.{hex_bytes};

    ghost bytes_of = { hex_bytes };

    fn bytes(alloc: Global, text: &str) -> Result<Option<Blob>, OutOfMemory> {
        match hex::decode(alloc, text) {
            Ok(bytes) => Ok(Some(Blob::from_slice(alloc, &bytes)?)),
            Err(FromHexError::OutOfMemory) => Err(OutOfMemory),
            Err(_) => Ok(None),
        }
    }
}

impl Spelling for Base64 {
    ghost use Rattle.json_parts.specs.Parts.{base64_bytes};

    ghost bytes_of = { base64_bytes };

    #[tactic(auto, unfolding(base64::specs::GeneralPurpose::decoded_of))]
    fn bytes(alloc: Global, text: &str) -> Result<Option<Blob>, OutOfMemory> {
        match STANDARD.decode(alloc, text.as_bytes()) {
            Ok(bytes) => Ok(Some(Blob::from_slice(alloc, &bytes)?)),
            Err(DecodeAllocError::OutOfMemory) => Err(OutOfMemory),
            Err(_) => Ok(None),
        }
    }
}

impl Spelling for Plain {
    ghost use Rattle.json_parts.specs.Parts.{text_bytes};

    ghost bytes_of = { text_bytes };

    fn bytes(alloc: Global, text: &str) -> Result<Option<Blob>, OutOfMemory> {
        Ok(Some(Blob::from_slice(alloc, text.as_bytes())?))
    }
}

/// No more bytes than these, which a text spells.
#[tactic(auto, unfolding(crate::specs::Parts::spelled_in))]
fn spelled<S: Spelling>(alloc: Global, value: &Value, most: usize) -> Result<Blob, JsonFault>
    ensures gives { Gives is_json_memory (λ bytes. bytes) result
        (spelled_in S.bytes_of most (view value.now)) }
    ensures fits { IfOk result (λ bytes. length bytes ≤ most) }
{
    let text = match value.as_str() {
        Some(text) => text,
        None => return Err(refused(alloc, Wanted::Bytes { most })),
    };
    match S::bytes(alloc, text)? {
        Some(bytes) if bytes.len() <= most => Ok(bytes),
        _ => Err(refused(alloc, Wanted::Bytes { most })),
    }
}

/// No more bytes than these, which the one member of this name spells.
#[tactic(auto, unfolding(crate::specs::Parts::alone_in, crate::specs::Parts::member_in))]
fn alone<S: Spelling>(
    alloc: Global,
    value: &Value,
    name: &str,
    most: usize,
) -> Result<Blob, JsonFault>
    ensures gives { Gives is_json_memory (λ bytes. bytes) result
        (alone_in name.now (spelled_in S.bytes_of most) (view value.now)) }
    ensures fits { IfOk result (λ bytes. length bytes ≤ most) }
{
    known(alloc, value, &[name])?;
    let found = found(alloc, value, name)?;
    in_member(alloc, name, spelled::<S>(alloc, found, most))
}

#[tactic(auto, unfolding(crate::specs::Parts::data_in))]
fn data(alloc: Global, value: &Value, most: usize) -> Result<Blob, JsonFault>
    ensures gives { Gives is_json_memory (λ bytes. bytes) result (data_in most (view value.now)) }
    ensures fits { IfOk result (λ bytes. length bytes ≤ most) }
{
    if value.get("hex").is_some() {
        alone::<Hex>(alloc, value, "hex", most)
    } else if value.get("base64").is_some() {
        alone::<Base64>(alloc, value, "base64", most)
    } else if value.get("text").is_some() {
        alone::<Plain>(alloc, value, "text", most)
    } else {
        spelled::<Hex>(alloc, value, most)
    }
}

/// What the member of that name stands for: no more bytes than these, as hexadecimal digits or as an
/// object whose one member `hex`, `base64` or `text` says how they are spelled.
#[tactic(auto, unfolding(crate::specs::Parts::member_in))]
pub fn data_member(alloc: Global, value: &Value, name: &str, most: usize) -> Result<Blob, JsonFault>
    ensures gives { Gives is_json_memory (λ bytes. bytes) result
        (member_in name.now (data_in most) (view value.now)) }
    ensures fits { IfOk result (λ bytes. length bytes ≤ most) }
{
    let found = found(alloc, value, name)?;
    in_member(alloc, name, data(alloc, found, most))
}
