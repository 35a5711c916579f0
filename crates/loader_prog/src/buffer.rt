//! The data of buffers: a magic, the key of an authority and an image.
ghost use Rattle.std.specs.Prelude.{◌≡◌, ◌+◌, ◌≤◌, length, unwrap_or, IfOk};
ghost use Rattle.sol_base.specs.Keys.{same_key};
ghost use Rattle.spec_base.specs.Bytes.{with_bytes};
ghost use Rattle.loader_prog.specs.Buffers.{authority_in, has_byte, image_at, is_blank, is_buffer, is_final, rest_in};
ghost use Rattle.loader_prog.specs.Loader.{head_of};

use sol_base::{Blob, Key, OutOfMemory};
use std::alloc::Global;

/// What a buffer begins with.
const BUFFER_MAGIC: [u8; 8] = *b"SBPFBUF1";

/// What it begins with once it is final.
pub(crate) const FINAL_MAGIC: [u8; 8] = *b"SBPFFIN1";

/// Where the key of the authority is.
pub(crate) const AUTHORITY_AT: usize = 8;

/// Where the image begins.
pub(crate) const IMAGE_AT: usize = 40;

/// Whether the data are those of a buffer.
pub(crate) fn holds_buffer(bytes: &[u8]) -> bool
    ensures { result ≡ is_buffer bytes.now }
{
    bytes.len() >= IMAGE_AT && bytes.starts_with(&BUFFER_MAGIC)
}

/// Whether the data are those of a final buffer.
pub(crate) fn holds_final(bytes: &[u8]) -> bool
    ensures { result ≡ is_final bytes.now }
{
    bytes.len() >= IMAGE_AT && bytes.starts_with(&FINAL_MAGIC)
}

/// Whether nothing is where the magic of a buffer goes.
pub(crate) fn holds_nothing(bytes: &[u8]) -> bool
    requires { image_at ≤ length bytes.now }
    ensures { result ≡ is_blank bytes.now }
{
    !has_byte_set(&bytes[..AUTHORITY_AT])
}

fn has_byte_set(bytes: &[u8]) -> bool
    ensures { result ≡ has_byte bytes.now }
{
    bytes.iter().any(|byte| *byte != 0)
}

/// Whether the key is the authority of the buffer.
pub(crate) fn has_authority(bytes: &[u8], key: &Key) -> bool
    requires { image_at ≤ length bytes.now }
    ensures { result ≡ same_key key.now (authority_in bytes.now) }
{
    key.0.as_slice() == &bytes[AUTHORITY_AT..IMAGE_AT]
}

/// The image of a buffer.
pub(crate) fn image_of(bytes: &[u8]) -> &[u8]
    requires { image_at ≤ length bytes.now }
    ensures { result.now ≡ rest_in bytes.now }
{
    &bytes[IMAGE_AT..]
}

/// What a buffer of that authority begins with.
pub(crate) fn head(alloc: Global, authority: &Key) -> Result<Blob, OutOfMemory>
    ensures value { IfOk result (λ bytes. bytes ≡ head_of authority.now) }
    ensures len { IfOk result (λ bytes. length bytes ≡ image_at) }
{
    let mut bytes = Blob::from_slice(alloc, &BUFFER_MAGIC)?;
    bytes.append(&authority.0)?;
    Ok(bytes)
}

/// The data with other bytes from a place on, in one copy; nothing where those bytes are there.
pub(crate) fn patched(
    alloc: Global,
    bytes: &[u8],
    at: usize,
    piece: &[u8],
) -> Result<Option<Blob>, OutOfMemory>
    requires { at + length piece.now ≤ length bytes.now }
    ensures { IfOk result (λ after. unwrap_or after bytes.now ≡ with_bytes bytes.now at piece.now) }
{
    let end = at + piece.len();
    if &bytes[at..end] == piece {
        return Ok(None);
    }
    let mut after = Blob::with_capacity(alloc, bytes.len())?;
    after.append(&bytes[..at])?;
    after.append(piece)?;
    after.append(&bytes[end..])?;
    Ok(Some(after))
}
