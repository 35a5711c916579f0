//! The image that an account holds.
ghost use Rattle.std.specs.Prelude.{◌≡◌};
ghost use Rattle.loader_prog.specs.Buffers.{candidate_in};

use sbpf_verify::{first_refusal, read_image};

/// What bytes are as a program.
#[derive(Clone, Copy, PartialEq, Eq)]
pub(crate) enum Candidate {
    /// They are no image.
    NoImage,
    /// They are an image whose text the verifier refuses.
    Unverified,
    /// They are an image with a verified text.
    Verified,
}

/// What the bytes are as a program.
pub(crate) fn examine(bytes: &[u8]) -> Candidate
    ensures { result ≡ candidate_in bytes.now }
{
    let Some(image) = read_image(bytes) else {
        return Candidate::NoImage;
    };
    match first_refusal(image.text) {
        None => Candidate::Verified,
        Some(_) => Candidate::Unverified,
    }
}
