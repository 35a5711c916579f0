//! Verified texts.
ghost use Rattle.std.specs.Prelude.{◌≡◌, MatchResult, Some};
ghost use Rattle.sbpf_verify.specs.Places.{is_start};
ghost use Rattle.sbpf_verify.specs.Verified.{IsVerified, unfit};

use crate::fault::VerifyFault;
use crate::refusal::text_refusal;
use sbpf_rules::is_start;
use sol_base::Blob;
use std::marker::Model;
use thiserror::Error;

/// A text that the verifier lets pass: no row of its table of refusals applies to it.
#[derive(Drop)]
pub struct Verified {
    text: Blob,
}

impl Model for Verified {
    ghost use Rattle.std.specs.Prelude.{ℕ, List};
    ghost use Rattle.sbpf_verify.specs.Verified.{IsVerified};

    ghost Value = { List ℕ };

    ghost view = { λ v. v.text };

    ghost invariant = { λ v. IsVerified v.text };
}

/// A text that is refused, and why.
#[derive(Debug, Drop, Error)]
#[error("{cause}")]
pub struct Unfit {
    pub cause: VerifyFault,
    pub text: Blob,
}

/// Why a text is refused. None exactly where `verify` lets it pass; no memory is taken.
pub fn first_refusal(text: &[u8]) -> Option<VerifyFault>
    ensures { result ≡ unfit text.now }
{
    text_refusal(text)
}

/// Verifies a text, in one pass over its slots. A refused text is handed back.
pub fn verify(text: Blob) -> Result<Verified, Unfit>
    ensures { MatchResult result
        (λ verified. (verified ≡ text) × IsVerified text)
        (λ refused. (refused.text ≡ text) × (unfit text ≡ Some refused.cause)) }
{
    match text_refusal(text.as_slice()) {
        None => Ok(Verified { text }),
        Some(cause) => Err(Unfit { cause, text }),
    }
}

impl Verified {
    pub fn text(&self) -> &[u8]
        ensures value { result.now ≡ self.now }
        ensures verified { IsVerified self.now }
    {
        self.text.as_slice()
    }

    /// Whether a slot of this index is there in which an instruction starts.
    pub fn is_start(&self, index: usize) -> bool
        ensures { result ≡ is_start self.now index }
    {
        is_start(self.text.as_slice(), index)
    }
}
