//! What is found under a key.
use crate::image::Image;
use sbpf_verify::VerifyFault;

/// What is found under a key.
#[derive(Drop)]
pub enum Found<'a> {
    /// The account's data are an image with a verified text.
    Ready(&'a Image),
    /// The key was not asked for, or it has no account.
    NotFound,
    /// The account is not executable.
    NotProgram,
    /// The data of an executable account are no program image.
    Bad,
    /// The data are an image with a text that is refused.
    Unverified(VerifyFault),
}
