//! Programs that are ready to run.
ghost use Rattle.std.specs.Prelude.{◌≡◌, ◌+◌, ◌≤◌, ◌++◌, length, IfOk};
ghost use Rattle.std.specs.Arc.{arc_value};
ghost use Rattle.sol_base.specs.Accounts.{max_data_len};

use sbpf_verify::{Decoded, Verified};
use sol_base::{Blob, OutOfMemory};
use std::alloc::Global;
use std::marker::Model;
use std::sync::Arc;

/// A program that is ready to run. Its text is decoded once, and its bytes are held once: frames
/// share both.
#[derive(Drop)]
pub struct Image {
    code: Arc<Decoded>,
    bytes: Arc<Blob>,
}

impl Model for Image {
    ghost use Rattle.std.specs.Prelude.{◌≤◌, length};
    ghost use Rattle.std.specs.Arc.{arc_value};
    ghost use Rattle.sol_base.specs.Accounts.{max_data_len};
    ghost use Rattle.program_cache.specs.Ready.{ReadyImage};

    ghost Value = { ReadyImage };

    ghost view = { λ i. record { text = arc_value i.code; bytes = arc_value i.bytes } };

    ghost invariant = { λ i. length (arc_value i.bytes) ≤ max_data_len };
}

impl Image {
    /// The image of a verified text and its constants.
    pub fn of(alloc: Global, program: Verified, constants: &[u8]) -> Result<Image, OutOfMemory>
        requires { length program + length constants.now ≤ max_data_len }
        ensures { IfOk result (λ image.
            image ≡ record { text = program; bytes = program ++ constants.now }) }
    {
        let text = program.text();
        let mut bytes = Blob::with_capacity(alloc, text.len() + constants.len())?;
        bytes.append(text)?;
        bytes.append(constants)?;
        let program = Arc::new(alloc, program)?;
        let code = Arc::new(alloc, Decoded::of(alloc, program)?)?;
        let bytes = Arc::new(alloc, bytes)?;
        Ok(Image { code, bytes })
    }

    /// The decoded text.
    pub fn code(&self) -> &Arc<Decoded>
        ensures { arc_value result.now ≡ self.now.text }
    {
        &self.code
    }

    /// The text and then the constants, with which a memory begins.
    pub fn bytes(&self) -> &Arc<Blob>
        ensures value { arc_value result.now ≡ self.now.bytes }
        ensures most { length self.now.bytes ≤ max_data_len }
    {
        &self.bytes
    }
}
