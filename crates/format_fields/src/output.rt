//! Where the bytes of a format go: into a list, into a hash, or into a count.
use sha2::{Digest, Sha256};
use sol_base::{Blob, OutOfMemory};

/// What takes the bytes of a format, piece by piece.
pub trait Output: Sized + Drop {
    ghost use Rattle.std.specs.Prelude.{List, ℕ, [], OnOk, OnErr};
    ghost use Rattle.format_fields.specs.Output.{Adds};

    /// It has taken these bytes.
    ghost holds: { Self → List ℕ → Type 0 };

    /// Takes the piece after what it has taken, and nothing of it where it is refused.
    fn append(&mut self, piece: &[u8]) -> Result<(), OutOfMemory>
        ensures ok { OnOk result (Adds holds self.old self.new piece.now) }
        ensures err { OnErr result (Adds holds self.old self.new []) };
}

impl Output for Blob {
    ghost use Rattle.std.specs.Prelude.{◌≡◌};

    ghost holds = { λ blob taken. blob ≡ taken };

    fn append(&mut self, piece: &[u8]) -> Result<(), OutOfMemory> {
        Blob::append(self, piece)
    }
}

impl Output for Sha256 {
    ghost use Rattle.sha2.specs.Hashers.{Holds256};

    ghost holds = { λ hasher taken. Holds256 hasher taken };

    fn append(&mut self, piece: &[u8]) -> Result<(), OutOfMemory> {
        self.update(piece);
        Ok(())
    }
}

/// A count of bytes, so that one buffer is reserved for them. It ends at the greatest `usize`.
#[derive(Clone, Copy)]
pub struct ByteCount(pub usize);

impl Output for ByteCount {
    ghost use Rattle.std.specs.Prelude.{◌≡◌, ◌-◌, ◌^◌, length, min};

    ghost holds = { λ count taken. count.0 ≡ min (length taken) (2 ^ 64 - 1) };

    fn append(&mut self, piece: &[u8]) -> Result<(), OutOfMemory> {
        self.0 = self.0.saturating_add(piece.len());
        Ok(())
    }
}
