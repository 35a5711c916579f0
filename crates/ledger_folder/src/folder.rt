//! Operations on the files of a folder.
ghost use Rattle.std.specs.Prelude.{◌≡◌, ◌∷◌, ℕ, List, Option, MatchResult};
ghost use Rattle.ledger_folder.specs.declared.event.Event.{Event};
ghost use Rattle.ledger_folder.specs.declared.event.Event.TheVariants.{Wrote, Synced, Spoiled, Renamed, RenameFailed, FolderSynced, Read, Listed};
ghost use Rattle.ledger_folder.specs.declared.failure.Failure.{Failure as FailureValue};
ghost use Rattle.ledger_folder.specs.Counts.{FolderCounts};
ghost use Rattle.ledger_folder.specs.declared.folder.FolderFault.TheVariants.{OutOfMemory as no_memory};

use crate::failure::Failure;
use crate::name::Name;
use sol_base::{Blob, Items, OutOfMemory};
use thiserror::Error;

/// Why a folder did not do what it was asked.
#[derive(Clone, Copy, Debug, PartialEq, Eq, Error)]
pub enum FolderFault {
    /// The folder failed, and has counted it.
    #[error("the folder failed")]
    Failed,
    #[error("out of memory")]
    OutOfMemory,
}

impl From<OutOfMemory> for FolderFault {
    ghost from_gives = { λ _ e. e ≡ no_memory };

    fn from(_e: OutOfMemory) -> FolderFault {
        FolderFault::OutOfMemory
    }
}

/// A folder of files. A file is written beside its place, as `NAME.new`, synced, and moved to its
/// place; the move is sure to outlast a crash once the folder is synced.
///
/// A folder keeps what it did since it was opened. What its files then hold, and what a crash may
/// leave of them, is defined by that.
pub trait Folder {
    /// What it did, the newest first.
    ghost events: { Self → List Event };

    /// How often it failed: a count that never falls.
    ghost faults: { Self → ℕ };

    /// The call of the system that failed last.
    ghost failure: { Self → Option FailureValue };

    /// The call of the system that failed last, as far as the folder knows.
    fn failure(&self) -> Option<Failure>
        ensures { result ≡ failure self.now };

    /// The slots whose blocks have a file, ascending.
    fn blocks(&mut self) -> Result<Items<u64>, FolderFault>
        ensures noted { MatchResult result
            (λ slots. events self.new ≡ Listed slots ∷ events self.old)
            (λ _. events self.new ≡ events self.old) }
        ensures counts { FolderCounts result (faults self.old) (faults self.new) };

    /// All bytes of a file. None where there is no such file.
    fn read(&mut self, name: Name) -> Result<Option<Blob>, FolderFault>
        ensures noted { MatchResult result
            (λ found. events self.new ≡ Read name found ∷ events self.old)
            (λ _. events self.new ≡ events self.old) }
        ensures counts { FolderCounts result (faults self.old) (faults self.new) };

    /// Writes the bytes beside the file, in place of all that is there.
    fn write(&mut self, name: Name, bytes: &[u8]) -> Result<(), FolderFault>
        ensures noted { MatchResult result
            (λ _. events self.new ≡ Wrote name bytes.now ∷ events self.old)
            (λ _. events self.new ≡ Spoiled name ∷ events self.old) }
        ensures counts { FolderCounts result (faults self.old) (faults self.new) };

    /// Sees to it that what was written beside the file is on the disk.
    fn sync(&mut self, name: Name) -> Result<(), FolderFault>
        ensures noted { MatchResult result
            (λ _. events self.new ≡ Synced name ∷ events self.old)
            (λ _. events self.new ≡ Spoiled name ∷ events self.old) }
        ensures counts { FolderCounts result (faults self.old) (faults self.new) };

    /// Moves what was written beside the file to its place.
    fn rename(&mut self, name: Name) -> Result<(), FolderFault>
        ensures noted { MatchResult result
            (λ _. events self.new ≡ Renamed name ∷ events self.old)
            (λ _. events self.new ≡ RenameFailed name ∷ events self.old) }
        ensures counts { FolderCounts result (faults self.old) (faults self.new) };

    /// Sees to it that every move is on the disk.
    fn sync_folder(&mut self) -> Result<(), FolderFault>
        ensures noted { MatchResult result
            (λ _. events self.new ≡ FolderSynced ∷ events self.old)
            (λ _. events self.new ≡ events self.old) }
        ensures counts { FolderCounts result (faults self.old) (faults self.new) };
}
