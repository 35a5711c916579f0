//! What a folder did, noted.
ghost use Rattle.std.specs.Prelude.{◌≡◌, ◌∷◌, []};
ghost use Rattle.ledger_folder.specs.declared.event.Event.TheVariants.{Wrote, Synced, Spoiled, Renamed, RenameFailed, FolderSynced, Read, Listed};

use crate::event::Event;
use crate::name::Name;
use proof_note::Note;
use sol_base::{Blob, Items};

/// What a folder did so far, the newest first: a note.
pub(crate) type Log = Note<Items<Event>>;

pub(crate) fn nothing() -> Log
    ensures { result.value ≡ [] }
{
    Note::told_by(&())
}

pub(crate) fn wrote(log: &Log, name: Name, bytes: &[u8]) -> Log
    ensures { result.value ≡ Wrote name bytes.now ∷ log.now.value }
{
    Note::told_by(&(log, name, bytes))
}

pub(crate) fn synced(log: &Log, name: Name) -> Log
    ensures { result.value ≡ Synced name ∷ log.now.value }
{
    Note::told_by(&(log, name))
}

pub(crate) fn spoiled(log: &Log, name: Name) -> Log
    ensures { result.value ≡ Spoiled name ∷ log.now.value }
{
    Note::told_by(&(log, name))
}

pub(crate) fn renamed(log: &Log, name: Name) -> Log
    ensures { result.value ≡ Renamed name ∷ log.now.value }
{
    Note::told_by(&(log, name))
}

pub(crate) fn rename_failed(log: &Log, name: Name) -> Log
    ensures { result.value ≡ RenameFailed name ∷ log.now.value }
{
    Note::told_by(&(log, name))
}

pub(crate) fn folder_synced(log: &Log) -> Log
    ensures { result.value ≡ FolderSynced ∷ log.now.value }
{
    Note::told_by(log)
}

pub(crate) fn read(log: &Log, name: Name, found: &Option<Blob>) -> Log
    ensures { result.value ≡ Read name found.now ∷ log.now.value }
{
    Note::told_by(&(log, name, found))
}

pub(crate) fn listed(log: &Log, slots: &Items<u64>) -> Log
    ensures { result.value ≡ Listed slots.now ∷ log.now.value }
{
    Note::told_by(&(log, slots))
}
