//! A note, and one that another thread looks at.
ghost use Rattle.std.specs.Prelude.{◌≡◌};

use proof_note::Note;
use std::mem::size_of;
use std::thread::{Threads, join};

/// What a struct was made from, beside nothing else.
fn noted(from: &u64) -> Note<u64>
    ensures { result.value ≡ from.now }
{
    Note::told_by(from)
}

/// A note that another thread looks at, and what it hands back.
fn crossed(rt: &impl Threads, note: &Note<u64>) -> (Note<u64>, Note<u64>)
    ensures theirs { result.0.value ≡ note.now.value }
    ensures ours { result.1.value ≡ note.now.value }
{
    join(rt, || note.again(), || note.again())
}

#[test]
fn a_note_takes_no_bytes() {
    prove!(size_of::<Note<u64>>() == 0);
}

#[test]
fn a_note_crosses_threads(rt: HostRuntime) {
    let _both = crossed(&rt, &noted(&7));
}
