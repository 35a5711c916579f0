//! What is in the slot of a desk.
ghost use Rattle.std.specs.Prelude.{◌≡◌, ◌≤◌};

use bank_core::{Core, Origin, Work};
use proof_note::Note;

/// What a desk tells: what its core began with, and its number of lanes. No value of it is made.
pub struct DeskOrigin<T> {
    pub origin: Origin<T>,
    pub lanes: u32,
}

/// What is in the slot: the core, and how many lanes are drawn. The core is boxed, so that a
/// turn moves a pointer.
#[derive(Drop)]
pub struct Kept<W: Work> {
    pub core: Box<Core<W>>,
    pub drawn: u32,
    ghost below: { drawn ≤ core.value.lanes },
}

/// What the desk of a core tells.
pub(crate) fn origin_of<W: Work>(core: &Core<W>) -> Note<DeskOrigin<W::Told>>
    ensures { result.value ≡ record { origin = core.now.origin.value; lanes = core.now.lanes } }
{
    Note::told_by(core)
}
