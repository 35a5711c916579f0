//! The events of the core machine.
/// What happens to a position: it is lent to a lane, its effects are taken, or it is given back.
#[derive(Clone, Copy, PartialEq, Eq)]
pub enum EventKind {
    Grant,
    Commit,
    Return,
}

/// One step of a run: what happens, by which lane, and to which position.
#[derive(Clone, Copy, PartialEq, Eq)]
pub struct Event {
    pub kind: EventKind,
    pub lane: u32,
    pub position: u32,
}
