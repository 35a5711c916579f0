//! What senders hand over.
use message_codec::Parsed;

/// A parsed transaction, with its sender, its place among the tickets of that sender from 0 on, and
/// its position in the batch.
#[derive(Drop)]
pub struct Ticket {
    pub sender: u32,
    pub place: u32,
    pub position: u32,
    pub parsed: Parsed,
}

/// There was no room in the ring. What was parsed comes back.
#[derive(Drop)]
pub struct Full {
    pub parsed: Parsed,
}
