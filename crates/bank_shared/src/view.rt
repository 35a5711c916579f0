//! What a seat of a desk knows.
use bank_law::Event;
use std::collections::LinkedList;

/// What a seat knows: its desk, its lanes, a beginning of the history, beyond which these have no
/// event, the same of each pass that was joined into it since it looked, how many lanes it knows to
/// be drawn, how often it has had the turn, and what stood in the slot where it has it now. A spent
/// seat has no desk, and a seat that is being split has no lane. No value of it is made.
pub struct View<O> {
    pub origin: Option<O>,
    pub lanes: LinkedList<u32>,
    pub seen: LinkedList<Event>,
    pub joined: LinkedList<Part>,
    pub drawn: u32,
    pub turns: u64,
    pub turn: Option<(LinkedList<Event>, u32)>,
}

/// Lanes, and a beginning of the history beyond which these have no event. No value of it is made.
pub struct Part {
    pub lanes: LinkedList<u32>,
    pub seen: LinkedList<Event>,
}
