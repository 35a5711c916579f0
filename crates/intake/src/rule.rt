//! The ring, its rule, and what a step of it tells.
use crate::ticket::Ticket;
use crossbeam_queue::RuledArrayQueue;
use crossbeam_queue::protocol::{Join, Lesson, Outcome, Protocol, Split};
use std::collections::LinkedList;

/// What a pass of the ring knows. It exists in proofs alone: no value of it is made.
pub struct PassView {
    /// Whether it is the pass of the taker, which alone makes seats and takes tickets.
    pub takes: bool,
    /// How many seats it made.
    pub made: u32,
    /// The tickets that it took.
    pub taken: LinkedList<Ticket>,
    /// The senders whose passes it took in, each with all that it sent.
    pub joined: LinkedList<(u32, LinkedList<Ticket>)>,
    /// The sender that it sends for.
    pub sender: Option<u32>,
    /// The tickets that it sent.
    pub sent: LinkedList<Ticket>,
}

/// Each sender's tickets come in the order in which they were sent, and none is lost.
pub struct InOrder;

impl Protocol<Ticket, PassView> for InOrder {
    ghost use Rattle.intake.specs.Rule.{Rule, first_view};

    ghost holds = { Rule };

    ghost first = { first_view };
}

/// A seat is made, and later joined again.
pub struct Seating;

impl Split<PassView> for Seating {
    ghost use Rattle.intake.specs.Rule.{with_seat_made, seated};

    ghost left = { with_seat_made };

    ghost right = { seated };
}

impl Join<PassView> for Seating {
    ghost use Rattle.intake.specs.Rule.{with_joined, spent_view};

    ghost both = { with_joined };

    ghost spent = { spent_view };
}

/// A ticket is sent.
pub struct Sending;

impl Outcome<Ticket, PassView> for Sending {
    ghost use Rattle.intake.specs.Rule.{with_sent};
    ghost use Rattle.std.specs.Prelude.{◌≡◌};

    ghost then = { λ v x w. w ≡ with_sent v x };
}

impl Lesson<Ticket, PassView> for Sending {
    ghost use Rattle.intake.specs.Rule.{Stands};

    ghost fact = { Stands };
}

/// A ticket is taken.
pub struct Taking;

impl Outcome<Ticket, PassView> for Taking {
    ghost use Rattle.intake.specs.Rule.{Takes};

    ghost then = { Takes };
}

impl Lesson<Ticket, PassView> for Taking {
    ghost use Rattle.intake.specs.Rule.{Stands};

    ghost fact = { Stands };
}

/// What was taken, and then the ring, is what the joined senders sent.
pub struct Balance;

impl Lesson<Ticket, PassView> for Balance {
    ghost use Rattle.intake.specs.Rule.{Balances};

    ghost fact = { Balances };
}

pub type Ring = RuledArrayQueue<Ticket, PassView, InOrder>;
