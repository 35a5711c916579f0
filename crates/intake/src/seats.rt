//! Seats at the intake: those of the senders, and the taker's.
ghost use Rattle.std.specs.Prelude.{◌≡◌, [], length, Some, true};
ghost use Rattle.crossbeam_queue.specs.Passes.{view};

use crate::rule::PassView;
use crate::ticket::Ticket;
use crossbeam_queue::Pass;

/// The right to send for one sender.
#[derive(Drop)]
pub struct SendSeat {
    pub(crate) pass: Pass<Ticket, PassView>,
    pub(crate) sender: u32,
    // The place of the next ticket.
    pub(crate) place: u32,
    ghost no_slot: { pass.me.1 ≡ [] },
    ghost sender_is: { (view pass).sender ≡ Some sender },
    ghost place_is: { place ≡ length (view pass).sent },
}

/// The right to take.
#[derive(Drop)]
pub struct TakeSeat {
    pub(crate) pass: Pass<Ticket, PassView>,
    ghost no_slot: { pass.me.1 ≡ [] },
    ghost takes: { (view pass).takes ≡ true },
    ghost none_joined: { (view pass).joined ≡ [] },
}
