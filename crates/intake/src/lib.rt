//! The intake of a block: several senders parse its transactions at once, each in order, and hand
//! them over through one bounded ring.
#![tactic(auto)]

mod gate;
mod gathering;
mod ring;
mod rule;
mod seats;
mod ticket;

pub use gate::{OpenSend, SendGate};
pub use gathering::{Arrival, Gathered, gather};
pub use ring::{Intake, Opened};
pub use seats::{SendSeat, TakeSeat};
pub use ticket::{Full, Ticket};
