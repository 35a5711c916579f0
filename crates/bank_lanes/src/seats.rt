//! The seats of the lanes in a wave.
ghost use Rattle.std.specs.Prelude.{◌≡◌, None, Some, false, IfOk, length, All};
ghost use Rattle.bank_lanes.specs.Seats.{AreNewSeats, IsEmptySeat, IsLoanOfWork, IsNewSeat, IsPerformed, PassesIts};

use crate::gate::{Gate, Passes};
use bank_core::{Effects, Loan, Work};
use sol_base::OutOfMemory;
use std::alloc::Global;
use std::mem;

/// A lane in a wave: what it was lent, what its work gave, whether it has given anything back, and its
/// passes.
pub(crate) struct Seat<W: Work> {
    pub(crate) loan: Option<Loan<W>>,
    pub(crate) effects: Option<Effects>,
    pub(crate) gave_back: bool,
    pub(crate) passes: Passes,
}

impl<W: Work> Seat<W> {
    /// The seat of a lane that was lent nothing yet.
    fn new(lane: u32) -> Seat<W>
        ensures { IsNewSeat lane result }
    {
        Seat {
            loan: None,
            effects: None,
            gave_back: false,
            passes: Passes::none(lane),
        }
    }

    /// Takes a loan into the seat.
    pub(crate) fn hold(&mut self, loan: Loan<W>)
        requires { self.old.loan ≡ None }
        ensures { self.new ≡ record self.old { loan = Some loan } }
    {
        match mem::replace(&mut self.loan, Some(loan)) {
            None => {}
            Some(_) => unreachable!(),
        }
    }

    /// Passes the gate and performs the loan, if there is one.
    pub(crate) fn perform<G: Gate>(&mut self, work: &W, gate: &G)
        requires { IsLoanOfWork (W.told work.now) self.old }
        ensures loan { self.new.loan ≡ self.old.loan }
        ensures gave_back { self.new.gave_back ≡ self.old.gave_back }
        ensures passes { PassesIts (G.is_passed gate.now) self.old.loan self.old.passes
            self.new.passes }
        ensures done { IsPerformed (G.is_passed gate.now) (W.job (W.told work.now)) self.new }
    {
        if let Some(loan) = &self.loan {
            self.passes.pass(gate, loan.position());
            self.effects = work.perform(loan.position(), loan.values()).ok();
        }
    }
}

/// An empty seat for each lane.
pub(crate) fn seats_of<W: Work>(alloc: Global, lanes: u32) -> Result<Vec<Seat<W>>, OutOfMemory>
    ensures long { IfOk result (λ seats. length seats.items ≡ lanes) }
    ensures new { IfOk result (λ seats. AreNewSeats seats.items) }
{
    let mut seats = Vec::with_capacity(alloc, lanes as usize)?;
    for lane in 0..lanes {
        seats.push_reserved(Seat::new(lane));
    }
    Ok(seats)
}

/// Leaves seats in which nobody sits any more.
pub(crate) fn leave_all<W: Work>(mut seats: Vec<Seat<W>>)
    requires { All IsEmptySeat seats.items }
{
    while let Some(seat) = seats.pop() {
        let Seat {
            loan,
            effects: _,
            gave_back: _,
            passes: _,
        } = seat;
        match loan {
            None => {}
            Some(_) => unreachable!(),
        }
    }
    seats.destroy_empty();
}
