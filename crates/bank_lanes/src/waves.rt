//! Lanes over a core of one's own, wave by wave.
ghost use Rattle.std.specs.Prelude.{◌≡◌, ◌<◌, ◌≤◌, true, false, OnOk, length, All};
ghost use Rattle.std.specs.List.{AllWithin};
ghost use mathlib.Core.List.{IsPrefix};
ghost use Rattle.bank_law.specs.Machine.{NothingHeld};
ghost use Rattle.bank_law.specs.History.{returns};
ghost use Rattle.bank_core.specs.Origins.{state_after, AllDoneAfter};
ghost use Rattle.bank_lanes.specs.Gates.{AreBehind};
ghost use Rattle.bank_lanes.specs.Steps.{GrewBy};
ghost use Rattle.bank_lanes.specs.Seats.{AreNewSeats, HasLeast, IsEmptySeat, IsSeatOf, AreSeats, LendsNone, sitting, IsLoanOfWork, HasItsEffects, IsPerformed, HasPerformed, HasPerformedAt, GrantsAlone, CommitsAlone};

use crate::gate::Gate;
use crate::seats::{Seat, leave_all, seats_of};
use bank_core::{Core, Take, Work};
use sol_base::OutOfMemory;
use std::alloc::Global;
use std::thread;
use std::thread::{Threads, join_mut};

/// Lends the least ready position to a lane, and says whether one was lent.
fn lend_to<W: Work>(core: &mut Core<W>, lane: u32, seat: &mut Seat<W>) -> bool
    requires lane { lane < core.old.lanes }
    requires empty { IsEmptySeat seat.old }
    requires here { seat.old.gave_back ≡ false }
    requires seat { IsSeatOf seat.old core.old.origin.value core.old.journal.items lane }
    ensures origin { core.new.origin.value ≡ core.old.origin.value }
    ensures lanes { core.new.lanes ≡ core.old.lanes }
    ensures grew { GrewBy lane core.old.journal.items core.new.journal.items }
    ensures grants { GrantsAlone core.old.journal.items core.new.journal.items }
    ensures seat { IsSeatOf seat.new core.new.origin.value core.new.journal.items lane }
    ensures lent { result ≡ true
        → HasLeast W.job core.old.origin.value core.old.journal.items seat.new }
    ensures none { result ≡ false
        → LendsNone W.job core.old.origin.value core.old.journal.items core.new.journal.items
        seat.new }
{
    match core.take(lane) {
        Take::Loan(loan) => {
            seat.hold(loan);
            true
        }
        Take::NotNow { held: _ } => false,
        Take::Finished => false,
        Take::OutOfMemory => false,
    }
}

/// Lends to the further lanes, in ascending order, until nothing is lent.
fn lend_to_others<W: Work>(core: &mut Core<W>, seats: &mut [Seat<W>])
    requires long { length seats.old ≡ core.old.lanes }
    requires empty { AllWithin IsEmptySeat seats.old 1 (length seats.old) }
    requires seats { AreSeats seats.old core.old.origin.value core.old.journal.items }
    ensures origin { core.new.origin.value ≡ core.old.origin.value }
    ensures lanes { core.new.lanes ≡ core.old.lanes }
    ensures longer { IsPrefix core.old.journal.items core.new.journal.items }
    ensures grants { GrantsAlone core.old.journal.items core.new.journal.items }
    ensures seats { AreSeats seats.new core.new.origin.value core.new.journal.items }
{
    for lane in 1..core.lanes() {
        let seat = &mut seats[lane as usize];
        if !seat.gave_back && !lend_to(core, lane, seat) {
            return;
        }
    }
}

/// Performs each seat's loan, beside each other.
fn perform_each<W: Work + Sync, G: Gate, R: Threads + Sync>(
    rt: &R,
    work: &W,
    gate: &G,
    seats: &mut [Seat<W>],
)
    requires { All (IsLoanOfWork (W.told work.now)) seats.old }
    ensures long { length seats.new ≡ length seats.old }
    ensures same { sitting seats.new ≡ sitting seats.old }
    ensures done { All (IsPerformed (G.is_passed gate.now) (W.job (W.told work.now)))
        seats.new }
{
    let threads = seats.len();
    if threads == 0 {
        return;
    }
    thread::for_each_mut(
        rt,
        seats,
        threads,
        &|_at: usize, seat: &mut Seat<W>|
            requires { IsLoanOfWork (W.told work.now) seat.old }
            ensures loan { seat.new.loan ≡ seat.old.loan }
            ensures gave_back { seat.new.gave_back ≡ seat.old.gave_back }
            ensures passes { seat.new.passes.lane ≡ seat.old.passes.lane }
            ensures done { IsPerformed (G.is_passed gate.entry.now) (W.job (W.told work.entry.now))
                seat.new }
        {
            seat.perform(work, gate);
        },
    );
}

/// Performs the loan of the one seat, where the caller sits.
fn perform_own<W: Work, G: Gate>(work: &W, gate: &G, seats: &mut [Seat<W>])
    requires one { length seats.old ≡ 1 }
    requires loans { All (IsLoanOfWork (W.told work.now)) seats.old }
    ensures same { sitting seats.new ≡ sitting seats.old }
    ensures done { All (IsPerformed (G.is_passed gate.now) (W.job (W.told work.now)))
        seats.new }
{
    seats[0].perform(work, gate);
}

/// Performs the loans of all seats: that of lane 0 by the caller, each other by a thread of its own.
fn perform_all<W: Work + Sync, G: Gate, R: Threads + Sync>(
    rt: &R,
    work: &W,
    gate: &G,
    seats: &mut [Seat<W>],
)
    requires some { 1 ≤ length seats.old }
    requires loans { All (IsLoanOfWork (W.told work.now)) seats.old }
    ensures same { sitting seats.new ≡ sitting seats.old }
    ensures done { All (IsPerformed (G.is_passed gate.now) (W.job (W.told work.now)))
        seats.new }
{
    let (own, others) = seats.split_at_mut(1);
    join_mut(
        rt,
        &mut ||
            requires { All (IsLoanOfWork (W.told work.now)) others.now }
            ensures same { sitting others.exit.now ≡ sitting others.entry.now }
            ensures done { All (IsPerformed (G.is_passed gate.entry.now)
                (W.job (W.told work.entry.now))) others.exit.now }
        { perform_each(rt, work, gate, others) },
        &mut ||
            requires { (length own.now ≡ 1) × All (IsLoanOfWork (W.told work.now)) own.now }
            ensures same { sitting own.exit.now ≡ sitting own.entry.now }
            ensures done { All (IsPerformed (G.is_passed gate.entry.now)
                (W.job (W.told work.entry.now))) own.exit.now }
        { perform_own(work, gate, own) },
    );
}

/// Commits the effects of a seat's loan, or gives the loan back where there are none.
fn settle<W: Work>(core: &mut Core<W>, lane: u32, seat: &mut Seat<W>)
    requires seat { IsSeatOf seat.old core.old.origin.value core.old.journal.items lane }
    requires done { HasItsEffects (W.job core.old.origin.value.told) seat.old }
    ensures origin { core.new.origin.value ≡ core.old.origin.value }
    ensures lanes { core.new.lanes ≡ core.old.lanes }
    ensures grew { GrewBy lane core.old.journal.items core.new.journal.items }
    ensures commits { CommitsAlone (λ l position. (l ≡ lane) × HasPerformed position seat.old)
        core.old.journal.items core.new.journal.items }
    ensures seat { IsSeatOf seat.new core.new.origin.value core.new.journal.items lane }
    ensures empty { IsEmptySeat seat.new }
{
    // The contract alone asks for the lane: the loan knows its own.
    let _lane = lane;
    let effects = seat.effects.take();
    match (seat.loan.take(), effects) {
        (Some(loan), Some(effects)) => core.commit(loan, effects),
        (Some(loan), None) => {
            core.give_back(loan);
            seat.gave_back = true;
        }
        (None, _) => {}
    }
}

/// Commits the effects of each seat's loan, or gives the loan back, in the order of the lanes.
fn settle_all<W: Work>(core: &mut Core<W>, seats: &mut [Seat<W>])
    requires long { length seats.old ≡ core.old.lanes }
    requires seats { AreSeats seats.old core.old.origin.value core.old.journal.items }
    requires done { All (HasItsEffects (W.job core.old.origin.value.told)) seats.old }
    ensures origin { core.new.origin.value ≡ core.old.origin.value }
    ensures lanes { core.new.lanes ≡ core.old.lanes }
    ensures longer { IsPrefix core.old.journal.items core.new.journal.items }
    ensures commits { CommitsAlone (HasPerformedAt seats.old)
        core.old.journal.items core.new.journal.items }
    ensures seats { AreSeats seats.new core.new.origin.value core.new.journal.items }
    ensures empty { All IsEmptySeat seats.new }
{
    for lane in 0..core.lanes() {
        settle(core, lane, &mut seats[lane as usize]);
    }
}

/// Runs wave after wave.
fn run_seats<W: Work + Sync, G: Gate, R: Threads + Sync>(
    rt: &R,
    core: &mut Core<W>,
    work: &W,
    gate: &G,
    seats: &mut [Seat<W>],
) -> Result<(), OutOfMemory>
    requires told { core.old.origin.value.told ≡ W.told work.now }
    requires long { length seats.old ≡ core.old.lanes }
    requires free { NothingHeld (state_after W.job core.old.origin.value core.old.journal.items) }
    requires none_back { returns core.old.journal.items ≡ 0 }
    requires new { AreNewSeats seats.old }
    ensures origin { core.new.origin.value ≡ core.old.origin.value }
    ensures lanes { core.new.lanes ≡ core.old.lanes }
    ensures longer { IsPrefix core.old.journal.items core.new.journal.items }
    ensures behind { AreBehind (G.is_passed gate.now) core.old.journal.items
        → AreBehind (G.is_passed gate.now) core.new.journal.items }
    ensures free { NothingHeld (state_after W.job core.new.origin.value core.new.journal.items) }
    ensures done { OnOk result (AllDoneAfter W.job core.new.origin.value core.new.journal.items) }
    ensures empty { All IsEmptySeat seats.new }
{
    'waves: loop {
        match core.take(0) {
            Take::Loan(loan) => seats[0].hold(loan),
            Take::NotNow { held: _ } => unreachable!(),
            Take::Finished => return Ok(()),
            Take::OutOfMemory => return Err(OutOfMemory),
        }
        lend_to_others(core, seats);
        perform_all(rt, work, gate, seats);
        settle_all(core, seats);
        if seats[0].gave_back {
            return Err(OutOfMemory);
        }
    }
}

/// Runs a core's lanes wave by wave: each lane is lent a position, all are performed beside each
/// other, and the effects are committed in the order of the lanes. A lane that finds no memory
/// gives its loan back and is not used again; the run goes on with the others, as long as lane 0
/// does. What is committed, its lane has passed the gate for before.
pub fn run_waves<W: Work + Sync, G: Gate, R: Threads + Sync>(
    rt: &R,
    alloc: Global,
    core: &mut Core<W>,
    work: &W,
    gate: &G,
) -> Result<(), OutOfMemory>
    requires told { core.old.origin.value.told ≡ W.told work.now }
    requires free { NothingHeld (state_after W.job core.old.origin.value core.old.journal.items) }
    requires none_back { returns core.old.journal.items ≡ 0 }
    ensures origin { core.new.origin.value ≡ core.old.origin.value }
    ensures lanes { core.new.lanes ≡ core.old.lanes }
    ensures longer { IsPrefix core.old.journal.items core.new.journal.items }
    ensures behind { AreBehind (G.is_passed gate.now) core.old.journal.items
        → AreBehind (G.is_passed gate.now) core.new.journal.items }
    ensures free { NothingHeld (state_after W.job core.new.origin.value core.new.journal.items) }
    ensures done { OnOk result (AllDoneAfter W.job core.new.origin.value core.new.journal.items) }
{
    let mut seats = seats_of(alloc, core.lanes())?;
    let end = run_seats(rt, core, work, gate, seats.as_mut_slice());
    leave_all(seats);
    end
}
