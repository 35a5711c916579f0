//! A lane at a desk, call by call.
ghost use Rattle.std.specs.Prelude.{◌≡◌, IsTrue, IfSome, Some, None, false};
ghost use Rattle.bank_law.specs.History.{holds, returns};
ghost use Rattle.sol_base.specs.Accounts.{accounts_of};
ghost use Rattle.bank_core.specs.Effects.{effects_seen};
ghost use Rattle.bank_core.specs.Origins.{AllDoneAfter};
ghost use Rattle.bank_lanes.specs.Passes.{IsIdle, SeesLoans};
ghost use Rattle.lane_trials.specs.Held.{Holds, ReturnsOnce};

use bank_core::{Desk, Effects, Loan, Split, Take, Work};
use std::sync::Wait;

/// What a lane's step came to.
#[derive(Clone, Copy, PartialEq, Eq)]
pub enum Answer {
    Lent(u32),
    NotNow(u32),
    Finished,
    Committed(u32),
    GaveBack(u32),
    Nothing,
    OutOfMemory,
}

/// A lane with its pass, what it holds, and whether it has given anything back.
pub struct Lane<W: Work, P> {
    pub pass: P,
    pub loan: Option<Loan<W>>,
    pub gave_back: bool,
}

/// Performs a loan, again where memory was short.
fn performed<W: Work, R: Wait>(rt: &R, work: &W, loan: &Loan<W>) -> Effects
    requires { loan.now.origin.value.told ≡ W.told work.now }
    ensures { effects_seen result
        ≡ (W.job (W.told work.now)).effects loan.now.position (accounts_of loan.now.values.items) }
{
    for _ in rt.forever() {
        if let Ok(effects) = work.perform(loan.position(), loan.values()) {
            return effects;
        }
    }
    unreachable!()
}

/// Takes for a lane that holds nothing.
fn take<W: Work, D: Desk<W, Loan = Loan<W>>, R: Wait>(
    rt: &R,
    desk: &D,
    pass: &mut D::Pass,
) -> (Option<Loan<W>>, Answer)
    requires desk { D.is_of desk.now pass.old }
    requires free { holds (D.view pass.old).mine ≡ None }
    ensures desk { D.is_of desk.now pass.new }
    ensures loan { Holds result.0 (D.origin desk.now) (D.view pass.new) }
    ensures returns { returns (D.view pass.new).mine ≡ returns (D.view pass.old).mine }
{
    match desk.take(rt, pass) {
        Take::Loan(loan) => {
            let position = loan.position();
            (Some(loan), Answer::Lent(position))
        }
        Take::NotNow { held } => (None, Answer::NotNow(held)),
        Take::Finished => (None, Answer::Finished),
        Take::OutOfMemory => (None, Answer::OutOfMemory),
    }
}

/// Performs what a lane holds, and commits it.
fn commit<W: Work, D: Desk<W, Loan = Loan<W>>, R: Wait>(
    rt: &R,
    desk: &D,
    pass: &mut D::Pass,
    work: &W,
    loan: Loan<W>,
) -> Answer
    requires loans { SeesLoans D.loan }
    requires told { (D.origin desk.now).told ≡ W.told work.now }
    requires desk { D.is_of desk.now pass.old }
    requires lane { loan.lane ≡ (D.view pass.old).lane }
    requires origin { loan.origin.value ≡ D.origin desk.now }
    requires held { holds (D.view pass.old).mine ≡ Some loan.position }
    ensures desk { D.is_of desk.now pass.new }
    ensures free { holds (D.view pass.new).mine ≡ None }
    ensures returns { returns (D.view pass.new).mine ≡ returns (D.view pass.old).mine }
{
    let position = loan.position();
    let effects = performed(rt, work, &loan);
    desk.commit(rt, pass, loan, effects);
    Answer::Committed(position)
}

/// Gives back what a lane holds.
fn give_back<W: Work, D: Desk<W, Loan = Loan<W>>, R: Wait>(
    rt: &R,
    desk: &D,
    pass: &mut D::Pass,
    loan: Loan<W>,
) -> Answer
    requires loans { SeesLoans D.loan }
    requires desk { D.is_of desk.now pass.old }
    requires lane { loan.lane ≡ (D.view pass.old).lane }
    requires origin { loan.origin.value ≡ D.origin desk.now }
    requires held { holds (D.view pass.old).mine ≡ Some loan.position }
    requires once { returns (D.view pass.old).mine ≡ 0 }
    ensures desk { D.is_of desk.now pass.new }
    ensures free { holds (D.view pass.new).mine ≡ None }
{
    let position = loan.position();
    desk.give_back(rt, pass, loan);
    Answer::GaveBack(position)
}

/// What a lane does next: it takes, or commits what it holds.
fn go_on<W: Work, D: Desk<W, Loan = Loan<W>>, R: Wait>(
    rt: &R,
    desk: &D,
    pass: &mut D::Pass,
    work: &W,
    loan: Option<Loan<W>>,
) -> (Option<Loan<W>>, Answer)
    requires loans { SeesLoans D.loan }
    requires told { (D.origin desk.now).told ≡ W.told work.now }
    requires desk { D.is_of desk.now pass.old }
    requires loan { Holds loan (D.origin desk.now) (D.view pass.old) }
    ensures desk { D.is_of desk.now pass.new }
    ensures loan { Holds result.0 (D.origin desk.now) (D.view pass.new) }
    ensures returns { returns (D.view pass.new).mine ≡ returns (D.view pass.old).mine }
{
    match loan {
        None => take(rt, desk, pass),
        Some(loan) => (None, commit(rt, desk, pass, work, loan)),
    }
}

/// Gives back what a lane holds, if anything, and tells whether it held something.
fn go_back<W: Work, D: Desk<W, Loan = Loan<W>>, R: Wait>(
    rt: &R,
    desk: &D,
    pass: &mut D::Pass,
    loan: Option<Loan<W>>,
) -> (bool, Answer)
    requires loans { SeesLoans D.loan }
    requires desk { D.is_of desk.now pass.old }
    requires loan { Holds loan (D.origin desk.now) (D.view pass.old) }
    requires once { returns (D.view pass.old).mine ≡ 0 }
    ensures desk { D.is_of desk.now pass.new }
    ensures free { holds (D.view pass.new).mine ≡ None }
    ensures once { ReturnsOnce result.0 (D.view pass.new) }
{
    match loan {
        None => (false, Answer::Nothing),
        Some(loan) => (true, give_back(rt, desk, pass, loan)),
    }
}

/// Makes one step of a lane: on, or back where it has given nothing back yet.
pub fn make_step<W: Work, D: Desk<W, Loan = Loan<W>>, R: Wait>(
    rt: &R,
    desk: &D,
    work: &W,
    lane: Lane<W, D::Pass>,
    back: bool,
) -> (Lane<W, D::Pass>, Answer)
    requires loans { SeesLoans D.loan }
    requires told { (D.origin desk.now).told ≡ W.told work.now }
    requires desk { D.is_of desk.now lane.pass }
    requires loan { Holds lane.loan (D.origin desk.now) (D.view lane.pass) }
    requires once { ReturnsOnce lane.gave_back (D.view lane.pass) }
    ensures desk { D.is_of desk.now result.0.pass }
    ensures loan { Holds result.0.loan (D.origin desk.now) (D.view result.0.pass) }
    ensures once { ReturnsOnce result.0.gave_back (D.view result.0.pass) }
{
    let Lane {
        mut pass,
        loan,
        gave_back,
    } = lane;
    let (loan, gave_back, answer) = match (back, gave_back) {
        (false, _) => {
            let (loan, answer) = go_on(rt, desk, &mut pass, work, loan);
            (loan, gave_back, answer)
        }
        (true, false) => {
            let (gave_back, answer) = go_back(rt, desk, &mut pass, loan);
            (None, gave_back, answer)
        }
        (true, true) => (loan, gave_back, Answer::Nothing),
    };
    let lane = Lane {
        pass,
        loan,
        gave_back,
    };
    (lane, answer)
}

/// A pass for a second lane, where there is none for a third.
pub fn second_of<W: Work, D: Desk<W>, R: Wait>(
    rt: &R,
    desk: &D,
    first: &mut D::Pass,
) -> Option<D::Pass>
    requires { D.is_of desk.now first.old }
    ensures desk { D.is_of desk.now first.new }
    ensures mine { (D.view first.new).mine ≡ (D.view first.old).mine }
    ensures lane { (D.view first.new).lane ≡ (D.view first.old).lane }
    ensures second { IfSome result (λ pass. D.is_of desk.now pass × IsIdle (D.view pass)) }
{
    match desk.split(rt, first) {
        Split::Made(second) => match desk.split(rt, first) {
            Split::Made(third) => {
                desk.join(first, second);
                desk.join(first, third);
                None
            }
            Split::AllMade => Some(second),
        },
        Split::AllMade => None,
    }
}

/// The pass of a lane that commits what it still holds, and whether it held nothing.
pub fn settled<W: Work, D: Desk<W, Loan = Loan<W>>, R: Wait>(
    rt: &R,
    desk: &D,
    work: &W,
    lane: Lane<W, D::Pass>,
) -> (D::Pass, bool)
    requires loans { SeesLoans D.loan }
    requires told { (D.origin desk.now).told ≡ W.told work.now }
    requires desk { D.is_of desk.now lane.pass }
    requires loan { Holds lane.loan (D.origin desk.now) (D.view lane.pass) }
    ensures desk { D.is_of desk.now result.0 }
    ensures free { holds (D.view result.0).mine ≡ None }
{
    let Lane {
        mut pass,
        loan,
        gave_back: _,
    } = lane;
    let free = match loan {
        None => true,
        Some(loan) => {
            let _ = commit(rt, desk, &mut pass, work, loan);
            false
        }
    };
    (pass, free)
}

/// Whether all positions are done, as a lane that holds nothing finds.
pub fn finds_end<W: Work, D: Desk<W, Loan = Loan<W>>, R: Wait>(
    rt: &R,
    desk: &D,
    pass: &mut D::Pass,
    work: &W,
) -> bool
    requires loans { SeesLoans D.loan }
    requires told { (D.origin desk.now).told ≡ W.told work.now }
    requires desk { D.is_of desk.now pass.old }
    requires free { holds (D.view pass.old).mine ≡ None }
    ensures desk { D.is_of desk.now pass.new }
    ensures done { IsTrue result
        → AllDoneAfter W.job (D.origin desk.now) (D.view pass.new).seen }
{
    match desk.take(rt, pass) {
        Take::Finished => true,
        Take::Loan(loan) => {
            let _ = commit(rt, desk, pass, work, loan);
            false
        }
        Take::NotNow { held: _ } => false,
        Take::OutOfMemory => false,
    }
}
