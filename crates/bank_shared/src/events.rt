//! Several events under one turn.
ghost use Rattle.std.specs.Prelude.{◌≡◌, ◌<◌, true, Some, None};
ghost use Rattle.bank_law.specs.History.{own, holds, returns};
ghost use Rattle.bank_law.specs.declared.event.EventKind.TheVariants.{Grant, Commit, Return};
ghost use Rattle.bank_core.specs.Desks.{Stays, SeesNoneOf, after_event};
ghost use Rattle.bank_core.specs.Effects.{effects_seen};
ghost use Rattle.bank_core.specs.Origins.{IsLegalFor, IsLeastReadyAfter, AllDoneAfter};
ghost use Rattle.bank_core.specs.Takes.{MatchTake, IsNotNowAfter, ReadsLeastAfter};
ghost use Rattle.bank_shared.specs.History.{is_one_of};
ghost use Rattle.bank_shared.specs.Face.{desk_origin, IsPassOf, IsTurnOf, view_of, pass_lanes, turn_view, turn_lanes, loan_view, spent_view};

use crate::desk::{Pass, SharedDesk, Turn};
use crate::rule::Blanks;
use bank_core::{Effects, Loan, Spent, Take, Work};
use std::mem;
use std::sync::Wait;

impl<W: Work> SharedDesk<W> {
    /// Waits for the turn, and takes the core with the pass's seat. The pass is left with a seat
    /// that knows nothing.
    pub(crate) fn begin_turn<R: Wait>(&self, rt: &R, pass: &mut Pass<W>) -> Turn<W>
        requires desk { IsPassOf self.now pass.old }
        ensures desk { IsTurnOf self.now result }
        ensures stays { Stays (view_of pass.old) (turn_view result) }
        ensures turn { (view_of pass.old).turns < (turn_view result).turns }
        ensures same { (turn_view result).mine ≡ (view_of pass.old).mine }
        ensures lanes { turn_lanes result ≡ pass_lanes pass.old }
        ensures each { SeesNoneOf (pass_lanes pass.old) (view_of pass.old) (turn_view result) }
        ensures legal { IsLegalFor W.job (desk_origin self.now) (turn_view result).seen }
    {
        let lane = pass.lane;
        let mut seat = self.table.shared.split_seat::<Blanks>(&mut pass.seat);
        mem::swap(&mut pass.seat, &mut seat);
        let kept = self.take_turn(rt, &mut seat);
        Turn { seat, lane, kept }
    }

    /// Gives the turn up with all events that were made under it, and the seat back to a pass.
    pub(crate) fn end_turn(&self, pass: &mut Pass<W>, turn: Turn<W>)
        requires desk { IsTurnOf self.now turn }
        ensures desk { IsPassOf self.now pass.new }
        ensures view { view_of pass.new ≡ turn_view turn }
        ensures lanes { pass_lanes pass.new ≡ turn_lanes turn }
    {
        let Turn {
            mut seat,
            lane,
            kept,
        } = turn;
        self.release(&mut seat, kept);
        *pass = Pass { seat, lane };
    }

    /// Lends the least ready position to one of the turn's lanes.
    pub(crate) fn lend_under(&self, turn: &mut Turn<W>, lane: u32) -> Take<W>
        requires desk { IsTurnOf self.now turn.old }
        requires lane { is_one_of (turn_lanes turn.old) lane ≡ true }
        requires free { holds (own (turn_view turn.old).seen lane) ≡ None }
        ensures desk { IsTurnOf self.now turn.new }
        ensures lanes { turn_lanes turn.new ≡ turn_lanes turn.old }
        ensures legal { IsLegalFor W.job (desk_origin self.now) (turn_view turn.new).seen }
        ensures event { MatchTake result
            (λ loan. turn_view turn.new
            ≡ after_event (turn_view turn.old) Grant lane loan.position)
            (λ held. turn_view turn.new ≡ turn_view turn.old)
            (turn_view turn.new ≡ turn_view turn.old)
            (turn_view turn.new ≡ turn_view turn.old) }
        ensures take { MatchTake result
            (λ loan. (loan.lane ≡ lane) × (loan.origin.value ≡ desk_origin self.now)
            × IsLeastReadyAfter W.job (desk_origin self.now) (turn_view turn.old).seen
            loan.position)
            (λ held. IsNotNowAfter W.job (desk_origin self.now) (turn_view turn.old).seen held)
            (AllDoneAfter W.job (desk_origin self.now) (turn_view turn.old).seen)
            (ReadsLeastAfter W.job (desk_origin self.now) (turn_view turn.old).seen) }
    {
        turn.kept.core.take(lane)
    }

    /// Takes the effects of a loan that one of the turn's lanes holds.
    pub(crate) fn take_under(&self, turn: &mut Turn<W>, spent: Spent<W>, effects: Effects)
        requires desk { IsTurnOf self.now turn.old }
        requires origin { spent.origin.value ≡ desk_origin self.now }
        requires lane { is_one_of (turn_lanes turn.old) spent.lane ≡ true }
        requires held { holds (own (turn_view turn.old).seen spent.lane) ≡ Some spent.position }
        requires right { effects_seen effects
            ≡ (W.job (desk_origin self.now).told).effects spent.position
            (spent_view W.job spent).values }
        ensures desk { IsTurnOf self.now turn.new }
        ensures lanes { turn_lanes turn.new ≡ turn_lanes turn.old }
        ensures legal { IsLegalFor W.job (desk_origin self.now) (turn_view turn.new).seen }
        ensures event { turn_view turn.new
            ≡ after_event (turn_view turn.old) Commit spent.lane spent.position }
    {
        turn.kept.core.commit_spent(spent, effects);
    }

    /// Puts the values of a loan that one of the turn's lanes holds back.
    pub(crate) fn return_under(&self, turn: &mut Turn<W>, loan: Loan<W>)
        requires desk { IsTurnOf self.now turn.old }
        requires origin { loan.origin.value ≡ desk_origin self.now }
        requires lane { is_one_of (turn_lanes turn.old) loan.lane ≡ true }
        requires held { holds (own (turn_view turn.old).seen loan.lane) ≡ Some loan.position }
        requires once { returns (own (turn_view turn.old).seen loan.lane) ≡ 0 }
        ensures desk { IsTurnOf self.now turn.new }
        ensures lanes { turn_lanes turn.new ≡ turn_lanes turn.old }
        ensures legal { IsLegalFor W.job (desk_origin self.now) (turn_view turn.new).seen }
        ensures event { turn_view turn.new
            ≡ after_event (turn_view turn.old) Return loan.lane loan.position }
    {
        turn.kept.core.give_back(loan);
    }

    /// The pass's own lane.
    pub(crate) fn lane_of(&self, pass: &Pass<W>) -> u32
        requires desk { IsPassOf self.now pass.now }
        ensures lane { result ≡ pass.now.lane }
        ensures one { is_one_of (pass_lanes pass.now) result ≡ true }
    {
        pass.lane
    }
}

/// Lets the values of a loan go.
pub(crate) fn let_go<W: Work>(loan: Loan<W>) -> Spent<W>
    ensures { spent_view W.job result ≡ loan_view loan }
{
    loan.spend()
}
