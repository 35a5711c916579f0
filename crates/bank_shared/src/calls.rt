//! What a desk does for its passes.
ghost use Rattle.std.specs.Prelude.{⊤, ◌≡◌, ◌<◌, [], ◌∷◌, None, Some};
ghost use Rattle.bank_law.specs.History.{own, holds, returns};
ghost use Rattle.bank_law.specs.declared.event.EventKind.TheVariants.{Grant, Commit, Return};
ghost use Rattle.sol_base.specs.Accounts.{accounts_of};
ghost use Rattle.bank_core.specs.Effects.{effects_seen};
ghost use Rattle.bank_core.specs.Origins.{IsLegalFor, IsLeastReadyAfter, AllDoneAfter};
ghost use Rattle.bank_core.specs.Takes.{MatchTake, IsNotNowAfter, ReadsLeastAfter};
ghost use Rattle.bank_core.specs.Desks.{MatchSplit, before_last};
ghost use Rattle.bank_shared.specs.Passes.{Adds, Sees, Keeps, Begins, OnlySees, Learns};

use crate::desk::{Pass, SharedDesk};
use crate::rule::Parts;
use bank_core::{Effects, Loan, Split, Take, Work};
use std::sync::Wait;

impl<W: Work> SharedDesk<W> {
    /// Lends the least ready position to the pass's lane.
    pub(crate) fn lend<R: Wait>(&self, rt: &R, pass: &mut Pass<W>) -> Take<W>
        requires table { pass.old.seat.table_id ≡ self.now.table.shared.table_id }
        requires desk { pass.old.seat.me.0.origin ≡ Some self.now.table.shared.key.value }
        requires free { holds (own pass.old.seat.me.0.seen pass.old.lane) ≡ None }
        ensures table { pass.new.seat.table_id ≡ pass.old.seat.table_id }
        ensures lane { pass.new.lane ≡ pass.old.lane }
        ensures kept { Keeps pass.old.seat.me.0 pass.new.seat.me.0 }
        ensures legal { IsLegalFor W.job self.now.table.shared.key.value.origin
            pass.new.seat.me.0.seen }
        ensures event { MatchTake result
            (λ loan. Adds pass.old.seat.me.0 pass.old.lane
            (record { kind = Grant; lane = pass.old.lane; position = loan.position } ∷ [])
            pass.new.seat.me.0)
            (λ held. Sees pass.old.seat.me.0 pass.old.lane pass.new.seat.me.0)
            (Sees pass.old.seat.me.0 pass.old.lane pass.new.seat.me.0)
            (Sees pass.old.seat.me.0 pass.old.lane pass.new.seat.me.0) }
        ensures take { MatchTake result
            (λ loan. (loan.lane ≡ pass.old.lane)
            × (loan.origin.value ≡ self.now.table.shared.key.value.origin))
            (λ held. IsNotNowAfter W.job self.now.table.shared.key.value.origin
            pass.new.seat.me.0.seen held)
            (AllDoneAfter W.job self.now.table.shared.key.value.origin pass.new.seat.me.0.seen)
            (ReadsLeastAfter W.job self.now.table.shared.key.value.origin pass.new.seat.me.0.seen) }
        ensures least { MatchTake result
            (λ loan. IsLeastReadyAfter W.job self.now.table.shared.key.value.origin
            (before_last pass.new.seat.me.0.seen) loan.position) (λ held. ⊤) ⊤ ⊤ }
    {
        let lane = pass.lane;
        let mut kept = self.take_turn(rt, &mut pass.seat);
        let take = kept.core.take(lane);
        self.release(&mut pass.seat, kept);
        take
    }

    /// Takes the effects of the pass's loan.
    pub(crate) fn commit_loan<R: Wait>(
        &self,
        rt: &R,
        pass: &mut Pass<W>,
        loan: Loan<W>,
        effects: Effects,
    )
        requires table { pass.old.seat.table_id ≡ self.now.table.shared.table_id }
        requires desk { pass.old.seat.me.0.origin ≡ Some self.now.table.shared.key.value }
        requires origin { loan.origin.value ≡ self.now.table.shared.key.value.origin }
        requires lane { loan.lane ≡ pass.old.lane }
        requires held { holds (own pass.old.seat.me.0.seen pass.old.lane) ≡ Some loan.position }
        requires right { effects_seen effects
            ≡ (W.job self.now.table.shared.key.value.origin.told).effects loan.position
            (accounts_of loan.values.items) }
        ensures table { pass.new.seat.table_id ≡ pass.old.seat.table_id }
        ensures lane { pass.new.lane ≡ pass.old.lane }
        ensures kept { Keeps pass.old.seat.me.0 pass.new.seat.me.0 }
        ensures legal { IsLegalFor W.job self.now.table.shared.key.value.origin
            pass.new.seat.me.0.seen }
        ensures event { Adds pass.old.seat.me.0 pass.old.lane
            (record { kind = Commit; lane = pass.old.lane; position = loan.position } ∷ [])
            pass.new.seat.me.0 }
    {
        let spent = loan.spend();
        let mut kept = self.take_turn(rt, &mut pass.seat);
        kept.core.commit_spent(spent, effects);
        self.release(&mut pass.seat, kept);
    }

    /// Puts the values of the pass's loan back.
    pub(crate) fn return_loan<R: Wait>(&self, rt: &R, pass: &mut Pass<W>, loan: Loan<W>)
        requires table { pass.old.seat.table_id ≡ self.now.table.shared.table_id }
        requires desk { pass.old.seat.me.0.origin ≡ Some self.now.table.shared.key.value }
        requires origin { loan.origin.value ≡ self.now.table.shared.key.value.origin }
        requires lane { loan.lane ≡ pass.old.lane }
        requires held { holds (own pass.old.seat.me.0.seen pass.old.lane) ≡ Some loan.position }
        requires once { returns (own pass.old.seat.me.0.seen pass.old.lane) ≡ 0 }
        ensures table { pass.new.seat.table_id ≡ pass.old.seat.table_id }
        ensures lane { pass.new.lane ≡ pass.old.lane }
        ensures kept { Keeps pass.old.seat.me.0 pass.new.seat.me.0 }
        ensures legal { IsLegalFor W.job self.now.table.shared.key.value.origin
            pass.new.seat.me.0.seen }
        ensures event { Adds pass.old.seat.me.0 pass.old.lane
            (record { kind = Return; lane = pass.old.lane; position = loan.position } ∷ [])
            pass.new.seat.me.0 }
    {
        let mut kept = self.take_turn(rt, &mut pass.seat);
        kept.core.give_back(loan);
        self.release(&mut pass.seat, kept);
    }

    /// A new pass, with a lane of its own.
    pub(crate) fn split_pass<R: Wait>(&self, rt: &R, pass: &mut Pass<W>) -> Split<Pass<W>>
        requires table { pass.old.seat.table_id ≡ self.now.table.shared.table_id }
        requires desk { pass.old.seat.me.0.origin ≡ Some self.now.table.shared.key.value }
        ensures table { pass.new.seat.table_id ≡ pass.old.seat.table_id }
        ensures lane { pass.new.lane ≡ pass.old.lane }
        ensures kept { OnlySees pass.old.seat.me.0 pass.old.lane pass.new.seat.me.0 }
        ensures lanes { pass.new.seat.me.0.lanes ≡ pass.old.seat.me.0.lanes }
        ensures made { MatchSplit result
            (λ made. (made.seat.table_id ≡ pass.old.seat.table_id)
            × (made.seat.me.0.origin ≡ pass.old.seat.me.0.origin)
            × (made.lane < self.now.table.shared.key.value.lanes)
            × Begins pass.old.seat.me.0 made.lane made.seat.me.0)
            (pass.new.seat.me.0.drawn ≡ self.now.table.shared.key.value.lanes) }
    {
        let mut seat = self.table.shared.split_seat::<Parts>(&mut pass.seat);
        let mut kept = self.take_turn(rt, &mut seat);
        let lane = kept.drawn;
        if lane < kept.core.lanes() {
            kept.drawn = lane + 1;
            self.release(&mut seat, kept);
            Split::Made(Pass { seat, lane })
        } else {
            self.release(&mut seat, kept);
            self.fold(pass, seat);
            Split::AllMade
        }
    }

    /// Joins another pass into this one, with all its lanes.
    pub(crate) fn join_pass(&self, pass: &mut Pass<W>, other: Pass<W>)
        requires table { (pass.old.seat.table_id ≡ self.now.table.shared.table_id)
            × (other.seat.table_id ≡ self.now.table.shared.table_id) }
        requires desk { pass.old.seat.me.0.origin ≡ Some self.now.table.shared.key.value }
        ensures table { pass.new.seat.table_id ≡ pass.old.seat.table_id }
        ensures lane { pass.new.lane ≡ pass.old.lane }
        ensures kept { OnlySees pass.old.seat.me.0 pass.old.lane pass.new.seat.me.0 }
        ensures other { Learns pass.old.seat.me.0 other.seat.me.0 pass.new.seat.me.0 }
    {
        let Pass { seat, lane: _ } = other;
        self.fold(pass, seat);
    }
}
