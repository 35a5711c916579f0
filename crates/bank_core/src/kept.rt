//! The core: it lends the values of positions, and takes the effects back.
ghost use Rattle.std.specs.Prelude.{⊤, ◌≡◌, ◌^◌, ◌<◌, ◌≤◌, ◌∷◌, ◌++◌, [], length, map, slice_set, Some, None, OnOk, OnErr, IfOk, vec_capacity};
ghost use Rattle.account_store.specs.State.{at};
ghost use Rattle.bank_law.specs.Machine.{Run, held_count, with_event};
ghost use Rattle.bank_law.specs.Job.{keys};
ghost use Rattle.bank_law.specs.Lawful.{IsLawful};
ghost use Rattle.bank_law.specs.Serial.{serial};
ghost use Rattle.bank_law.specs.History.{own, holds, returns};
ghost use Rattle.bank_law.specs.declared.event.EventKind.TheVariants.{Grant, Commit, Return};
ghost use Rattle.bank_core.specs.Ends.{HasSerialAccounts, state_at_end, outcomes_at_end};
ghost use Rattle.sol_base.specs.Accounts.{accounts_of};
ghost use Rattle.bank_core.specs.Effects.{effects_seen};
ghost use Rattle.bank_core.specs.Keeping.{Keeps, IsApart, HasRoom, HasBuffers};
ghost use Rattle.bank_core.specs.Origins.{IsLegalFor, AllDoneAfter, IsLeastReadyAfter};
ghost use Rattle.bank_core.specs.Takes.{IsNotNowAfter, ReadsLeastAfter, SomeLaneHolds, MatchTake};
ghost use Rattle.bank_core.specs.Propositions.{Keeps-prop, IsApart-prop, HasRoom-prop, HasBuffers-prop};
ghost use Rattle.bank_law.proofs.Props.{IsLawful-prop};

use crate::ended::Ended;
use crate::finish::{Sealed, all_outcomes};
use crate::loan::{Loan, Spent, Take};
use crate::origin::Origin;
use crate::room::{take_at, write_at};
use crate::shared_outcome::SharedOutcome;
use crate::slots::{lend, put_back, put_written};
use crate::work::{Effects, Work};
use account_store::Accounts;
use bank_law::{Event, EventKind};
use lock_table::KeyTable;
use prio_graph::Graph;
use proof_note::Note;
use sol_base::{Account, Items, OutOfMemory, push_with_room};
use std::alloc::Global;
use std::sync::Arc;

/// Lends the values of positions, and takes the effects back.
pub struct Core<W: Work> {
    pub(crate) origin: Note<Origin<W::Told>>,
    pub(crate) lanes: u32,
    pub(crate) table: KeyTable,
    pub(crate) graph: Graph,
    pub(crate) slots: Vec<Option<Arc<Account>>>,
    pub(crate) rest: Accounts,
    pub(crate) outcomes: Vec<Option<SharedOutcome>>,
    pub(crate) buffers: Vec<Vec<Arc<Account>>>,
    pub(crate) held: u32,
    pub(crate) journal: Vec<Event>,
    pub(crate) alloc: Global,
    ghost some: { 1 ≤ lanes },
    ghost lawful: { IsLawful (W.job origin.value.told) } by { IsLawful-prop (W.job origin.value.told) },
    ghost runs: { Keeps (W.job origin.value.told) (at origin.value.start) table graph slots.items
        outcomes.items journal.items } by { Keeps-prop (W.job origin.value.told)
            (at origin.value.start) table graph slots.items outcomes.items journal.items },
    ghost apart: { IsApart origin.value.start rest table } by { IsApart-prop _ _ _ },
    ghost room: { HasRoom (W.job origin.value.told).count lanes (vec_capacity journal)
        journal.items } by { HasRoom-prop (W.job origin.value.told).count lanes
            (vec_capacity journal) journal.items },
    ghost buffered: { HasBuffers (W.job origin.value.told) lanes journal.items
        buffers.items } by { HasBuffers-prop _ _ _ _ },
    ghost counted: { held
        ≡ held_count (W.job origin.value.told)
        (Run (W.job origin.value.told) (at origin.value.start) journal.items) },
}

impl<W: Work> Drop for Core<W> {
    fn drop(self) {
        let Core {
            origin: _,
            lanes: _,
            table: _,
            graph: _,
            slots: _,
            rest: _,
            outcomes: _,
            buffers: _,
            held: _,
            journal: _,
            alloc: _,
        } = self;
    }
}

/// Writes the event that ends a lane's loan, and puts the lane's buffer back.
fn end_loan(
    buffers: &mut Vec<Vec<Arc<Account>>>,
    journal: &mut Vec<Event>,
    event: Event,
    buffer: Vec<Arc<Account>>,
)
    requires lane { event.lane < length buffers.old.items }
    requires room { length journal.old.items < vec_capacity journal.old }
    ensures buffers { buffers.new.items ≡ slice_set buffers.old.items event.lane buffer }
    ensures journal { journal.new.items ≡ journal.old.items ++ event ∷ [] }
    ensures capacity { vec_capacity journal.old ≤ vec_capacity journal.new }
{
    write_at(buffers, event.lane as usize, buffer);
    push_with_room(journal, event);
}

impl<W: Work> Core<W> {
    /// The number of lanes.
    pub fn lanes(&self) -> u32
        ensures { result ≡ self.now.lanes }
    {
        self.lanes
    }

    /// The number of its events.
    pub fn event_count(&self) -> usize
        ensures count { result ≡ length self.now.journal.items }
        ensures few { result < 2 ^ 63 }
    {
        self.journal.len()
    }

    /// Takes the effects of a loan.
    pub fn commit(&mut self, loan: Loan<W>, effects: Effects)
        requires origin { loan.origin.value ≡ self.old.origin.value }
        requires held { holds (own self.old.journal.items loan.lane) ≡ Some loan.position }
        requires right { effects_seen effects
            ≡ (W.job self.old.origin.value.told).effects loan.position
            (accounts_of loan.values.items) }
        ensures origin { self.new.origin.value ≡ self.old.origin.value }
        ensures lanes { self.new.lanes ≡ self.old.lanes }
        ensures journal { self.new.journal.items
            ≡ with_event self.old.journal.items Commit loan.lane loan.position }
    {
        self.commit_spent(loan.spend(), effects);
    }

    /// Takes the effects of a loan whose values are let go, which the serial run had.
    pub fn commit_spent(&mut self, spent: Spent<W>, effects: Effects)
        requires origin { spent.origin.value ≡ self.old.origin.value }
        requires held { holds (own self.old.journal.items spent.lane) ≡ Some spent.position }
        requires right { let job = W.job self.old.origin.value.told in effects_seen effects
            ≡ job.effects spent.position
            (map (serial job (at self.old.origin.value.start) spent.position)
            (keys job spent.position)) }
        ensures origin { self.new.origin.value ≡ self.old.origin.value }
        ensures lanes { self.new.lanes ≡ self.old.lanes }
        ensures journal { self.new.journal.items
            ≡ with_event self.old.journal.items Commit spent.lane spent.position }
    {
        let Spent {
            position,
            lane,
            buffer,
            origin: _,
        } = spent;
        put_written(
            &mut self.slots,
            self.graph.set(position).items(),
            effects.written,
        );
        write_at(&mut self.outcomes, position as usize, Some(effects.outcome));
        self.graph.finish(position);
        self.held -= 1;
        let event = Event {
            kind: EventKind::Commit,
            lane,
            position,
        };
        end_loan(&mut self.buffers, &mut self.journal, event, buffer);
    }

    /// Puts the values of a loan back, so that its position waits again.
    pub fn give_back(&mut self, loan: Loan<W>)
        requires origin { loan.origin.value ≡ self.old.origin.value }
        requires held { holds (own self.old.journal.items loan.lane) ≡ Some loan.position }
        requires once { returns (own self.old.journal.items loan.lane) ≡ 0 }
        ensures origin { self.new.origin.value ≡ self.old.origin.value }
        ensures lanes { self.new.lanes ≡ self.old.lanes }
        ensures journal { self.new.journal.items
            ≡ with_event self.old.journal.items Return loan.lane loan.position }
    {
        let Loan {
            position,
            lane,
            mut values,
            origin: _,
        } = loan;
        put_back(
            &mut self.slots,
            self.graph.set(position).items(),
            &mut values,
        );
        self.graph.unstart(position);
        self.held -= 1;
        let event = Event {
            kind: EventKind::Return,
            lane,
            position,
        };
        end_loan(&mut self.buffers, &mut self.journal, event, values);
    }

    /// Lends the least ready position to a lane that holds nothing.
    pub fn take(&mut self, lane: u32) -> Take<W>
        requires lane { lane < self.old.lanes }
        requires free { holds (own self.old.journal.items lane) ≡ None }
        ensures origin { self.new.origin.value ≡ self.old.origin.value }
        ensures lanes { self.new.lanes ≡ self.old.lanes }
        ensures legal { IsLegalFor W.job self.old.origin.value self.new.journal.items }
        ensures journal { MatchTake result
            (λ loan. self.new.journal.items
            ≡ with_event self.old.journal.items Grant lane loan.position)
            (λ held. self.new.journal.items ≡ self.old.journal.items)
            (self.new.journal.items ≡ self.old.journal.items)
            (self.new.journal.items ≡ self.old.journal.items) }
        ensures take { MatchTake result
            (λ loan. (loan.lane ≡ lane) × (loan.origin.value ≡ self.old.origin.value)
            × IsLeastReadyAfter W.job self.old.origin.value self.old.journal.items
            loan.position)
            (λ held. IsNotNowAfter W.job self.old.origin.value self.old.journal.items held)
            (AllDoneAfter W.job self.old.origin.value self.old.journal.items)
            (ReadsLeastAfter W.job self.old.origin.value self.old.journal.items) }
        ensures others { MatchTake result (λ loan. ⊤)
            (λ held. SomeLaneHolds self.old.lanes self.old.journal.items) ⊤ ⊤ }
    {
        match self.graph.least_ready() {
            Some(position) => match self.grant(lane, position) {
                Ok(loan) => Take::Loan(loan),
                Err(OutOfMemory) => Take::OutOfMemory,
            },
            None if self.held == 0 => Take::Finished,
            None => Take::NotNow { held: self.held },
        }
    }

    /// Lends the values of the least ready position to a lane that holds nothing.
    pub(crate) fn grant(&mut self, lane: u32, position: u32) -> Result<Loan<W>, OutOfMemory>
        requires lane { lane < self.old.lanes }
        requires free { holds (own self.old.journal.items lane) ≡ None }
        requires least { IsLeastReadyAfter W.job self.old.origin.value self.old.journal.items
            position }
        ensures origin { self.new.origin.value ≡ self.old.origin.value }
        ensures lanes { self.new.lanes ≡ self.old.lanes }
        ensures journal { OnOk result (self.new.journal.items
            ≡ with_event self.old.journal.items Grant lane position) }
        ensures loan { IfOk result (λ l. (l.lane ≡ lane) × (l.position ≡ position)
            × (l.origin.value ≡ self.old.origin.value)) }
        ensures same { OnErr result (self.new.journal.items ≡ self.old.journal.items) }
        ensures reads { OnErr result
            (ReadsLeastAfter W.job self.old.origin.value self.old.journal.items) }
    {
        let mut values = take_at(&mut self.buffers, lane as usize, Vec::new(self.alloc));
        if let Err(e) = lend(
            &mut self.slots,
            self.graph.set(position).items(),
            &mut values,
        ) {
            write_at(&mut self.buffers, lane as usize, values);
            return Err(e);
        }
        self.graph.start(position);
        self.held += 1;
        push_with_room(
            &mut self.journal,
            Event {
                kind: EventKind::Grant,
                lane,
                position,
            },
        );
        Ok(Loan {
            position,
            lane,
            values,
            origin: self.origin.again(),
        })
    }

    /// Ends a core whose positions are all done: its accounts, which are apart yet, and the
    /// outcomes.
    pub fn part(self) -> Result<(Ended<W>, Items<SharedOutcome>), OutOfMemory>
        requires { AllDoneAfter W.job self.origin.value self.journal.items }
        ensures origin { IfOk result (λ end. end.0.origin.value ≡ self.origin.value) }
        ensures outcomes { IfOk result (λ end. end.1 ≡ outcomes_at_end W.job self.origin.value) }
    {
        let Core {
            origin,
            lanes: _,
            table,
            graph: _,
            slots,
            rest,
            outcomes,
            buffers: _,
            held: _,
            journal: _,
            alloc,
        } = self;
        let outcomes = all_outcomes(alloc, outcomes)?;
        let ended = Ended {
            origin,
            table,
            slots,
            rest,
            alloc,
        };
        Ok((ended, outcomes))
    }

    /// Ends a core whose positions are all done: its accounts, all together, and the outcomes.
    pub fn finish(self) -> Result<Sealed, OutOfMemory>
        requires { AllDoneAfter W.job self.origin.value self.journal.items }
        ensures accounts { IfOk result
            (λ end. HasSerialAccounts W.job self.origin.value end.accounts) }
        ensures state { IfOk result (λ end. end.accounts ≡ state_at_end W.job self.origin.value) }
        ensures outcomes { IfOk result
            (λ end. end.outcomes ≡ outcomes_at_end W.job self.origin.value) }
    {
        let (ended, outcomes) = self.part()?;
        let accounts = ended.joined()?;
        Ok(Sealed { accounts, outcomes })
    }
}
