//! The turn: how it is taken with the core, and given up.
ghost use Rattle.std.specs.Prelude.{◌≡◌, ◌%◌, [], ◌∷◌, Some, None, IfSome, IfNone};
ghost use Rattle.bank_shared.specs.Kept.{told_of, journal_of};
ghost use Rattle.bank_shared.specs.Plays.{holding, done, HasTurn, Gets};
ghost use Rattle.bank_shared.specs.Passes.{OnlySees, Learns};

use crate::desk::{Pass, SharedDesk};
use crate::kept::{DeskOrigin, Kept};
use crate::rule::{Folds, Looks, Releases, Takes};
use crate::view::View;
use atomic_table::Seat;
use bank_core::{Offer, Work};
use std::hint;
use std::sync::Wait;

/// How often a thread that finds the turn taken looks again, before it parks.
const SPINS: u32 = 100;

impl<W: Work> SharedDesk<W> {
    /// Takes the turn and the core, if the word is as expected.
    fn try_turn(
        &self,
        seat: &mut Seat<Option<Kept<W>>, View<DeskOrigin<W::Told>>>,
        word: u64,
    ) -> Option<Kept<W>>
        requires table { seat.old.table_id ≡ self.now.table.shared.table_id }
        requires desk { seat.old.me.0.origin ≡ Some self.now.table.shared.key.value }
        requires empty { seat.old.me.1 ≡ [] }
        requires word { word % 2 ≡ 0 }
        ensures table { seat.new.table_id ≡ seat.old.table_id }
        ensures none { IfNone result (seat.new.me ≡ seat.old.me) }
        ensures some { IfSome result (λ kept.
            (seat.new.me ≡ (holding seat.old.me.0 (journal_of kept) kept.drawn, (0, None) ∷ []))
            × Gets self.now.table.shared.key.value (told_of kept) (journal_of kept) kept.drawn
            seat.old.me.0) }
    {
        let found = self
            .table
            .shared
            .compare_exchange::<Takes<W>>(seat, 0, word, word + 1);
        if found != word {
            return None;
        }
        self.table.shared.exchange(seat, 0, None)
    }

    /// Waits for the turn, and takes the core out. A turn is short, so the word is looked at some
    /// times before the thread parks.
    pub(crate) fn take_turn<R: Wait>(
        &self,
        rt: &R,
        seat: &mut Seat<Option<Kept<W>>, View<DeskOrigin<W::Told>>>,
    ) -> Kept<W>
        requires table { seat.old.table_id ≡ self.now.table.shared.table_id }
        requires desk { seat.old.me.0.origin ≡ Some self.now.table.shared.key.value }
        requires empty { seat.old.me.1 ≡ [] }
        ensures table { seat.new.table_id ≡ seat.old.table_id }
        ensures me { seat.new.me
            ≡ (holding seat.old.me.0 (journal_of result) result.drawn, (0, None) ∷ []) }
        ensures gets { Gets self.now.table.shared.key.value (told_of result) (journal_of result)
            result.drawn seat.old.me.0 }
    {
        let mut spins = 0;
        for _ in rt.forever() {
            let word = self.table.shared.peek(0);
            if word % 2 == 0 {
                if let Some(kept) = self.try_turn(seat, word) {
                    return kept;
                }
            } else if spins < SPINS {
                spins += 1;
                hint::spin_loop();
            } else {
                self.waiting.queue_up();
                self.table.shared.park(rt, 0, (word & 0xffff_ffff) as u32);
                self.waiting.leave_queue();
            }
        }
        unreachable!()
    }

    /// Gives the turn up, with what the core's journal has more than it had, events of the seat's
    /// lanes alone, and with the lanes that were drawn, which the seat gets.
    pub(crate) fn release(
        &self,
        seat: &mut Seat<Option<Kept<W>>, View<DeskOrigin<W::Told>>>,
        kept: Kept<W>,
    )
        requires table { seat.old.table_id ≡ self.now.table.shared.table_id }
        requires desk { told_of kept ≡ self.now.table.shared.key.value }
        requires slot { seat.old.me.1 ≡ (0, None) ∷ [] }
        requires turn { HasTurn seat.old.me.0 (journal_of kept) kept.drawn }
        ensures table { seat.new.table_id ≡ seat.old.table_id }
        ensures me { seat.new.me ≡ (done seat.old.me.0 (journal_of kept) kept.drawn, []) }
    {
        let word = 2 * kept.core.event_count() as u64;
        let offer = kept.core.offer();
        let ready = kept.core.ready_count();
        self.waiting.show(offer);
        self.table.shared.exchange(seat, 0, Some(kept));
        self.table.shared.store::<Releases<W>>(seat, 0, word);
        self.wake(offer, ready);
    }

    /// Wakes those for whom there is something, once the turn is given up: one who sleeps for the
    /// turn, lanes, and the reader. A thread counts as one that sleeps before it looks at the word.
    fn wake(&self, offer: Offer, ready: u32) {
        if self.waiting.has_queued() {
            self.table.shared.wake_one(0);
        }
        self.waiting.ring(offer, ready);
        self.waiting.tell();
    }

    /// Joins a seat into a pass, and looks.
    pub(crate) fn fold(
        &self,
        pass: &mut Pass<W>,
        seat: Seat<Option<Kept<W>>, View<DeskOrigin<W::Told>>>,
    )
        requires table { (pass.old.seat.table_id ≡ self.now.table.shared.table_id)
            × (seat.table_id ≡ self.now.table.shared.table_id) }
        requires desk { pass.old.seat.me.0.origin ≡ Some self.now.table.shared.key.value }
        requires slot { (seat.me.1 ≡ []) × (seat.me.0.joined ≡ []) }
        ensures table { pass.new.seat.table_id ≡ pass.old.seat.table_id }
        ensures lane { pass.new.lane ≡ pass.old.lane }
        ensures kept { OnlySees pass.old.seat.me.0 pass.old.lane pass.new.seat.me.0 }
        ensures other { Learns pass.old.seat.me.0 seat.me.0 pass.new.seat.me.0 }
    {
        self.table.shared.join_seat::<Folds>(&mut pass.seat, seat);
        self.table.shared.load::<Looks<W>>(&mut pass.seat, 0);
    }
}
