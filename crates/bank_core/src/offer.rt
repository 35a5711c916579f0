//! What a core has for a lane, without a take.
ghost use Rattle.std.specs.Prelude.{◌≡◌, ℕ};
ghost use Rattle.bank_core.specs.Counts.{ready_count};
ghost use Rattle.bank_core.specs.Origins.{AllDoneAfter, IsLeastReadyAfter, state_after};
ghost use Rattle.bank_core.specs.Takes.{IsNotNowAfter, MatchOffer};

use crate::kept::Core;
use crate::work::Work;

/// What a core has for a lane that holds nothing: a position that is ready, or none now, or none
/// any more.
#[derive(Clone, Copy, PartialEq, Eq)]
pub enum Offer {
    Ready,
    NotNow,
    Finished,
}

impl<W: Work> Core<W> {
    /// What the core has for a lane that holds nothing.
    pub fn offer(&self) -> Offer
        ensures { MatchOffer result
            ((i : ℕ) × IsLeastReadyAfter W.job self.now.origin.value self.now.journal.items i)
            (IsNotNowAfter W.job self.now.origin.value self.now.journal.items self.now.held)
            (AllDoneAfter W.job self.now.origin.value self.now.journal.items) }
    {
        match self.graph.least_ready() {
            Some(_) => Offer::Ready,
            None if self.held == 0 => Offer::Finished,
            None => Offer::NotNow,
        }
    }

    /// How many positions are ready.
    pub fn ready_count(&self) -> u32
        ensures { result
            ≡ ready_count (W.job self.now.origin.value.told)
            (state_after W.job self.now.origin.value self.now.journal.items) }
    {
        self.graph.ready_count()
    }
}
