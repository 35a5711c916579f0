//! Outcomes that are told before all positions are done.
ghost use Rattle.std.specs.Prelude.{◌≡◌, ◌+◌, ◌≤◌, IfOk, drop, length, take};
ghost use Rattle.bank_core.specs.Ends.{outcomes_at_end};
ghost use Rattle.bank_core.specs.Origins.{state_after};
ghost use Rattle.bank_core.specs.Told.{done_from, up_to_none};

use crate::kept::Core;
use crate::shared_outcome::SharedOutcome;
use crate::work::Work;
use sol_base::{Items, OutOfMemory};
use std::alloc::Global;

/// Shares of the outcomes up to the first that is not there.
fn shares_of(
    alloc: Global,
    outcomes: &[Option<SharedOutcome>],
) -> Result<Items<SharedOutcome>, OutOfMemory>
    ensures { IfOk result (λ told. told ≡ up_to_none outcomes.now) }
{
    let mut told = Items::new(alloc);
    for outcome in outcomes {
        match outcome.as_ref() {
            Some(outcome) => told.push(outcome.again()?)?,
            None => return Ok(told),
        }
    }
    Ok(told)
}

impl<W: Work> Core<W> {
    /// Shares of the outcomes of so many positions from one on, up to the first that is not done:
    /// the serial run gives the same.
    pub fn outcomes_from(&self, from: u32, most: u32) -> Result<Items<SharedOutcome>, OutOfMemory>
        requires { from + most ≤ (W.job self.now.origin.value.told).count }
        ensures exact { IfOk result (λ told. told
            ≡ done_from (state_after W.job self.now.origin.value self.now.journal.items).stage
            from most) }
        ensures serial { IfOk result (λ told. told
            ≡ take (length told) (drop from (outcomes_at_end W.job self.now.origin.value))) }
    {
        let from = from as usize;
        shares_of(
            self.alloc,
            &self.outcomes.as_slice()[from..from + most as usize],
        )
    }
}
