//! Outcomes that are shared.
ghost use Rattle.std.specs.Prelude.{◌≡◌, IfOk};

use sol_base::{Blob, Items, OutOfMemory};
use std::alloc::Global;
use std::marker::Model;
use std::sync::Arc;
use tx_report::Outcome;

/// An outcome that is shared. It is seen as the outcome itself.
#[derive(Drop)]
pub struct SharedOutcome {
    share: Arc<Outcome>,
}

impl Model for SharedOutcome {
    ghost use Rattle.std.specs.Arc.{arc_value};
    ghost use Rattle.tx_report.specs.declared.outcome.Outcome.{Outcome};

    ghost Value = { Outcome };

    ghost view = { λ s. arc_value s.share };
}

impl SharedOutcome {
    /// A first share of an outcome.
    pub fn new(alloc: Global, outcome: Outcome) -> Result<SharedOutcome, OutOfMemory>
        ensures { IfOk result (λ share. share ≡ outcome) }
    {
        Ok(SharedOutcome {
            share: Arc::new(alloc, outcome)?,
        })
    }

    /// The outcome.
    pub fn value(&self) -> &Outcome
        ensures { result.now ≡ self.now }
    {
        &self.share
    }

    /// One more share of the outcome.
    pub fn again(&self) -> Result<SharedOutcome, OutOfMemory>
        ensures { IfOk result (λ share. share ≡ self.now) }
    {
        Ok(SharedOutcome {
            share: Arc::try_clone(&self.share)?,
        })
    }

    /// The outcome, which is copied only where it has another share.
    pub fn into_outcome(self, alloc: Global) -> Result<Outcome, OutOfMemory>
        ensures { IfOk result (λ outcome. outcome ≡ self) }
    {
        let SharedOutcome { share } = self;
        match Arc::try_unwrap(share) {
            Ok(outcome) => Ok(outcome),
            Err(share) => copy_of(alloc, &share),
        }
    }
}

/// A copy of lines.
fn copy_of_lines(alloc: Global, lines: &[Blob]) -> Result<Items<Blob>, OutOfMemory>
    ensures { IfOk result (λ copy. copy ≡ lines.now) }
{
    let mut copy = Items::with_capacity(alloc, lines.len())?;
    for line in lines {
        copy.push(line.try_copy()?)?;
    }
    Ok(copy)
}

/// A copy of an outcome.
fn copy_of(alloc: Global, outcome: &Outcome) -> Result<Outcome, OutOfMemory>
    ensures { IfOk result (λ copy. copy ≡ outcome.now) }
{
    Ok(Outcome {
        status: outcome.status,
        units: outcome.units,
        base_paid: outcome.base_paid,
        priority_paid: outcome.priority_paid,
        lines: copy_of_lines(alloc, outcome.lines.as_slice())?,
    })
}
