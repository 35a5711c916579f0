//! Work: many positions, each performed on the values of its locks.
ghost use Rattle.std.specs.Prelude.{◌≡◌, ◌<◌, IfOk};
ghost use Rattle.bank_law.specs.Job.{Job};
ghost use Rattle.bank_law.specs.Lawful.{IsLawful, Fits};
ghost use Rattle.sol_base.specs.Accounts.{accounts_of};
ghost use Rattle.bank_core.specs.Effects.{effects_seen};

use crate::shared_outcome::SharedOutcome;
use sol_base::{Account, Items, LockList, OutOfMemory};
use std::sync::Arc;

/// What performing a position gives: its outcome, and one account for each write lock, in their
/// order.
#[derive(Drop)]
pub struct Effects {
    pub outcome: SharedOutcome,
    pub written: Items<Arc<Account>>,
}

/// A work of many positions.
pub trait Work {
    /// What the work tells: plain data that never changes.
    type Told;

    ghost told: { Self → Self.Told };

    /// The work that is told, as plain data.
    ghost job: { Self.Told → Job };

    ghost lawful: { (work : Self) → IsLawful (job (told work)) };

    /// The number of positions.
    fn count(&self) -> u32
        ensures { result ≡ (job (told self.now)).count };

    /// The locks of a position, whose keys are distinct.
    fn locks(&self, position: u32) -> &LockList
        requires { position < (job (told self.now)).count }
        ensures { result.now ≡ (job (told self.now)).locks position };

    /// Performs a position on the values of its keys, in the order of its locks.
    fn perform(&self, position: u32, values: &[Arc<Account>]) -> Result<Effects, OutOfMemory>
        requires below { position < (job (told self.now)).count }
        requires fits { Fits ((job (told self.now)).locks position) (accounts_of values.now) }
        ensures { IfOk result
            (λ effects. effects_seen effects
            ≡ (job (told self.now)).effects position (accounts_of values.now)) };
}
