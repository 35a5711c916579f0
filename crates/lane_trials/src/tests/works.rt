//! Works around the small one: one that finds no memory, one that waits in its work, and one that is its
//! own gate.
ghost use Rattle.lane_trials.specs.Trial.{trial_job};
ghost use Rattle.lane_trials.specs.TrialLaws.{trial_lawful};

use crate::tests::gates::wait_for;
use crate::tests::trial::Trial;
use bank_core::{Effects, Work};
use bank_lanes::Gate;
use sol_base::{Account, Items, LockList, OutOfMemory};
use std::sync::Arc;
use std::sync::atomic::{AtomicU64, Ordering};

/// Finds no memory for position 1, as often as it says.
#[derive(Drop)]
pub struct Refusing {
    pub trial: Trial,
    pub left: AtomicU64,
}

impl Work for Refusing {
    type Told = Items<LockList>;

    ghost told = { λ work. work.trial.locks };

    ghost job = { trial_job };

    ghost lawful = { λ work. trial_lawful work.trial.locks work.trial.distinct };

    fn count(&self) -> u32 {
        self.trial.count()
    }

    fn locks(&self, position: u32) -> &LockList {
        self.trial.locks(position)
    }

    fn perform(&self, position: u32, values: &[Arc<Account>]) -> Result<Effects, OutOfMemory> {
        if position == 1 && self.refuses() {
            return Err(OutOfMemory);
        }
        self.trial.perform(position, values)
    }
}

impl Refusing {
    /// One refusal fewer is left.
    fn refuses(&self) -> bool {
        let left = self.left.load(Ordering::SeqCst);
        if left == 0 {
            return false;
        }
        self.left.store(left - 1, Ordering::SeqCst);
        true
    }
}

/// Performs position 0 only once position 1 has begun, or the turns are over.
#[derive(Drop)]
pub struct Waiting {
    pub trial: Trial,
    pub begun: AtomicU64,
    pub within: AtomicU64,
}

impl Work for Waiting {
    type Told = Items<LockList>;

    ghost told = { λ work. work.trial.locks };

    ghost job = { trial_job };

    ghost lawful = { λ work. trial_lawful work.trial.locks work.trial.distinct };

    fn count(&self) -> u32 {
        self.trial.count()
    }

    fn locks(&self, position: u32) -> &LockList {
        self.trial.locks(position)
    }

    fn perform(&self, position: u32, values: &[Arc<Account>]) -> Result<Effects, OutOfMemory> {
        if position == 1 {
            self.begun.store(1, Ordering::SeqCst);
        }
        if position == 0 && wait_for(&self.begun, 1) {
            self.within.store(1, Ordering::SeqCst);
        }
        self.trial.perform(position, values)
    }
}

/// Notes which positions have passed its gate, of the first 64, and whether one is performed that has
/// not.
#[derive(Drop)]
pub struct Guarded {
    pub trial: Trial,
    pub passed: AtomicU64,
    pub early: AtomicU64,
}

impl Gate for Guarded {
    fn pass(&self, _lane: u32, position: u32) {
        self.passed
            .fetch_add(1 << (position % 64), Ordering::SeqCst);
    }
}

impl Work for Guarded {
    type Told = Items<LockList>;

    ghost told = { λ work. work.trial.locks };

    ghost job = { trial_job };

    ghost lawful = { λ work. trial_lawful work.trial.locks work.trial.distinct };

    fn count(&self) -> u32 {
        self.trial.count()
    }

    fn locks(&self, position: u32) -> &LockList {
        self.trial.locks(position)
    }

    fn perform(&self, position: u32, values: &[Arc<Account>]) -> Result<Effects, OutOfMemory> {
        if (self.passed.load(Ordering::SeqCst) >> (position % 64)) % 2 == 0 {
            self.early.store(1, Ordering::SeqCst);
        }
        self.trial.perform(position, values)
    }
}
