//! Runs of a work to its end: by waves, and by lanes over a shared desk.
ghost use Rattle.std.specs.Prelude.{◌≡◌, ◌<◌, ◌≤◌, ◌^◌, [], IfOk};
ghost use Rattle.bank_core.specs.Counts.{locks_before};
ghost use Rattle.bank_core.specs.Ends.{outcomes_at_end};
ghost use Rattle.lane_trials.specs.Trial.{trial_job};
ghost use Rattle.bank_lanes.specs.Passes.{IsIdle};

use crate::tests::trial::Trial;
use account_store::Accounts;
use bank_core::{Core, Desk, Sealed, Work};
use bank_lanes::{Gate, Lanes, run_groups, run_lanes, run_waves};
use bank_shared::{Pass, SharedDesk};
use sol_base::OutOfMemory;
use std::alloc::Global;
use std::sync::Wait;
use std::thread::Threads;

/// What a work of few locks ends with, by waves.
pub fn end_by_waves<W: Work + Sync, G: Gate, R: Threads + Sync>(
    rt: &R,
    alloc: Global,
    accounts: Accounts,
    lanes: u32,
    work: &W,
    gate: &G,
) -> Result<Sealed, OutOfMemory>
    requires some { 1 ≤ lanes }
    requires most { lanes ≤ 64 }
    requires room { locks_before (W.job (W.told work.now)) (W.job (W.told work.now)).count
        < 2 ^ 32 }
    ensures { IfOk result
        (λ end. end.outcomes
        ≡ outcomes_at_end W.job (record { start = accounts; told = W.told work.now })) }
{
    let mut core = Core::new(alloc, accounts, work, lanes)?;
    run_waves(rt, alloc, &mut core, work, gate)?;
    core.finish()
}

/// What a work ends with, by lanes over its desk.
pub fn end_of_desk<W: Work + Sync, G: Gate, R: Threads + Wait + Sync>(
    rt: &R,
    alloc: Global,
    desk: SharedDesk<W>,
    mut pass: Pass<W>,
    work: &W,
    gate: &G,
) -> Result<Sealed, OutOfMemory>
    requires desk { ⟦<SharedDesk<W> as Desk<W>>⟧.is_of desk pass }
    requires told { (⟦<SharedDesk<W> as Desk<W>>⟧.origin desk).told ≡ W.told work.now }
    requires idle { IsIdle (⟦<SharedDesk<W> as Desk<W>>⟧.view pass) }
    ensures { IfOk result
        (λ end. end.outcomes ≡ outcomes_at_end W.job (⟦<SharedDesk<W> as Desk<W>>⟧.origin desk)) }
{
    let end = run_lanes::<W, SharedDesk<W>, G, R>(rt, alloc, &desk, &mut pass, work, gate);
    let core = desk.close(rt, pass);
    end?;
    core.finish()
}

/// What a work of few locks ends with, by lanes over its desk.
pub fn end_by_lanes<W: Work + Sync, G: Gate, R: Threads + Wait + Sync>(
    rt: &R,
    alloc: Global,
    accounts: Accounts,
    lanes: u32,
    work: &W,
    gate: &G,
) -> Result<Sealed, OutOfMemory>
    requires some { 1 ≤ lanes }
    requires most { lanes ≤ 64 }
    requires room { locks_before (W.job (W.told work.now)) (W.job (W.told work.now)).count
        < 2 ^ 32 }
    ensures { IfOk result
        (λ end. end.outcomes
        ≡ outcomes_at_end W.job (record { start = accounts; told = W.told work.now })) }
{
    let core = Core::new(alloc, accounts, work, lanes)?;
    let (desk, pass) = SharedDesk::new(alloc, core)?;
    end_of_desk(rt, alloc, desk, pass, work, gate)
}

/// What a work ends with, by groups of lanes over its desk.
fn end_of_groups<W: Work + Sync, G: Gate, R: Threads + Wait + Sync>(
    rt: &R,
    made: (SharedDesk<W>, Pass<W>),
    work: &W,
    lanes: Lanes<'_, G>,
) -> Result<Sealed, OutOfMemory>
    requires desk { ⟦<SharedDesk<W> as Desk<W>>⟧.is_of made.0 made.1 }
    requires told { (⟦<SharedDesk<W> as Desk<W>>⟧.origin made.0).told ≡ W.told work.now }
    requires idle { IsIdle (⟦<SharedDesk<W> as Desk<W>>⟧.view made.1) }
    ensures { IfOk result (λ end. end.outcomes
        ≡ outcomes_at_end W.job (⟦<SharedDesk<W> as Desk<W>>⟧.origin made.0)) }
{
    let (desk, mut pass) = made;
    let end = run_groups::<W, SharedDesk<W>, G, R>(rt, &desk, &mut pass, work, lanes);
    let core = desk.close(rt, pass);
    end?;
    core.finish()
}

/// What a small work ends with, by so many lanes, so many of them to a thread.
pub fn end_by_groups<G: Gate, R: Threads + Wait + Sync>(
    rt: &R,
    alloc: Global,
    accounts: Accounts,
    lanes: (u32, u32),
    trial: &Trial,
    gate: &G,
) -> Result<Sealed, OutOfMemory>
    requires some { 1 ≤ lanes.0 }
    requires most { lanes.0 ≤ 64 }
    requires each { 1 ≤ lanes.1 }
    ensures { IfOk result (λ end. end.outcomes
        ≡ outcomes_at_end trial_job (record { start = accounts; told = trial.now.locks })) }
{
    let core = Core::new(alloc, accounts, trial, lanes.0)?;
    let made = SharedDesk::new(alloc, core)?;
    let lanes = Lanes {
        alloc,
        gate,
        threads: lanes.0.div_ceil(lanes.1),
        per_thread: lanes.1,
    };
    end_of_groups(rt, made, trial, lanes)
}

/// What a small work ends with, by so many lanes over its desk.
pub fn end_of_trial<G: Gate, R: Threads + Wait + Sync>(
    rt: &R,
    alloc: Global,
    accounts: Accounts,
    lanes: u32,
    trial: &Trial,
    gate: &G,
) -> Result<Sealed, OutOfMemory>
    requires some { 1 ≤ lanes }
    requires most { lanes ≤ 64 }
{
    end_by_lanes(rt, alloc, accounts, lanes, trial, gate)
}
