//! Lanes that really run beside each other, by waves and over a shared desk.
use crate::tests::drives::have_units;
use crate::tests::ends::{end_by_lanes, end_by_waves};
use crate::tests::gates::KeepingGate;
use crate::tests::trial::{Trial, WRITE, accounts_of_ten, trial_of};
use crate::tests::works::{Guarded, Refusing, Waiting};
use account_store::Accounts;
use bank_core::Sealed;
use bank_lanes::{Gate, OpenGate};
use sol_base::OutOfMemory;
use std::alloc::Global;
use std::process::Abort;
use std::sync::Wait;
use std::sync::atomic::{AtomicU64, Ordering};
use std::test::Fail;
use std::thread::Threads;

/// The lanes run by waves.
const WAVES: bool = false;

/// They run over a shared desk.
const LANES: bool = true;

fn end_by<G: Gate, R: Threads + Wait + Sync>(
    rt: &R,
    alloc: Global,
    accounts: Accounts,
    lanes: bool,
    trial: &Trial,
    gate: &G,
) -> Result<Sealed, OutOfMemory> {
    if lanes {
        end_by_lanes(rt, alloc, accounts, 2, trial, gate)
    } else {
        end_by_waves(rt, alloc, accounts, 2, trial, gate)
    }
}

/// How lanes run, the position that has to pass before position 0 does, whether it does, and the
/// units of the outcomes.
type Kept = (bool, u32, bool, &'static [u64]);

/// Whether a gate keeps position 0 of these locks so.
fn keeps<R: Threads + Wait + Abort + Sync>(
    rt: &R,
    alloc: Global,
    lists: &[&[(u8, bool)]],
    kept: &Kept,
) -> Result<bool, Fail> {
    let trial = trial_of(rt, alloc, lists)?;
    let accounts = accounts_of_ten(rt, alloc, &[1, 2])?;
    let gate = KeepingGate::new(kept.1);
    let end = end_by(rt, alloc, accounts, kept.0, &trial, &gate)?;
    Ok(gate.was_passed_within() == kept.2 && have_units(&end.outcomes, kept.3))
}

/// Two positions that wait for nobody.
const TWO: [&[(u8, bool)]; 2] = [&[(1, WRITE)], &[(2, WRITE)]];

const AT_ONCE: [Kept; 2] = [(WAVES, 1, true, &[10, 10]), (LANES, 1, true, &[10, 10])];

#[test]
fn two_lanes_run_at_once(rt: HostRuntime) -> Result<(), Fail> {
    for kept in AT_ONCE {
        assert!(rt; keeps(&rt, rt.alloc(), &TWO, &kept)?);
    }
    Ok(())
}

/// One position more, which waits for the second.
const THREE: [&[(u8, bool)]; 3] = [&[(1, WRITE)], &[(2, WRITE)], &[(2, WRITE)]];

const BARRIERS: [Kept; 2] = [
    (LANES, 2, true, &[10, 10, 9]),
    (WAVES, 2, false, &[10, 10, 9]),
];

#[test]
fn lanes_have_no_barrier(rt: HostRuntime) -> Result<(), Fail> {
    for kept in BARRIERS {
        assert!(rt; keeps(&rt, rt.alloc(), &THREE, &kept)?);
    }
    Ok(())
}

fn end_of_waiting<R: Threads + Wait + Sync>(
    rt: &R,
    alloc: Global,
    accounts: Accounts,
    work: &Waiting,
) -> Result<Sealed, OutOfMemory> {
    end_by_lanes(rt, alloc, accounts, 2, work, &OpenGate)
}

/// Position 0 waits in its work until position 1 has begun.
#[test]
fn the_work_of_lanes_runs_at_once(rt: HostRuntime) -> Result<(), Fail> {
    let work = Waiting {
        trial: trial_of(&rt, rt.alloc(), &TWO)?,
        begun: AtomicU64::new(0),
        within: AtomicU64::new(0),
    };
    let accounts = accounts_of_ten(&rt, rt.alloc(), &[1, 2])?;
    let end = end_of_waiting(&rt, rt.alloc(), accounts, &work)?;
    assert!(rt; work.within.load(Ordering::SeqCst) == 1);
    assert!(rt; have_units(&end.outcomes, &[10, 10]));
    Ok(())
}

fn end_of_refusing<R: Threads + Wait + Sync>(
    rt: &R,
    alloc: Global,
    accounts: Accounts,
    lanes: bool,
    work: &Refusing,
) -> Result<Sealed, OutOfMemory> {
    if lanes {
        end_by_lanes(rt, alloc, accounts, 2, work, &OpenGate)
    } else {
        end_by_waves(rt, alloc, accounts, 2, work, &OpenGate)
    }
}

/// Four positions that wait for nobody.
const FOUR: [&[(u8, bool)]; 4] = [&[(1, WRITE)], &[(2, WRITE)], &[(3, WRITE)], &[(4, WRITE)]];

/// Whether lanes end well only where memory is refused once, and waves then do.
fn ends_so<R: Threads + Wait + Abort + Sync>(
    rt: &R,
    alloc: Global,
    lanes: bool,
    refusals: u64,
) -> Result<bool, Fail> {
    let work = Refusing {
        trial: trial_of(rt, alloc, &FOUR)?,
        left: AtomicU64::new(refusals),
    };
    let accounts = accounts_of_ten(rt, alloc, &[1, 2, 3, 4])?;
    match end_of_refusing(rt, alloc, accounts, lanes, &work) {
        Ok(end) => Ok(refusals == 1 && have_units(&end.outcomes, &[10, 10, 10, 10])),
        Err(_) => Ok(refusals > 1 || lanes),
    }
}

/// How lanes run, and how often memory is refused.
const REFUSALS: [(bool, u64); 4] = [(WAVES, 1), (LANES, 1), (WAVES, u64::MAX), (LANES, u64::MAX)];

#[test]
fn lanes_without_memory_give_back(rt: HostRuntime) -> Result<(), Fail> {
    for (lanes, refusals) in REFUSALS {
        assert!(rt; ends_so(&rt, rt.alloc(), lanes, refusals)?);
    }
    Ok(())
}

fn end_of_guarded<R: Threads + Wait + Sync>(
    rt: &R,
    alloc: Global,
    accounts: Accounts,
    lanes: bool,
    work: &Guarded,
) -> Result<Sealed, OutOfMemory> {
    if lanes {
        end_by_lanes(rt, alloc, accounts, 2, work, work)
    } else {
        end_by_waves(rt, alloc, accounts, 2, work, work)
    }
}

/// Whether two lanes perform nothing but what has passed the gate.
fn pass_first<R: Threads + Wait + Abort + Sync>(
    rt: &R,
    alloc: Global,
    lanes: bool,
    positions: &[&[(u8, bool)]],
) -> Result<bool, Fail> {
    let work = Guarded {
        trial: trial_of(rt, alloc, positions)?,
        passed: AtomicU64::new(0),
        early: AtomicU64::new(0),
    };
    let accounts = accounts_of_ten(rt, alloc, &[1, 2, 3, 4])?;
    let end = end_of_guarded(rt, alloc, accounts, lanes, &work)?;
    Ok(work.early.load(Ordering::SeqCst) == 0 && end.outcomes.len() == positions.len())
}

/// Four positions that wait for the one before them.
const CHAIN: [&[(u8, bool)]; 4] = [&[(1, WRITE)]; 4];

#[test]
fn lanes_pass_before_they_work(rt: HostRuntime) -> Result<(), Fail> {
    for lanes in [WAVES, LANES] {
        assert!(rt; pass_first(&rt, rt.alloc(), lanes, &FOUR)?);
        assert!(rt; pass_first(&rt, rt.alloc(), lanes, &CHAIN)?);
    }
    Ok(())
}
