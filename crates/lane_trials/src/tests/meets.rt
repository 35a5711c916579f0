//! Lanes that must all come, and runs that must end.
ghost use Rattle.std.specs.Prelude.{◌≤◌};

use crate::tests::ends::end_of_trial;
use crate::tests::gates::{MeetingGate, PairingGate};
use crate::tests::readers::{desk_of_two, sleeps_until_dismissed};
use crate::tests::trial::{READ, Trial, WRITE, accounts_of_ten, trial_of};
use crate::tests::watches::watched;
use bank_lanes::OpenGate;
use std::alloc::Global;
use std::process::Abort;
use std::sync::Wait;
use std::test::Fail;
use std::thread::Threads;

const READER: &[(u8, bool)] = &[(1, READ)];

/// 64 positions that wait for nobody.
const CROWD: [&[(u8, bool)]; 64] = [READER; 64];

/// Whether so many positions are all held at once, by as many lanes.
fn meet<R: Threads + Wait + Abort + Sync>(rt: &R, alloc: Global, many: u32) -> Result<bool, Fail>
    requires { (1 ≤ many) × (many ≤ 64) }
{
    let trial = trial_of(rt, alloc, &CROWD[..many as usize])?;
    let accounts = accounts_of_ten(rt, alloc, &[1])?;
    let gate = MeetingGate::new(u64::from(many));
    let end = end_of_trial(rt, alloc, accounts, many, &trial, &gate)?;
    Ok(gate.all_met() && end.outcomes.len() == many as usize)
}

/// Each of four positions is held until all four are.
#[test]
fn four_lanes_meet(rt: HostRuntime) -> Result<(), Fail> {
    assert!(rt; watched(&rt, || meet(&rt, rt.alloc(), 4))?);
    Ok(())
}

/// Each of 64 positions is held until all 64 are.
#[test]
fn sixty_four_lanes_meet(rt: HostRuntime) -> Result<(), Fail> {
    assert!(rt; watched(&rt, || meet(&rt, rt.alloc(), 64))?);
    Ok(())
}

const ONE: &[(u8, bool)] = &[(1, WRITE)];

const OTHER: &[(u8, bool)] = &[(2, WRITE)];

/// Two accounts, each written by twelve positions, one after the other: two positions are ready at any
/// time but the last.
const CHAINS: [&[(u8, bool)]; 24] = [
    ONE, OTHER, ONE, OTHER, ONE, OTHER, ONE, OTHER, ONE, OTHER, ONE, OTHER, ONE, OTHER, ONE, OTHER,
    ONE, OTHER, ONE, OTHER, ONE, OTHER, ONE, OTHER,
];

/// Whether 64 lanes come for two positions at a time, 80 times.
fn crowds_end<R: Threads + Wait + Abort + Sync>(rt: &R, alloc: Global) -> Result<bool, Fail> {
    let trial = trial_of(rt, alloc, &CHAINS)?;
    for _ in 0..80 {
        let accounts = accounts_of_ten(rt, alloc, &[1, 2])?;
        let end = end_of_trial(rt, alloc, accounts, 64, &trial, &OpenGate)?;
        if end.outcomes.len() != 24 {
            return Ok(false);
        }
    }
    Ok(true)
}

/// Whoever gives the turn up has to wake who sleeps for it, and who sleeps for it must have seen it
/// taken.
#[test]
fn a_crowd_ends(rt: HostRuntime) -> Result<(), Fail> {
    assert!(rt; watched(&rt, || crowds_end(&rt, rt.alloc()))?);
    Ok(())
}

/// More turns than a lane looks for before it sleeps.
const LONG: u64 = 1_000;

/// Fewer than that.
const SHORT: u64 = 8;

/// Three positions that wait for nobody.
const APART: [&[(u8, bool)]; 3] = [ONE, OTHER, &[(3, WRITE)]];

/// Whether four lanes end 30 times, three of which sleep while one has the last position.
fn sleepers_end<R: Threads + Wait + Abort + Sync>(rt: &R, alloc: Global) -> Result<bool, Fail> {
    let trial = trial_of(rt, alloc, &APART)?;
    for _ in 0..30 {
        let accounts = accounts_of_ten(rt, alloc, &[1, 2, 3])?;
        let gate = PairingGate::new(LONG);
        let end = end_of_trial(rt, alloc, accounts, 4, &trial, &gate)?;
        if !gate.were_paired() || end.outcomes.len() != 3 {
            return Ok(false);
        }
    }
    Ok(true)
}

/// The end wakes all lanes that sleep. One would sleep for a second each time, if nothing woke it.
#[test]
fn the_end_wakes_all_lanes(rt: HostRuntime) -> Result<(), Fail> {
    assert!(rt; watched(&rt, || sleepers_end(&rt, rt.alloc()))?);
    Ok(())
}

const BOTH: &[(u8, bool)] = &[(1, WRITE), (2, WRITE)];

/// Eight times: a position, and two that wait for it and that the next one waits for.
const PAIRS: [&[(u8, bool)]; 24] = [
    BOTH, ONE, OTHER, BOTH, ONE, OTHER, BOTH, ONE, OTHER, BOTH, ONE, OTHER, BOTH, ONE, OTHER, BOTH,
    ONE, OTHER, BOTH, ONE, OTHER, BOTH, ONE, OTHER,
];

/// Whether two lanes share those.
fn pair_ends<R: Threads + Wait + Abort + Sync>(
    rt: &R,
    alloc: Global,
    dawdle: u64,
    trial: &Trial,
) -> Result<bool, Fail> {
    let accounts = accounts_of_ten(rt, alloc, &[1, 2])?;
    let gate = PairingGate::new(dawdle);
    let end = end_of_trial(rt, alloc, accounts, 2, trial, &gate)?;
    Ok(gate.were_paired() && end.outcomes.len() == 24)
}

/// Whether two lanes share those, so many times.
fn pairs_end<R: Threads + Wait + Abort + Sync>(
    rt: &R,
    alloc: Global,
    dawdle: u64,
    times: u32,
) -> Result<bool, Fail> {
    let trial = trial_of(rt, alloc, &PAIRS)?;
    for _ in 0..times {
        if !pair_ends(rt, alloc, dawdle, &trial)? {
            return Ok(false);
        }
    }
    Ok(true)
}

/// A lane that sleeps is woken by the commit that leaves it a position. It would sleep for a second
/// 28 times, if nothing woke it.
#[test]
fn a_commit_wakes_a_lane(rt: HostRuntime) -> Result<(), Fail> {
    assert!(rt; watched(&rt, || pairs_end(&rt, rt.alloc(), LONG, 4))?);
    Ok(())
}

/// A lane that is about to sleep sees that a commit leaves it a position.
#[test]
fn a_commit_is_seen(rt: HostRuntime) -> Result<(), Fail> {
    assert!(rt; watched(&rt, || pairs_end(&rt, rt.alloc(), SHORT, 60))?);
    Ok(())
}

const ALONE: [&[(u8, bool)]; 1] = [ONE];

/// Whether a reader that sleeps ends 30 times, each once it is dismissed.
fn readers_end<R: Threads + Wait + Abort + Sync>(rt: &R, alloc: Global) -> Result<bool, Fail> {
    let trial = trial_of(rt, alloc, &ALONE)?;
    for _ in 0..30 {
        let accounts = accounts_of_ten(rt, alloc, &[1])?;
        let (desk, mut pass) = desk_of_two(alloc, accounts, &trial)?;
        let reader = desk.reader(&mut pass);
        if !sleeps_until_dismissed(rt, &desk, reader, &trial)? {
            return Ok(false);
        }
    }
    Ok(true)
}

/// The end wakes a reader that sleeps. It would sleep for a second each time, if nothing woke it.
#[test]
fn the_end_wakes_a_reader(rt: HostRuntime) -> Result<(), Fail> {
    assert!(rt; watched(&rt, || readers_end(&rt, rt.alloc()))?);
    Ok(())
}
