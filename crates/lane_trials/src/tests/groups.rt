//! Groups of lanes over a shared desk.
ghost use Rattle.std.specs.Prelude.{◌≡◌, ◌≤◌};
ghost use Rattle.bank_shared.specs.Face.{desk_origin, first_pass, IsPassOf, view_of};

use crate::tests::drives::have_units;
use crate::tests::ends::end_by_groups;
use crate::tests::gates::MeetingGate;
use crate::tests::readers::desk_of_two;
use crate::tests::trial::{READ, Trial, WRITE, accounts_of_ten, accounts_with, trial_of};
use crate::tests::watches::watched;
use bank_core::{Desk, Split};
use bank_lanes::{OpenGate, run_lanes};
use bank_shared::{Pass, SharedDesk};
use sol_base::OutOfMemory;
use std::alloc::Global;
use std::process::Abort;
use std::sync::Wait;
use std::test::Fail;
use std::thread::Threads;

const A: &[(u8, bool)] = &[(1, WRITE)];

const B: &[(u8, bool)] = &[(2, WRITE)];

const C: &[(u8, bool)] = &[(3, WRITE)];

const D: &[(u8, bool)] = &[(4, WRITE)];

const E: &[(u8, bool)] = &[(5, WRITE)];

const F: &[(u8, bool)] = &[(6, WRITE)];

/// Six accounts, each written by eight positions, one after the other.
const CHAINS: [&[(u8, bool)]; 48] = [
    A, B, C, D, E, F, A, B, C, D, E, F, A, B, C, D, E, F, A, B, C, D, E, F, A, B, C, D, E, F, A, B,
    C, D, E, F, A, B, C, D, E, F, A, B, C, D, E, F,
];

/// What each of them finds on its account.
const FOUND: [u64; 48] = [
    10, 10, 10, 10, 10, 10, 9, 9, 9, 9, 9, 9, 8, 8, 8, 8, 8, 8, 7, 7, 7, 7, 7, 7, 6, 6, 6, 6, 6, 6,
    5, 5, 5, 5, 5, 5, 4, 4, 4, 4, 4, 4, 3, 3, 3, 3, 3, 3,
];

/// How many lanes, and how many to a group.
const WIDTHS: [(u32, u32); 5] = [(4, 1), (8, 2), (64, 16), (9, 4), (3, 16)];

/// What each position finds on its account if so many lamports more are on each: all of them are
/// compute units.
fn found_more(more: u64) -> [u64; 48] {
    let mut found = FOUND;
    for units in &mut found {
        *units = units.saturating_add(more);
    }
    found
}

/// Whether the chains end as the serial run does, 20 times with each width.
fn chains_end<R: Threads + Wait + Abort + Sync>(
    rt: &R,
    alloc: Global,
    more: u32,
) -> Result<bool, Fail> {
    let trial = trial_of(rt, alloc, &CHAINS)?;
    let found = found_more(u64::from(more));
    for lanes in WIDTHS {
        for _ in 0..20 {
            let accounts = accounts_with(rt, alloc, &[1, 2, 3, 4, 5, 6], more.saturating_add(10))?;
            let end = end_by_groups(rt, alloc, accounts, lanes, &trial, &OpenGate)?;
            if !have_units(&end.outcomes, &found) {
                return Ok(false);
            }
        }
    }
    Ok(true)
}

#[test]
fn groups_end_as_the_serial_run(rt: HostRuntime) -> Result<(), Fail> {
    assert!(rt; watched(&rt, || chains_end(&rt, rt.alloc(), 0))?);
    Ok(())
}

/// The chains end where each position is long, so that a group lets others run before it takes more.
#[test]
fn groups_that_give_way_end_too(rt: HostRuntime) -> Result<(), Fail> {
    assert!(rt; watched(&rt, || chains_end(&rt, rt.alloc(), 1_000_000))?);
    Ok(())
}

/// Four positions that wait for nobody.
const CROWD: [&[(u8, bool)]; 4] = [&[(1, READ)]; 4];

/// Whether four positions are all held at once, by four groups: each leaves the others their share.
fn groups_meet<R: Threads + Wait + Abort + Sync>(rt: &R, alloc: Global) -> Result<bool, Fail> {
    let trial = trial_of(rt, alloc, &CROWD)?;
    let accounts = accounts_of_ten(rt, alloc, &[1])?;
    let gate = MeetingGate::new(4);
    let end = end_by_groups(rt, alloc, accounts, (64, 16), &trial, &gate)?;
    Ok(gate.all_met() && end.outcomes.len() == 4)
}

#[test]
fn four_groups_meet(rt: HostRuntime) -> Result<(), Fail> {
    assert!(rt; watched(&rt, || groups_meet(&rt, rt.alloc()))?);
    Ok(())
}

/// Positions that all wait for the one before them.
const CHAIN: [&[(u8, bool)]; 8] = [A; 8];

/// Whether a desk's lanes end with the first one alone: its second is still to be drawn.
fn stays_alone<R: Threads + Wait + Abort + Sync>(
    rt: &R,
    alloc: Global,
    desk: SharedDesk<Trial>,
    mut pass: Pass<Trial>,
    trial: &Trial,
) -> Result<bool, OutOfMemory>
    requires told { (desk_origin desk).told ≡ trial.now.locks }
    requires pass { IsPassOf desk pass }
    requires view { view_of pass ≡ first_pass }
{
    let gate = OpenGate;
    run_lanes::<Trial, SharedDesk<Trial>, OpenGate, R>(rt, alloc, &desk, &mut pass, trial, &gate)?;
    match desk.split(rt, &mut pass) {
        Split::Made(_second) => Ok(true),
        Split::AllMade => Ok(false),
    }
}

/// Whether they are done by a desk's first lane alone.
fn chain_stays<R: Threads + Wait + Abort + Sync>(rt: &R, alloc: Global) -> Result<bool, Fail> {
    let trial = trial_of(rt, alloc, &CHAIN)?;
    let accounts = accounts_of_ten(rt, alloc, &[1])?;
    let (desk, pass) = desk_of_two(alloc, accounts, &trial)?;
    Ok(stays_alone(rt, alloc, desk, pass, &trial)?)
}

/// No lane is drawn, and no thread started, as long as no more than one position is ready.
#[test]
fn a_chain_stays_with_the_first_lane(rt: HostRuntime) -> Result<(), Fail> {
    assert!(rt; watched(&rt, || chain_stays(&rt, rt.alloc()))?);
    Ok(())
}
