//! A desk of two lanes that is driven by a list of steps.
ghost use Rattle.std.specs.Prelude.{◌≡◌, None};
ghost use Rattle.bank_law.specs.History.{holds};
ghost use Rattle.bank_lanes.specs.Passes.{IsIdle};
ghost use Rattle.bank_shared.specs.Face.{desk_origin, IsPassOf, IsReaderOf, view_of};
ghost use Rattle.lane_trials.specs.Held.{Holds, ReturnsOnce};

use crate::tests::desk::{Answer, Lane, finds_end, make_step, second_of, settled};
use crate::tests::readers::{desk_of_two, told};
use crate::tests::trial::{Trial, accounts_of_ten, trial_of};
use bank_core::{Desk, Sealed, SharedOutcome, Work};
use bank_shared::{Pass, Reader, SharedDesk};
use sol_base::Items;
use std::alloc::Global;
use std::process::Abort;
use std::sync::Wait;
use std::test::Fail;

/// A lane takes, or commits what it holds.
pub const ON: bool = false;

/// A lane gives back what it holds.
pub const BACK: bool = true;

/// The lane of a step, whether it is one back, and what comes of it where that matters: the answer,
/// and the units of the outcomes that are then told of so many positions from one on.
pub type Row = (u32, bool, Option<(Answer, u32, u32, &'static [u64])>);

type TrialLane = Lane<Trial, Pass<Trial>>;

/// Whether the outcomes have these units, in the order of the positions.
pub fn have_units(outcomes: &Items<SharedOutcome>, units: &[u64]) -> bool {
    for (outcome, want) in outcomes.as_slice().iter().zip(units) {
        if outcome.value().units != *want {
            return false;
        }
    }
    outcomes.len() == units.len()
}

/// Whether a reader is told outcomes of these units of so many positions from one on.
fn tells<R: Wait>(
    rt: &R,
    desk: &SharedDesk<Trial>,
    reader: &mut Reader<Trial>,
    trial: &Trial,
    range: (u32, u32),
    units: &[u64],
) -> bool
    requires trial { (desk_origin desk.now).told ≡ trial.now.locks }
    requires reader { IsReaderOf desk.now reader.old }
    ensures reader { IsReaderOf desk.now reader.new }
{
    let (from, most) = range;
    let count = trial.count();
    if most > count || from > count - most {
        return false;
    }
    match told(rt, desk, reader, trial, from, most) {
        Ok(outcomes) => have_units(&outcomes, units),
        Err(_) => false,
    }
}

/// Makes the step of a row, and tells whether that came of it which should.
fn follow_row<R: Wait>(
    rt: &R,
    desk: &SharedDesk<Trial>,
    reader: &mut Reader<Trial>,
    trial: &Trial,
    lane: TrialLane,
    row: &Row,
) -> (TrialLane, bool)
    requires told { (desk_origin desk.now).told ≡ trial.now.locks }
    requires reader { IsReaderOf desk.now reader.old }
    requires lane { IsPassOf desk.now lane.pass }
    requires lane_loan { Holds lane.loan (desk_origin desk.now)
        (view_of lane.pass) }
    requires lane_once { ReturnsOnce lane.gave_back
        (view_of lane.pass) }
    ensures reader { IsReaderOf desk.now reader.new }
    ensures lane { IsPassOf desk.now result.0.pass }
    ensures lane_loan { Holds result.0.loan (desk_origin desk.now)
        (view_of result.0.pass) }
    ensures lane_once { ReturnsOnce result.0.gave_back
        (view_of result.0.pass) }
{
    let (on, answer) = make_step::<Trial, SharedDesk<Trial>, R>(rt, desk, trial, lane, row.1);
    let so = match row.2 {
        Some((wanted, from, most, units)) => {
            answer == wanted && tells(rt, desk, reader, trial, (from, most), units)
        }
        None => true,
    };
    (on, so)
}

/// Follows the rows of two lanes, and tells whether all came out so, and the lanes hold nothing then.
fn follow_two<R: Wait>(
    rt: &R,
    desk: &SharedDesk<Trial>,
    reader: &mut Reader<Trial>,
    trial: &Trial,
    lanes: (TrialLane, TrialLane),
    rows: &[Row],
) -> (Pass<Trial>, bool)
    requires told { (desk_origin desk.now).told ≡ trial.now.locks }
    requires reader { IsReaderOf desk.now reader.old }
    requires first { IsPassOf desk.now lanes.0.pass }
    requires first_loan { Holds lanes.0.loan (desk_origin desk.now)
        (view_of lanes.0.pass) }
    requires first_once { ReturnsOnce lanes.0.gave_back
        (view_of lanes.0.pass) }
    requires second { IsPassOf desk.now lanes.1.pass }
    requires second_loan { Holds lanes.1.loan (desk_origin desk.now)
        (view_of lanes.1.pass) }
    requires second_once { ReturnsOnce lanes.1.gave_back
        (view_of lanes.1.pass) }
    ensures desk { IsPassOf desk.now result.0 }
    ensures free { holds (view_of result.0).mine ≡ None }
{
    let (mut first, mut second) = lanes;
    let mut right = true;
    for row in rows {
        if row.0 == 0 {
            let (on, so) = follow_row(rt, desk, reader, trial, first, row);
            first = on;
            right = right && so;
        } else {
            let (on, so) = follow_row(rt, desk, reader, trial, second, row);
            second = on;
            right = right && so;
        }
    }
    let (mut pass, one_free) = settled::<Trial, SharedDesk<Trial>, R>(rt, desk, trial, first);
    let (other, other_free) = settled::<Trial, SharedDesk<Trial>, R>(rt, desk, trial, second);
    desk.join(&mut pass, other);
    (pass, right && one_free && other_free)
}

/// Makes the second lane, and follows the rows of both.
fn follow_rest<R: Wait>(
    rt: &R,
    desk: &SharedDesk<Trial>,
    reader: &mut Reader<Trial>,
    trial: &Trial,
    first: TrialLane,
    rows: &[Row],
) -> (Pass<Trial>, bool)
    requires told { (desk_origin desk.now).told ≡ trial.now.locks }
    requires reader { IsReaderOf desk.now reader.old }
    requires first { IsPassOf desk.now first.pass }
    requires first_loan { Holds first.loan (desk_origin desk.now)
        (view_of first.pass) }
    requires first_once { ReturnsOnce first.gave_back
        (view_of first.pass) }
    ensures desk { IsPassOf desk.now result.0 }
    ensures free { holds (view_of result.0).mine ≡ None }
{
    let mut first = first;
    match second_of::<Trial, SharedDesk<Trial>, R>(rt, desk, &mut first.pass) {
        Some(pass) => {
            let second = Lane {
                pass,
                loan: None,
                gave_back: false,
            };
            follow_two(rt, desk, reader, trial, (first, second), rows)
        }
        None => {
            let (pass, _) = settled::<Trial, SharedDesk<Trial>, R>(rt, desk, trial, first);
            (pass, false)
        }
    }
}

/// Follows all rows, of which the first is the first lane's. Then the second lane is made.
fn follow_all<R: Wait>(
    rt: &R,
    desk: &SharedDesk<Trial>,
    mut pass: Pass<Trial>,
    trial: &Trial,
    row: &Row,
    rows: &[Row],
) -> (Pass<Trial>, bool)
    requires told { (desk_origin desk.now).told ≡ trial.now.locks }
    requires desk { IsPassOf desk.now pass }
    requires idle { IsIdle (view_of pass) }
    ensures desk { IsPassOf desk.now result.0 }
    ensures free { holds (view_of result.0).mine ≡ None }
{
    let mut reader = desk.reader(&mut pass);
    let lane = Lane {
        pass,
        loan: None,
        gave_back: false,
    };
    let (first, so) = follow_row(rt, desk, &mut reader, trial, lane, row);
    let (pass, right) = follow_rest(rt, desk, &mut reader, trial, first, rows);
    (pass, so && right)
}

/// What a desk ends with, where a lane that holds nothing finds that all is done.
fn end_of<R: Wait>(
    rt: &R,
    desk: SharedDesk<Trial>,
    mut pass: Pass<Trial>,
    trial: &Trial,
) -> Result<Sealed, Fail>
    requires told { (desk_origin desk).told ≡ trial.now.locks }
    requires desk { IsPassOf desk pass }
    requires free { holds (view_of pass).mine ≡ None }
{
    let done = finds_end::<Trial, SharedDesk<Trial>, R>(rt, &desk, &mut pass, trial);
    let core = desk.close(rt, pass);
    if !done {
        return Err(Fail::from("not all positions are done"));
    }
    Ok(core.finish()?)
}

/// What a small work of accounts of ten lamports ends with, where all rows came out so.
pub fn end_of_rows<R: Wait + Abort>(
    rt: &R,
    alloc: Global,
    trial: &Trial,
    bytes: &[u8],
    rows: &[Row],
) -> Result<Sealed, Fail> {
    let accounts = accounts_of_ten(rt, alloc, bytes)?;
    let (desk, pass) = desk_of_two(alloc, accounts, trial)?;
    let [row, rest @ ..] = rows else {
        return Err(Fail::from("no rows"));
    };
    let (pass, right) = follow_all(rt, &desk, pass, trial, row, rest);
    assert!(rt; right);
    end_of(rt, desk, pass, trial)
}

/// Whether the same of the work of these locks has outcomes of these units.
pub fn follows<R: Wait + Abort>(
    rt: &R,
    alloc: Global,
    lists: &[&[(u8, bool)]],
    bytes: &[u8],
    rows: &[Row],
    units: &[u64],
) -> Result<bool, Fail> {
    let trial = trial_of(rt, alloc, lists)?;
    let end = end_of_rows(rt, alloc, &trial, bytes, rows)?;
    Ok(have_units(&end.outcomes, units))
}
