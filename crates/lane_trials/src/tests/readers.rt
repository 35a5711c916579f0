//! A desk of a trial, and what its reader is told.
ghost use Rattle.std.specs.Prelude.{◌≡◌, ◌+◌, ◌≤◌, IfOk, length};
ghost use Rattle.bank_shared.specs.Face.{desk_origin, first_pass, IsPassOf, IsReaderOf, view_of};

use crate::tests::trial::Trial;
use account_store::Accounts;
use bank_core::{Core, SharedOutcome, Work};
use bank_shared::{Pass, Reader, SharedDesk};
use sol_base::{Items, OutOfMemory};
use std::alloc::Global;
use std::sync::Wait;
use std::thread;
use std::thread::{Threads, join};

/// A desk of two lanes over a trial, and the pass of the first.
pub fn desk_of_two(
    alloc: Global,
    accounts: Accounts,
    trial: &Trial,
) -> Result<(SharedDesk<Trial>, Pass<Trial>), OutOfMemory>
    ensures told { IfOk result (λ made. (desk_origin made.0).told ≡ trial.now.locks) }
    ensures pass { IfOk result (λ made. IsPassOf made.0 made.1) }
    ensures view { IfOk result (λ made. view_of made.1 ≡ first_pass) }
{
    let core = Core::new(alloc, accounts, trial, 2)?;
    SharedDesk::new(alloc, core)
}

/// What the reader is told of so many positions of a trial from one on.
pub fn told<R: Wait>(
    rt: &R,
    desk: &SharedDesk<Trial>,
    reader: &mut Reader<Trial>,
    trial: &Trial,
    from: u32,
    most: u32,
) -> Result<Items<SharedOutcome>, OutOfMemory>
    requires trial { (desk_origin desk.now).told ≡ trial.now.locks }
    requires within { from + most ≤ length trial.now.locks }
    requires reader { IsReaderOf desk.now reader.old }
    ensures reader { IsReaderOf desk.now reader.new }
{
    desk.outcomes_from(rt, reader, from, most)
}

/// Turns after which a reader sleeps that finds nothing.
const LONG: u64 = 2_000;

/// Dismisses the reader of a desk, once it sleeps.
fn dismiss_late(desk: &SharedDesk<Trial>) {
    for _ in 0..LONG {
        thread::yield_now();
    }
    desk.dismiss_reader();
}

/// Whether a reader is told of no position where none is done, once it is dismissed.
pub fn sleeps_until_dismissed<R: Threads + Wait + Sync>(
    rt: &R,
    desk: &SharedDesk<Trial>,
    mut reader: Reader<Trial>,
    trial: &Trial,
) -> Result<bool, OutOfMemory>
    requires trial { (desk_origin desk.now).told ≡ trial.now.locks }
    requires reader { IsReaderOf desk.now reader }
{
    if trial.count() == 0 {
        return Ok(false);
    }
    let (told, ()) = join(
        rt,
        move || -> Result<Items<SharedOutcome>, OutOfMemory>
            requires { (1 ≤ length (desk_origin desk.now).told) × IsReaderOf desk.now reader }
        { desk.next_outcomes(rt, &mut reader, 0, 1) },
        move || dismiss_late(desk),
    );
    Ok(told?.is_empty() && desk.is_dismissed())
}
