//! The machine's loop.
ghost use Rattle.std.specs.Prelude.{◌≡◌, Some, true, IfOk, OnErr};
ghost use Rattle.sbpf_machine.specs.Flows.{GoBack};
ghost use Rattle.sbpf_machine.specs.Runs.{Ends, StandsAtStart};
ghost use Rattle.sbpf_machine.specs.Steps.{going, state, stepped};
ghost use Rattle.sbpf_verify.specs.Entries.{IsDecoded};
ghost use Rattle.sbpf_verify.specs.Places.{is_start};
ghost use Rattle.sbpf_verify.specs.Verified.{IsVerified};

use crate::context::Context;
use crate::instruction::{Flow, step};
use crate::stop::{Fault, Stop};
use sbpf_verify::{Entry, Verified};
use sol_base::OutOfMemory;

/// The end of a run: the stop, or None where a store found no memory.
#[derive(Clone, Copy)]
pub struct Ended {
    pub stop: Option<Stop>,
    pub place: u32,
    pub units: u64,
}

/// Runs to the first stop.
#[inline(never)]
pub fn run_from(
    program: &Verified,
    entries: &[Entry],
    start: u32,
    given: u64,
    context: &mut Context,
) -> Ended
    requires verified { IsVerified program.now }
    requires decoded { IsDecoded program.now entries.now }
    requires start { is_start program.now start ≡ true }
    requires backs { GoBack program.now context.old.frames }
    ensures ends { Ends program.now start given context.old result context.new }
    ensures stands { StandsAtStart program.now result.place context.new result.stop }
{
    let mut place = start;
    let mut units = given;
    while units > 0 {
        let entry = entries[place as usize];
        match step(program, entry, place, context) {
            Flow::Next => place += 1,
            Flow::Jump => place = entry.target,
            Flow::To(other) => place = other,
            Flow::Off(stop) => {
                return Ended {
                    stop: Some(stop),
                    place,
                    units: units - 1,
                };
            }
            Flow::NoMemory => {
                return Ended {
                    stop: None,
                    place,
                    units,
                };
            }
        }
        units -= 1;
    }
    Ended {
        stop: Some(Stop::Fault(Fault::UnitsSpent)),
        place,
        units,
    }
}

/// Does one instruction, or comes to the stop where no unit is left.
pub fn step_from(
    program: &Verified,
    entries: &[Entry],
    place: u32,
    units: u64,
    context: &mut Context,
) -> Result<Ended, OutOfMemory>
    requires verified { IsVerified program.now }
    requires decoded { IsDecoded program.now entries.now }
    requires start { is_start program.now place ≡ true }
    requires backs { GoBack program.now context.old.frames }
    ensures ok { IfOk result (λ ended. stepped (going program.now place context.old units)
        ≡ Some (state program.now ended.place context.new ended.units ended.stop)) }
    ensures stands { IfOk result (λ ended.
        StandsAtStart program.now ended.place context.new ended.stop) }
    ensures err { OnErr result (context.new ≡ context.old) }
{
    if units == 0 {
        return Ok(Ended {
            stop: Some(Stop::Fault(Fault::UnitsSpent)),
            place,
            units,
        });
    }
    let entry = entries[place as usize];
    let (stop, to) = match step(program, entry, place, context) {
        Flow::Next => (None, place + 1),
        Flow::Jump => (None, entry.target),
        Flow::To(other) => (None, other),
        Flow::Off(stop) => (Some(stop), place),
        Flow::NoMemory => return Err(OutOfMemory),
    };
    Ok(Ended {
        stop,
        place: to,
        units: units - 1,
    })
}
