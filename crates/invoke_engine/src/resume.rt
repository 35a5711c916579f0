//! A caller after its callee.
ghost use Rattle.std.specs.Prelude.{◌≡◌, ◌<◌, ◌≤◌, Ok, Err, length, IfOk};
ghost use Rattle.abi_input.specs.Region.{patched};
ghost use Rattle.invoke_engine.specs.Conditions.{EndingFits, AreAccountsOf, IsFrame, IsSuspended, RunsFit};
ghost use Rattle.invoke_engine.specs.Endings.{ending_as};
ghost use Rattle.invoke_engine.specs.Frames.{max_height};
ghost use Rattle.invoke_engine.specs.Returning.{returned, PatchesAs};
ghost use Rattle.invoke_engine.specs.Starting.{next_as};
ghost use Rattle.invoke_engine.specs.Suspended.{programs_of};

use crate::accounts::Accounts;
use crate::begin::Next;
use crate::carrier::Carrier;
use crate::context::Context;
use crate::ending::Ending;
use crate::frame::{Frame, Stack};
use crate::lines::close;
use crate::program::NamedProgram;
use crate::stopped::Stopped;
use crate::turn::fail;
use abi_input::patch;
use sol_base::OutOfMemory;

/// Writes the accounts over the frame's region, and makes them the frame's.
fn write_over(context: &Context<'_>, frame: &mut Frame, accounts: Accounts) -> Result<(), Stopped>
    requires frame { IsFrame (length context.now.keys) frame.old }
    requires accounts { AreAccountsOf (length context.now.keys) accounts }
    ensures answer { PatchesAs
        (patched frame.old.machine.context.memory.input.bytes frame.old.start
        accounts frame.old.metas)
        accounts frame.old frame.new result }
    ensures size { length frame.new.machine.context.memory.input.bytes
        ≡ length frame.old.machine.context.memory.input.bytes }
{
    patch(
        context.alloc,
        frame.machine.memory_mut().input_mut(),
        frame.start.as_slice(),
        accounts.as_slice(),
        frame.metas.as_slice(),
    )?;
    frame.before = accounts;
    Ok(())
}

/// The caller goes on where its callee ended well, and fails with it where it failed.
#[tactic(auto, unfolding(crate::specs::Returning::returned))]
pub(crate) fn resume(
    context: &Context<'_>,
    outer: &Stack,
    frame: Frame,
    ending: Ending,
    carrier: &mut Carrier,
) -> Result<Next, OutOfMemory>
    requires outer { length outer.now < max_height }
    requires frame { IsSuspended (length context.now.keys) frame }
    requires ending { EndingFits (length context.now.keys) (ending_as ending carrier.old) }
    requires units { ending.units ≤ frame.machine.units }
    ensures next { IfOk result (λ next.
        returned (programs_of outer.now) frame (ending_as ending carrier.old)
        ≡ next_as next carrier.new) }
    ensures fits { IfOk result (λ next. RunsFit (length context.now.keys) (next_as next carrier.new)) }
{
    let mut frame = frame;
    let Ending { units, result } = ending;
    match result {
        Err(error) => {
            let program = NamedProgram::of(frame.program);
            let ending = close(
                context.alloc,
                &program,
                frame.had,
                units,
                carrier,
                Err(error),
            )?;
            Ok(Next::Done(ending))
        }
        Ok(accounts) => match write_over(context, &mut frame, accounts) {
            Ok(()) => {
                frame.machine.set_units(units);
                frame.machine.resume(0);
                Ok(Next::Runs(frame))
            }
            Err(Stopped::Refused(reason)) => {
                let ending = fail(context.alloc, outer, &frame, units, carrier, reason)?;
                Ok(Next::Done(ending))
            }
            Err(Stopped::OutOfMemory) => Err(OutOfMemory),
        },
    }
}
