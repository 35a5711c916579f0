//! What a frame does at a stop of its machine.
ghost use Rattle.std.specs.Prelude.{◌≡◌, ◌<◌, ◌≤◌, Ok, Err, MatchResult, length};
ghost use Rattle.cpi_calls.specs.Limits.{max_keys, max_metas};
ghost use Rattle.cpi_calls.specs.Rights.{rights_of};
ghost use Rattle.invoke_engine.specs.Calling as Calling;
ghost use Rattle.invoke_engine.specs.Leaving as Leaving;
ghost use Rattle.invoke_engine.specs.Frames.{max_height};
ghost use Rattle.invoke_engine.specs.Conditions.{IsFrame};
ghost use Rattle.invoke_engine.specs.Reasons.{StopsBy, refuse, by_rights};
ghost use Rattle.invoke_engine.specs.Suspended.{programs_of};

use crate::accounts::Accounts;
use crate::call::Call;
use crate::context::Context;
use crate::ending::Callee;
use crate::frame::{Frame, Stack};
use crate::stopped::Stopped;
use abi_input::take_back;
use account_rules::check_listed;
use cpi_calls::{CallRequest, Granted, grant_rights, read_call};
use sol_base::Key;
use std::alloc::Global;
use tx_report::Cause;

/// The most instructions that a transaction starts (Solana).
pub const MAX_TRACE: u8 = 64;

/// What r0 is where a program ends with its own error 0. A lower number is itself the error
/// (Solana).
pub const CUSTOM_ZERO: u64 = 0x1_0000_0000;

/// The accounts as the frame leaves them, where it breaks no rule.
#[tactic(auto, unfolding(crate::specs::Leaving::lawful_accounts))]
fn lawful_accounts(context: &Context<'_>, frame: &Frame) -> Result<Accounts, Stopped>
    requires { IsFrame (length context.now.keys) frame.now }
    ensures { MatchResult result
        (λ accounts. Leaving.lawful_accounts frame.now ≡ Ok accounts)
        (λ e. StopsBy e (Leaving.lawful_accounts frame.now)) }
{
    let taken = take_back(
        context.alloc,
        frame.machine.memory().input(),
        frame.start.as_slice(),
        frame.before.as_slice(),
        frame.metas.as_slice(),
    )?;
    check_listed(
        &frame.program,
        frame.metas.as_slice(),
        taken.touched.as_slice(),
        frame.before.as_slice(),
        taken.accounts.as_slice(),
    )?;
    Ok(Accounts::of(taken.accounts))
}

/// What r0 says at the exit.
#[tactic(auto, unfolding(crate::specs::Leaving::exited))]
fn exited(r0: u64) -> Result<(), Stopped>
    ensures { result ≡ Leaving.exited r0 }
{
    if r0 == 0 {
        return Ok(());
    }
    if r0 < CUSTOM_ZERO {
        return Err(Stopped::with(Cause::Custom, r0 as u32));
    }
    if r0 == CUSTOM_ZERO {
        return Err(Stopped::plainly(Cause::Custom));
    }
    Err(Stopped::plainly(Cause::InvalidError))
}

/// The accounts after the exit of a frame's program.
#[tactic(auto, unfolding(crate::specs::Leaving::left))]
pub(crate) fn left(context: &Context<'_>, frame: &Frame, r0: u64) -> Result<Accounts, Stopped>
    requires { IsFrame (length context.now.keys) frame.now }
    ensures { MatchResult result
        (λ accounts. Leaving.left frame.now r0 ≡ Ok accounts)
        (λ e. StopsBy e (Leaving.left frame.now r0)) }
{
    let after = lawful_accounts(context, frame)?;
    exited(r0)?;
    Ok(after)
}

/// Whether a program may be called now.
#[tactic(auto, unfolding(crate::specs::Calling::may_start))]
fn may_start(
    context: &Context<'_>,
    outer: &Stack,
    frame: &Frame,
    trace: u8,
    program: &Key,
) -> Result<(), Stopped>
    requires { length outer.now < max_height }
    ensures { result
        ≡ Calling.may_start context.now.setting.height (programs_of outer.now) frame.now trace
        program.now }
{
    if trace >= MAX_TRACE {
        return Err(Stopped::plainly(Cause::TraceTooLong));
    }
    if outer.len() + 1 >= context.setting.height as usize {
        return Err(Stopped::plainly(Cause::StackHeight));
    }
    if *program != frame.program && outer.has(program) {
        return Err(Stopped::plainly(Cause::Reentrancy));
    }
    Ok(())
}

/// The request that the frame's machine makes.
fn ask(alloc: Global, frame: &Frame, units: &mut u64) -> Result<CallRequest, Stopped>
    requires { units.old ≡ frame.now.machine.units }
    ensures { Calling.Asks (Calling.requested frame.now) units.new result }
{
    Ok(read_call(
        alloc,
        frame.machine.arguments(),
        frame.machine.memory(),
        &frame.program,
        units,
    )?)
}

/// The rights of the callee.
fn grant(context: &Context<'_>, frame: &Frame, request: &CallRequest) -> Result<Granted, Stopped>
    requires keys { length context.now.keys ≤ max_keys }
    requires metas { length request.now.metas ≤ max_metas }
    ensures { MatchResult result
        (λ granted. rights_of request.now context.now.keys frame.now.metas ≡ Ok granted)
        (λ e. StopsBy e (refuse by_rights (rights_of request.now context.now.keys frame.now.metas))) }
{
    Ok(grant_rights(context.alloc, request, context.keys, frame.metas.as_slice())?)
}

/// The callee of a request: its rights, then the accounts as the frame leaves them, then whether it
/// may be called.
#[tactic(auto, unfolding(crate::specs::Calling::called))]
pub(crate) fn called(
    context: &Context<'_>,
    outer: &Stack,
    frame: &Frame,
    trace: u8,
    units: &mut u64,
) -> Result<Callee, Stopped>
    requires keys { length context.now.keys ≤ max_keys }
    requires frame { IsFrame (length context.now.keys) frame.now }
    requires outer { length outer.now < max_height }
    requires units { units.old ≡ frame.now.machine.units }
    ensures { Calling.Comes
        (Calling.called context.now.setting.height context.now.keys (programs_of outer.now)
        frame.now trace
        (Calling.requested frame.now).answer)
        (Calling.requested frame.now).units units.new result }
{
    let request = ask(context.alloc, frame, units)?;
    let granted = grant(context, frame, &request)?;
    let accounts = lawful_accounts(context, frame)?;
    may_start(context, outer, frame, trace, &request.program)?;
    Ok(Callee {
        call: Call {
            program: granted.program,
            metas: granted.metas,
            input: request.input,
        },
        accounts,
    })
}
