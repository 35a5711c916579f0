//! Instructions: the loop over the frames.
ghost use Rattle.std.specs.Prelude.{◌≡◌, ◌∷◌, ◌<◌, ◌≤◌, [], length, IfOk};
ghost use Rattle.sol_base.specs.Accounts.{accounts_of};
ghost use Rattle.sol_base.specs.Limits.{max_stack_height};
ghost use Rattle.cpi_calls.specs.Limits.{max_keys};
ghost use Rattle.program_cache.specs.Programs.{sought};
ghost use Rattle.invoke_engine.specs.Endings.{ending_as};
ghost use Rattle.invoke_engine.specs.FrameLoop.{Stands, Steps, ending_in};
ghost use Rattle.invoke_engine.specs.Frame as Spec;
ghost use Rattle.invoke_engine.specs.Frame.{Carried};
ghost use Rattle.invoke_engine.specs.Frames.{fixed, max_height, max_trace};
ghost use Rattle.invoke_engine.specs.Invoked.{fixed_in};
ghost use Rattle.invoke_engine.specs.Conditions.{AreAccountsOf, CallFits, IsCall, RunsFit};
ghost use Rattle.invoke_engine.specs.Suspended.{programs_of};
ghost use Rattle.invoke_engine.specs.Ran.{IsRun};
ghost use Rattle.invoke_engine.specs.Starting.{begun, next_as};

use crate::accounts::Accounts;
use crate::begin::{Next, begin};
use crate::call::{Call, Ended, Ran, Setting, StoppedAt};
use crate::carrier::Carrier;
use crate::context::{Context, Invocation};
use crate::ending::{Callee, Ending};
use crate::frame::{Frame, Stack};
use crate::resume::resume;
use crate::stop::MAX_TRACE;
use crate::turn::{Turn, height_in, take_turn};
use crate::watch::{Unwatched, Watch};
use program_cache::Programs;
use sol_base::{Account, Blob, Key, OutOfMemory, SYSTEM_PROGRAM};
use std::alloc::Global;
use std::mem;
use std::sync::Arc;
use sys_calls::Env;
use tx_report::{Cause, InstructionError, Logs};

/// A frame at its start, which is seen before.
fn begin_watched<W: Watch>(
    context: &Context<'_>,
    outer: &Stack,
    invocation: Invocation<'_>,
    carrier: &mut Carrier,
    watch: &mut W,
) -> Result<Next, OutOfMemory>
    requires outer { length outer.now < max_height }
    requires call { IsCall (length context.now.keys) invocation.call }
    requires accounts { AreAccountsOf (length context.now.keys) invocation.accounts }
    requires trace { carrier.old.trace < max_trace }
    ensures next { IfOk result (λ next.
        begun (fixed_in context.now) (programs_of outer.now) invocation.entry.call
        invocation.entry.accounts invocation.entry.units carrier.old
        ≡ next_as next carrier.new) }
    ensures fits { IfOk result (λ next. RunsFit (length context.now.keys) (next_as next carrier.new)) }
{
    watch.begins(height_in(outer), context, &invocation, carrier)?;
    begin(context, outer, invocation, carrier)
}

/// Begins the frame of a callee, for which its caller waits.
fn begin_callee<W: Watch>(
    context: &Context<'_>,
    stack: &mut Stack,
    caller: Frame,
    callee: Callee,
    units: u64,
    carrier: &mut Carrier,
    watch: &mut W,
) -> Result<Next, OutOfMemory>
    requires most { context.now.setting.height ≤ max_stack_height }
    requires fits { CallFits (length context.now.keys) context.now.setting.height
        (programs_of stack.old) caller carrier.old callee }
    ensures stack { IfOk result (λ _. stack.new ≡ caller ∷ stack.old) }
    ensures next { IfOk result (λ next.
        begun (fixed_in context.now) (programs_of stack.new) callee.call callee.accounts units
        carrier.old
        ≡ next_as next carrier.new) }
    ensures fits { IfOk result (λ next. RunsFit (length context.now.keys) (next_as next carrier.new)) }
{
    stack.push(caller)?;
    let Callee { call, accounts } = callee;
    let invocation = Invocation {
        program: call.program,
        metas: call.metas.as_slice(),
        input: call.input.as_slice(),
        accounts,
        units,
    };
    begin_watched(context, stack, invocation, carrier, watch)
}

/// Runs the frame until it ends or another is begun.
fn advance<W: Watch>(
    context: &Context<'_>,
    stack: &mut Stack,
    frame: Frame,
    carrier: &mut Carrier,
    watch: &mut W,
) -> Result<Next, OutOfMemory>
    requires keys { length context.now.keys ≤ max_keys }
    requires most { context.now.setting.height ≤ max_stack_height }
    requires stands { Stands (fixed_in context.now) stack.old (Spec.Runs frame carrier.old) }
    ensures { IfOk result (λ next. Steps (fixed_in context.now) stack.old (Spec.Runs frame carrier.old)
        stack.new (next_as next carrier.new)) }
{
    let mut frame = frame;
    loop {
        match take_turn(context, stack, &mut frame, carrier, watch)? {
            Turn::GoesOn => {}
            Turn::Calls(callee, units) => {
                return begin_callee(context, stack, frame, callee, units, carrier, watch);
            }
            Turn::Leaves(ending) => {
                watch.stops(&frame, &ending)?;
                return Ok(Next::Done(ending));
            }
        }
    }
}

/// Runs all frames to the end of the outermost.
fn drive<W: Watch>(
    context: &Context<'_>,
    stack: &mut Stack,
    first: Next,
    carrier: &mut Carrier,
    watch: &mut W,
) -> Result<Ending, OutOfMemory>
    requires keys { length context.now.keys ≤ max_keys }
    requires most { context.now.setting.height ≤ max_stack_height }
    requires stands { Stands (fixed_in context.now) stack.old (next_as first carrier.old) }
    ensures { IfOk result (λ e. ending_as e carrier.new
        ≡ ending_in (fixed_in context.now) stack.old (next_as first carrier.old)) }
{
    let mut next = first;
    loop {
        next = match next {
            Next::Runs(frame) => advance(context, stack, frame, carrier, watch)?,
            Next::Done(ending) => {
                watch.ends(&ending, carrier)?;
                match stack.pop() {
                    None => return Ok(ending),
                    Some(frame) => resume(context, stack, frame, ending, carrier)?,
                }
            }
        };
    }
}

/// A frame that starts and runs to its end, with those that it calls.
fn run_frame<W: Watch>(
    context: &Context<'_>,
    invocation: Invocation<'_>,
    carrier: &mut Carrier,
    watch: &mut W,
) -> Result<Ending, OutOfMemory>
    requires keys { length context.now.keys ≤ max_keys }
    requires height { (1 ≤ context.now.setting.height) × (context.now.setting.height ≤ max_stack_height) }
    requires call { IsCall (length context.now.keys) invocation.call }
    requires accounts { AreAccountsOf (length context.now.keys) invocation.accounts }
    requires trace { carrier.old.trace < max_trace }
    ensures { IfOk result (λ e. ending_as e carrier.new
        ≡ Spec.frame (fixed_in context.now) [] invocation.entry.call invocation.entry.accounts invocation.entry.units
        carrier.old) }
{
    let mut stack = Stack::new(context.alloc);
    let first = begin_watched(context, &stack, invocation, carrier, watch)?;
    drive(context, &mut stack, first, carrier, watch)
}

/// What an instruction did that ended so.
fn ran_of(ending: Ending, trace: u8, stopped_at: Option<StoppedAt>) -> Ran
    ensures { (c : Carried) → c.trace ≡ trace → c.stopped_at ≡ stopped_at
        → IsRun (ending_as ending c) result c.log }
{
    let Ending { units, result } = ending;
    let ended = match result {
        Ok(accounts) => Ended::Good(accounts.into_items()),
        Err(error) => Ended::Failed(error),
    };
    Ran {
        units,
        trace,
        ended,
        stopped_at,
    }
}

/// Runs an instruction that is started.
fn run_started<W: Watch>(
    context: &Context<'_>,
    invocation: Invocation<'_>,
    trace: u8,
    logs: &mut Logs,
    watch: &mut W,
) -> Result<Ran, OutOfMemory>
    requires keys { length context.now.keys ≤ max_keys }
    requires height { (1 ≤ context.now.setting.height) × (context.now.setting.height ≤ max_stack_height) }
    requires call { IsCall (length context.now.keys) invocation.call }
    requires accounts { AreAccountsOf (length context.now.keys) invocation.accounts }
    requires trace { trace < max_trace }
    ensures { IfOk result (λ ran. IsRun
        (Spec.frame (fixed_in context.now) [] invocation.entry.call invocation.entry.accounts invocation.entry.units
        (Spec.nothing_returned trace logs.old))
        ran logs.new) }
{
    let mut carrier = Carrier {
        trace,
        stopped_at: None,
        env: Env {
            slot: context.setting.slot,
            program: SYSTEM_PROGRAM,
            height: 1,
            units: invocation.units,
            returned: Blob::new(context.alloc),
            returned_by: SYSTEM_PROGRAM,
            logs: mem::replace(logs, Logs::new(context.alloc)),
        },
    };
    let answer = run_frame(context, invocation, &mut carrier, watch);
    let Carrier {
        trace,
        stopped_at,
        env,
    } = carrier;
    let Env { logs: lines, .. } = env;
    *logs = lines;
    Ok(ran_of(answer?, trace, stopped_at))
}

/// What `run_instruction` does, for one who hands the accounts over, lends the lists of the call, and
/// sees the frames.
pub fn watch_invocation<W: Watch>(
    context: &Context<'_>,
    invocation: Invocation<'_>,
    trace: u8,
    logs: &mut Logs,
    watch: &mut W,
) -> Result<Ran, OutOfMemory>
    requires keys { length context.now.keys ≤ max_keys }
    requires height { (1 ≤ context.now.setting.height) × (context.now.setting.height ≤ max_stack_height) }
    requires call { IsCall (length context.now.keys) invocation.call }
    requires accounts { AreAccountsOf (length context.now.keys) invocation.accounts }
    ensures { IfOk result (λ ran. IsRun
        (Spec.instruction (fixed_in context.now) invocation.entry.call invocation.entry.accounts invocation.entry.units trace
        logs.old)
        ran logs.new) }
{
    if trace >= MAX_TRACE {
        return Ok(Ran {
            units: invocation.units,
            trace,
            ended: Ended::Failed(InstructionError {
                cause: Cause::TraceTooLong,
                detail: 0,
                height: 1,
            }),
            stopped_at: None,
        });
    }
    run_started(context, invocation, trace, logs, watch)
}

/// What `run_instruction` does, for one who hands the accounts over and lends the lists of the call.
pub fn run_invocation(
    context: &Context<'_>,
    invocation: Invocation<'_>,
    trace: u8,
    logs: &mut Logs,
) -> Result<Ran, OutOfMemory>
    requires keys { length context.now.keys ≤ max_keys }
    requires height { (1 ≤ context.now.setting.height) × (context.now.setting.height ≤ max_stack_height) }
    requires call { IsCall (length context.now.keys) invocation.call }
    requires accounts { AreAccountsOf (length context.now.keys) invocation.accounts }
    ensures { IfOk result (λ ran. IsRun
        (Spec.instruction (fixed_in context.now) invocation.entry.call invocation.entry.accounts invocation.entry.units trace
        logs.old)
        ran logs.new) }
{
    watch_invocation(context, invocation, trace, logs, &mut Unwatched)
}

/// Runs one top instruction with its cross-program calls (Solana; docs/SOLANA.md lists what is the
/// project's own). `trace` counts the instructions that the transaction started before. The lines
/// are added to `logs`; where memory runs out, some of them may be. Where the instruction fails,
/// the accounts given are those that hold.
pub fn run_instruction(
    alloc: Global,
    programs: &Programs,
    setting: &Setting,
    keys: &[Key],
    accounts: &[Arc<Account>],
    call: &Call,
    units: u64,
    trace: u8,
    logs: &mut Logs,
) -> Result<Ran, OutOfMemory>
    requires keys { length keys.now ≤ max_keys }
    requires height { (1 ≤ setting.now.height) × (setting.now.height ≤ max_stack_height) }
    requires call { IsCall (length keys.now) call.now }
    requires accounts { AreAccountsOf (length keys.now) (accounts_of accounts.now) }
    ensures { IfOk result (λ ran. IsRun
        (Spec.instruction (fixed (sought programs.now) setting.now keys.now) call.now
        (accounts_of accounts.now) units trace logs.old)
        ran logs.new) }
{
    let context = Context {
        alloc,
        programs,
        setting: *setting,
        keys,
    };
    let invocation = Invocation {
        program: call.program,
        metas: call.metas.as_slice(),
        input: call.input.as_slice(),
        accounts: Accounts::share(alloc, accounts)?,
        units,
    };
    run_invocation(&context, invocation, trace, logs)
}
