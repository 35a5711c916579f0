//! A frame at its start.
ghost use Rattle.std.specs.Prelude.{◌≡◌, ◌<◌, ◌≤◌, Ok, Err, MatchResult, length, IfOk, OnOk};
ghost use Rattle.program_cache.specs.Programs.{sought};
ghost use Rattle.abi_input.specs.Region.{max_metas};
ghost use Rattle.invoke_engine.specs.Endings.{ending_as, ending_of, error_of};
ghost use Rattle.invoke_engine.specs.Frames.{height, max_height, max_trace};
ghost use Rattle.invoke_engine.specs.Invoked.{fixed_in};
ghost use Rattle.invoke_engine.specs.Conditions.{AreAccountsOf, IsCall, IsFrame, RunsFit};
ghost use Rattle.invoke_engine.specs.Native as Native;
ghost use Rattle.invoke_engine.specs.Reasons.{StopsBy};
ghost use Rattle.invoke_engine.specs.Starting as Starting;
ghost use Rattle.invoke_engine.specs.Suspended.{programs_of};
ghost use Rattle.invoke_engine.specs.declared.stopped.Stopped.TheVariants.{Refused};

use crate::accounts::Accounts;
use crate::carrier::Carrier;
use crate::context::{Context, Invocation};
use crate::ending::Ending;
use crate::frame::{Frame, Stack};
use crate::lines::{close, ending_of, say_invoke};
use crate::program::NamedProgram;
use crate::stopped::{Reason, Stopped};
use crate::turn::height_in;
use abi_input::lay_out;
use loader_prog::run_loader;
use program_cache::{Found, Image};
use sbpf_machine::Machine;
use sbpf_memory::Memory;
use sol_base::{
    Blob, COMPUTE_BUDGET_PROGRAM, Items, Key, LOADER_PROGRAM, MAX_METAS, OutOfMemory,
    SYSTEM_PROGRAM,
};
use std::alloc::Global;
use std::sync::Arc;
use system_prog::run_system;
use tx_report::{Cause, InstructionError};

/// The units of a frame of a native program (the project's own).
pub(crate) const NATIVE_UNITS: u64 = 150;

/// A frame that runs, or has ended.
#[derive(Drop)]
pub(crate) enum Next {
    Runs(Frame),
    Done(Ending),
}

/// Whether the program is one of those that are no sBPF programs.
fn is_native(key: &Key) -> bool
    ensures { result ≡ Native.is_native key.now }
{
    *key == SYSTEM_PROGRAM || *key == LOADER_PROGRAM || *key == COMPUTE_BUDGET_PROGRAM
}

/// What a native program does.
#[tactic(auto, unfolding(crate::specs::Native::native_row))]
fn run_native(
    context: &Context<'_>,
    key: &Key,
    invocation: Invocation<'_>,
) -> Result<Accounts, Stopped>
    requires call { IsCall (length context.now.keys) invocation.call }
    requires metas { length invocation.call.metas ≤ max_metas }
    requires accounts { AreAccountsOf (length context.now.keys) invocation.accounts }
    ensures { MatchResult result
        (λ after. Native.native_row key.now context.now.keys invocation.entry.accounts invocation.entry.call
        ≡ Ok after)
        (λ e. StopsBy e (Native.native_row key.now context.now.keys invocation.entry.accounts
        invocation.entry.call)) }
{
    let Invocation {
        metas,
        input,
        accounts,
        ..
    } = invocation;
    if *key == SYSTEM_PROGRAM {
        let after = run_system(
            context.alloc,
            context.keys,
            accounts.as_slice(),
            metas,
            input,
        )?;
        return Ok(Accounts::of(after));
    }
    if *key == LOADER_PROGRAM {
        let after = run_loader(
            context.alloc,
            context.keys,
            accounts.as_slice(),
            metas,
            input,
        )?;
        return Ok(Accounts::of(after));
    }
    Ok(accounts)
}

/// The end of a frame whose program does not run.
#[inline(never)]
fn refuse(
    alloc: Global,
    outer: &Stack,
    program: &NamedProgram,
    units: u64,
    carrier: &mut Carrier,
    reason: Reason,
) -> Result<Ending, OutOfMemory>
    requires { length outer.now < max_height }
    ensures { IfOk result (λ e. ending_as e carrier.new ≡ ending_of program.now units carrier.old
        (Err (error_of (height (programs_of outer.now)) (Refused reason)))) }
{
    let error = InstructionError {
        cause: reason.cause,
        detail: reason.detail,
        height: height_in(outer),
    };
    ending_of(alloc, program, units, carrier, Err(error))
}

/// The frame of a native program.
fn native(
    context: &Context<'_>,
    outer: &Stack,
    program: &NamedProgram,
    invocation: Invocation<'_>,
    carrier: &mut Carrier,
) -> Result<Ending, OutOfMemory>
    requires outer { length outer.now < max_height }
    requires call { IsCall (length context.now.keys) invocation.call }
    requires metas { length invocation.call.metas ≤ max_metas }
    requires accounts { AreAccountsOf (length context.now.keys) invocation.accounts }
    ensures { IfOk result (λ e. ending_as e carrier.new
        ≡ Native.native program.now (programs_of outer.now) context.now.keys invocation.entry.call
        invocation.entry.accounts invocation.entry.units carrier.old) }
{
    let alloc = context.alloc;
    if invocation.units < NATIVE_UNITS {
        let spent = Reason::plainly(Cause::UnitsSpent);
        return refuse(alloc, outer, program, 0, carrier, spent);
    }
    let left = invocation.units - NATIVE_UNITS;
    match run_native(context, &program.key(), invocation) {
        Ok(after) => ending_of(alloc, program, left, carrier, Ok(after)),
        Err(Stopped::Refused(reason)) => refuse(alloc, outer, program, left, carrier, reason),
        Err(Stopped::OutOfMemory) => Err(OutOfMemory),
    }
}

/// A frame at the start of its program. Most frames are those of native programs, in whose memory
/// no machine is.
#[inline(never)]
fn first_frame(
    context: &Context<'_>,
    program: Key,
    image: &Image,
    invocation: Invocation<'_>,
) -> Result<Frame, OutOfMemory>
    requires call { IsCall (length context.now.keys) invocation.call }
    requires metas { length invocation.call.metas ≤ max_metas }
    requires accounts { AreAccountsOf (length context.now.keys) invocation.accounts }
    ensures value { IfOk result (λ frame. frame
        ≡ Starting.first_running context.now.setting context.now.keys program image.now
        invocation.entry.call invocation.entry.accounts invocation.entry.units) }
    ensures fits { IfOk result (λ frame. IsFrame (length context.now.keys) frame) }
{
    let alloc = context.alloc;
    let Invocation {
        metas,
        input,
        accounts,
        units,
        ..
    } = invocation;
    let region = lay_out(
        alloc,
        context.keys,
        accounts.as_slice(),
        metas,
        input,
        &program,
    )?;
    let bytes = Arc::try_clone(image.bytes())?;
    let memory = Memory::new(alloc, bytes, context.setting.heap, region)?;
    let machine = Machine::of(Arc::try_clone(image.code())?, memory, units);
    let machine = Box::new(alloc, machine)?;
    Ok(Frame {
        program,
        metas: Items::from_vec(Vec::from_slice(alloc, metas)?),
        start: Accounts::share(alloc, accounts.as_slice())?,
        before: accounts,
        had: units,
        machine,
    })
}

/// Whether the program is ready.
fn is_ready(context: &Context<'_>, key: &Key) -> bool
    ensures { result ≡ Starting.is_ready (sought context.now.programs key.now) }
{
    match context.programs.find(key) {
        Found::Ready(_) => true,
        _ => false,
    }
}

/// The end of a frame that lists too many accounts.
#[inline(never)]
#[tactic(auto, unfolding(crate::specs::Starting::crowded))]
fn crowded(
    context: &Context<'_>,
    outer: &Stack,
    program: &NamedProgram,
    units: u64,
    carrier: &mut Carrier,
) -> Result<Ending, OutOfMemory>
    requires { length outer.now < max_height }
    ensures { IfOk result (λ e. ending_as e carrier.new
        ≡ Starting.crowded (sought context.now.programs) program.now (programs_of outer.now) units
        carrier.old) }
{
    let reason = Reason::plainly(Cause::TooManyAccounts);
    let key = program.key();
    if !is_native(&key) && is_ready(context, &key) {
        let error = InstructionError {
            cause: reason.cause,
            detail: reason.detail,
            height: height_in(outer),
        };
        let failed = Err(error);
        return close(context.alloc, program, units, units, carrier, failed);
    }
    refuse(context.alloc, outer, program, units, carrier, reason)
}

/// A frame after its first line.
#[tactic(auto, unfolding(crate::specs::Starting::entering))]
fn enter(
    context: &Context<'_>,
    outer: &Stack,
    program: &NamedProgram,
    invocation: Invocation<'_>,
    carrier: &mut Carrier,
) -> Result<Next, OutOfMemory>
    requires outer { length outer.now < max_height }
    requires call { IsCall (length context.now.keys) invocation.call }
    requires accounts { AreAccountsOf (length context.now.keys) invocation.accounts }
    ensures next { IfOk result (λ next.
        Starting.entering (fixed_in context.now) (programs_of outer.now) program.now invocation.entry.call
        invocation.entry.accounts invocation.entry.units carrier.old
        ≡ Starting.next_as next carrier.new) }
    ensures fits { IfOk result (λ next. RunsFit (length context.now.keys) (Starting.next_as next carrier.new)) }
{
    let units = invocation.units;
    if invocation.metas.len() > MAX_METAS {
        return Ok(Next::Done(crowded(context, outer, program, units, carrier)?));
    }
    let key = program.key();
    if is_native(&key) {
        return Ok(Next::Done(native(context, outer, program, invocation, carrier)?));
    }
    let reason = match context.programs.find(&key) {
        Found::Ready(image) => {
            let frame = first_frame(context, key, image, invocation)?;
            return Ok(Next::Runs(frame));
        }
        Found::NotFound | Found::NotProgram => Reason::plainly(Cause::UnknownProgram),
        Found::Bad => Reason::plainly(Cause::BadImage),
        Found::Unverified(fault) => Reason::with(Cause::Unverified, u32::from(fault.number())),
    };
    Ok(Next::Done(refuse(context.alloc, outer, program, units, carrier, reason)?))
}

/// The key at a place of the transaction.
fn key_at(keys: &[Key], place: u8) -> Key
    ensures { result ≡ Starting.key_at keys.now place }
{
    match keys.get(place as usize) {
        Some(key) => *key,
        None => SYSTEM_PROGRAM,
    }
}

/// One more instruction is started.
fn start(
    alloc: Global,
    program: &NamedProgram,
    outer: &Stack,
    carrier: &mut Carrier,
) -> Result<(), OutOfMemory>
    requires outer { length outer.now < max_height }
    requires trace { carrier.old.trace < max_trace }
    ensures { OnOk result (carrier.new
        ≡ Starting.started program.now (height (programs_of outer.now)) carrier.old) }
{
    carrier.trace += 1;
    carrier.env.returned = Blob::new(alloc);
    say_invoke(alloc, program, height_in(outer), carrier)
}

/// A frame at its start.
#[tactic(auto, unfolding(crate::specs::Starting::begun))]
pub(crate) fn begin(
    context: &Context<'_>,
    outer: &Stack,
    invocation: Invocation<'_>,
    carrier: &mut Carrier,
) -> Result<Next, OutOfMemory>
    requires outer { length outer.now < max_height }
    requires call { IsCall (length context.now.keys) invocation.call }
    requires accounts { AreAccountsOf (length context.now.keys) invocation.accounts }
    requires trace { carrier.old.trace < max_trace }
    ensures next { IfOk result (λ next.
        Starting.begun (fixed_in context.now) (programs_of outer.now) invocation.entry.call invocation.entry.accounts
        invocation.entry.units carrier.old
        ≡ Starting.next_as next carrier.new) }
    ensures fits { IfOk result (λ next. RunsFit (length context.now.keys) (Starting.next_as next carrier.new)) }
{
    let program = NamedProgram::of(key_at(context.keys, invocation.program));
    start(context.alloc, &program, outer, carrier)?;
    enter(context, outer, &program, invocation, carrier)
}
