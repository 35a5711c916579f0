//! One turn of a frame: to the next stop of its machine, and what the stop asks for.
ghost use Rattle.std.specs.Prelude.{◌≡◌, ◌<◌, ◌≤◌, Ok, Err, Some, length, IfOk};
ghost use Rattle.cpi_calls.specs.Limits.{max_keys};
ghost use Rattle.sbpf_machine.specs.Runs.{IsNumbered};
ghost use Rattle.sbpf_machine.specs.Steps.{IsHelper, arguments_in, steps};
ghost use Rattle.sbpf_machine.specs.Lending.{with_memory};
ghost use Rattle.sbpf_isa.specs.Calls.{IsServed};
ghost use Rattle.sys_calls.specs.SysCalls.{sys_row};
ghost use Rattle.invoke_engine.specs.Calling as Calling;
ghost use Rattle.invoke_engine.specs.Endings.{closes, ending_as};
ghost use Rattle.invoke_engine.specs.Frames.{height, max_height};
ghost use Rattle.invoke_engine.specs.Conditions.{IsFrame};
ghost use Rattle.invoke_engine.specs.Leaving as Leaving;
ghost use Rattle.invoke_engine.specs.Reasons.{by_fault};
ghost use Rattle.invoke_engine.specs.Serving as Serving;
ghost use Rattle.invoke_engine.specs.Suspended.{programs_of};
ghost use Rattle.invoke_engine.specs.Turns as Turns;
ghost use Rattle.invoke_engine.specs.declared.stopped.Stopped.TheVariants.{Refused};

use crate::call::StoppedAt;
use crate::carrier::Carrier;
use crate::context::Context;
use crate::ending::{Callee, Ending};
use crate::frame::{Frame, Stack};
use crate::lines::close;
use crate::program::NamedProgram;
use crate::stop::{called, left};
use crate::stopped::{Reason, Stopped};
use crate::watch::Watch;
use sbpf_isa::INVOKE_CALL;
use sbpf_machine::{Fault, Machine, Stop};
use sbpf_memory::AccessViolation;
use sol_base::OutOfMemory;
use std::alloc::Global;
use sys_calls::{Env, serve};
use tx_report::{Cause, InstructionError};

/// What a frame does at a stop of its machine.
#[derive(Drop)]
pub(crate) enum Turn {
    GoesOn,
    /// It calls another program, with the units then left.
    Calls(Callee, u64),
    Leaves(Ending),
}

/// The height of the frame that has these around it.
pub(crate) fn height_in(outer: &Stack) -> u8
    requires { length outer.now < max_height }
    ensures { result ≡ height (programs_of outer.now) }
{
    outer.len() as u8 + 1
}

/// The end of a frame that fails.
pub(crate) fn fail(
    alloc: Global,
    outer: &Stack,
    frame: &Frame,
    units: u64,
    carrier: &mut Carrier,
    reason: Reason,
) -> Result<Ending, OutOfMemory>
    requires { length outer.now < max_height }
    ensures { IfOk result (λ e. ending_as e carrier.new
        ≡ closes (programs_of outer.now) frame.now units carrier.old (Err (Refused reason))) }
{
    let error = InstructionError {
        cause: reason.cause,
        detail: reason.detail,
        height: height_in(outer),
    };
    carrier.stopped_at = Some(StoppedAt {
        program: frame.program,
        slot: frame.machine.place(),
        access: reason.access,
    });
    let program = NamedProgram::of(frame.program);
    close(alloc, &program, frame.had, units, carrier, Err(error))
}

/// The end of a frame whose program has ended.
fn leave(
    context: &Context<'_>,
    outer: &Stack,
    frame: &Frame,
    r0: u64,
    carrier: &mut Carrier,
) -> Result<Ending, OutOfMemory>
    requires outer { length outer.now < max_height }
    requires frame { IsFrame (length context.now.keys) frame.now }
    ensures { IfOk result (λ e. ending_as e carrier.new
        ≡ closes (programs_of outer.now) frame.now frame.now.machine.units carrier.old
        (Leaving.left frame.now r0)) }
{
    let alloc = context.alloc;
    let units = frame.machine.units();
    match left(context, frame, r0) {
        Ok(accounts) => {
            let program = NamedProgram::of(frame.program);
            close(alloc, &program, frame.had, units, carrier, Ok(accounts))
        }
        Err(Stopped::Refused(reason)) => fail(alloc, outer, frame, units, carrier, reason),
        Err(Stopped::OutOfMemory) => Err(OutOfMemory),
    }
}

fn reason_of(fault: Fault) -> Reason
    ensures { by_fault fault ≡ Refused result }
{
    match fault {
        Fault::UnitsSpent => Reason::plainly(Cause::UnitsSpent),
        Fault::DivideByZero => Reason::plainly(Cause::DivideByZero),
        Fault::AccessViolation { addr, len, write } => {
            Reason::violated(AccessViolation { addr, len, write })
        }
        Fault::CallDepth => Reason::plainly(Cause::CallDepth),
        Fault::BadCallTarget { .. } => Reason::plainly(Cause::BadCallTarget),
    }
}

/// Serves the system call that the frame's machine is at.
fn serve_for(alloc: Global, frame: &mut Frame, number: u32, env: &mut Env) -> Result<u64, Stopped>
    requires { IsServed number }
    ensures answer { Serving.ServesAs
        (sys_row number (arguments_in frame.old.machine.context.registers)
        frame.old.machine.context.memory env.old)
        frame.new.machine.context.memory env.old env.new result }
    ensures rest { frame.new
        ≡ record frame.old {
          machine = with_memory frame.old.machine frame.new.machine.context.memory;
        } }
    ensures units { env.new.units ≤ env.old.units }
{
    let arguments = frame.machine.arguments();
    Ok(serve(alloc, number, arguments, frame.machine.memory_mut(), env)?)
}

fn serve_turn(
    context: &Context<'_>,
    outer: &Stack,
    frame: &mut Frame,
    carrier: &mut Carrier,
    number: u32,
) -> Result<Turn, OutOfMemory>
    requires outer { length outer.now < max_height }
    requires helper { IsHelper frame.old.machine.stop }
    requires number { IsServed number }
    ensures { IfOk result (λ t.
        Serving.serve_turn context.now.setting (programs_of outer.now) frame.old carrier.old number
        ≡ Turns.turn_as t frame.new carrier.new) }
{
    let alloc = context.alloc;
    carrier.env.slot = context.setting.slot;
    carrier.env.program = frame.program;
    carrier.env.height = height_in(outer);
    carrier.env.units = frame.machine.units();
    match serve_for(alloc, frame, number, &mut carrier.env) {
        Ok(r0) => {
            frame.machine.set_units(carrier.env.units);
            frame.machine.resume(r0);
            Ok(Turn::GoesOn)
        }
        Err(Stopped::Refused(reason)) => {
            let units = carrier.env.units;
            Ok(Turn::Leaves(fail(alloc, outer, frame, units, carrier, reason)?))
        }
        Err(Stopped::OutOfMemory) => Err(OutOfMemory),
    }
}

fn call_turn(
    context: &Context<'_>,
    outer: &Stack,
    frame: &Frame,
    carrier: &mut Carrier,
) -> Result<Turn, OutOfMemory>
    requires keys { length context.now.keys ≤ max_keys }
    requires outer { length outer.now < max_height }
    requires frame { IsFrame (length context.now.keys) frame.now }
    ensures { IfOk result (λ t.
        Calling.call_turn context.now.setting context.now.keys (programs_of outer.now) frame.now
        carrier.old
        ≡ Turns.turn_as t frame.now carrier.new) }
{
    let mut units = frame.machine.units();
    match called(context, outer, frame, carrier.trace, &mut units) {
        Ok(callee) => Ok(Turn::Calls(callee, units)),
        Err(Stopped::Refused(reason)) => {
            let ending = fail(context.alloc, outer, frame, units, carrier, reason)?;
            Ok(Turn::Leaves(ending))
        }
        Err(Stopped::OutOfMemory) => Err(OutOfMemory),
    }
}

/// One turn of a frame.
pub(crate) fn take_turn<W: Watch>(
    context: &Context<'_>,
    outer: &Stack,
    frame: &mut Frame,
    carrier: &mut Carrier,
    watch: &mut W,
) -> Result<Turn, OutOfMemory>
    requires keys { length context.now.keys ≤ max_keys }
    requires outer { length outer.now < max_height }
    requires frame { IsFrame (length context.now.keys) frame.old }
    ensures { IfOk result (λ t.
        Turns.turn context.now.setting context.now.keys (programs_of outer.now) frame.old
        carrier.old
        ≡ Turns.turn_as t frame.new carrier.new) }
{
    match run(frame, watch)? {
        Stop::Exit { r0 } => Ok(Turn::Leaves(leave(context, outer, frame, r0, carrier)?)),
        Stop::Fault(fault) => {
            let units = frame.machine.units();
            let reason = reason_of(fault);
            Ok(Turn::Leaves(fail(context.alloc, outer, frame, units, carrier, reason)?))
        }
        Stop::Helper { number } => {
            if number == INVOKE_CALL {
                call_turn(context, outer, frame, carrier)
            } else {
                serve_turn(context, outer, frame, carrier, number)
            }
        }
    }
}

/// Runs the frame's machine to its first stop.
fn run<W: Watch>(frame: &mut Frame, watch: &mut W) -> Result<Stop, OutOfMemory>
    ensures steps { IfOk result (λ stop.
        (steps frame.old.machine ≡ Some frame.new.machine)
        × (frame.new.machine.stop ≡ Some stop)) }
    ensures number { IfOk result IsNumbered }
    ensures rest { frame.new ≡ record frame.old { machine = frame.new.machine } }
{
    run_seen(&mut frame.machine, watch)
}

/// Runs a machine to its first stop. One who wants to see each instruction sees it before it is done.
fn run_seen<W: Watch>(machine: &mut Machine, watch: &mut W) -> Result<Stop, OutOfMemory>
    ensures stops { IfOk result (λ stop.
        (steps machine.old ≡ Some machine.new) × (machine.new.stop ≡ Some stop)) }
    ensures number { IfOk result IsNumbered }
    ensures lent { machine.new.context.memory.input.lent ≡ machine.old.context.memory.input.lent }
{
    while watch.sees_steps() && machine.is_going() {
        watch.steps(machine)?;
        machine.step()?;
    }
    machine.run()
}
