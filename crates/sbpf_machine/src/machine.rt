//! The machine.
ghost use Rattle.std.specs.Prelude.{◌≡◌, ◌≤◌, true, Some, None, IfSome, IfOk, IfErr, OnOk, OnErr, is_none};
ghost use Rattle.std.specs.Arc.{arc_value};
ghost use Rattle.std.specs.Borrow.{sem};
ghost use Rattle.sbpf_machine.specs.Keeping.{TakesUnits};
ghost use Rattle.sbpf_machine.specs.Lending.{LendsMemory};
ghost use Rattle.sbpf_machine.specs.Runs.{ComesTo, IsNumbered};
ghost use Rattle.sbpf_machine.specs.Steps.{IsHelper, StandsBeforeStore, arguments_in, first_state, resumed, stepped, steps, with_units};
ghost use Rattle.sbpf_verify.specs.Places.{is_start};

use crate::context::Context;
use crate::frames::Frames;
use crate::run::{run_from, step_from};
use crate::stop::Stop;
use sbpf_memory::{FRAME_SIZE, INPUT_START, Memory, STACK_START};
use sbpf_verify::{Decoded, Verified};
use sol_base::OutOfMemory;
use std::alloc::Global;
use std::marker::Model;
use std::sync::Arc;

/// What r10 holds at the start: the end of the first frame of the stack.
const FRAME_END: u64 = STACK_START + FRAME_SIZE;

/// A machine over a verified text. It stops at the end of the program, at a system call, and at a
/// fault; only after a system call does it go on.
#[derive(Drop)]
pub struct Machine {
    code: Arc<Decoded>,
    place: u32,
    units: u64,
    context: Context,
    stop: Option<Stop>,
}

impl Model for Machine {
    ghost use Rattle.std.specs.Arc.{arc_value};
    ghost use Rattle.sbpf_machine.specs.Runs.{StandsAtStart};
    ghost use Rattle.sbpf_machine.specs.Steps.{State, state};

    ghost Value = { State };

    ghost view = { λ m. state (arc_value m.code) m.place m.context m.units m.stop };

    ghost invariant = { λ m. StandsAtStart (arc_value m.code) m.place m.context m.stop };
}

impl Machine {
    /// A machine at the start of a program, which is decoded for it.
    pub fn new(
        alloc: Global,
        program: Arc<Verified>,
        memory: Memory,
        units: u64,
    ) -> Result<Machine, OutOfMemory>
        ensures { IfOk result (λ machine. machine ≡ first_state (arc_value program) memory units) }
    {
        let code = Decoded::of(alloc, program)?;
        Ok(Machine::of(Arc::new(alloc, code)?, memory, units))
    }

    /// A machine at the start of a program that is decoded already.
    pub fn of(code: Arc<Decoded>, memory: Memory, units: u64) -> Machine
        ensures { result ≡ first_state (arc_value code) memory units }
    {
        let entries = code.entries();
        prove!(!entries.is_empty());
        let mut registers = [0; 11];
        registers[1] = INPUT_START;
        registers[10] = FRAME_END;
        Machine {
            code,
            place: 0,
            units,
            context: Context {
                registers,
                frames: Frames::new(),
                memory,
            },
            stop: None,
        }
    }

    /// Runs to the first stop, and returns a stop that it is at again. Out of memory, it leaves
    /// the machine before the store that met it.
    pub fn run(&mut self) -> Result<Stop, OutOfMemory>
        ensures stops { IfOk result
            (λ stop. (steps self.old ≡ Some self.new) × (self.new.stop ≡ Some stop)) }
        ensures short { IfErr result (λ _. StandsBeforeStore self.old self.new) }
        ensures number { IfOk result IsNumbered }
        ensures units { TakesUnits self.old self.new }
        ensures start { is_start self.new.text self.new.place ≡ true }
    {
        self.go_on();
        match self.stop {
            Some(stop) => Ok(stop),
            None => Err(OutOfMemory),
        }
    }

    fn go_on(&mut self)
        ensures comes { ComesTo self.old self.new }
        ensures number { IfSome self.new.stop IsNumbered }
        ensures units { TakesUnits self.old self.new }
        ensures start { is_start self.new.text self.new.place ≡ true }
    {
        if self.stop.is_some() {
            return;
        }
        let ended = run_from(
            self.code.program(),
            self.code.entries(),
            self.place,
            self.units,
            &mut self.context,
        );
        self.place = ended.place;
        self.units = ended.units;
        self.stop = ended.stop;
    }

    /// Does the next instruction, or comes to the stop where no unit is left. A machine that stands at
    /// a stop stays there.
    pub fn step(&mut self) -> Result<(), OutOfMemory>
        ensures ok { OnOk result (stepped self.old ≡ Some self.new) }
        ensures err { OnErr result (self.new ≡ self.old) }
    {
        if !self.is_going() {
            return Ok(());
        }
        let ended = step_from(
            self.code.program(),
            self.code.entries(),
            self.place,
            self.units,
            &mut self.context,
        )?;
        self.place = ended.place;
        self.units = ended.units;
        self.stop = ended.stop;
        Ok(())
    }

    /// Whether it stands at no stop.
    pub fn is_going(&self) -> bool
        ensures { result ≡ is_none self.now.stop }
    {
        self.stop.is_none()
    }

    /// Goes on after a system call, with its answer in r0, at the next `run`.
    pub fn resume(&mut self, r0: u64)
        requires { IsHelper self.old.stop }
        ensures { self.new ≡ resumed self.old r0 }
    {
        self.context.registers[0] = r0;
        self.place += 1;
        self.stop = None;
    }

    pub fn registers(&self) -> [u64; 11]
        ensures { result ≡ self.now.context.registers }
    {
        self.context.registers
    }

    /// r1 to r5: the arguments of a system call.
    pub fn arguments(&self) -> [u64; 5]
        ensures { result ≡ arguments_in self.now.context.registers }
    {
        let r = &self.context.registers;
        [r[1], r[2], r[3], r[4], r[5]]
    }

    /// The slot of the instruction that the machine is at: that of a stop is the one that stopped
    /// it.
    pub fn place(&self) -> u32
        ensures { result ≡ self.now.place }
    {
        self.place
    }

    pub fn memory(&self) -> &Memory
        ensures { result.now ≡ self.now.context.memory }
    {
        &self.context.memory
    }

    /// The memory, to be changed. The machine then has the memory as it is left.
    pub fn memory_mut(&mut self) -> &mut Memory
        ensures* writes_back { sem 𝓛 (LendsMemory self.entry result) }
        ensures value { result.now ≡ self.old.context.memory }
    {
        &mut self.context.memory
    }

    /// The units that are left.
    pub fn units(&self) -> u64
        ensures { result ≡ self.now.units }
    {
        self.units
    }

    /// Takes units away, as a system call does that costs some.
    pub fn set_units(&mut self, units: u64)
        requires { units ≤ self.old.units }
        ensures { self.new ≡ with_units self.old units }
    {
        self.units = units;
    }
}
