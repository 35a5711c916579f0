//! What is noted of transactions while they run.
ghost use Rattle.std.specs.Prelude.{◌≡◌, ◌<◌, ◌∷◌, ◌++◌, [], true, IfOk, OnOk};
ghost use Rattle.trace_run.specs.Noted.{IsStopNoted, began_of, finished_of, halted_of, program_in, step_of};
ghost use Rattle.trace_run.specs.declared.notes.Note.TheVariants.{Begins, Ends, Steps, Stops, Transaction};

use crate::found::{Found, found_in, names_account};
use invoke_engine::{Accounts, Carrier, Context, Ending, Frame, Invocation, StoppedAt, Watch};
use sbpf_machine::Machine;
use sol_base::{Blob, Items, Key, Meta, OutOfMemory, SYSTEM_PROGRAM};
use std::alloc::Global;
use tx_report::InstructionError;

/// A frame that begins.
#[derive(Drop)]
pub struct Began {
    pub height: u8,
    /// The program, and its place among the transaction's keys.
    pub program: Key,
    pub place: u8,
    pub metas: Items<Meta>,
    pub data: Blob,
    pub units: u64,
    /// The bytes of its heap.
    pub heap: u32,
    pub accounts: Accounts,
    /// How many log lines there were.
    pub lines: usize,
}

/// A machine before its next instruction.
#[derive(Clone, Copy)]
pub struct Step {
    pub slot: u32,
    pub units: u64,
    pub registers: [u64; 11],
}

/// A machine that stopped for the last time.
#[derive(Drop)]
pub struct Halted {
    pub slot: u32,
    pub units: u64,
    pub registers: [u64; 11],
    /// The accounts at the frame's start, or at the last return of a callee.
    pub before: Accounts,
    /// What the region has of the account that the frame's error names, if it fails.
    pub found: Option<Found>,
}

/// A frame that ended.
#[derive(Drop)]
pub struct Finished {
    pub units: u64,
    pub result: Result<Accounts, InstructionError>,
    /// The bytes that were returned last, and who returned them.
    pub returned: Blob,
    pub returned_by: Key,
    /// Where the program stopped that failed first, if one did.
    pub stopped_at: Option<StoppedAt>,
    /// How many log lines there are.
    pub lines: usize,
}

/// What is noted, one after the other.
#[derive(Drop)]
pub enum Note {
    /// The transaction of this position in the block begins.
    Transaction(u32),
    Begins(Began),
    Steps(Step),
    Stops(Halted),
    Ends(Finished),
}

/// All that is noted. Of each transaction as many instructions of machines are as are asked for.
#[derive(Drop)]
pub struct Notes {
    alloc: Global,
    notes: Items<Note>,
    steps: u32,
    left: u32,
}

impl Notes {
    /// No notes yet, with so many instructions of each transaction to be noted.
    pub fn new(alloc: Global, steps: u32) -> Notes
        ensures none { result.notes ≡ [] }
        ensures steps { result.steps ≡ steps }
    {
        Notes {
            alloc,
            notes: Items::new(alloc),
            steps,
            left: 0,
        }
    }

    /// Notes that the machine of a frame stopped, with what its region has of an account.
    fn note_stop(&mut self, frame: &Frame, found: Option<Found>) -> Result<(), OutOfMemory>
        ensures { OnOk result (self.new.notes
            ≡ self.old.notes ++ Stops (halted_of frame.now found) ∷ []) }
    {
        let before = Accounts::share(self.alloc, frame.before.as_slice())?;
        self.notes.push(Note::Stops(Halted {
            slot: frame.machine.place(),
            units: frame.machine.units(),
            registers: frame.machine.registers(),
            before,
            found,
        }))
    }

    /// The notes so far, in their order.
    pub fn as_slice(&self) -> &[Note]
        ensures { result.now ≡ self.now.notes }
    {
        self.notes.as_slice()
    }
}

/// The accounts of a frame that ended well, shared, or why it failed.
fn shared_result(
    alloc: Global,
    ended: &Result<Accounts, InstructionError>,
) -> Result<Result<Accounts, InstructionError>, OutOfMemory>
    ensures { IfOk result (λ shared. shared ≡ ended.now) }
{
    match ended {
        Ok(accounts) => Ok(Ok(Accounts::share(alloc, accounts.as_slice())?)),
        Err(error) => Ok(Err(*error)),
    }
}

/// What a frame's region has of the account that its error names, if it ends with one that does.
fn found_for(frame: &Frame, ended: &Result<Accounts, InstructionError>) -> Option<Found> {
    match ended {
        Err(error) if names_account(error.cause) => found_in(frame, error.detail as usize),
        _ => None,
    }
}

/// The program at a place among the transaction's keys.
fn program_in(keys: &[Key], place: u8) -> Key
    ensures { result ≡ program_in keys.now place }
{
    match keys.get(usize::from(place)) {
        Some(key) => *key,
        None => SYSTEM_PROGRAM,
    }
}

impl Watch for Notes {
    fn transaction(&mut self, position: u32) -> Result<(), OutOfMemory>
        ensures { OnOk result (self.new.notes ≡ self.old.notes ++ Transaction position ∷ []) }
    {
        self.left = self.steps;
        self.notes.push(Note::Transaction(position))
    }

    fn begins(
        &mut self,
        height: u8,
        context: &Context<'_>,
        invocation: &Invocation<'_>,
        carrier: &Carrier,
    ) -> Result<(), OutOfMemory>
        ensures { OnOk result (self.new.notes ≡ self.old.notes
            ++ Begins (began_of height context.now invocation.now carrier.now) ∷ []) }
    {
        let place = invocation.program;
        let program = program_in(context.keys, place);
        let metas = Vec::from_slice(self.alloc, invocation.metas)?;
        let data = Blob::from_slice(self.alloc, invocation.input)?;
        let accounts = Accounts::share(self.alloc, invocation.accounts.as_slice())?;
        self.notes.push(Note::Begins(Began {
            height,
            program,
            place,
            metas: Items::from_vec(metas),
            data,
            units: invocation.units,
            heap: context.setting.heap,
            accounts,
            lines: carrier.env.logs.lines().len(),
        }))
    }

    fn sees_steps(&self) -> bool
        ensures { result ≡ true → 0 < self.now.left }
    {
        self.left > 0
    }

    fn steps(&mut self, machine: &Machine) -> Result<(), OutOfMemory>
        ensures { OnOk result (self.new.notes
            ≡ self.old.notes ++ Steps (step_of machine.now) ∷ []) }
    {
        self.left = self.left.saturating_sub(1);
        self.notes.push(Note::Steps(Step {
            slot: machine.place(),
            units: machine.units(),
            registers: machine.registers(),
        }))
    }

    fn stops(&mut self, frame: &Frame, ending: &Ending) -> Result<(), OutOfMemory>
        ensures { OnOk result (IsStopNoted frame.now self.old.notes self.new.notes) }
    {
        let found = found_for(frame, &ending.result);
        self.note_stop(frame, found)
    }

    fn ends(&mut self, ending: &Ending, carrier: &Carrier) -> Result<(), OutOfMemory>
        ensures { OnOk result (self.new.notes
            ≡ self.old.notes ++ Ends (finished_of ending.now carrier.now) ∷ []) }
    {
        let result = shared_result(self.alloc, &ending.result)?;
        let returned = carrier.env.returned.try_copy()?;
        self.notes.push(Note::Ends(Finished {
            units: ending.units,
            result,
            returned,
            returned_by: carrier.env.returned_by,
            stopped_at: carrier.stopped_at,
            lines: carrier.env.logs.lines().len(),
        }))
    }
}
