//! A frame of a program in its middle, and the frames that wait for their callees.
ghost use Rattle.std.specs.Prelude.{◌≡◌, ◌∷◌, [], length, IfSome, IfNone, OnOk};
ghost use Rattle.std.specs.List.{list_any};
ghost use Rattle.sol_base.specs.Keys.{same_key, has_key};
ghost use Rattle.invoke_engine.specs.Suspended.{programs_of};

use crate::accounts::Accounts;
use sbpf_machine::Machine;
use sol_base::{Items, Key, Meta, OutOfMemory};
use std::alloc::Global;
use std::marker::Model;

/// A frame. The region of its machine lends the data of the accounts `before`.
#[derive(Drop)]
pub struct Frame {
    pub program: Key,
    pub metas: Items<Meta>,
    pub start: Accounts,
    /// The accounts at the frame's start or at the last return of a callee.
    pub before: Accounts,
    pub had: u64,
    /// It is large, and stays where it is while the frame is handed on.
    pub machine: Box<Machine>,
}

impl Model for Frame {
    ghost use Rattle.std.specs.Prelude.{◌≡◌};
    ghost use Rattle.abi_input.specs.Region.{lent_in};
    ghost use Rattle.sbpf_machine.specs.Plain.{plain};
    ghost use Rattle.invoke_engine.specs.Frames.{Running};

    ghost Value = { Running };

    ghost view = { λ f. record {
      program = f.program;
      metas = f.metas;
      start = f.start;
      before = f.before;
      had = f.had;
      machine = plain f.machine.value;
    } };

    ghost invariant = { λ f. f.machine.value.context.memory.input.lent
        ≡ lent_in f.start f.before f.metas };
}

impl Frame {
    pub fn key(&self) -> Key
        ensures { result ≡ self.now.program }
    {
        self.program
    }
}

/// The frames that wait, the innermost first.
#[derive(Drop)]
pub struct Stack {
    frames: Vec<Frame>,
}

impl Model for Stack {
    ghost use Rattle.std.specs.Prelude.{List, reverse};
    ghost use Rattle.invoke_engine.specs.Frames.{Running};

    ghost Value = { List Running };

    ghost view = { λ s. reverse s.frames.items };
}

impl Stack {
    pub fn new(alloc: Global) -> Stack
        ensures { result ≡ [] }
    {
        Stack {
            frames: Vec::new(alloc),
        }
    }

    pub fn len(&self) -> usize
        ensures { result ≡ length self.now }
    {
        self.frames.len()
    }

    pub fn push(&mut self, frame: Frame) -> Result<(), OutOfMemory>
        ensures { OnOk result (self.new ≡ frame ∷ self.old) }
    {
        self.frames.push(frame)?;
        Ok(())
    }

    pub fn pop(&mut self) -> Option<Frame>
        ensures some { IfSome result (λ frame. self.old ≡ frame ∷ self.new) }
        ensures none { IfNone result (self.old ≡ []) }
    {
        self.frames.pop()
    }

    /// Whether a frame that waits runs this program.
    pub fn has(&self, program: &Key) -> bool
        ensures { result ≡ has_key program.now (programs_of self.now) }
    {
        has_in(self.frames.as_slice(), program)
    }
}

fn has_in(frames: &[Frame], program: &Key) -> bool
    ensures { result ≡ list_any (λ frame. same_key program.now frame.program) frames.now }
{
    frames.iter().any(|frame| *program == frame.key())
}
