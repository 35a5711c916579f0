//! What is seen of frames while they run.

use crate::carrier::Carrier;
use crate::context::{Context, Invocation};
use crate::ending::Ending;
use crate::frame::Frame;
use sbpf_machine::Machine;
use sol_base::OutOfMemory;

/// One who sees the frames of an instruction, and changes nothing of what they do.
pub trait Watch {
    /// The transaction of this position in its block begins.
    fn transaction(&mut self, position: u32) -> Result<(), OutOfMemory>;

    /// A frame begins at this height, before its first line.
    fn begins(
        &mut self,
        height: u8,
        context: &Context<'_>,
        invocation: &Invocation<'_>,
        carrier: &Carrier,
    ) -> Result<(), OutOfMemory>;

    /// Whether each instruction of a machine is to be seen.
    fn sees_steps(&self) -> bool;

    /// A machine stands before its next instruction.
    fn steps(&mut self, machine: &Machine) -> Result<(), OutOfMemory>;

    /// The machine of a frame stopped for the last time, and the frame ends so.
    fn stops(&mut self, frame: &Frame, ending: &Ending) -> Result<(), OutOfMemory>;

    /// A frame ended, after its last line.
    fn ends(&mut self, ending: &Ending, carrier: &Carrier) -> Result<(), OutOfMemory>;
}

/// Nobody looks.
#[derive(Drop)]
pub struct Unwatched;

impl Watch for Unwatched {
    #[inline(always)]
    fn transaction(&mut self, _position: u32) -> Result<(), OutOfMemory> {
        Ok(())
    }

    #[inline(always)]
    fn begins(
        &mut self,
        _height: u8,
        _context: &Context<'_>,
        _invocation: &Invocation<'_>,
        _carrier: &Carrier,
    ) -> Result<(), OutOfMemory> {
        Ok(())
    }

    #[inline(always)]
    fn sees_steps(&self) -> bool {
        false
    }

    #[inline(always)]
    fn steps(&mut self, _machine: &Machine) -> Result<(), OutOfMemory> {
        Ok(())
    }

    #[inline(always)]
    fn stops(&mut self, _frame: &Frame, _ending: &Ending) -> Result<(), OutOfMemory> {
        Ok(())
    }

    #[inline(always)]
    fn ends(&mut self, _ending: &Ending, _carrier: &Carrier) -> Result<(), OutOfMemory> {
        Ok(())
    }
}
