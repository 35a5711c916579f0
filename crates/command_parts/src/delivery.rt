//! Writing an answer to the two sinks.
ghost use Rattle.std.specs.Prelude.{OnOk, OnErr};
ghost use Rattle.command_parts.specs.Deliveries.{Writes, Begins, DeliveryCounts};

use crate::answer::Answer;
use sol_io::{Sink, WriteFault, write_all};
use std::alloc::Global;

/// Why an answer was not written whole.
#[derive(Clone, Copy, PartialEq, Eq)]
pub enum Undelivered {
    SinkFailed,
    OutOfMemory,
}

/// Writes the answer: the output whole, then the notes.
pub fn deliver<O: Sink, N: Sink>(
    alloc: Global,
    told: &Answer,
    out: &mut O,
    notes: &mut N,
) -> Result<(), Undelivered>
    ensures whole { OnOk result
        (Writes told.now (O.held out.old) (O.held out.new) (N.held notes.old) (N.held notes.new)) }
    ensures begun { OnErr result
        (Begins told.now (O.held out.old) (O.held out.new) (N.held notes.old) (N.held notes.new)) }
    ensures counts { DeliveryCounts result (O.faults out.old) (O.faults out.new)
        (N.faults notes.old) (N.faults notes.new) }
{
    match write_all(alloc, out, told.output.as_slice()) {
        Ok(()) => {}
        Err(WriteFault::Failed { written: _ }) => return Err(Undelivered::SinkFailed),
        Err(WriteFault::OutOfMemory { written: _ }) => return Err(Undelivered::OutOfMemory),
    }
    match write_all(alloc, notes, told.notes.as_slice()) {
        Ok(()) => Ok(()),
        Err(WriteFault::Failed { written: _ }) => Err(Undelivered::SinkFailed),
        Err(WriteFault::OutOfMemory { written: _ }) => Err(Undelivered::OutOfMemory),
    }
}
