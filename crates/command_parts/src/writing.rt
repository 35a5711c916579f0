//! Writing an answer.
ghost use Rattle.std.specs.Prelude.{◌≡◌, ◌≢◌, ◌⊎◌};
ghost use Rattle.sol_io.specs.Counts.{Rose};
ghost use Rattle.command_parts.specs.Deliveries.{Begins, Writes};

use crate::answer::Answer;
use crate::delivery::deliver;
use crate::status::status_after;
use sol_io::Sink;
use std::alloc::Global;

/// Writes the answer: the output, and the notes once the output is written whole. What comes back is
/// the status to end with.
pub fn write_answer<O: Sink, N: Sink>(
    alloc: Global,
    told: &Answer,
    out: &mut O,
    notes: &mut N,
) -> u8
    // Every status but 5 and 6 is that of the answer, which is written whole.
    ensures whole { result ≢ 5 → result ≢ 6 → (result ≡ told.now.status)
        × Writes told.now (O.held out.old) (O.held out.new) (N.held notes.old) (N.held notes.new) }
    // After any status each sink has taken a front of the answer, and the notes are as they were
    // unless the output has been taken whole.
    ensures begun { Begins told.now (O.held out.old) (O.held out.new)
        (N.held notes.old) (N.held notes.new) }
    // A status 5 that is not the answer's comes only where a sink failed.
    ensures failed { result ≡ 5 → (told.now.status ≡ 5)
        ⊎ (Rose (O.faults out.old) (O.faults out.new)
        ⊎ Rose (N.faults notes.old) (N.faults notes.new)) }
    // Every other status comes only where no sink failed.
    ensures stand { result ≢ 5 →
        (O.faults out.new ≡ O.faults out.old) × (N.faults notes.new ≡ N.faults notes.old) }
{
    status_after(deliver(alloc, told, out, notes), told.status)
}
