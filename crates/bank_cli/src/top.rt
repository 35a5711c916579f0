//! The top call.
ghost use Rattle.std.specs.Prelude.{◌≡◌, ◌≢◌, ◌⊎◌, false, true};
ghost use Rattle.sol_io.specs.Bytes.{Keeps};
ghost use Rattle.sol_io.specs.Counts.{Rose};
ghost use Rattle.bank_cli.specs.Answer.{reads_input, read_failed};
ghost use Rattle.command_parts.specs.Deliveries.{Writes};
ghost use Rattle.bank_cli.specs.Ending.{EndsWhole, EndsEarly, FailsEarly};

use crate::answer::answer_of;
use bank_lanes::Gate;
use bank_words::Words;
use command_parts::{OUT_OF_MEMORY, write_answer};
use intake::SendGate;
use sol_base::OutOfMemory;
use sol_io::{Sink, Source};
use std::alloc::Global;
use std::sync::Wait;
use std::thread::Threads;

/// Runs the command that the arguments are over the input: the output and the notes are written, and
/// the status is returned (Solana for what a block comes to; the commands, texts and formats are the
/// project's own).
///
/// A lane passes `gate` before it works, and a sender of `produce` passes `send` before it parses.
pub fn bank_main<S: Source, O: Sink, N: Sink, G: Gate, H: SendGate, R: Threads + Wait + Sync>(
    rt: &R,
    alloc: Global,
    words: &Words,
    source: &mut S,
    out: &mut O,
    notes: &mut N,
    gate: &G,
    send: &H,
) -> u8
    // Every status but 4, 5 and 6 is that of the defined answer, which is written whole.
    ensures answered { result ≢ 4 → result ≢ 5 → result ≢ 6 →
        EndsWhole words.now (S.left source.old) (S.faults source.old) (S.faults source.new) result
        (O.held out.old) (O.held out.new) (N.held notes.old) (N.held notes.new) }
    // Status 4 comes only where the source failed, and says so.
    ensures source_failed { result ≡ 4 →
        Rose (S.faults source.old) (S.faults source.new) × (reads_input words.now ≡ true)
        × Writes read_failed (O.held out.old) (O.held out.new) (N.held notes.old)
        (N.held notes.new) }
    // Status 5 comes only where a sink failed, and every other status only where none did.
    ensures sink_failed { result ≡ 5 →
        Rose (O.faults out.old) (O.faults out.new) ⊎ Rose (N.faults notes.old) (N.faults notes.new) }
    ensures sinks_stand { result ≢ 5 →
        (O.faults out.new ≡ O.faults out.old) × (N.faults notes.new ≡ N.faults notes.old) }
    // After statuses 5 and 6 each sink has taken a front of what is defined, and the notes are as
    // they were unless the output has been taken whole.
    ensures fronts { (result ≡ 5) ⊎ (result ≡ 6) →
        EndsEarly words.now (S.left source.old) (S.faults source.old) (S.faults source.new)
        (O.held out.old) (O.held out.new) (N.held notes.old) (N.held notes.new)
        ⊎ FailsEarly words.now (S.faults source.old) (S.faults source.new)
        (O.held out.old) (O.held out.new) (N.held notes.old) (N.held notes.new) }
    // Arguments that ask for no input take nothing from the source.
    ensures untouched { reads_input words.now ≡ false →
        Keeps (S.left source.old) (S.left source.new)
        × (S.faults source.new ≡ S.faults source.old) }
{
    match answer_of(rt, alloc, words, source, gate, send) {
        Ok(told) => write_answer(alloc, &told, out, notes),
        Err(OutOfMemory) => OUT_OF_MEMORY,
    }
}
