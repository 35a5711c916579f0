//! What is answered to arguments and input.
ghost use Rattle.std.specs.Prelude.{◌≡◌, ◌⊎◌, ◌≤◌, length, false, IfOk, OnErr};
ghost use Rattle.bank_words.specs.Commands.{IsInRange};
ghost use Rattle.bank_cli.specs.Answer.{answer, answer_to, input_limit, reads_input, takes_input};
ghost use Rattle.bank_cli.specs.Ending.{TellsAnswer, TellsFault, Stops};
ghost use Rattle.sol_io.specs.Bytes.{Keeps};

use crate::ahead::Senders;
use crate::alone::{answer_alone, is_alone};
use crate::make::made;
use crate::produce::produced;
use crate::replay::replayed;
use crate::texts::refuse;
use bank_lanes::Gate;
use bank_words::{Command, Words, WordsFault, read_words};
use command_parts::{Answer, INPUT_LIMIT, INPUT_REFUSED, READ_FAILED, WORDS_REFUSED};
use intake::SendGate;
use sol_base::{Blob, OutOfMemory};
use sol_io::{ReadFault, Source, read_all};
use std::alloc::Global;
use std::sync::Wait;
use std::thread::Threads;

/// The answer to the arguments, which takes the input from the source where they ask for it.
pub(crate) fn answer_of<S: Source, G: Gate, H: SendGate, R: Threads + Wait + Sync>(
    rt: &R,
    alloc: Global,
    words: &Words,
    source: &mut S,
    gate: &G,
    send: &H,
) -> Result<Answer, OutOfMemory>
    ensures told { IfOk result (λ told.
        TellsAnswer (answer words.now) (S.left source.old) (S.faults source.old)
        (S.faults source.new) told
        ⊎ TellsFault (reads_input words.now) (S.faults source.old) (S.faults source.new) told) }
    ensures stopped { OnErr result
        (Stops (reads_input words.now) (S.faults source.old) (S.faults source.new)) }
    ensures untouched { reads_input words.now ≡ false →
        Keeps (S.left source.old) (S.left source.new)
        × (S.faults source.new ≡ S.faults source.old) }
{
    match read_words(alloc, words) {
        Ok(command) => answer_command(rt, alloc, command, source, gate, send),
        Err(WordsFault::Refused) => refuse(alloc, WORDS_REFUSED, b"words refused"),
        Err(WordsFault::OutOfMemory) => Err(OutOfMemory),
    }
}

/// The answer to a command, which takes the input from the source where it looks at it.
fn answer_command<S: Source, G: Gate, H: SendGate, R: Threads + Wait + Sync>(
    rt: &R,
    alloc: Global,
    command: Command,
    source: &mut S,
    gate: &G,
    send: &H,
) -> Result<Answer, OutOfMemory>
    requires { IsInRange command }
    ensures told { IfOk result (λ told.
        TellsAnswer (answer_to command) (S.left source.old) (S.faults source.old)
        (S.faults source.new) told
        ⊎ TellsFault (takes_input command) (S.faults source.old) (S.faults source.new) told) }
    ensures stopped { OnErr result
        (Stops (takes_input command) (S.faults source.old) (S.faults source.new)) }
    ensures untouched { takes_input command ≡ false →
        Keeps (S.left source.old) (S.left source.new)
        × (S.faults source.new ≡ S.faults source.old) }
{
    if !looks_at_input(command) {
        return answer_input(rt, alloc, command, Blob::new(alloc), gate, send);
    }
    match read_all(alloc, source, INPUT_LIMIT) {
        Ok(input) => answer_input(rt, alloc, command, input, gate, send),
        Err(ReadFault::TooLong) => refuse(alloc, INPUT_REFUSED, b"input: TooLong"),
        Err(ReadFault::Failed) => refuse(alloc, READ_FAILED, b"read failed"),
        Err(ReadFault::OutOfMemory) => Err(OutOfMemory),
    }
}

fn looks_at_input(command: Command) -> bool
    ensures { result ≡ takes_input command }
{
    !matches!(command, Command::Make { .. })
}

/// The answer to a command and the whole input.
fn answer_input<G: Gate, H: SendGate, R: Threads + Wait + Sync>(
    rt: &R,
    alloc: Global,
    command: Command,
    input: Blob,
    gate: &G,
    send: &H,
) -> Result<Answer, OutOfMemory>
    requires range { IsInRange command }
    requires limit { length input ≤ input_limit }
    ensures { IfOk result (λ told. told ≡ answer_to command input) }
{
    if is_alone(command) {
        return answer_alone(rt, alloc, command, input, gate);
    }
    match command {
        Command::Produce { lanes, senders } => {
            let senders = Senders {
                count: senders,
                gate: send,
            };
            produced(rt, alloc, lanes, &senders, input, gate)
        }
        Command::Replay { lanes } => replayed(rt, alloc, lanes, input, gate),
        Command::Make {
            number,
            count,
            run,
            lanes,
        } => {
            let lanes = if run { Some(lanes) } else { None };
            made(rt, alloc, number, count, lanes, gate)
        }
        Command::Show | Command::Assemble | Command::List => unreachable!(),
    }
}
