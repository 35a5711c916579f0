//! The lines of frames, and their ends.
ghost use Rattle.std.specs.Prelude.{◌≡◌, ◌++◌, ◌-◌, IfOk, OnOk, codes};
ghost use Rattle.hex.specs.Hex.{encode_lower};
ghost use Rattle.invoke_engine.specs.Endings.{say, ending_as, ending_of, closed};
ghost use Rattle.invoke_engine.specs.Lines.{invoke_line, consumed_line, last_line};

use crate::accounts::Accounts;
use crate::carrier::Carrier;
use crate::ending::Ending;
use crate::program::NamedProgram;
use itoa::Buffer;
use sol_base::{Blob, OutOfMemory};
use std::alloc::Global;
use tx_report::{InstructionError, cause_text};

/// The bytes of the beginning of each line of a frame.
const BEGINNING_LEN: usize = 72;

/// The bytes that follow it where a frame starts: a height has one digit.
const INVOKE_LEN: usize = 11;

/// Those where a program was ready: units have mostly seven digits at most.
const CONSUMED_LEN: usize = 42;

const SUCCESS: [u8; 8] = *b" success";

const FAILED: [u8; 9] = *b" failed: ";

/// The beginning of each line of a frame, with room for so many bytes behind it.
fn beginning(alloc: Global, program: &NamedProgram, len: usize) -> Result<Blob, OutOfMemory>
    ensures { IfOk result (λ line. line ≡ codes "Program " ++ encode_lower program.now.0) }
{
    let mut line = Blob::with_capacity(alloc, BEGINNING_LEN.saturating_add(len))?;
    line.append(b"Program ")?;
    line.append(program.text())?;
    Ok(line)
}

/// The line of a frame that starts.
pub(crate) fn say_invoke(
    alloc: Global,
    program: &NamedProgram,
    height: u8,
    carrier: &mut Carrier,
) -> Result<(), OutOfMemory>
    ensures { OnOk result (carrier.new ≡ say (invoke_line program.now height) carrier.old) }
{
    let mut line = beginning(alloc, program, INVOKE_LEN)?;
    line.append(b" invoke [")?;
    line.append(Buffer::new().format(height).as_bytes())?;
    line.append(b"]")?;
    carrier.env.logs.add_line(line)
}

fn say_consumed(
    alloc: Global,
    program: &NamedProgram,
    used: u64,
    had: u64,
    carrier: &mut Carrier,
) -> Result<(), OutOfMemory>
    ensures { OnOk result (carrier.new ≡ say (consumed_line program.now used had) carrier.old) }
{
    let mut line = beginning(alloc, program, CONSUMED_LEN)?;
    line.append(b" consumed ")?;
    line.append(Buffer::new().format(used).as_bytes())?;
    line.append(b" of ")?;
    line.append(Buffer::new().format(had).as_bytes())?;
    line.append(b" compute units")?;
    carrier.env.logs.add_line(line)
}

fn last(
    alloc: Global,
    program: &NamedProgram,
    outcome: &Result<Accounts, InstructionError>,
) -> Result<Blob, OutOfMemory>
    ensures { IfOk result (λ line. line ≡ last_line program.now outcome.now) }
{
    match outcome {
        Ok(_) => {
            let mut line = beginning(alloc, program, SUCCESS.len())?;
            line.append(&SUCCESS)?;
            Ok(line)
        }
        Err(error) => {
            let text = cause_text(alloc, error.cause, error.detail)?;
            let mut line = beginning(alloc, program, FAILED.len().saturating_add(text.len()))?;
            line.append(&FAILED)?;
            line.append(text.as_slice())?;
            Ok(line)
        }
    }
}

/// The end of a frame, with its last line.
pub(crate) fn ending_of(
    alloc: Global,
    program: &NamedProgram,
    units: u64,
    carrier: &mut Carrier,
    outcome: Result<Accounts, InstructionError>,
) -> Result<Ending, OutOfMemory>
    ensures { IfOk result (λ e. ending_as e carrier.new
        ≡ ending_of program.now units carrier.old outcome) }
{
    let line = last(alloc, program, &outcome)?;
    carrier.env.logs.add_line(line)?;
    Ok(Ending {
        units,
        result: outcome,
    })
}

/// The end of a frame whose program was ready: the line of its units, and then its last line.
pub(crate) fn close(
    alloc: Global,
    program: &NamedProgram,
    had: u64,
    units: u64,
    carrier: &mut Carrier,
    outcome: Result<Accounts, InstructionError>,
) -> Result<Ending, OutOfMemory>
    ensures { IfOk result (λ e. ending_as e carrier.new
        ≡ closed program.now had units carrier.old outcome) }
{
    say_consumed(alloc, program, had.saturating_sub(units), had, carrier)?;
    ending_of(alloc, program, units, carrier, outcome)
}
