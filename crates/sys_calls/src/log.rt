//! The lines of the calls that write one.
ghost use Rattle.std.specs.Prelude.{◌≡◌, ◌++◌, codes, OnOk};
ghost use Rattle.std.specs.List.{flat_map};
ghost use Rattle.sbpf_memory.specs.Plain.{plain_memory};
ghost use Rattle.spec_base.specs.Reading.{Gives};
ghost use Rattle.sys_calls.specs.Access.{is_sys_memory};
ghost use Rattle.sys_calls.specs.Lines.{number_text, log_line, log_64_line, log_key_line, log_units_line};
ghost use Rattle.sys_calls.specs.SysCalls.{Logs};

use crate::env::Env;
use crate::fault::SysFault;
use sbpf_memory::{Memory, read_array, read_bytes};
use sol_base::{Key, OutOfMemory, is_text, key_text};
use std::alloc::Global;

/// What is before what a program logs.
const PROGRAM_LOG: [u8; 13] = *b"Program log: ";

/// Logs a text.
pub(crate) fn log(
    alloc: Global,
    text: u64,
    len: u64,
    memory: &Memory,
    env: &mut Env,
) -> Result<u64, SysFault>
    ensures { Logs (log_line (plain_memory memory.now) text len) env.old env.new result }
{
    let line = text_line(alloc, text, len, memory)?;
    add_line(env, line.as_slice())
}

/// Logs five numbers.
pub(crate) fn log_64(
    alloc: Global,
    first: u64,
    others: [u64; 4],
    env: &mut Env,
) -> Result<u64, SysFault>
    ensures { Logs (Ok (log_64_line first others)) env.old env.new result }
{
    let line = numbers_line(alloc, first, others)?;
    add_line(env, line.as_slice())
}

/// Logs a key.
pub(crate) fn log_key(
    alloc: Global,
    key: u64,
    memory: &Memory,
    env: &mut Env,
) -> Result<u64, SysFault>
    ensures { Logs (log_key_line (plain_memory memory.now) key) env.old env.new result }
{
    let line = key_line(alloc, key, memory)?;
    add_line(env, line.as_slice())
}

/// Logs the units that are left.
pub(crate) fn log_units(alloc: Global, env: &mut Env) -> Result<u64, SysFault>
    ensures { Logs (Ok (log_units_line env.old.units)) env.old env.new result }
{
    let line = units_line(alloc, env.units)?;
    add_line(env, line.as_slice())
}

/// Adds a line to the log.
fn add_line(env: &mut Env, line: &[u8]) -> Result<u64, SysFault>
    ensures { Logs (Ok line.now) env.old env.new result }
{
    env.logs.push_line(line)?;
    Ok(0)
}

/// The line of a text.
#[tactic(auto, unfolding(crate::specs::Lines::log_line))]
fn text_line(alloc: Global, text: u64, len: u64, memory: &Memory) -> Result<Vec<u8>, SysFault>
    ensures { Gives is_sys_memory (λ line. line.items) result
        (log_line (plain_memory memory.now) text len) }
{
    let bytes = read_bytes::<SysFault>(alloc, memory, text, len)?;
    if !is_text(bytes.as_slice()) {
        return Err(SysFault::BadText);
    }
    let mut line = Vec::from_slice(alloc, &PROGRAM_LOG)?;
    line.extend_from_slice(bytes.as_slice())?;
    Ok(line)
}

/// The line of five numbers.
fn numbers_line(alloc: Global, first: u64, others: [u64; 4]) -> Result<Vec<u8>, SysFault>
    ensures { Gives is_sys_memory (λ line. line.items) result (Ok (log_64_line first others)) }
{
    let mut line = Vec::from_slice(alloc, &PROGRAM_LOG)?;
    append_number(alloc, &mut line, first)?;
    append_others(alloc, &mut line, &others)?;
    Ok(line)
}

fn append_others(alloc: Global, line: &mut Vec<u8>, others: &[u64]) -> Result<(), OutOfMemory>
    ensures { OnOk result
        (line.new.items ≡ line.old.items ++ flat_map
        (λ number. codes ", " ++ number_text number) others.now) }
{
    for number in others {
        line.extend_from_slice(b", ")?;
        append_number(alloc, line, *number)?;
    }
    Ok(())
}

fn append_number(alloc: Global, line: &mut Vec<u8>, number: u64) -> Result<(), OutOfMemory>
    ensures { OnOk result (line.new.items ≡ line.old.items ++ number_text number) }
{
    let text = format!(in alloc; "0x{number:x}")?;
    line.extend_from_slice(text.as_bytes())?;
    Ok(())
}

/// The line of a key.
#[tactic(auto, unfolding(crate::specs::Lines::log_key_line))]
fn key_line(alloc: Global, key: u64, memory: &Memory) -> Result<Vec<u8>, SysFault>
    ensures { Gives is_sys_memory (λ line. line.items) result
        (log_key_line (plain_memory memory.now) key) }
{
    let key = Key(read_array::<SysFault, 32>(memory, key)?);
    let mut line = Vec::from_slice(alloc, &PROGRAM_LOG)?;
    line.extend_from_slice(&key_text(&key))?;
    Ok(line)
}

/// The line of the units that are left.
fn units_line(alloc: Global, units: u64) -> Result<Vec<u8>, SysFault>
    ensures { Gives is_sys_memory (λ line. line.items) result (Ok (log_units_line units)) }
{
    let line = format!(in alloc; "Program consumption: {units} units remaining")?;
    Ok(line.into_bytes())
}
