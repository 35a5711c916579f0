//! From arguments to a command.
ghost use Rattle.std.specs.Prelude.{◌≡◌, IfOk, map};
ghost use Rattle.spec_base.specs.Reading.{Gives};
ghost use Rattle.command_words.specs.Arguments.{setting_of};
ghost use Rattle.command_words.specs.Faults.{is_words_memory};
ghost use Rattle.ledger_words.specs.Commands.{IsInRange, add_by, alone, block_by, check_by, command_by, command_from, command_of, export_by, folder_command, list_by, new_by, other_named, state_by};

use crate::command::ChainCommand;
use crate::counts::{MAX_EVERY, MAX_JOBS, count_of};
use crate::name::{CommandName, command_named};
use command_words::{Argument, WordsFault, arguments_in, asks_for_help, number_of, path_needed};
use sol_base::{Blob, MAX_LANES, MAX_SENDERS};
use std::alloc::Global;

/// How many blocks are between full states where nothing is said.
const EVERY: u32 = 16;

/// The command that the arguments are (the project's own commands), or the first thing that is wrong
/// with them: the command's name, then the arguments behind it one after the other, then their values,
/// and then what is missing.
pub fn read_chain_words(alloc: Global, words: &[&str]) -> Result<ChainCommand, WordsFault>
    ensures exact { Gives is_words_memory (λ command. command) result
        (command_of (map (λ w. w.now) words.now)) }
    ensures range { IfOk result IsInRange }
{
    match words {
        [first, word, rest @ ..] if *first == "chain" => {
            command_from(alloc, command_named(word), word, rest)
        }
        _ => Err(WordsFault::Command),
    }
}

/// The command of an argument and the arguments behind it.
fn command_from(
    alloc: Global,
    name: Option<CommandName>,
    word: &str,
    words: &[&str],
) -> Result<ChainCommand, WordsFault>
    ensures exact { Gives is_words_memory (λ command. command) result
        (command_from name word.now (map (λ w. w.now) words.now)) }
    ensures range { IfOk result IsInRange }
{
    match name {
        None => other_named(word, words),
        Some(_) if asks_for_help(words) => Ok(ChainCommand::Help),
        Some(name) => folder_command(alloc, name, words),
    }
}

/// The command of a word that is none of a command with a folder.
fn other_named(word: &str, words: &[&str]) -> Result<ChainCommand, WordsFault>
    ensures exact { result ≡ other_named word.now (map (λ w. w.now) words.now) }
    ensures range { IfOk result IsInRange }
{
    match word {
        "--help" => alone(ChainCommand::Help, words),
        "--version" => alone(ChainCommand::Version, words),
        _ => Err(WordsFault::Command),
    }
}

/// The command itself where no words follow it.
fn alone(command: ChainCommand, words: &[&str]) -> Result<ChainCommand, WordsFault>
    requires { IsInRange command }
    ensures exact { result ≡ alone command (map (λ w. w.now) words.now) }
    ensures range { IfOk result IsInRange }
{
    if words.is_empty() {
        Ok(command)
    } else {
        Err(WordsFault::Command)
    }
}

#[tactic(auto, unfolding(crate::specs::Commands::folder_command))]
fn folder_command(
    alloc: Global,
    name: CommandName,
    words: &[&str],
) -> Result<ChainCommand, WordsFault>
    ensures exact { Gives is_words_memory (λ command. command) result
        (folder_command name (map (λ w. w.now) words.now)) }
    ensures range { IfOk result IsInRange }
{
    let arguments = arguments_in(alloc, &name.shape(), words)?;
    command_by(alloc, name, arguments.as_slice())
}

/// The command of a name with these arguments.
fn command_by(
    alloc: Global,
    name: CommandName,
    arguments: &[Argument<'_>],
) -> Result<ChainCommand, WordsFault>
    ensures exact { Gives is_words_memory (λ command. command) result
        (command_by name (map setting_of arguments.now)) }
    ensures range { IfOk result IsInRange }
{
    match name {
        CommandName::New => new_by(alloc, arguments),
        CommandName::Add => add_by(alloc, arguments),
        CommandName::State => state_by(alloc, arguments),
        CommandName::Block => block_by(alloc, arguments),
        CommandName::Check => check_by(alloc, arguments),
        CommandName::List => list_by(alloc, arguments),
        CommandName::Export => export_by(alloc, arguments),
    }
}

#[tactic(auto, unfolding(crate::specs::Commands::new_by))]
fn new_by(alloc: Global, arguments: &[Argument<'_>]) -> Result<ChainCommand, WordsFault>
    ensures exact { Gives is_words_memory (λ command. command) result
        (new_by (map setting_of arguments.now)) }
    ensures range { IfOk result IsInRange }
{
    let every = count_of(alloc, arguments, "--every", MAX_EVERY, EVERY)?;
    let folder = path_needed(alloc, arguments, "DIR")?;
    Ok(ChainCommand::New { folder, every })
}

#[tactic(auto, unfolding(crate::specs::Commands::add_by))]
fn add_by(alloc: Global, arguments: &[Argument<'_>]) -> Result<ChainCommand, WordsFault>
    ensures exact { Gives is_words_memory (λ command. command) result
        (add_by (map setting_of arguments.now)) }
    ensures range { IfOk result IsInRange }
{
    let lanes = count_of(alloc, arguments, "--lanes", MAX_LANES, 1)?;
    let senders = count_of(alloc, arguments, "--senders", MAX_SENDERS, 1)?;
    let folder = path_needed(alloc, arguments, "DIR")?;
    Ok(ChainCommand::Add {
        folder,
        lanes,
        senders,
    })
}

#[tactic(auto, unfolding(crate::specs::Commands::state_by))]
fn state_by(alloc: Global, arguments: &[Argument<'_>]) -> Result<ChainCommand, WordsFault>
    ensures exact { Gives is_words_memory (λ command. command) result
        (state_by (map setting_of arguments.now)) }
    ensures range { IfOk result IsInRange }
{
    let slot = number_of(alloc, arguments, "--slot", 0, u64::MAX)?;
    let folder = path_needed(alloc, arguments, "DIR")?;
    Ok(ChainCommand::State { folder, slot })
}

#[tactic(auto, unfolding(crate::specs::Commands::block_by))]
fn block_by(alloc: Global, arguments: &[Argument<'_>]) -> Result<ChainCommand, WordsFault>
    ensures exact { Gives is_words_memory (λ command. command) result
        (block_by (map setting_of arguments.now)) }
    ensures range { IfOk result IsInRange }
{
    let given = number_of(alloc, arguments, "--slot", 0, u64::MAX)?;
    let folder = path_needed(alloc, arguments, "DIR")?;
    match given {
        Some(slot) => Ok(ChainCommand::Block { folder, slot }),
        None => Err(WordsFault::Missing {
            name: Blob::from_slice(alloc, b"--slot")?,
        }),
    }
}

#[tactic(auto, unfolding(crate::specs::Commands::check_by))]
fn check_by(alloc: Global, arguments: &[Argument<'_>]) -> Result<ChainCommand, WordsFault>
    ensures exact { Gives is_words_memory (λ command. command) result
        (check_by (map setting_of arguments.now)) }
    ensures range { IfOk result IsInRange }
{
    let from = number_of(alloc, arguments, "--from", 0, u64::MAX)?;
    let to = number_of(alloc, arguments, "--to", 0, u64::MAX)?;
    let jobs = count_of(alloc, arguments, "--jobs", MAX_JOBS, 1)?;
    let folder = path_needed(alloc, arguments, "DIR")?;
    Ok(ChainCommand::Check {
        folder,
        from,
        to,
        jobs,
    })
}

#[tactic(auto, unfolding(crate::specs::Commands::list_by))]
fn list_by(alloc: Global, arguments: &[Argument<'_>]) -> Result<ChainCommand, WordsFault>
    ensures exact { Gives is_words_memory (λ command. command) result
        (list_by (map setting_of arguments.now)) }
    ensures range { IfOk result IsInRange }
{
    let folder = path_needed(alloc, arguments, "DIR")?;
    Ok(ChainCommand::List { folder })
}

#[tactic(auto, unfolding(crate::specs::Commands::export_by))]
fn export_by(alloc: Global, arguments: &[Argument<'_>]) -> Result<ChainCommand, WordsFault>
    ensures exact { Gives is_words_memory (λ command. command) result
        (export_by (map setting_of arguments.now)) }
    ensures range { IfOk result IsInRange }
{
    let folder = path_needed(alloc, arguments, "DIR")?;
    let file = path_needed(alloc, arguments, "--sqlite")?;
    Ok(ChainCommand::Export { folder, file })
}
