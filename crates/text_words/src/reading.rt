//! From words to a command.
ghost use Rattle.std.specs.Prelude.{◌≡◌, map};
ghost use Rattle.spec_base.specs.Reading.{Gives};
ghost use Rattle.command_words.specs.Arguments.{setting_of};
ghost use Rattle.command_words.specs.Faults.{is_words_memory};
ghost use Rattle.text_words.specs.Commands.{alone, build_by, bytes_by, command_by, command_from, command_of, diff_by, json_by, other_named, shape_by, split_by, text_command, view_by};

use crate::command::TextCommand;
use crate::forms::{form_of, look_of, sought_of};
use crate::name::{TextName, text_named};
use command_words::{
    Argument, WordsFault, arguments_in, asks_for_help, path_needed, path_of_option,
};
use std::alloc::Global;

/// The command that the words are (the project's own commands), or the first thing that is wrong with
/// them: the command's name, then the words behind it one after the other, then their values.
pub fn read_text_words(alloc: Global, words: &[&str]) -> Result<TextCommand, WordsFault>
    ensures { Gives is_words_memory (λ command. command) result
        (command_of (map (λ w. w.now) words.now)) }
{
    match words {
        [] => Err(WordsFault::Command),
        [word, rest @ ..] => command_from(alloc, text_named(word), word, rest),
    }
}

/// The command of a word and the words behind it.
fn command_from(
    alloc: Global,
    name: Option<TextName>,
    word: &str,
    words: &[&str],
) -> Result<TextCommand, WordsFault>
    ensures { Gives is_words_memory (λ command. command) result
        (command_from name word.now (map (λ w. w.now) words.now)) }
{
    match name {
        None => other_named(word, words),
        Some(_) if asks_for_help(words) => Ok(TextCommand::Help),
        Some(name) => text_command(alloc, name, words),
    }
}

/// The command of a word that is no name of one.
fn other_named(word: &str, words: &[&str]) -> Result<TextCommand, WordsFault>
    ensures { result ≡ other_named word.now (map (λ w. w.now) words.now) }
{
    match word {
        "--help" => alone(TextCommand::Help, words),
        "--version" => alone(TextCommand::Version, words),
        _ => Err(WordsFault::Command),
    }
}

/// The command itself where no words follow it.
fn alone(command: TextCommand, words: &[&str]) -> Result<TextCommand, WordsFault>
    ensures { result ≡ alone command (map (λ w. w.now) words.now) }
{
    if words.is_empty() {
        Ok(command)
    } else {
        Err(WordsFault::Command)
    }
}

#[tactic(auto, unfolding(crate::specs::Commands::text_command))]
fn text_command(alloc: Global, name: TextName, words: &[&str]) -> Result<TextCommand, WordsFault>
    ensures { Gives is_words_memory (λ command. command) result
        (text_command name (map (λ w. w.now) words.now)) }
{
    let arguments = arguments_in(alloc, &name.shape(), words)?;
    command_by(alloc, name, arguments.as_slice())
}

/// The command of a name with these arguments.
fn command_by(
    alloc: Global,
    name: TextName,
    arguments: &[Argument<'_>],
) -> Result<TextCommand, WordsFault>
    ensures { Gives is_words_memory (λ command. command) result
        (command_by name (map setting_of arguments.now)) }
{
    match name {
        TextName::Json => json_by(alloc, arguments),
        TextName::Bytes => bytes_by(alloc, arguments),
        TextName::Build => build_by(alloc, arguments),
        TextName::Split => split_by(alloc, arguments),
        TextName::View => view_by(alloc, arguments),
        TextName::Diff => diff_by(alloc, arguments),
        TextName::Shape => shape_by(alloc, arguments),
        TextName::Why => Ok(TextCommand::Why),
    }
}

#[tactic(auto, unfolding(crate::specs::Commands::json_by))]
fn json_by(alloc: Global, arguments: &[Argument<'_>]) -> Result<TextCommand, WordsFault>
    ensures { Gives is_words_memory (λ command. command) result
        (json_by (map setting_of arguments.now)) }
{
    let form = form_of(alloc, arguments)?;
    let look = look_of(alloc, arguments)?;
    Ok(TextCommand::Json { form, look })
}

#[tactic(auto, unfolding(crate::specs::Commands::bytes_by))]
fn bytes_by(alloc: Global, arguments: &[Argument<'_>]) -> Result<TextCommand, WordsFault>
    ensures { Gives is_words_memory (λ command. command) result
        (bytes_by (map setting_of arguments.now)) }
{
    let form = form_of(alloc, arguments)?;
    Ok(TextCommand::Bytes { form })
}

#[tactic(auto, unfolding(crate::specs::Commands::build_by))]
fn build_by(alloc: Global, arguments: &[Argument<'_>]) -> Result<TextCommand, WordsFault>
    ensures { Gives is_words_memory (λ command. command) result
        (build_by (map setting_of arguments.now)) }
{
    let snapshot = path_of_option(alloc, arguments, "--snapshot")?;
    Ok(TextCommand::Build { snapshot })
}

#[tactic(auto, unfolding(crate::specs::Commands::split_by))]
fn split_by(alloc: Global, arguments: &[Argument<'_>]) -> Result<TextCommand, WordsFault>
    ensures { Gives is_words_memory (λ command. command) result
        (split_by (map setting_of arguments.now)) }
{
    let record = path_needed(alloc, arguments, "RECORD")?;
    let snapshot = path_needed(alloc, arguments, "SNAPSHOT")?;
    Ok(TextCommand::Split { record, snapshot })
}

#[tactic(auto, unfolding(crate::specs::Commands::view_by))]
fn view_by(alloc: Global, arguments: &[Argument<'_>]) -> Result<TextCommand, WordsFault>
    ensures { Gives is_words_memory (λ command. command) result
        (view_by (map setting_of arguments.now)) }
{
    let sought = sought_of(alloc, arguments)?;
    Ok(TextCommand::View { sought })
}

#[tactic(auto, unfolding(crate::specs::Commands::diff_by))]
fn diff_by(alloc: Global, arguments: &[Argument<'_>]) -> Result<TextCommand, WordsFault>
    ensures { Gives is_words_memory (λ command. command) result
        (diff_by (map setting_of arguments.now)) }
{
    let left = path_needed(alloc, arguments, "A")?;
    let right = path_needed(alloc, arguments, "B")?;
    Ok(TextCommand::Diff { left, right })
}

#[tactic(auto, unfolding(crate::specs::Commands::shape_by))]
fn shape_by(alloc: Global, arguments: &[Argument<'_>]) -> Result<TextCommand, WordsFault>
    ensures { Gives is_words_memory (λ command. command) result
        (shape_by (map setting_of arguments.now)) }
{
    let picture = path_of_option(alloc, arguments, "--svg")?;
    Ok(TextCommand::Shape { picture })
}
