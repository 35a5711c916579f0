//! What is wrong with words, and how the command is written.
use command_parts::{Answer, path_of};
use command_words::{WordsFault, fault_text, refused};
use sol_base::OutOfMemory;
use std::alloc::Global;
use text_words::{TextName, text_named};

/// Why words have no command.
fn command_text(alloc: Global, words: &[&str]) -> Result<String, OutOfMemory> {
    match words {
        [] => Ok(format!(in alloc; "a command is wanted")?),
        ["--help" | "--version", ..] => Ok(format!(in alloc; "no words follow it")?),
        [word, ..] => Ok(format!(in alloc; "there is no command `{word}`")?),
    }
}

/// The answer to words that name no command.
fn refused_command(alloc: Global, words: &[&str]) -> Result<Answer, OutOfMemory> {
    let text = command_text(alloc, words)?;
    refused(
        alloc,
        "bank",
        text.as_str(),
        "usage: bank json|bytes|build|split|view|diff|shape|why ARGUMENTS..\n",
    )
}

/// A value that has not the form of its name.
fn form_text(alloc: Global, name: &str, value: &str) -> Result<String, OutOfMemory> {
    let form = match name {
        "FORM" => "snapshot, batch, record or image",
        _ => "64 hexadecimal digits or 128",
    };
    Ok(format!(in alloc; "{name} is {form}, and not {value}")?)
}

/// The answer to wrong arguments of a command.
fn refused_arguments(
    alloc: Global,
    name: TextName,
    fault: &WordsFault,
) -> Result<Answer, OutOfMemory> {
    let shape = name.shape();
    let text = match fault {
        WordsFault::Form { name, value } => form_text(alloc, path_of(name), path_of(value))?,
        _ => fault_text(alloc, name.word(), &shape, fault)?,
    };
    let usage = shape.usage;
    let usage = format!(in alloc; "usage: bank {usage}\n")?;
    refused(alloc, name.word(), text.as_str(), usage.as_str())
}

/// The answer to words that are no command.
pub(crate) fn refused_words(
    alloc: Global,
    words: &[&str],
    fault: &WordsFault,
) -> Result<Answer, OutOfMemory> {
    let name = match words {
        [word, ..] => text_named(word),
        [] => None,
    };
    match (fault, name) {
        (WordsFault::OutOfMemory, _) => Err(OutOfMemory),
        (_, Some(name)) => refused_arguments(alloc, name, fault),
        (_, None) => refused_command(alloc, words),
    }
}
