//! What is wrong with words.
use command_words::{WordsFault, fault_text};
use ledger_words::command_named;
use sol_base::OutOfMemory;
use std::alloc::Global;

/// Why there is no command of a word.
fn command_text(alloc: Global, word: Option<&str>) -> Result<String, OutOfMemory> {
    match word {
        None => Ok(format!(in alloc; "a command is to follow `chain`")?),
        Some("--help") => Ok(format!(in alloc; "no words follow `chain --help`")?),
        Some("--version") => Ok(format!(in alloc; "no words follow `chain --version`")?),
        Some(word) => Ok(format!(in alloc; "there is no command `chain {word}`")?),
    }
}

/// What is wrong with the words behind the command's word.
fn behind_text(alloc: Global, word: &str, fault: &WordsFault) -> Result<String, OutOfMemory> {
    match command_named(word) {
        Some(name) => {
            let command = format!(in alloc; "chain {word}")?;
            fault_text(alloc, command.as_str(), &name.shape(), fault)
        }
        None => command_text(alloc, Some(word)),
    }
}

/// What is wrong with the words.
pub(crate) fn words_text(
    alloc: Global,
    words: &[&str],
    fault: &WordsFault,
) -> Result<String, OutOfMemory> {
    if let WordsFault::OutOfMemory = fault {
        return Err(OutOfMemory);
    }
    match words {
        [_chain, word, ..] => behind_text(alloc, word, fault),
        _ => command_text(alloc, None),
    }
}
