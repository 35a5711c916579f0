//! From arguments to the answer.
use crate::commands::answer_command;
use crate::refusal::refused_words;
use command_parts::{Answer, lent_words, written};
use command_words::printable;
use sol_base::OutOfMemory;
use std::fs::File;
use std::rt::Files;
use text_words::{TextCommand, USAGE, VERSION, read_text_words};

/// The answer to the arguments.
pub fn answer_of<R: Files<File = File> + Input + AllocGlobal>(
    rt: &R,
    texts: &[String],
) -> Result<Answer, OutOfMemory> {
    let alloc = rt.alloc();
    let words = lent_words(alloc, texts)?;
    let told = match read_text_words(alloc, words.as_slice()) {
        Ok(TextCommand::Help) => written(alloc, USAGE.as_bytes())?,
        Ok(TextCommand::Version) => written(alloc, VERSION.as_bytes())?,
        Ok(command) => answer_command(rt, &command)?,
        Err(fault) => refused_words(alloc, words.as_slice(), &fault)?,
    };
    Ok(Answer {
        notes: printable(alloc, told.notes.as_slice())?,
        ..told
    })
}
