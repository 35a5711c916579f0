//! The program: its arguments, the input from standard input, the output to standard
//! output, notes to standard error.
#![tactic(auto)]

use bank_cli::bank_main;
use bank_lanes::OpenGate;
use bank_words::Words;
use command_parts::{NoWords, words_after_name};
use intake::OpenSend;
use sol_base::{Blob, Items};
use sol_io::{StdSink, StdSource};
use std::process::ExitCode;
use std::rt::Env;

/// The arguments after the program's name.
fn words_of<R: Env + AllocGlobal>(rt: &R) -> Result<Words, NoWords> {
    let mut words = Items::new(rt.alloc());
    for word in words_after_name(rt)? {
        words.push(Blob::from_slice(rt.alloc(), word.as_bytes())?)?;
    }
    Words::from_items(words).ok_or(NoWords::NotText)
}

fn main(rt: HostRuntime) -> ExitCode {
    let words = match words_of(&rt) {
        Ok(words) => words,
        Err(none) => return ExitCode::from(none.status()),
    };
    let mut source = StdSource::new(rt.reader());
    let mut out = StdSink::new(rt.stdout());
    let mut notes = StdSink::new(rt.stderr());
    let status = bank_main(
        &rt,
        rt.alloc(),
        &words,
        &mut source,
        &mut out,
        &mut notes,
        &OpenGate,
        &OpenSend,
    );
    ExitCode::from(status)
}
