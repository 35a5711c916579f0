//! The program for chains: its arguments, a snapshot or a batch from standard input, a
//! folder of files, the output to standard output, notes to standard error.
#![tactic(auto)]

use command_parts::{OUT_OF_MEMORY, words_after_name, write_answer};
use ledger_cli::answer_words;
use sol_base::OutOfMemory;
use sol_io::StdSink;
use std::io::IsTerminal;
use std::process::ExitCode;

fn main(rt: HostRuntime) -> ExitCode {
    let texts = match words_after_name(&rt) {
        Ok(texts) => texts,
        Err(none) => return ExitCode::from(none.status()),
    };
    let shows = rt.stderr().is_terminal();
    let told = match answer_words(&rt, &rt, &rt, texts.as_slice(), shows) {
        Ok(told) => told,
        Err(OutOfMemory) => return ExitCode::from(OUT_OF_MEMORY),
    };
    let mut out = StdSink::new(rt.stdout());
    let mut notes = StdSink::new(rt.stderr());
    ExitCode::from(write_answer(rt.alloc(), &told, &mut out, &mut notes))
}
