//! The program for traces: words from the command line, the input from standard input, the
//! output to standard output, notes to standard error.
#![tactic(auto)]

use command_parts::{OUT_OF_MEMORY, words_after_name, write_answer};
use sol_base::OutOfMemory;
use sol_io::StdSink;
use std::process::ExitCode;
use trace_text::answer_of;

fn main(rt: HostRuntime) -> ExitCode {
    let texts = match words_after_name(&rt) {
        Ok(texts) => texts,
        Err(none) => return ExitCode::from(none.status()),
    };
    let told = match answer_of(&rt, texts.as_slice()) {
        Ok(told) => told,
        Err(OutOfMemory) => return ExitCode::from(OUT_OF_MEMORY),
    };
    let mut out = StdSink::new(rt.stdout());
    let mut notes = StdSink::new(rt.stderr());
    ExitCode::from(write_answer(rt.alloc(), &told, &mut out, &mut notes))
}
