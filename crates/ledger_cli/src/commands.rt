//! The answer to the arguments.
ghost use Rattle.ledger_words.specs.Commands.{IsInRange};

use crate::add::{Crew, added};
use crate::begin::begun;
use crate::check::{Wanted, checked};
use crate::export::exported;
use crate::reads::{block, listed, state};
use crate::word_faults::words_text;
use command_parts::{Answer, lent_words, path_of, written};
use command_words::{printable, refused};
use ledger_words::{ChainCommand, USAGE, VERSION, read_chain_words};
use sol_base::OutOfMemory;
use std::alloc::Global;
use std::fs::File;
use std::rt::{Clock, Files};
use std::sync::Wait;
use std::thread::Threads;

/// The answer to a command. `host`, `rt` and `threads` are the same runtime, and each is handed on for what
/// it is used for: `host` opens the file of an export, and the files that several replay at once.
fn answer_command<
    R: Files<File = File> + Input + Clock + AllocGlobal + Clone + Drop,
    T: Threads + Wait + Sync,
>(
    host: &HostRuntime,
    rt: &R,
    threads: &T,
    command: &ChainCommand,
    shows: bool,
) -> Result<Answer, OutOfMemory>
    requires { IsInRange command.now }
{
    match command {
        ChainCommand::Help => written(rt.alloc(), USAGE.as_bytes()),
        ChainCommand::Version => written(rt.alloc(), VERSION.as_bytes()),
        ChainCommand::New { folder, every } => begun(rt, path_of(folder), *every),
        ChainCommand::Add {
            folder,
            lanes,
            senders,
        } => {
            let crew = Crew {
                lanes: *lanes,
                senders: *senders,
            };
            added(rt, threads, path_of(folder), &crew)
        }
        ChainCommand::State { folder, slot } => state(rt, path_of(folder), *slot),
        ChainCommand::Block { folder, slot } => block(rt, path_of(folder), *slot),
        ChainCommand::Check {
            folder,
            from,
            to,
            jobs,
        } => {
            let wanted = Wanted {
                from: *from,
                to: *to,
                jobs: *jobs,
                shows,
            };
            checked(host, threads, path_of(folder), &wanted)
        }
        ChainCommand::List { folder } => listed(rt, path_of(folder)),
        ChainCommand::Export { folder, file } => {
            exported(host, rt, path_of(folder), path_of(file))
        }
    }
}

/// The answer to the arguments.
pub fn answer_words<
    R: Files<File = File> + Input + Clock + AllocGlobal + Clone + Drop,
    T: Threads + Wait + Sync,
>(
    host: &HostRuntime,
    rt: &R,
    threads: &T,
    texts: &[String],
    shows: bool,
) -> Result<Answer, OutOfMemory> {
    let alloc = rt.alloc();
    let words = lent_words(alloc, texts)?;
    let told = match read_chain_words(alloc, words.as_slice()) {
        Ok(command) => answer_command(host, rt, threads, &command, shows)?,
        Err(fault) => {
            let text = words_text(alloc, words.as_slice(), &fault)?;
            refused(alloc, "chain", text.as_str(), USAGE)?
        }
    };
    Ok(Answer {
        notes: printable(alloc, told.notes.as_slice())?,
        ..told
    })
}
