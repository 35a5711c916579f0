//! The arguments of `trace`.

use command_parts::{Answer, path_of};
use command_words::{
    Argument, Shape, WordsFault, arguments_in, asks_for_help, fault_text, is_given, number_of,
    refused, value_of,
};
use hex::FromHex;
use message_codec::Signature;
use sol_base::{Blob, MAX_TRANSACTIONS, OutOfMemory};
use std::alloc::Global;
use trace_run::Sought;

/// How the command is written.
pub(crate) const USAGE: &str = "\
usage: bank trace [--position P|--signature S] [--steps] [--accounts] [--json]
P is the place of a transaction in the batch; S has 128 hexadecimal digits
";

/// The name of the program and its version.
pub(crate) const VERSION: &str = "bank_trace 1\n";

/// What is asked for.
#[derive(Clone, Copy, PartialEq, Eq)]
pub(crate) struct Asked {
    pub(crate) sought: Sought,
    pub(crate) steps: bool,
    pub(crate) accounts: bool,
    pub(crate) json: bool,
}

/// What the arguments are.
#[derive(Clone, Copy, PartialEq, Eq)]
pub(crate) enum Words {
    Help,
    Version,
    Trace(Asked),
}

/// What the command takes.
fn shape() -> Shape<'static> {
    Shape {
        flags: &["--steps", "--accounts", "--json"],
        options: &["--position", "--signature"],
        values: &[],
        usage: "trace [--position P|--signature S] [--steps] [--accounts] [--json]",
    }
}

/// The place in a batch that is given. None if there is none.
fn place_of(alloc: Global, arguments: &[Argument<'_>]) -> Result<Option<u32>, WordsFault> {
    match number_of(
        alloc,
        arguments,
        "--position",
        0,
        MAX_TRANSACTIONS as u64 - 1,
    )? {
        Some(place) => Ok(Some(place as u32)),
        None => Ok(None),
    }
}

/// The signature that a text is.
fn signature_of(alloc: Global, text: &str) -> Result<Sought, WordsFault> {
    match <[u8; 64] as FromHex>::from_hex(text) {
        Ok(signature) => Ok(Sought::Signature(Signature(signature))),
        Err(_) => Err(WordsFault::Form {
            name: Blob::from_slice(alloc, b"--signature")?,
            value: Blob::from_slice(alloc, text.as_bytes())?,
        }),
    }
}

/// Which transactions are sought.
fn sought_of(alloc: Global, arguments: &[Argument<'_>]) -> Result<Sought, WordsFault> {
    match (
        place_of(alloc, arguments)?,
        value_of(arguments, "--signature"),
    ) {
        (None, None) => Ok(Sought::All),
        (Some(place), None) => Ok(Sought::Place(place)),
        (None, Some(text)) => signature_of(alloc, text),
        (Some(_), Some(_)) => Err(WordsFault::Excluded {
            name: Blob::from_slice(alloc, b"--signature")?,
        }),
    }
}

/// What the arguments behind `trace` ask for.
fn asked_in(alloc: Global, words: &[&str]) -> Result<Asked, WordsFault> {
    let shape = shape();
    let arguments = arguments_in(alloc, &shape, words)?;
    let arguments = arguments.as_slice();
    Ok(Asked {
        sought: sought_of(alloc, arguments)?,
        steps: is_given(arguments, "--steps"),
        accounts: is_given(arguments, "--accounts"),
        json: is_given(arguments, "--json"),
    })
}

/// What the arguments are.
pub(crate) fn read_words(alloc: Global, words: &[&str]) -> Result<Words, WordsFault> {
    match words {
        ["--help"] => Ok(Words::Help),
        ["--version"] => Ok(Words::Version),
        ["trace", rest @ ..] if asks_for_help(rest) => Ok(Words::Help),
        ["trace", rest @ ..] => Ok(Words::Trace(asked_in(alloc, rest)?)),
        _ => Err(WordsFault::Command),
    }
}

/// The answer to arguments that are no command.
pub(crate) fn refused_words(alloc: Global, fault: &WordsFault) -> Result<Answer, OutOfMemory> {
    let text = match fault {
        WordsFault::OutOfMemory => return Err(OutOfMemory),
        WordsFault::Command => format!(in alloc; "the command here is trace")?,
        WordsFault::Form { name: _, value } => {
            let value = path_of(value);
            format!(in alloc; "--signature has 128 hexadecimal digits, and is not {value}")?
        }
        _ => fault_text(alloc, "trace", &shape(), fault)?,
    };
    refused(alloc, "trace", text.as_str(), USAGE)
}
