//! Whole files and the whole standard input.
use command_parts::{Answer, Given, INPUT_LIMIT, READ_FAILED, WRITE_FAILED, given_of, noted};
use sol_base::{Blob, OutOfMemory};
use sol_io::{StdSource, read_all};
use std::alloc::Global;
use std::fs;
use std::io::{Error, ErrorKind};
use std::rt::Files;
use whole_files::{FileFault, cause};

/// The whole standard input.
pub(crate) fn standard_input<R: Input + AllocGlobal>(rt: &R) -> Result<Given<Blob>, OutOfMemory> {
    let mut source = StdSource::new(rt.reader());
    given_of(rt.alloc(), read_all(rt.alloc(), &mut source, INPUT_LIMIT))
}

/// Why a file was not read, in words.
pub(crate) fn read_cause(alloc: Global, error: &Error) -> Result<String, OutOfMemory> {
    if error.kind() == ErrorKind::OutOfMemory {
        return Err(OutOfMemory);
    }
    Ok(cause(alloc, error)?)
}

/// The whole file.
pub(crate) fn file<R: Files + AllocGlobal>(rt: &R, path: &str) -> Result<Given<Blob>, OutOfMemory> {
    let alloc = rt.alloc();
    match fs::read(rt, path) {
        Ok(bytes) => Ok(Given::Value(Blob::from_slice(alloc, bytes.as_slice())?)),
        Err(e) => {
            let why = read_cause(alloc, &e)?;
            Ok(Given::Nothing(noted(alloc, READ_FAILED, path, why.as_str())?))
        }
    }
}

/// The answer of a command whose file was not written.
pub(crate) fn not_written(
    alloc: Global,
    command: &str,
    fault: &FileFault<'_>,
) -> Result<Answer, OutOfMemory> {
    if fault.error.kind() == ErrorKind::OutOfMemory {
        return Err(OutOfMemory);
    }
    let name = fault.name;
    let why = cause(alloc, &fault.error)?;
    let text = format!(in alloc; "{name}: {why}")?;
    noted(alloc, WRITE_FAILED, command, text.as_str())
}
