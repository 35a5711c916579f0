//! Why files fail, as the system says it.
ghost use Rattle.std.specs.Prelude.{◌≡◌, IfOk};

use command_parts::{Answer, WRITE_FAILED, noted};
use ledger_folder::Failure;
use sol_base::OutOfMemory;
use std::alloc::Global;
use std::io::{Error, ErrorKind};
use whole_files::cause;

/// The answer where a file fails for a cause.
pub(crate) fn caused(
    alloc: Global,
    status: u8,
    path: &str,
    error: &Error,
) -> Result<Answer, OutOfMemory>
    ensures { IfOk result (λ told. told.status ≡ status) }
{
    if error.kind() == ErrorKind::OutOfMemory {
        return Err(OutOfMemory);
    }
    let text = cause(alloc, error)?;
    noted(alloc, status, path, text.as_str())
}

/// The answer where a folder cannot be made.
pub(crate) fn unmade(alloc: Global, folder: &str, error: &Error) -> Result<Answer, OutOfMemory>
    ensures { IfOk result (λ told. told.status ≡ 5) }
{
    if error.kind() == ErrorKind::OutOfMemory {
        return Err(OutOfMemory);
    }
    let text = cause(alloc, error)?;
    let text = format!(in alloc; "cannot be made: {text}")?;
    noted(alloc, WRITE_FAILED, folder, text.as_str())
}

/// The answer where a call on a file of a chain fails, or on the folder. A path that leads through a
/// file is told of the folder.
pub(crate) fn failed_at(
    alloc: Global,
    status: u8,
    folder: &str,
    failure: &Failure,
) -> Result<Answer, OutOfMemory>
    ensures { IfOk result (λ told. told.status ≡ status) }
{
    let Failure { at, error } = failure;
    if error.kind() == ErrorKind::NotADirectory {
        return noted(alloc, status, folder, "it is no folder");
    }
    let path = format!(in alloc; "{folder}{at}")?;
    caused(alloc, status, path.as_str(), error)
}

/// The answer where the folder of a chain fails, by the call that failed last.
pub(crate) fn failed(
    alloc: Global,
    status: u8,
    folder: &str,
    failure: Option<Failure>,
) -> Result<Answer, OutOfMemory>
    ensures { IfOk result (λ told. told.status ≡ status) }
{
    match failure {
        Some(failure) => failed_at(alloc, status, folder, &failure),
        None => noted(alloc, status, folder, "one of its files failed"),
    }
}
