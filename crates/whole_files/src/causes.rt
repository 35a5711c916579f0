//! Why the system refused something, in words.
use std::alloc::{AllocError, Global};
use std::io::{Error, ErrorKind};

/// The words for a kind of error. None where the system's own text says it.
fn words_of(kind: ErrorKind) -> Option<&'static str> {
    match kind {
        ErrorKind::NotFound => Some("no such file or folder"),
        ErrorKind::PermissionDenied => Some("permission denied"),
        ErrorKind::IsADirectory => Some("it is a folder"),
        ErrorKind::NotADirectory => Some("a part of its path is no folder"),
        ErrorKind::ReadOnlyFilesystem => Some("read-only file system"),
        ErrorKind::StorageFull => Some("no space left"),
        ErrorKind::QuotaExceeded => Some("disk quota exceeded"),
        ErrorKind::FileTooLarge => Some("file too large"),
        ErrorKind::InvalidFilename => Some("file name too long"),
        ErrorKind::FilesystemLoop => Some("too many links"),
        ErrorKind::ExecutableFileBusy => Some("it is a program that is running"),
        ErrorKind::BrokenPipe => Some("nobody reads from it"),
        _ => None,
    }
}

/// Why the system refused something, in words.
pub fn cause(alloc: Global, error: &Error) -> Result<String, AllocError> {
    match words_of(error.kind()) {
        Some(words) => String::from_str(alloc, words),
        None => error.to_string(alloc),
    }
}
