//! What a folder failed at, and why.
use crate::name::Name;
use std::fmt::{Display, Formatter};
use std::{fmt, io};

/// What a call of the system was made for.
#[derive(Clone, Copy, PartialEq, Eq)]
pub enum FailedAt {
    /// The folder itself.
    Folder,
    /// The file of a name.
    File { name: Name },
    /// What is written beside it.
    New { name: Name },
}

/// The path below the folder, with the stroke before it.
impl Display for FailedAt {
    fn fmt<W: fmt::Write>(&self, f: &mut Formatter<W>) -> fmt::Result {
        match self {
            FailedAt::Folder => Ok(()),
            FailedAt::File { name } => write!(f, "/{name}"),
            FailedAt::New { name } => write!(f, "/{name}.new"),
        }
    }
}

/// A call of the system that failed, with the system's cause.
#[derive(Clone, Copy)]
pub struct Failure {
    pub at: FailedAt,
    pub error: io::Error,
}
