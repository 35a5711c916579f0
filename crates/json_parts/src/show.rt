//! Refusals of JSON texts as sentences.
use crate::fault::{JsonFault, Step, Wanted};
use message_codec::MAX_WIRE_LEN;
use sol_base::Blob;
use std::{fmt, str};

/// Names, with commas between them.
#[derive(Drop)]
struct Names<'a> {
    names: &'a [Blob],
}

impl fmt::Display for Names<'_> {
    fn fmt<W: fmt::Write>(&self, f: &mut fmt::Formatter<W>) -> fmt::Result {
        let mut before = "";
        for name in self.names {
            match str::from_utf8(name.as_slice()) {
                Ok(text) => write!(f, "{before}{text}")?,
                Err(_) => write!(f, "{before}?")?,
            }
            before = ", ";
        }
        Ok(())
    }
}

impl fmt::Display for Wanted {
    fn fmt<W: fmt::Write>(&self, f: &mut fmt::Formatter<W>) -> fmt::Result {
        match self {
            Wanted::Object => write!(f, "an object is wanted"),
            Wanted::Array { most } => write!(f, "an array of at most {most} items is wanted"),
            Wanted::Number { least, most } => {
                write!(f, "a number of {least} to {most} is wanted")
            }
            Wanted::Digits { bytes } => {
                let wanted = bytes.saturating_mul(2);
                write!(f, "{wanted} hexadecimal digits are wanted")
            }
            Wanted::DigitCount { bytes, found } => {
                let wanted = bytes.saturating_mul(2);
                write!(
                    f,
                    "{wanted} hexadecimal digits are wanted, {found} stand here"
                )
            }
            Wanted::KeyOrName => write!(
                f,
                "64 hexadecimal digits, or a name of up to 31 letters, digits, _, - and . that begins with a letter, are wanted"
            ),
            Wanted::Bytes { most } => write!(f, "at most {most} bytes are wanted"),
            Wanted::Flag => write!(f, "true or false is wanted"),
            Wanted::Text => write!(f, "a text is wanted"),
            Wanted::Version => write!(f, "the text legacy or the number 0 is wanted"),
            Wanted::Transaction => write!(
                f,
                "a transaction of at most {MAX_WIRE_LEN} bytes is wanted"
            ),
            Wanted::Ending => { write!(f, "ok, or an object with failed or dropped, is wanted") }
            Wanted::Presence => write!(f, "this member is wanted"),
            Wanted::Absence { known } => {
                let names = Names {
                    names: known.as_slice(),
                };
                write!(f, "unknown member; known are {names}")
            }
            Wanted::FewKeys => write!(
                f,
                "at most 38 keys, and 256 with those of lookups, are wanted"
            ),
            Wanted::Instruction { known } => {
                let names = Names {
                    names: known.as_slice(),
                };
                write!(f, "unknown instruction; known are {names}")
            }
        }
    }
}

/// The way from the whole to a value. It begins with a full stop or a bracket, so that the name of the
/// whole can be before it.
#[derive(Drop)]
pub struct Way<'a> {
    /// The last step is first.
    pub steps: &'a [Step],
}

impl fmt::Display for Way<'_> {
    fn fmt<W: fmt::Write>(&self, f: &mut fmt::Formatter<W>) -> fmt::Result {
        for step in self.steps.iter().rev() {
            match step {
                Step::Member { name } => match str::from_utf8(name.as_slice()) {
                    Ok(text) => write!(f, ".{text}")?,
                    Err(_) => write!(f, ".?")?,
                },
                Step::Item { at } => write!(f, "[{at}]")?,
            }
        }
        Ok(())
    }
}

/// A sentence. Before that of a value that is refused is the way to it.
impl fmt::Display for JsonFault {
    fn fmt<W: fmt::Write>(&self, f: &mut fmt::Formatter<W>) -> fmt::Result {
        match self {
            JsonFault::NoJson { line, column } => {
                write!(f, "no JSON at line {line}, column {column}")
            }
            JsonFault::Refused { path, wanted } => {
                let way = Way {
                    steps: path.as_slice(),
                };
                write!(f, "{way}: {wanted}")
            }
            JsonFault::BadSnapshot { fault } => write!(f, "{fault}"),
            JsonFault::BadBatch { fault } => write!(f, "{fault}"),
            JsonFault::BadRecord { fault } => write!(f, "{fault}"),
            JsonFault::BadImage => write!(f, "it is no program image"),
            JsonFault::Trailing { at } => write!(f, "bytes follow from byte {at} on"),
            JsonFault::OutOfMemory => write!(f, "out of memory"),
        }
    }
}
