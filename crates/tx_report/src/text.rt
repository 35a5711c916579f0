//! The texts of causes and statuses.
ghost use Rattle.std.specs.Prelude.{◌≡◌, ◌++◌, IfOk, OnOk};
ghost use Rattle.tx_report.specs.Statuses.{cause_text_of, index_text_of, status_text_of};

use crate::cause::Cause;
use crate::status::{Status, WHOLE_TRANSACTION};
use itoa::Buffer;
use sol_base::{Blob, OutOfMemory};
use std::alloc::Global;

/// The cause's name, and for the program's own error its number, as in `Custom(1)`.
pub fn cause_text(alloc: Global, cause: Cause, detail: u32) -> Result<Blob, OutOfMemory>
    ensures { IfOk result (λ text. text ≡ cause_text_of cause detail) }
{
    let mut text = Blob::new(alloc);
    append_cause(&mut text, cause, detail)?;
    Ok(text)
}

/// `Ok`, or `Failed`, the instruction (`transaction` where it is the whole one) and the cause, or
/// `Dropped` and the cause.
pub fn status_text(alloc: Global, status: &Status) -> Result<Blob, OutOfMemory>
    ensures { IfOk result (λ text. text ≡ status_text_of status.now) }
{
    let mut text = Blob::new(alloc);
    match *status {
        Status::Good => text.append(b"Ok")?,
        Status::Failed {
            index,
            cause,
            detail,
        } => {
            text.append(b"Failed ")?;
            append_index(&mut text, index)?;
            text.append(b" ")?;
            append_cause(&mut text, cause, detail)?;
        }
        Status::Dropped { cause } => {
            text.append(b"Dropped ")?;
            text.append(cause.name().as_bytes())?;
        }
    }
    Ok(text)
}

fn append_cause(text: &mut Blob, cause: Cause, detail: u32) -> Result<(), OutOfMemory>
    ensures { OnOk result (text.new ≡ text.old ++ cause_text_of cause detail) }
{
    match cause {
        Cause::Custom => {
            text.append(b"Custom(")?;
            text.append(Buffer::new().format(detail).as_bytes())?;
            text.append(b")")
        }
        _ => text.append(cause.name().as_bytes()),
    }
}

fn append_index(text: &mut Blob, index: u8) -> Result<(), OutOfMemory>
    ensures { OnOk result (text.new ≡ text.old ++ index_text_of index) }
{
    if index == WHOLE_TRANSACTION {
        text.append(b"transaction")
    } else {
        text.append(Buffer::new().format(index).as_bytes())
    }
}
