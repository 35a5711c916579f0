//! Statuses, and their bytes.
ghost use Rattle.std.specs.Prelude.{◌≡◌};
ghost use Rattle.tx_report.specs.Statuses.{status_bytes_of, status_from, part_bytes, status_with};

use crate::cause::{Cause, DropCause};

/// Why an instruction failed, and at which height of the stack of programs that call each other.
#[derive(Clone, Copy, PartialEq, Eq)]
pub struct InstructionError {
    pub cause: Cause,
    pub detail: u32,
    pub height: u8,
}

/// What is in the place of an instruction's index where a transaction failed as a whole (the
/// project's own).
pub const WHOLE_TRANSACTION: u8 = 255;

/// How a transaction ended.
#[derive(Clone, Copy, PartialEq, Eq)]
pub enum Status {
    /// Every instruction ended well.
    Good,
    /// The instruction of this index failed, or by `WHOLE_TRANSACTION` the transaction as a whole.
    /// The fee is paid and nothing else changed.
    Failed {
        index: u8,
        cause: Cause,
        detail: u32,
    },
    /// No fee is paid and nothing changed.
    Dropped {
        cause: DropCause,
    },
}

/// The status as a record has it: kind (1 byte), index (1 byte), code (2 bytes) and detail (4
/// bytes), the numbers with the low byte first.
pub fn status_bytes(status: &Status) -> [u8; 8]
    ensures { result ≡ status_bytes_of status.now }
{
    match *status {
        Status::Good => [0; 8],
        Status::Failed {
            index,
            cause,
            detail,
        } => bytes_of_parts(1, index, cause.code(), detail),
        Status::Dropped { cause } => bytes_of_parts(2, 0, cause.code(), 0),
    }
}

/// The status that a record has as these bytes. Where there is none, no status has them.
pub fn status_of(bytes: [u8; 8]) -> Option<Status>
    ensures { result ≡ status_from bytes }
{
    let [kind, index, c, d, w, x, y, z] = bytes;
    status_of_parts(
        kind,
        index,
        u16::from_le_bytes([c, d]),
        u32::from_le_bytes([w, x, y, z]),
    )
}

fn bytes_of_parts(kind: u8, index: u8, code: u16, detail: u32) -> [u8; 8]
    ensures { result ≡ part_bytes kind index code detail }
{
    let [c, d] = code.to_le_bytes();
    let [w, x, y, z] = detail.to_le_bytes();
    [kind, index, c, d, w, x, y, z]
}

fn status_of_parts(kind: u8, index: u8, code: u16, detail: u32) -> Option<Status>
    ensures { result ≡ status_with kind index code detail }
{
    match kind {
        0 if index == 0 && code == 0 && detail == 0 => Some(Status::Good),
        1 => Some(Status::Failed {
            index,
            cause: Cause::with_code(code)?,
            detail,
        }),
        2 if index == 0 && detail == 0 => Some(Status::Dropped {
            cause: DropCause::with_code(code)?,
        }),
        _ => None,
    }
}
