//! What a transaction reports: its status, the units and fees of its outcome, and its log lines.
#![tactic(auto)]

mod cause;
mod laws;
mod logs;
mod outcome;
mod status;
mod text;

pub use cause::{Cause, DropCause};
pub use laws::{
    logs_grow_by_lines, logs_keep_the_longest_run, numbers_are_as_stated, statuses_are_their_bytes,
};
pub use logs::Logs;
pub use outcome::Outcome;
pub use status::{InstructionError, Status, WHOLE_TRANSACTION, status_bytes, status_of};
pub use text::{cause_text, status_text};
