//! The log lines of a transaction.
ghost use Rattle.std.specs.Prelude.{◌≡◌, OnOk, OnErr};
ghost use Rattle.tx_report.specs.LogLines.{no_lines, with_line};

use sol_base::{Blob, Items, OutOfMemory};
use std::alloc::Global;
use std::marker::Model;

/// The most bytes of the lines kept, all together (Solana).
pub(crate) const MAX_LOG_BYTES: usize = 10_000;

/// What is in place of the first line that is not kept.
const TRUNCATED: [u8; 13] = *b"Log truncated";

/// The log lines of one transaction: those kept, and whether one was replaced by `Log truncated`.
#[derive(Drop)]
pub struct Logs {
    lines: Items<Blob>,
    /// The sum of the lengths of the lines kept.
    used: usize,
    truncated: bool,
    alloc: Global,
}

impl Model for Logs {
    ghost use Rattle.std.specs.Prelude.{◌≡◌, ◌≤◌, false, sum_by, length};
    ghost use Rattle.tx_report.specs.LogLines.{Log, max_log_bytes};

    ghost Value = { Log };

    ghost view = { λ logs. record { lines = logs.lines; truncated = logs.truncated } };

    ghost invariant = { λ logs. (logs.used ≤ max_log_bytes)
        × (logs.truncated ≡ false → logs.used ≡ sum_by length logs.lines) };
}

impl Logs {
    /// No lines.
    pub fn new(alloc: Global) -> Logs
        ensures { result ≡ no_lines }
    {
        Logs {
            lines: Items::new(alloc),
            used: 0,
            truncated: false,
            alloc,
        }
    }

    /// Adds a line, or `Log truncated` in place of the first that there is no room for, or nothing
    /// after that.
    pub fn push_line(&mut self, line: &[u8]) -> Result<(), OutOfMemory>
        ensures ok { OnOk result (self.new ≡ with_line self.old line.now) }
        ensures err { OnErr result (self.new ≡ self.old) }
    {
        if !self.truncated {
            self.add_line(Blob::from_slice(self.alloc, line)?)?;
        }
        Ok(())
    }

    /// Adds a line that is handed over, or `Log truncated` in place of the first that there is no room for,
    /// or nothing after that.
    pub fn add_line(&mut self, line: Blob) -> Result<(), OutOfMemory>
        ensures ok { OnOk result (self.new ≡ with_line self.old line) }
        ensures err { OnErr result (self.new ≡ self.old) }
    {
        if self.truncated {
            return Ok(());
        }
        let len = line.len();
        if len <= MAX_LOG_BYTES - self.used {
            self.lines.push(line)?;
            self.used += len;
        } else {
            self.lines.push(Blob::from_slice(self.alloc, &TRUNCATED)?)?;
            self.truncated = true;
        }
        Ok(())
    }

    /// The lines so far, with the one that says that lines are missing.
    pub fn lines(&self) -> &[Blob]
        ensures { result.now ≡ self.now.lines }
    {
        self.lines.as_slice()
    }

    /// The lines alone.
    pub fn into_lines(self) -> Items<Blob>
        ensures { result ≡ self.lines }
    {
        let Logs { lines, .. } = self;
        lines
    }
}
