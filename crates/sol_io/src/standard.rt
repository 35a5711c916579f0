//! Devices over the readers and writers of std.
ghost use Rattle.std.specs.Prelude.{◌≡◌, ◌<◌, ◌≤◌, take, length, IfOk, MatchResult};
ghost use Rattle.sol_io.specs.Counts.{CountsFailures, CountsOnce, SinkCounts};
ghost use Rattle.sol_io.specs.Bytes.{Consumes, Keeps, Appends, IsAtEnd};

use crate::device::{Sink, Source};
use crate::fault::{Failed, SinkFault};
use std::io::{Read, Write};
use std::marker::Model;

/// A source over a reader of std. It tells what the reader tells, and counts each of its errors in
/// a u64, which stays at its last value. What a real device gave is trusted, not proved.
#[derive(Drop)]
pub struct StdSource<R> {
    reader: R,
    faults: u64,
}

impl<R> Model for StdSource<R> {
    ghost use Rattle.sol_io.specs.Standard.{Counted};

    ghost Value = { Counted R };

    ghost view = { λ s. record { device = s.reader; faults = s.faults } };
}

impl<R> StdSource<R> {
    /// A source over the reader, with no fault so far.
    pub fn new(reader: R) -> StdSource<R>
        ensures { result ≡ record { device = reader; faults = 0 } }
    {
        StdSource { reader, faults: 0 }
    }
}

impl<R: Read> Source for StdSource<R> {
    ghost left = { λ s. R.remaining s.device };

    ghost faults = { λ s. s.faults };

    fn read(&mut self, buf: &mut [u8]) -> Result<usize, Failed>
        ensures bound { IfOk result (λ n. n ≤ length buf.old) }
        ensures bytes { MatchResult result
            (λ n. Consumes (R.remaining self.old.device) (R.remaining self.new.device)
            (take n buf.new))
            (λ _. Keeps (R.remaining self.old.device) (R.remaining self.new.device)) }
        ensures end { IfOk result
            (λ n. n ≡ 0 → 0 < length buf.old → IsAtEnd (R.remaining self.new.device)) }
        ensures counts { CountsFailures result self.old.faults self.new.faults }
        // Each error of the reader is counted once.
        ensures once { CountsOnce result self.old.faults self.new.faults }
    {
        match self.reader.read(buf) {
            Ok(n) => Ok(n),
            Err(_) => {
                self.faults = self.faults.saturating_add(1);
                Err(Failed)
            }
        }
    }
}

/// A sink over a writer of std. It tells what the writer tells, and counts each of its errors in a
/// u64, which stays at its last value; a writer that takes nothing of a piece that is not
/// empty is an error too. What a real device took is trusted, not proved.
#[derive(Drop)]
pub struct StdSink<W> {
    writer: W,
    faults: u64,
}

impl<W> Model for StdSink<W> {
    ghost use Rattle.sol_io.specs.Standard.{Counted};

    ghost Value = { Counted W };

    ghost view = { λ s. record { device = s.writer; faults = s.faults } };
}

impl<W> StdSink<W> {
    /// A sink over the writer, with no fault so far.
    pub fn new(writer: W) -> StdSink<W>
        ensures { result ≡ record { device = writer; faults = 0 } }
    {
        StdSink { writer, faults: 0 }
    }
}

impl<W: Write> Sink for StdSink<W> {
    ghost held = { λ s. W.contents s.device };

    ghost faults = { λ s. s.faults };

    fn write(&mut self, piece: &[u8]) -> Result<usize, SinkFault>
        ensures bound { IfOk result (λ n. n ≤ length piece.now) }
        ensures some { IfOk result (λ n. 0 < length piece.now → 0 < n) }
        ensures bytes { MatchResult result
            (λ n. Appends (W.contents self.old.device) (W.contents self.new.device)
            (take n piece.now))
            (λ _. Keeps (W.contents self.old.device) (W.contents self.new.device)) }
        ensures counts { SinkCounts result self.old.faults self.new.faults }
        // Each error of the writer is counted once.
        ensures once { CountsOnce result self.old.faults self.new.faults }
    {
        if piece.is_empty() {
            return Ok(0);
        }
        match self.writer.write(piece) {
            Ok(n) if n > 0 => Ok(n),
            _ => {
                self.faults = self.faults.saturating_add(1);
                Err(SinkFault::Failed)
            }
        }
    }
}
