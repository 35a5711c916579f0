//! Devices in memory.
ghost use Rattle.std.specs.Prelude.{◌≡◌, ◌↔◌, ◌<◌, ◌≤◌, [], min, take, length, IsTrue, Contains, Some, IfOk, MatchResult};
ghost use Rattle.sol_io.specs.Counts.{CountsFailures, SinkCounts};
ghost use Rattle.sol_io.specs.Bytes.{Consumes, Keeps, Appends, IsAtEnd};
ghost use Rattle.sol_io.specs.Memory.{SourceState, SinkState, ReadsMemory, WritesMemory};

use crate::device::{Sink, Source};
use crate::fault::{Failed, SinkFault};
use sol_base::{Blob, Items};
use std::alloc::Global;
use std::marker::Model;

/// Bytes in memory, read as a device is: the reads whose numbers, from 0, are listed fail.
#[derive(Drop)]
pub struct MemSource {
    bytes: Blob,
    at: usize,
    failing: Items<u32>,
    calls: u64,
    faults: u64,
}

impl Model for MemSource {
    ghost use Rattle.std.specs.Prelude.{drop, ◌≤◌, length};
    ghost use Rattle.sol_io.specs.Memory.{SourceState};

    ghost Value = { SourceState };

    ghost view = { λ s. record {
      rest = drop s.at s.bytes;
      failing = s.failing;
      calls = s.calls;
      faults = s.faults;
    } };

    ghost invariant = { λ s. s.at ≤ length s.bytes };
}

impl MemSource {
    /// A source of these bytes that fails at the listed calls.
    pub fn new(bytes: Blob, failing: Items<u32>) -> MemSource
        ensures { result ≡ record { rest = bytes; failing = failing; calls = 0; faults = 0 } }
    {
        MemSource {
            bytes,
            at: 0,
            failing,
            calls: 0,
            faults: 0,
        }
    }
}

impl Source for MemSource {
    ghost use Rattle.std.specs.Prelude.{Some};

    ghost left = { λ s. Some s.rest };

    ghost faults = { λ s. s.faults };

    fn read(&mut self, buf: &mut [u8]) -> Result<usize, Failed>
        ensures bound { IfOk result (λ n. n ≤ length buf.old) }
        ensures bytes { MatchResult result
            (λ n. Consumes (Some self.old.rest) (Some self.new.rest) (take n buf.new))
            (λ _. Keeps (Some self.old.rest) (Some self.new.rest)) }
        ensures end { IfOk result (λ n. n ≡ 0 → 0 < length buf.old → IsAtEnd (Some self.new.rest)) }
        ensures counts { CountsFailures result self.old.faults self.new.faults }
        // It fails exactly at the listed calls, and else moves all that there is room for.
        ensures exact { ReadsMemory self.old self.new (length buf.old) result }
    {
        let number = self.calls;
        self.calls = number.saturating_add(1);
        if is_listed(number, self.failing.as_slice()) {
            self.faults = self.faults.saturating_add(1);
            return Err(Failed);
        }
        let n = copy_front(buf, &self.bytes.as_slice()[self.at..]);
        self.at += n;
        Ok(n)
    }
}

/// Memory written to as a device is: the writes whose numbers, from 0, are listed fail.
#[derive(Drop)]
pub struct MemSink {
    bytes: Blob,
    failing: Items<u32>,
    calls: u64,
    faults: u64,
}

impl Model for MemSink {
    ghost use Rattle.sol_io.specs.Memory.{SinkState};

    ghost Value = { SinkState };

    ghost view = { λ s. record {
      held = s.bytes;
      failing = s.failing;
      calls = s.calls;
      faults = s.faults;
    } };
}

impl MemSink {
    /// A sink that holds nothing yet, and fails at the listed calls.
    pub fn new(alloc: Global, failing: Items<u32>) -> MemSink
        ensures { result ≡ record { held = []; failing = failing; calls = 0; faults = 0 } }
    {
        MemSink {
            bytes: Blob::new(alloc),
            failing,
            calls: 0,
            faults: 0,
        }
    }

    /// What was written so far.
    pub fn held(&self) -> &[u8]
        ensures { result.now ≡ self.now.held }
    {
        self.bytes.as_slice()
    }
}

impl Sink for MemSink {
    ghost use Rattle.std.specs.Prelude.{Some};

    ghost held = { λ s. Some s.held };

    ghost faults = { λ s. s.faults };

    fn write(&mut self, piece: &[u8]) -> Result<usize, SinkFault>
        ensures bound { IfOk result (λ n. n ≤ length piece.now) }
        ensures some { IfOk result (λ n. 0 < length piece.now → 0 < n) }
        ensures bytes { MatchResult result
            (λ n. Appends (Some self.old.held) (Some self.new.held) (take n piece.now))
            (λ _. Keeps (Some self.old.held) (Some self.new.held)) }
        ensures counts { SinkCounts result self.old.faults self.new.faults }
        // It fails exactly at the listed calls, and else takes the whole piece.
        ensures exact { WritesMemory self.old self.new piece.now result }
    {
        let number = self.calls;
        self.calls = number.saturating_add(1);
        if is_listed(number, self.failing.as_slice()) {
            self.faults = self.faults.saturating_add(1);
            return Err(SinkFault::Failed);
        }
        self.bytes.append(piece)?;
        Ok(piece.len())
    }
}

/// Whether the call of this number is to fail.
fn is_listed(number: u64, failing: &[u32]) -> bool
    ensures { IsTrue result ↔ Contains failing.now number }
{
    failing.iter().any(|listed| u64::from(*listed) == number)
}

/// Copies as many bytes as fit, and returns how many.
pub(crate) fn copy_front(buf: &mut [u8], from: &[u8]) -> usize
    ensures count { result ≡ min (length buf.old) (length from.now) }
    ensures front { take result buf.new ≡ take result from.now }
{
    let n = buf.len().min(from.len());
    let (front, _) = buf.split_at_mut(n);
    front.copy_from_slice(&from[..n]);
    n
}
