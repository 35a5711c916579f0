//! Devices in memory that never fail.
ghost use Rattle.std.specs.Prelude.{◌≡◌, []};

use crate::device::{Sink, Source};
use crate::fault::{Failed, SinkFault};
use crate::memory::copy_front;
use sol_base::Blob;
use std::alloc::Global;
use std::marker::Model;

/// Bytes in memory whose reads never fail.
#[derive(Drop)]
pub struct NeverSource {
    bytes: Blob,
    at: usize,
}

impl Model for NeverSource {
    ghost use Rattle.std.specs.Prelude.{ℕ, List, drop, ◌≤◌, length};

    ghost Value = { List ℕ };

    ghost view = { λ s. drop s.at s.bytes };

    ghost invariant = { λ s. s.at ≤ length s.bytes };
}

impl NeverSource {
    /// A source of these bytes.
    pub fn new(bytes: Blob) -> NeverSource
        ensures { result ≡ bytes }
    {
        NeverSource { bytes, at: 0 }
    }
}

impl Source for NeverSource {
    ghost use Rattle.std.specs.Prelude.{Some};

    ghost left = { λ s. Some s };

    ghost faults = { λ _. 0 };

    fn read(&mut self, buf: &mut [u8]) -> Result<usize, Failed> {
        let n = copy_front(buf, &self.bytes.as_slice()[self.at..]);
        self.at += n;
        Ok(n)
    }
}

/// Memory whose writes never fail, unless it runs out.
#[derive(Drop)]
pub struct NeverSink {
    bytes: Blob,
}

impl Model for NeverSink {
    ghost use Rattle.std.specs.Prelude.{ℕ, List};

    ghost Value = { List ℕ };

    ghost view = { λ s. s.bytes };
}

impl NeverSink {
    /// A sink that holds nothing yet.
    pub fn new(alloc: Global) -> NeverSink
        ensures { result ≡ [] }
    {
        NeverSink {
            bytes: Blob::new(alloc),
        }
    }

    /// What was written so far.
    pub fn held(&self) -> &[u8]
        ensures { result.now ≡ self.now }
    {
        self.bytes.as_slice()
    }
}

impl Sink for NeverSink {
    ghost use Rattle.std.specs.Prelude.{Some};

    ghost held = { λ s. Some s };

    ghost faults = { λ _. 0 };

    fn write(&mut self, piece: &[u8]) -> Result<usize, SinkFault> {
        self.bytes.append(piece)?;
        Ok(piece.len())
    }
}
