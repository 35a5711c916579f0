//! A range of bytes that is zero at first, of which only as much is written down as is needed.
ghost use Rattle.std.specs.Prelude.{◌≡◌, ◌≤◌, ◌<◌, ◌+◌, ◌^◌, length, replicate, take, drop, vec_capacity, IfOk, OnOk, OnErr, IsOk};
ghost use Rattle.spec_base.specs.Bytes.{with_bytes};
ghost use Rattle.data_parts.specs.Parts.{ArePrepared};
ghost use Rattle.sbpf_memory.specs.Buffers.{filled};

use crate::bytes::{array_from, put_into, read_into, write_into};
use data_parts::Parts;
use sol_base::OutOfMemory;
use std::alloc::Global;
use std::marker::Model;

/// Bytes are written down in steps of this many.
const STEP: usize = 4096;

/// A list of a fixed length. Its first bytes are written down, in memory that has room for all; the
/// others are zero.
#[derive(Drop)]
pub struct Buffer {
    bytes: Vec<u8>,
    size: usize,
}

impl Model for Buffer {
    ghost use Rattle.std.specs.Prelude.{◌≤◌, ◌<◌, ◌^◌, List, ℕ, length, vec_capacity};
    ghost use Rattle.sbpf_memory.specs.Buffers.{filled};

    ghost Value = { List ℕ };

    ghost view = { λ b. filled b.bytes.items b.size };

    ghost invariant = { λ b. (length b.bytes.items ≤ b.size) × (b.size ≤ vec_capacity b.bytes)
        × (b.size < 2 ^ 32) };
}

impl Buffer {
    /// A list of zeros.
    pub fn zeros(alloc: Global, size: usize) -> Result<Buffer, OutOfMemory>
        requires { size < 2 ^ 32 }
        ensures { IfOk result (λ buffer. buffer ≡ replicate size 0) }
    {
        Ok(Buffer {
            bytes: Vec::with_capacity(alloc, size)?,
            size,
        })
    }

    #[inline(always)]
    #[tactic(auto, using(crate::proofs::Buffers::filled_size))]
    pub fn len(&self) -> usize
        ensures value { result ≡ length self.now }
        ensures most { result < 2 ^ 32 }
    {
        self.size
    }

    /// The `N` bytes from a place on.
    #[inline(always)]
    #[tactic(auto, using(crate::proofs::Buffers::filled_size, crate::proofs::Buffers::filled_range))]
    pub fn array<const N: usize>(&self, at: usize) -> [u8; N]
        requires { at + N ≤ length self.now }
        ensures { result ≡ take N (drop at self.now) }
    {
        let written = self.bytes.len();
        if at + N <= written {
            return array_from(self.bytes.as_slice(), at);
        }
        let mut bytes = [0; N];
        self.read(at, &mut bytes);
        bytes
    }

    /// Reads the bytes from a place on, as many as `into` has.
    pub fn read(&self, at: usize, into: &mut [u8])
        requires { at + length into.old ≤ length self.now }
        ensures { into.new ≡ take (length into.old) (drop at self.now) }
    {
        read_filled(self.bytes.as_slice(), self.size, at, into);
    }

    /// Puts `N` bytes at a place.
    #[inline(always)]
    #[tactic(auto, using(crate::proofs::Buffers::filled_size))]
    pub fn put<const N: usize>(&mut self, at: usize, bytes: [u8; N])
        requires { at + N ≤ length self.old }
        ensures { self.new ≡ with_bytes self.old at bytes.entry }
    {
        let written = self.bytes.len();
        if at + N > written {
            write_down(&mut self.bytes, self.size, at + N);
        }
        put_into(self.bytes.as_mut_slice(), at, bytes);
    }

    /// Writes bytes from a place on.
    pub fn write(&mut self, at: usize, bytes: &[u8])
        requires { at + length bytes.now ≤ length self.old }
        ensures { self.new ≡ with_bytes self.old at bytes.now }
    {
        write_down(&mut self.bytes, self.size, at + bytes.len());
        write_into(self.bytes.as_mut_slice(), at, bytes);
    }

    /// Copies `len` bytes from one place to another. Where the two ranges meet, the bytes that
    /// stood there before are copied.
    pub fn copy_within(&mut self, to: usize, from: usize, len: usize)
        requires to { to + len ≤ length self.old }
        requires from { from + len ≤ length self.old }
        ensures { self.new ≡ with_bytes self.old to (take len (drop from self.old)) }
    {
        write_down(&mut self.bytes, self.size, to.max(from) + len);
        move_into(self.bytes.as_mut_slice(), to, from, len);
    }

    /// Copies `len` bytes of another list.
    pub fn copy_from(&mut self, to: usize, other: &Buffer, from: usize, len: usize)
        requires to { to + len ≤ length self.old }
        requires from { from + len ≤ length other.now }
        ensures { self.new ≡ with_bytes self.old to (take len (drop from other.now)) }
    {
        write_down(&mut self.bytes, self.size, to + len);
        buffer_into(self.bytes.as_mut_slice(), to, other, from, len);
    }

    /// Copies `len` bytes of a list in parts.
    pub fn copy_parts(&mut self, to: usize, parts: &Parts, from: usize, len: usize)
        requires to { to + len ≤ length self.old }
        requires from { from + len ≤ length parts.now.bytes }
        ensures { self.new ≡ with_bytes self.old to (take len (drop from parts.now.bytes)) }
    {
        write_down(&mut self.bytes, self.size, to + len);
        parts_into(self.bytes.as_mut_slice(), to, parts, from, len);
    }

    /// Copies `len` bytes into a list in parts, whole or not at all.
    pub fn copy_to_parts(
        &mut self,
        parts: &mut Parts,
        to: usize,
        from: usize,
        len: usize,
    ) -> Result<(), OutOfMemory>
        requires to { to + len ≤ length parts.old.bytes }
        requires from { from + len ≤ length self.old }
        ensures same { self.new ≡ self.old }
        ensures ok { OnOk result
            (parts.new.bytes ≡ with_bytes parts.old.bytes to (take len (drop from self.old))) }
        ensures err { OnErr result (parts.new.bytes ≡ parts.old.bytes) }
        ensures prepared { parts.new.prepared ≡ parts.old.prepared }
        ensures lent { parts.new.lent ≡ parts.old.lent }
        ensures ready { ArePrepared parts.old.prepared to len → IsOk result }
    {
        write_down(&mut self.bytes, self.size, from + len);
        parts.write(to, &self.bytes.as_slice()[from..from + len])
    }
}

/// Writes zeros down at least up to a place.
#[tactic(auto, using(crate::proofs::Buffers::filled_more))]
fn write_down(bytes: &mut Vec<u8>, size: usize, end: usize)
    requires room { size ≤ vec_capacity bytes.old }
    requires len { length bytes.old.items ≤ size }
    requires within { end ≤ size }
    requires most { size < 2 ^ 32 }
    ensures same { filled bytes.new.items size ≡ filled bytes.old.items size }
    ensures end { end ≤ length bytes.new.items }
    ensures len { length bytes.new.items ≤ size }
    ensures room { size ≤ vec_capacity bytes.new }
{
    if end <= bytes.len() {
        return;
    }
    let steps = (end / STEP + 1) * STEP;
    match bytes.resize(steps.min(size), 0) {
        Ok(()) => {}
        Err(_) => unreachable!(),
    }
}

/// Reads a range of bytes that are written down, and of the zeros behind them.
fn read_filled(bytes: &[u8], size: usize, at: usize, into: &mut [u8])
    requires within { at + length into.old ≤ length (filled bytes.now size) }
    requires len { length bytes.now ≤ size }
    ensures { into.new ≡ take (length into.old) (drop at (filled bytes.now size)) }
{
    if at + into.len() <= bytes.len() {
        read_into(bytes, at, into);
    } else if bytes.len() <= at {
        into.fill(0);
    } else {
        let (first, rest) = into.split_at_mut(bytes.len() - at);
        first.copy_from_slice(&bytes[at..]);
        rest.fill(0);
    }
}

/// Copies bytes of a list within it.
fn move_into(list: &mut [u8], to: usize, from: usize, len: usize)
    requires to { to + len ≤ length list.old }
    requires from { from + len ≤ length list.old }
    ensures { list.new ≡ with_bytes list.old to (take len (drop from list.old)) }
{
    list.copy_within(from..from + len, to);
}

/// Copies bytes of a buffer into a list.
fn buffer_into(list: &mut [u8], to: usize, buffer: &Buffer, from: usize, len: usize)
    requires to { to + len ≤ length list.old }
    requires from { from + len ≤ length buffer.now }
    ensures { list.new ≡ with_bytes list.old to (take len (drop from buffer.now)) }
{
    buffer.read(from, &mut list[to..to + len]);
}

/// Copies bytes of a list in parts into a list.
fn parts_into(list: &mut [u8], to: usize, parts: &Parts, from: usize, len: usize)
    requires to { to + len ≤ length list.old }
    requires from { from + len ≤ length parts.now.bytes }
    ensures { list.new ≡ with_bytes list.old to (take len (drop from parts.now.bytes)) }
{
    parts.read(from, &mut list[to..to + len]);
}
