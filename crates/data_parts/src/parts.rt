//! A list of bytes that is in parts, some of which are the data of shared accounts.
ghost use Rattle.std.specs.Prelude.{◌≡◌, ◌<◌, ◌≤◌, ◌+◌, ◌^◌, true, false, None, length, take, drop, slice_get, slice_index, IfOk, IfSome, IsOk, OnOk, OnErr};
ghost use Rattle.std.specs.Arc.{arc_value};
ghost use Rattle.spec_base.specs.Bytes.{with_bytes};
ghost use Rattle.data_parts.specs.Parts.{bytes_of, lent_from, unprepared, array_at, ArePrepared, ArrayStandsIn, DataStandAt, IsLentAt, StayPrepared};

use crate::near::{self, Hint};
use crate::piece::{Backing, Piece};
use crate::pieces::Pieces;
use proof_note::Note;
use sol_base::{Account, Blob, Items, OutOfMemory};
use std::alloc::Global;
use std::marker::Model;
use std::sync::Arc;

/// A part of a list of bytes.
#[derive(Drop)]
pub enum Part {
    /// Bytes of the list's own.
    Bytes(Blob),
    /// The data of an account that others share.
    Lent(Arc<Account>),
    /// This many zero bytes, which are nowhere yet.
    Zeros(u32),
}

/// The bytes of parts, one after another. A part that is not the list's own becomes so at the
/// first write into it; no account that was lent changes. A place that is prepared is written
/// without taking memory.
#[derive(Drop)]
pub struct Parts {
    pieces: Pieces,
    /// Where a place is sought first.
    hints: Vec<Hint>,
    len: usize,
    /// The accounts that were lent, each with the place where its data began.
    lent: Note<Items<(usize, Account)>>,
}

impl Model for Parts {
    ghost use Rattle.std.specs.Prelude.{◌≡◌, ◌<◌, ◌^◌, length};
    ghost use Rattle.data_parts.specs.Parts.{Content, bytes_in, tests_in, is_prepared, AreInOrder, AreLentBy};

    ghost Value = { Content };

    ghost view = { λ p. record {
      bytes = bytes_in p.pieces;
      prepared = tests_in is_prepared p.pieces;
      lent = p.lent.value;
    } };

    ghost invariant = { λ p. (AreInOrder p.pieces) × (AreLentBy p.lent.value p.pieces)
        × (p.len ≡ length (bytes_in p.pieces)) × (p.len < 2 ^ 32) };
}

impl Parts {
    /// The list that the parts make.
    pub fn from_items(alloc: Global, parts: Items<Part>) -> Result<Parts, OutOfMemory>
        requires { length (bytes_of parts) < 2 ^ 32 }
        ensures { IfOk result (λ list. list ≡ unprepared (bytes_of parts) (lent_from 0 parts)) }
    {
        let lent = lent_by(&parts);
        let mut pieces = Vec::with_capacity(alloc, parts.len())?;
        let mut len = 0;
        for part in parts.into_vec() {
            let backing = Backing::of_part(part);
            let start = len;
            len += backing.len();
            pieces.push(Piece { start, backing })?;
        }
        let hints = near::hints_of(alloc, pieces.as_slice())?;
        Ok(Parts {
            pieces: Pieces::of(pieces),
            hints,
            len,
            lent,
        })
    }

    /// How many bytes there are.
    pub fn len(&self) -> usize
        ensures count { result ≡ length self.now.bytes }
        ensures prepared { length self.now.prepared ≡ length self.now.bytes }
        ensures most { length self.now.bytes < 2 ^ 32 }
    {
        self.len
    }

    /// The byte at a place.
    pub fn get(&self, at: usize) -> u8
        requires { at < length self.now.bytes }
        ensures { result ≡ slice_index self.now.bytes at }
    {
        let near = near::first(self.hints.as_slice(), at);
        let piece = self.pieces.at(self.pieces.find_from(near, at));
        piece.backing.get(at - piece.start)
    }

    /// The account that the part which begins at a place lends, as long as none of its bytes was
    /// written or prepared. Where empty parts begin there too, the part is the one with bytes.
    pub fn lent_at(&self, at: usize) -> Option<&Arc<Account>>
        ensures bytes { IfSome result (λ lent. DataStandAt (arc_value lent.now) self.now.bytes at) }
        ensures account { IfSome result (λ lent. IsLentAt self.now.lent at (arc_value lent.now)) }
        ensures own { slice_get self.now.prepared at ≡ Some true → result ≡ None }
    {
        if at >= self.len {
            return None;
        }
        let near = near::first(self.hints.as_slice(), at);
        let piece = self.pieces.at(self.pieces.find_from(near, at));
        if piece.start == at {
            piece.backing.lent()
        } else {
            None
        }
    }

    /// Reads the bytes from a place on, as many as `into` has.
    #[inline]
    pub fn read(&self, at: usize, into: &mut [u8])
        requires { at + length into.old ≤ length self.now.bytes }
        ensures { into.new ≡ take (length into.old) (drop at self.now.bytes) }
    {
        if into.is_empty() {
            return;
        }
        let near = near::first(self.hints.as_slice(), at);
        let first = self.pieces.find_from(near, at);
        let piece = self.pieces.at(first);
        let from = at - piece.start;
        if from + into.len() <= piece.backing.len() {
            piece.backing.read(from, into);
        } else {
            self.pieces.read_on(first, at, into);
        }
    }

    /// The `N` bytes from a place on, if there are as many.
    #[inline(always)]
    pub fn array<const N: usize>(&self, at: usize) -> Option<[u8; N]>
        requires { at + N < 2 ^ 64 }
        ensures { result ≡ array_at self.now.bytes at N }
    {
        match self.array_near(at) {
            Some(bytes) => Some(bytes),
            None => self.array_over(at),
        }
    }

    /// The `N` bytes from a place on, if the part that the hint names has them, or the open one.
    #[inline(always)]
    fn array_near<const N: usize>(&self, at: usize) -> Option<[u8; N]>
        requires { at + N < 2 ^ 64 }
        ensures { IfSome result (ArrayStandsIn self.now.bytes at N) }
    {
        let near = near::hinted(self.hints.as_slice(), at)?;
        self.pieces.array(near, at)
    }

    /// The `N` bytes from a place on, which may lie over several parts. It is a function of its own so that
    /// room for its result is made only where it is called.
    #[inline(always)]
    fn array_over<const N: usize>(&self, at: usize) -> Option<[u8; N]>
        requires { at + N < 2 ^ 64 }
        ensures { result ≡ array_at self.now.bytes at N }
    {
        self.array_found(at)
    }

    /// The `N` bytes from a place on, which the part at hand has not, or not all.
    #[cold]
    #[inline(never)]
    fn array_found<const N: usize>(&self, at: usize) -> Option<[u8; N]>
        requires { at + N < 2 ^ 64 }
        ensures { result ≡ array_at self.now.bytes at N }
    {
        if at + N > self.len {
            return None;
        }
        let mut bytes = [0; N];
        self.read(at, &mut bytes);
        Some(bytes)
    }

    /// Writes the bytes from a place on, whole or not at all.
    #[inline]
    pub fn write(&mut self, at: usize, bytes: &[u8]) -> Result<(), OutOfMemory>
        requires { at + length bytes.now ≤ length self.old.bytes }
        ensures ok { OnOk result (self.new.bytes ≡ with_bytes self.old.bytes at bytes.now) }
        ensures err { OnErr result (self.new.bytes ≡ self.old.bytes) }
        ensures prepared { self.new.prepared ≡ self.old.prepared }
        ensures lent { self.new.lent ≡ self.old.lent }
        ensures ready { ArePrepared self.old.prepared at (length bytes.now) → IsOk result }
    {
        if bytes.is_empty() {
            return Ok(());
        }
        let alloc = *self.hints.allocator();
        let near = near::first(self.hints.as_slice(), at);
        self.pieces.write(alloc, near, at, bytes)
    }

    /// Writes `N` bytes from a place on, whole or not at all.
    #[inline(always)]
    pub fn write_array<const N: usize>(
        &mut self,
        at: usize,
        bytes: [u8; N],
    ) -> Result<(), OutOfMemory>
        requires { at + N ≤ length self.old.bytes }
        ensures ok { OnOk result (self.new.bytes ≡ with_bytes self.old.bytes at bytes.entry) }
        ensures err { OnErr result (self.new.bytes ≡ self.old.bytes) }
        ensures prepared { self.new.prepared ≡ self.old.prepared }
        ensures lent { self.new.lent ≡ self.old.lent }
        ensures ready { ArePrepared self.old.prepared at N → IsOk result }
    {
        if self.put_open(at, bytes) {
            return Ok(());
        }
        self.write_over(at, bytes)
    }

    /// Writes `N` bytes from a place on, which the open part has not, or which lie over several
    /// parts. It is called, so that the first try alone is where a caller's registers are
    /// scarce.
    #[cold]
    #[inline(never)]
    fn write_over<const N: usize>(&mut self, at: usize, bytes: [u8; N]) -> Result<(), OutOfMemory>
        requires { at + N ≤ length self.old.bytes }
        ensures ok { OnOk result (self.new.bytes ≡ with_bytes self.old.bytes at bytes.entry) }
        ensures err { OnErr result (self.new.bytes ≡ self.old.bytes) }
        ensures prepared { self.new.prepared ≡ self.old.prepared }
        ensures lent { self.new.lent ≡ self.old.lent }
        ensures ready { ArePrepared self.old.prepared at N → IsOk result }
    {
        if N == 0 || self.put_near(at, bytes) {
            return Ok(());
        }
        self.open_at(at);
        if self.put_open(at, bytes) {
            return Ok(());
        }
        self.write(at, &bytes)
    }

    /// Opens the part that a place lies in, for the writes to come.
    fn open_at(&mut self, at: usize)
        requires { at < length self.old.bytes }
        ensures { self.new ≡ self.old }
    {
        let near = near::first(self.hints.as_slice(), at);
        self.pieces.open(self.pieces.find_from(near, at));
    }

    /// Puts `N` bytes at a place, if the open part has them as the list's own.
    #[inline(always)]
    fn put_open<const N: usize>(&mut self, at: usize, bytes: [u8; N]) -> bool
        requires { at + N ≤ length self.old.bytes }
        ensures all { result ≡ true → self.new.bytes ≡ with_bytes self.old.bytes at bytes.entry }
        ensures none { result ≡ false → self.new ≡ self.old }
        ensures prepared { self.new.prepared ≡ self.old.prepared }
        ensures lent { self.new.lent ≡ self.old.lent }
    {
        self.pieces.put(at, bytes)
    }

    /// Puts `N` bytes at a place, if the part that the hint names has them as the list's own.
    #[inline(always)]
    fn put_near<const N: usize>(&mut self, at: usize, bytes: [u8; N]) -> bool
        requires { at + N ≤ length self.old.bytes }
        ensures all { result ≡ true → self.new.bytes ≡ with_bytes self.old.bytes at bytes.entry }
        ensures none { result ≡ false → self.new ≡ self.old }
        ensures prepared { self.new.prepared ≡ self.old.prepared }
        ensures lent { self.new.lent ≡ self.old.lent }
    {
        let near = near::nearest(self.hints.as_slice(), at);
        self.pieces.put_near(near, at, bytes)
    }

    /// Copies `len` bytes from one place to another, whole or not at all. Where the two ranges
    /// meet, the bytes that stood there before are copied.
    pub fn copy_within(&mut self, to: usize, from: usize, len: usize) -> Result<(), OutOfMemory>
        requires to { to + len ≤ length self.old.bytes }
        requires from { from + len ≤ length self.old.bytes }
        ensures ok { OnOk result
            (self.new.bytes ≡ with_bytes self.old.bytes to (take len (drop from self.old.bytes))) }
        ensures err { OnErr result (self.new.bytes ≡ self.old.bytes) }
        ensures prepared { self.new.prepared ≡ self.old.prepared }
        ensures lent { self.new.lent ≡ self.old.lent }
        ensures ready { ArePrepared self.old.prepared to len → IsOk result }
    {
        let alloc = *self.hints.allocator();
        self.pieces.copy_within(alloc, to, from, len)
    }

    /// Makes ready for writes that take no memory: `len` places from a place on.
    pub fn prepare(&mut self, at: usize, len: usize) -> Result<(), OutOfMemory>
        requires { at + len ≤ length self.old.bytes }
        ensures bytes { self.new.bytes ≡ self.old.bytes }
        ensures ok { OnOk result (ArePrepared self.new.prepared at len) }
        ensures ready { ArePrepared self.old.prepared at len → IsOk result }
        ensures stay { StayPrepared self.old.prepared self.new.prepared }
        ensures lent { self.new.lent ≡ self.old.lent }
    {
        if len == 0 {
            return Ok(());
        }
        let alloc = *self.hints.allocator();
        self.pieces.prepare(alloc, at, len)
    }
}

/// The accounts that parts lend, noted.
fn lent_by(parts: &Items<Part>) -> Note<Items<(usize, Account)>>
    ensures { result.value ≡ lent_from 0 parts.now }
{
    Note::told_by(parts)
}
