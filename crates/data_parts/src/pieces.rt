//! The pieces of a list of bytes, of which one that is written again and again is apart.
ghost use Rattle.std.specs.Prelude.{◌≡◌, ◌<◌, ◌≤◌, ◌+◌, ◌^◌, true, false, length, take, drop, IfSome, IsOk, OnOk, OnErr, slice_index_or, slice_set};
ghost use Rattle.spec_base.specs.Bytes.{with_bytes};
ghost use Rattle.data_parts.specs.Parts.{bytes_in, tests_in, before, blank_of, is_prepared, AreInOrder, ArePrepared, ArrayStandsIn, StayLent, StayPrepared};

use crate::moves::copy_range;
use crate::near;
use crate::piece::Piece;
use crate::range::{find, own_on, read_on, write_range};
use sol_base::OutOfMemory;
use std::alloc::Global;
use std::marker::Model;
use std::mem;

/// Pieces, one after another. One may be open: it is met first, and no piece is sought then.
#[derive(Drop)]
pub struct Pieces {
    /// All pieces. In the place of the open one is a blank one of as many bytes.
    list: Vec<Piece>,
    opened: Piece,
    /// The place of the open piece, and one behind the last where none is open.
    place: usize,
    /// The piece that the last write met where the open one had not its place.
    last: usize,
}

impl Model for Pieces {
    ghost use Rattle.std.specs.Prelude.{◌≡◌, ◌≤◌, List, true, length, slice_set};
    ghost use Rattle.data_parts.specs.declared.piece.Piece.{Piece};
    ghost use Rattle.data_parts.specs.Parts.{blank_of, is_blank};

    ghost Value = { List Piece };

    ghost view = { λ p. slice_set p.list.items p.place p.opened };

    ghost invariant = { λ p. (slice_set p.list.items p.place (blank_of p.opened) ≡ p.list.items)
        × (length p.list.items ≤ p.place → is_blank p.opened.backing ≡ true) };
}

impl Pieces {
    /// The pieces, of which none is open.
    pub fn of(list: Vec<Piece>) -> Pieces
        ensures { result ≡ list.items }
    {
        let place = list.len();
        Pieces {
            list,
            opened: Piece::blank(0, 0),
            place,
            last: place,
        }
    }

    /// The pieces as a vector.
    fn into_vec(self) -> Vec<Piece>
        ensures { result.items ≡ self }
    {
        let Pieces {
            mut list,
            opened,
            place,
            last: _,
        } = self;
        if place < list.len() {
            list[place] = opened;
        }
        list
    }

    /// Takes all pieces out.
    fn take(&mut self, alloc: Global) -> Vec<Piece>
        ensures { result.items ≡ self.old }
    {
        mem::replace(self, Pieces::of(Vec::new(alloc))).into_vec()
    }

    /// The piece at an index.
    #[inline]
    pub fn at(&self, index: usize) -> &Piece
        requires { index < length self.now }
        ensures { result.now ≡ slice_index_or self.now index result.now }
    {
        if index == self.place {
            &self.opened
        } else {
            &self.list[index]
        }
    }

    /// The piece that a place lies in, sought from an index on.
    pub fn find_from(&self, near: usize, at: usize) -> usize
        requires order { AreInOrder self.now }
        requires within { at < length (bytes_in self.now) }
        ensures piece { result < length self.now }
        ensures first { before self.now result ≤ at }
        ensures last { at < before self.now (result + 1) }
    {
        near::find_from(self.list.as_slice(), near, at)
    }

    /// The `N` bytes from a place on, if the piece at an index or the open one has them in memory.
    #[inline(always)]
    pub fn array<const N: usize>(&self, near: usize, at: usize) -> Option<[u8; N]>
        requires order { AreInOrder self.now }
        requires most { at + N < 2 ^ 64 }
        ensures { IfSome result (ArrayStandsIn (bytes_in self.now) at N) }
    {
        if near < self.list.len() {
            if let Some(bytes) = self.list[near].array(at) {
                return Some(bytes);
            }
        }
        self.opened.array(at)
    }

    /// Reads a range, from the first piece that it meets on.
    pub fn read_on(&self, first: usize, at: usize, into: &mut [u8])
        requires order { AreInOrder self.now }
        requires first { before self.now first ≤ at }
        requires within { at + length into.old ≤ length (bytes_in self.now) }
        requires most { length (bytes_in self.now) < 2 ^ 32 }
        ensures { into.new ≡ take (length into.old) (drop at (bytes_in self.now)) }
    {
        read_on(self.list.as_slice(), first, at, into);
        if self.place < self.list.len() {
            let meeting = self.opened.meet(at, into.len());
            let part = &mut into[meeting.done..meeting.done + meeting.count];
            self.opened.backing.read(meeting.from, part);
        }
    }

    /// Puts `N` bytes at a place, if the open piece has them as the list's own.
    #[inline(always)]
    pub fn put<const N: usize>(&mut self, at: usize, put: [u8; N]) -> bool
        requires order { AreInOrder self.old }
        requires most { at + N < 2 ^ 64 }
        ensures order { AreInOrder self.new }
        ensures prepared { tests_in is_prepared self.new ≡ tests_in is_prepared self.old }
        ensures all { result ≡ true
            → bytes_in self.new ≡ with_bytes (bytes_in self.old) at put.entry }
        ensures none { result ≡ false → bytes_in self.new ≡ bytes_in self.old }
        ensures lent { StayLent self.old self.new }
    {
        self.opened.put(at, put)
    }

    /// Puts `N` bytes at a place, if the piece at an index has them as the list's own and is not
    /// the open one.
    #[inline(always)]
    pub fn put_at<const N: usize>(&mut self, near: usize, at: usize, put: [u8; N]) -> bool
        requires order { AreInOrder self.old }
        requires most { at + N < 2 ^ 64 }
        ensures order { AreInOrder self.new }
        ensures prepared { tests_in is_prepared self.new ≡ tests_in is_prepared self.old }
        ensures all { result ≡ true
            → bytes_in self.new ≡ with_bytes (bytes_in self.old) at put.entry }
        ensures none { result ≡ false → bytes_in self.new ≡ bytes_in self.old }
        ensures lent { StayLent self.old self.new }
    {
        if near >= self.list.len() {
            return false;
        }
        self.list[near].put(at, put)
    }

    /// Puts `N` bytes at a place, if the piece at an index has them as the list's own. A piece that
    /// is met so twice in a row is opened.
    #[inline(always)]
    pub fn put_near<const N: usize>(&mut self, near: usize, at: usize, put: [u8; N]) -> bool
        requires order { AreInOrder self.old }
        requires most { length (bytes_in self.old) < 2 ^ 32 }
        requires within { at + N ≤ length (bytes_in self.old) }
        ensures order { AreInOrder self.new }
        ensures prepared { tests_in is_prepared self.new ≡ tests_in is_prepared self.old }
        ensures all { result ≡ true
            → bytes_in self.new ≡ with_bytes (bytes_in self.old) at put.entry }
        ensures none { result ≡ false → bytes_in self.new ≡ bytes_in self.old }
        ensures lent { StayLent self.old self.new }
    {
        if near != self.last {
            self.last = near;
            return self.put_at(near, at, put);
        }
        if near < self.list.len() {
            self.open(near);
        }
        self.put(at, put)
    }

    /// Writes a range, whole or not at all. Its first piece is sought from an index on.
    pub fn write(
        &mut self,
        alloc: Global,
        near: usize,
        at: usize,
        bytes: &[u8],
    ) -> Result<(), OutOfMemory>
        requires order { AreInOrder self.old }
        requires some { 0 < length bytes.now }
        requires within { at + length bytes.now ≤ length (bytes_in self.old) }
        requires most { length (bytes_in self.old) < 2 ^ 32 }
        ensures order { AreInOrder self.new }
        ensures lent { StayLent self.old self.new }
        ensures ok { OnOk result
            (bytes_in self.new ≡ with_bytes (bytes_in self.old) at bytes.now) }
        ensures err { OnErr result (bytes_in self.new ≡ bytes_in self.old) }
        ensures prepared { tests_in is_prepared self.new ≡ tests_in is_prepared self.old }
        ensures ready { ArePrepared (tests_in is_prepared self.old) at (length bytes.now)
            → IsOk result }
    {
        let mut list = self.take(alloc);
        let written = write_range(alloc, list.as_mut_slice(), near, at, bytes);
        *self = Pieces::of(list);
        written
    }

    /// Copies a range to other places, whole or not at all. Where the two meet, the bytes that
    /// stood there before are copied.
    pub fn copy_within(
        &mut self,
        alloc: Global,
        to: usize,
        from: usize,
        len: usize,
    ) -> Result<(), OutOfMemory>
        requires order { AreInOrder self.old }
        requires to { to + len ≤ length (bytes_in self.old) }
        requires from { from + len ≤ length (bytes_in self.old) }
        requires most { length (bytes_in self.old) < 2 ^ 32 }
        ensures order { AreInOrder self.new }
        ensures lent { StayLent self.old self.new }
        ensures ok { OnOk result (bytes_in self.new
            ≡ with_bytes (bytes_in self.old) to (take len (drop from (bytes_in self.old)))) }
        ensures err { OnErr result (bytes_in self.new ≡ bytes_in self.old) }
        ensures prepared { tests_in is_prepared self.new ≡ tests_in is_prepared self.old }
        ensures ready { ArePrepared (tests_in is_prepared self.old) to len → IsOk result }
    {
        let mut list = self.take(alloc);
        let moved = copy_range(alloc, list.as_mut_slice(), to, from, len);
        *self = Pieces::of(list);
        moved
    }

    /// Makes the pieces that a range meets the list's own, and prepares them.
    pub fn prepare(&mut self, alloc: Global, at: usize, len: usize) -> Result<(), OutOfMemory>
        requires order { AreInOrder self.old }
        requires some { 0 < len }
        requires within { at + len ≤ length (bytes_in self.old) }
        requires most { length (bytes_in self.old) < 2 ^ 32 }
        ensures order { AreInOrder self.new }
        ensures lent { StayLent self.old self.new }
        ensures bytes { bytes_in self.new ≡ bytes_in self.old }
        ensures ok { OnOk result (ArePrepared (tests_in is_prepared self.new) at len) }
        ensures stay { StayPrepared (tests_in is_prepared self.old)
            (tests_in is_prepared self.new) }
        ensures ready { ArePrepared (tests_in is_prepared self.old) at len → IsOk result }
    {
        let mut list = self.take(alloc);
        let first = find(list.as_slice(), at);
        let ready = own_on(alloc, list.as_mut_slice(), first, at, len, true);
        *self = Pieces::of(list);
        ready
    }

    /// Opens the piece at an index.
    pub fn open(&mut self, index: usize)
        requires index { index < length self.old }
        requires most { length (bytes_in self.old) < 2 ^ 32 }
        ensures { self.new ≡ self.old }
    {
        let list = self.list.as_mut_slice();
        put_back(list, self.place, &mut self.opened);
        self.opened = take_at(list, index);
        self.place = index;
    }
}

/// Puts a piece in its place.
#[inline]
fn put_back(list: &mut [Piece], place: usize, piece: &mut Piece)
    ensures { list.new ≡ slice_set list.old place piece.old }
{
    if place < list.len() {
        mem::swap(&mut list[place], piece);
    }
}

/// Takes a piece out, and leaves a blank one.
#[inline]
fn take_at(list: &mut [Piece], index: usize) -> Piece
    requires index { index < length list.old }
    requires most { length (bytes_in list.old) < 2 ^ 32 }
    ensures taken { result ≡ slice_index_or list.old index result }
    ensures left { list.new ≡ slice_set list.old index (blank_of result) }
{
    let piece = &mut list[index];
    let blank = Piece::blank(piece.start, piece.backing.len() as u32);
    mem::replace(piece, blank)
}
