//! Ranges of places that may lie over several pieces.
ghost use Rattle.std.specs.Prelude.{◌≡◌, ◌<◌, ◌≤◌, ◌+◌, ◌-◌, ◌^◌, ℕ, List, true, false, length, take, drop, slice_get, OnOk, OnErr, IsOk};
ghost use Rattle.spec_base.specs.Bytes.{with_bytes};
ghost use Rattle.data_parts.specs.Parts.{piece_bytes, bytes_in, tests_in, before, is_own, is_prepared, test_of, AreInOrder, ArePrepared, ArePreparedUpTo, IsWrittenUpTo, StayLent, StayPrepared};
ghost use Rattle.data_parts.specs.declared.piece.Piece.{Piece};

use crate::near::find_from;
use crate::piece::Piece;
use sol_base::OutOfMemory;
use std::alloc::Global;

/// The piece that a place lies in.
#[inline]
pub fn find(pieces: &[Piece], at: usize) -> usize
    requires order { AreInOrder pieces.now }
    requires within { at < length (bytes_in pieces.now) }
    ensures piece { result < length pieces.now }
    ensures first { before pieces.now result ≤ at }
    ensures last { at < before pieces.now (result + 1) }
{
    pieces.partition_point(|piece| piece.start <= at) - 1
}

/// Reads a range, from the first piece that it meets on.
pub fn read_on(pieces: &[Piece], first: usize, at: usize, into: &mut [u8])
    requires order { AreInOrder pieces.now }
    requires first { before pieces.now first ≤ at }
    requires within { at + length into.old ≤ length (bytes_in pieces.now) }
    requires most { length (bytes_in pieces.now) < 2 ^ 32 }
    ensures { into.new ≡ take (length into.old) (drop at (bytes_in pieces.now)) }
{
    let end = at + into.len();
    let mut index = first;
    while index < pieces.len() && pieces[index].start < end {
        let piece = &pieces[index];
        let meeting = piece.meet(at, into.len());
        let part = &mut into[meeting.done..meeting.done + meeting.count];
        piece.backing.read(meeting.from, part);
        index += 1;
    }
}

/// Writes a range that the pieces own, from the first piece that it meets on.
pub fn write_on(pieces: &mut [Piece], first: usize, at: usize, bytes: &[u8])
    requires order { AreInOrder pieces.old }
    requires first { before pieces.old first ≤ at }
    requires within { at + length bytes.now ≤ length (bytes_in pieces.old) }
    requires most { length (bytes_in pieces.old) < 2 ^ 32 }
    requires own { ArePrepared (tests_in is_own pieces.old) at (length bytes.now) }
    ensures order { AreInOrder pieces.new }
    ensures lent { StayLent pieces.old pieces.new }
    ensures bytes { bytes_in pieces.new ≡ with_bytes (bytes_in pieces.old) at bytes.now }
    ensures own { tests_in is_own pieces.new ≡ tests_in is_own pieces.old }
    ensures prepared { tests_in is_prepared pieces.new ≡ tests_in is_prepared pieces.old }
{
    let end = at + bytes.len();
    let mut index = first;
    while index < pieces.len() && pieces[index].start < end {
        write_at(pieces, index, at, bytes);
        index += 1;
    }
}

/// Writes into a piece what the range has there.
fn write_at(pieces: &mut [Piece], index: usize, at: usize, bytes: &[u8])
    requires order { AreInOrder pieces.old }
    requires index { index < length pieces.old }
    requires within { at + length bytes.now ≤ length (bytes_in pieces.old) }
    requires most { length (bytes_in pieces.old) < 2 ^ 32 }
    requires own { ArePrepared (tests_in is_own pieces.old) at (length bytes.now) }
    ensures order { AreInOrder pieces.new }
    ensures lent { StayLent pieces.old pieces.new }
    ensures before { before pieces.new (index + 1) ≡ before pieces.old (index + 1) }
    ensures own { tests_in is_own pieces.new ≡ tests_in is_own pieces.old }
    ensures prepared { tests_in is_prepared pieces.new ≡ tests_in is_prepared pieces.old }
    // what was written before this piece is written to its end
    ensures bytes { (whole : List ℕ) → length whole ≡ length (bytes_in pieces.old)
        → IsWrittenUpTo whole (bytes_in pieces.old) at bytes.now (before pieces.old index)
        → IsWrittenUpTo whole (bytes_in pieces.new) at bytes.now (before pieces.old (index + 1)) }
{
    let piece = &mut pieces[index];
    let meeting = piece.meet(at, bytes.len());
    let part = &bytes[meeting.done..meeting.done + meeting.count];
    piece.backing.write(meeting.from, part);
}

/// Makes the pieces of a range the list's own, from the first piece that it meets on, and
/// prepares them where that is wanted.
pub fn own_on(
    alloc: Global,
    pieces: &mut [Piece],
    first: usize,
    at: usize,
    len: usize,
    prepare: bool,
) -> Result<(), OutOfMemory>
    requires order { AreInOrder pieces.old }
    requires first { before pieces.old first ≤ at }
    requires within { at + len ≤ length (bytes_in pieces.old) }
    requires most { length (bytes_in pieces.old) < 2 ^ 32 }
    ensures order { AreInOrder pieces.new }
    ensures lent { StayLent pieces.old pieces.new }
    ensures bytes { bytes_in pieces.new ≡ bytes_in pieces.old }
    ensures starts { (index : ℕ) → before pieces.new index ≡ before pieces.old index }
    ensures ok { OnOk result (ArePrepared (tests_in (test_of prepare) pieces.new) at len) }
    ensures plain { prepare ≡ false
        → tests_in is_prepared pieces.new ≡ tests_in is_prepared pieces.old }
    ensures stay { StayPrepared (tests_in is_prepared pieces.old)
        (tests_in is_prepared pieces.new) }
    ensures ready { ArePrepared (tests_in is_own pieces.old) at len → IsOk result }
{
    let end = at + len;
    let mut index = first;
    while index < pieces.len() && pieces[index].start < end {
        own_at(alloc, pieces, index, at, len, prepare)?;
        index += 1;
    }
    Ok(())
}

/// Makes a piece the list's own where the range meets it, and prepares it where that is wanted.
fn own_at(
    alloc: Global,
    pieces: &mut [Piece],
    index: usize,
    at: usize,
    len: usize,
    prepare: bool,
) -> Result<(), OutOfMemory>
    requires order { AreInOrder pieces.old }
    requires index { index < length pieces.old }
    requires within { at + len ≤ length (bytes_in pieces.old) }
    requires most { length (bytes_in pieces.old) < 2 ^ 32 }
    ensures order { AreInOrder pieces.new }
    ensures lent { StayLent pieces.old pieces.new }
    ensures bytes { bytes_in pieces.new ≡ bytes_in pieces.old }
    ensures starts { (place : ℕ) → before pieces.new place ≡ before pieces.old place }
    ensures ok { OnOk result
        (ArePreparedUpTo (tests_in (test_of prepare) pieces.old) at len (before pieces.old index)
        → ArePreparedUpTo (tests_in (test_of prepare) pieces.new) at len
        (before pieces.old (index + 1))) }
    ensures plain { prepare ≡ false
        → tests_in is_prepared pieces.new ≡ tests_in is_prepared pieces.old }
    ensures stay { StayPrepared (tests_in is_prepared pieces.old)
        (tests_in is_prepared pieces.new) }
    ensures own { StayPrepared (tests_in is_own pieces.old) (tests_in is_own pieces.new) }
    ensures ready { ArePrepared (tests_in is_own pieces.old) at len → IsOk result }
{
    let piece = &mut pieces[index];
    if piece.meet(at, len).count == 0 {
        return Ok(());
    }
    piece.backing.make_own(alloc, prepare)
}

/// Writes a range, whole or not at all. Its first piece is sought from `near` on.
pub fn write_range(
    alloc: Global,
    pieces: &mut [Piece],
    near: usize,
    at: usize,
    bytes: &[u8],
) -> Result<(), OutOfMemory>
    requires order { AreInOrder pieces.old }
    requires some { 0 < length bytes.now }
    requires within { at + length bytes.now ≤ length (bytes_in pieces.old) }
    requires most { length (bytes_in pieces.old) < 2 ^ 32 }
    ensures order { AreInOrder pieces.new }
    ensures lent { StayLent pieces.old pieces.new }
    ensures ok { OnOk result
        (bytes_in pieces.new ≡ with_bytes (bytes_in pieces.old) at bytes.now) }
    ensures err { OnErr result (bytes_in pieces.new ≡ bytes_in pieces.old) }
    ensures prepared { tests_in is_prepared pieces.new ≡ tests_in is_prepared pieces.old }
    ensures ready { ArePrepared (tests_in is_prepared pieces.old) at (length bytes.now)
        → IsOk result }
{
    let first = find_from(pieces, near, at);
    if write_within(pieces, first, at, bytes) {
        return Ok(());
    }
    own_on(alloc, pieces, first, at, bytes.len(), false)?;
    write_on(pieces, first, at, bytes);
    Ok(())
}

/// Writes a range that lies within one piece, if its bytes are the list's own.
#[inline]
pub fn write_within(pieces: &mut [Piece], index: usize, at: usize, bytes: &[u8]) -> bool
    requires order { AreInOrder pieces.old }
    requires index { index < length pieces.old }
    requires first { before pieces.old index ≤ at }
    requires most { at + length bytes.now < 2 ^ 64 }
    ensures order { AreInOrder pieces.new }
    ensures lent { StayLent pieces.old pieces.new }
    ensures prepared { tests_in is_prepared pieces.new ≡ tests_in is_prepared pieces.old }
    ensures all { result ≡ true
        → bytes_in pieces.new ≡ with_bytes (bytes_in pieces.old) at bytes.now }
    ensures none { result ≡ false → pieces.new ≡ pieces.old }
    ensures when { (piece : Piece) → slice_get pieces.old index ≡ Some piece
        → is_own piece.backing ≡ true
        → at - piece.start + length bytes.now ≤ length (piece_bytes piece) → result ≡ true }
{
    let piece = &mut pieces[index];
    let from = at - piece.start;
    if !piece.backing.is_own() || from + bytes.len() > piece.backing.len() {
        return false;
    }
    piece.backing.write(from, bytes);
    true
}
