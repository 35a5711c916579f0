//! Moves of bytes from one range of places to another: at once within a piece, and else through a
//! small buffer.
ghost use Rattle.std.specs.Prelude.{◌≡◌, ◌<◌, ◌≤◌, ◌+◌, ◌^◌, true, false, length, take, drop, OnOk, OnErr, IsOk};
ghost use Rattle.data_parts.specs.declared.moves.TheConstants.{CHUNK};
ghost use Rattle.spec_base.specs.Bytes.{with_bytes};
ghost use Rattle.data_parts.specs.Parts.{bytes_in, tests_in, is_own, is_prepared, before, AreInOrder, ArePrepared, StayLent};

use crate::piece::Piece;
use crate::range::{find, own_on, read_on, write_on};
use sol_base::OutOfMemory;
use std::alloc::Global;

/// The most bytes that are moved at once.
const CHUNK: usize = 512;

/// Copies a range to other places, whole or not at all. Where the two meet, the bytes that stood
/// there before are copied.
pub fn copy_range(
    alloc: Global,
    pieces: &mut [Piece],
    to: usize,
    from: usize,
    len: usize,
) -> Result<(), OutOfMemory>
    requires order { AreInOrder pieces.old }
    requires to { to + len ≤ length (bytes_in pieces.old) }
    requires from { from + len ≤ length (bytes_in pieces.old) }
    requires most { length (bytes_in pieces.old) < 2 ^ 32 }
    ensures order { AreInOrder pieces.new }
    ensures lent { StayLent pieces.old pieces.new }
    ensures ok { OnOk result (bytes_in pieces.new
        ≡ with_bytes (bytes_in pieces.old) to (take len (drop from (bytes_in pieces.old)))) }
    ensures err { OnErr result (bytes_in pieces.new ≡ bytes_in pieces.old) }
    ensures prepared { tests_in is_prepared pieces.new ≡ tests_in is_prepared pieces.old }
    ensures ready { ArePrepared (tests_in is_prepared pieces.old) to len → IsOk result }
{
    if len == 0 {
        return Ok(());
    }
    let first = find(pieces, to);
    if move_within(pieces, first, to, from, len) {
        return Ok(());
    }
    own_on(alloc, pieces, first, to, len, false)?;
    move_range(pieces, to, from, len);
    Ok(())
}

/// Moves a range within one piece, if its bytes are the list's own.
fn move_within(pieces: &mut [Piece], index: usize, to: usize, from: usize, len: usize) -> bool
    requires order { AreInOrder pieces.old }
    requires index { index < length pieces.old }
    requires first { before pieces.old index ≤ to }
    requires to { to + len < 2 ^ 64 }
    requires from { from + len < 2 ^ 64 }
    ensures order { AreInOrder pieces.new }
    ensures lent { StayLent pieces.old pieces.new }
    ensures all { result ≡ true → bytes_in pieces.new
        ≡ with_bytes (bytes_in pieces.old) to (take len (drop from (bytes_in pieces.old))) }
    ensures none { result ≡ false → pieces.new ≡ pieces.old }
    ensures prepared { tests_in is_prepared pieces.new ≡ tests_in is_prepared pieces.old }
{
    let piece = &mut pieces[index];
    if from < piece.start || !piece.backing.is_own() {
        return false;
    }
    let size = piece.backing.len();
    let to_place = to - piece.start;
    let from_place = from - piece.start;
    if to_place + len > size || from_place + len > size {
        return false;
    }
    piece.backing.copy_within(to_place, from_place, len);
    true
}

/// Moves a range to places that the pieces own. Where the two meet, the bytes that stood there
/// before are moved.
fn move_range(pieces: &mut [Piece], to: usize, from: usize, len: usize)
    requires order { AreInOrder pieces.old }
    requires to { to + len ≤ length (bytes_in pieces.old) }
    requires from { from + len ≤ length (bytes_in pieces.old) }
    requires most { length (bytes_in pieces.old) < 2 ^ 32 }
    requires own { ArePrepared (tests_in is_own pieces.old) to len }
    ensures order { AreInOrder pieces.new }
    ensures lent { StayLent pieces.old pieces.new }
    ensures bytes { bytes_in pieces.new
        ≡ with_bytes (bytes_in pieces.old) to (take len (drop from (bytes_in pieces.old))) }
    ensures prepared { tests_in is_prepared pieces.new ≡ tests_in is_prepared pieces.old }
{
    if to <= from {
        move_forward(pieces, to, from, len);
    } else {
        move_backward(pieces, to, from, len);
    }
}

/// Moves a range to lower places, its first bytes first.
fn move_forward(pieces: &mut [Piece], to: usize, from: usize, len: usize)
    requires order { AreInOrder pieces.old }
    requires lower { to ≤ from }
    requires from { from + len ≤ length (bytes_in pieces.old) }
    requires most { length (bytes_in pieces.old) < 2 ^ 32 }
    requires own { ArePrepared (tests_in is_own pieces.old) to len }
    ensures order { AreInOrder pieces.new }
    ensures lent { StayLent pieces.old pieces.new }
    ensures bytes { bytes_in pieces.new
        ≡ with_bytes (bytes_in pieces.old) to (take len (drop from (bytes_in pieces.old))) }
    ensures prepared { tests_in is_prepared pieces.new ≡ tests_in is_prepared pieces.old }
{
    let mut done = 0;
    while done < len {
        let count = CHUNK.min(len - done);
        move_chunk(pieces, to + done, from + done, count);
        done += count;
    }
}

/// Moves a range to higher places, its last bytes first.
fn move_backward(pieces: &mut [Piece], to: usize, from: usize, len: usize)
    requires order { AreInOrder pieces.old }
    requires higher { from ≤ to }
    requires to { to + len ≤ length (bytes_in pieces.old) }
    requires most { length (bytes_in pieces.old) < 2 ^ 32 }
    requires own { ArePrepared (tests_in is_own pieces.old) to len }
    ensures order { AreInOrder pieces.new }
    ensures lent { StayLent pieces.old pieces.new }
    ensures bytes { bytes_in pieces.new
        ≡ with_bytes (bytes_in pieces.old) to (take len (drop from (bytes_in pieces.old))) }
    ensures prepared { tests_in is_prepared pieces.new ≡ tests_in is_prepared pieces.old }
{
    let mut rest = len;
    while rest > 0 {
        let count = CHUNK.min(rest);
        rest -= count;
        move_chunk(pieces, to + rest, from + rest, count);
    }
}

/// Moves a range that the buffer has room for.
fn move_chunk(pieces: &mut [Piece], to: usize, from: usize, len: usize)
    requires some { (0 < len) × (len ≤ CHUNK) }
    requires order { AreInOrder pieces.old }
    requires to { to + len ≤ length (bytes_in pieces.old) }
    requires from { from + len ≤ length (bytes_in pieces.old) }
    requires most { length (bytes_in pieces.old) < 2 ^ 32 }
    requires own { ArePrepared (tests_in is_own pieces.old) to len }
    ensures order { AreInOrder pieces.new }
    ensures lent { StayLent pieces.old pieces.new }
    ensures bytes { bytes_in pieces.new
        ≡ with_bytes (bytes_in pieces.old) to (take len (drop from (bytes_in pieces.old))) }
    ensures own { tests_in is_own pieces.new ≡ tests_in is_own pieces.old }
    ensures prepared { tests_in is_prepared pieces.new ≡ tests_in is_prepared pieces.old }
{
    let mut buffer = [0; CHUNK];
    let chunk = &mut buffer[..len];
    read_on(pieces, find(pieces, from), from, chunk);
    let first = find(pieces, to);
    write_on(pieces, first, to, chunk);
}
