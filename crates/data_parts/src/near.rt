//! Hints at the piece that a place lies in: mostly it is the one that the hint names, or follows
//! soon. A hint is two numbers that nothing rests on.
ghost use Rattle.std.specs.Prelude.{◌<◌, ◌≤◌, ◌+◌, length};
ghost use Rattle.data_parts.specs.Parts.{bytes_in, before, AreInOrder};

use crate::piece::Piece;
use crate::range::find;
use sol_base::OutOfMemory;
use std::alloc::Global;

/// There is a hint for this many places each.
const PLACES: usize = 512;

/// From a hint on, so many pieces are passed before the others are searched.
const STEPS: usize = 8;

/// Where the places of a block are sought first.
#[derive(Clone, Copy)]
pub struct Hint {
    /// The piece that the first of them lies in.
    piece: u32,
    /// Where the next piece begins.
    end: u32,
}

/// A hint for each 512 places.
pub fn hints_of(alloc: Global, pieces: &[Piece]) -> Result<Vec<Hint>, OutOfMemory> {
    let mut hints = Vec::new(alloc);
    for (index, piece) in pieces.iter().enumerate() {
        let end = piece.start.saturating_add(piece.backing.len());
        let hint = Hint {
            piece: at_most(index),
            end: at_most(end),
        };
        hints.resize(end.div_ceil(PLACES), hint)?;
    }
    Ok(hints)
}

/// A number that fits into 32 bits.
fn at_most(number: usize) -> u32 {
    number.min(u32::MAX as usize) as u32
}

/// The piece that a hint names for a place: the one that its block begins in, and the next one for
/// a place behind its end.
#[inline(always)]
pub fn hinted(hints: &[Hint], at: usize) -> Option<usize> {
    let hint = hints.get(at / PLACES)?;
    Some(hint.piece as usize + usize::from(at >= hint.end as usize))
}

/// The piece that a hint names for a place, and the first piece for a place behind all.
#[inline(always)]
pub fn nearest(hints: &[Hint], at: usize) -> usize {
    hinted(hints, at).unwrap_or(0)
}

/// The piece from which on a place is sought: the one that its block begins in.
#[inline(always)]
pub fn first(hints: &[Hint], at: usize) -> usize {
    match hints.get(at / PLACES) {
        Some(hint) => hint.piece as usize,
        None => 0,
    }
}

/// The piece that a place lies in, sought from a piece on.
pub fn find_from(pieces: &[Piece], near: usize, at: usize) -> usize
    requires order { AreInOrder pieces.now }
    requires within { at < length (bytes_in pieces.now) }
    ensures piece { result < length pieces.now }
    ensures first { before pieces.now result ≤ at }
    ensures last { at < before pieces.now (result + 1) }
{
    if near >= pieces.len() || pieces[near].start > at {
        return find(pieces, at);
    }
    let last = near.saturating_add(STEPS);
    let mut index = near;
    while index + 1 < pieces.len() && pieces[index + 1].start <= at {
        if index == last {
            return find(pieces, at);
        }
        index += 1;
    }
    index
}
