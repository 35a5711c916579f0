//! A piece of a list of bytes: where it starts, and what its bytes are in.
ghost use Rattle.std.specs.Prelude.{◌≡◌, ◌<◌, ◌≤◌, ◌+◌, ◌-◌, ◌^◌, true, false, min, length, take, drop, slice_index, None, IfSome, OnOk, IsOk};
ghost use Rattle.data_parts.specs.declared.parts.Part.TheVariants.{Lent};
ghost use Rattle.data_parts.specs.declared.piece.Backing.TheVariants.{Shared, Blank};
ghost use Rattle.spec_base.specs.Bytes.{with_bytes};
ghost use Rattle.data_parts.specs.Parts.{part_bytes, backing_bytes, piece_bytes, is_own, is_prepared, is_blank, test_of, ArrayStandsIn, ArrayStandsAt, HasPut, StaysShared};

use crate::parts::Part;
use sol_base::{Account, OutOfMemory};
use std::alloc::Global;
use std::sync::Arc;

/// What the bytes of a piece are in.
#[derive(Drop)]
pub enum Backing {
    /// Memory of the list's own, which may be prepared.
    Own { bytes: Vec<u8>, prepared: bool },
    /// An account that others share.
    Shared(Arc<Account>),
    /// Nothing: this many zeros.
    Blank(u32),
}

/// A piece of a list of bytes.
#[derive(Drop)]
pub struct Piece {
    pub start: usize,
    pub backing: Backing,
}

/// Where a piece and a range of places meet.
#[derive(Clone, Copy)]
pub struct Meeting {
    /// The first place of the piece, from its start.
    pub from: usize,
    /// The first place of the range, from its start.
    pub done: usize,
    /// How many places.
    pub count: usize,
}

impl Backing {
    /// What a part's bytes are in.
    pub fn of_part(part: Part) -> Backing
        ensures bytes { backing_bytes result ≡ part_bytes part }
        ensures prepared { is_prepared result ≡ false }
        ensures shared { (shared : Arc Account Global) → result ≡ Shared shared
            → part ≡ Lent shared }
    {
        match part {
            Part::Bytes(bytes) => Backing::Own {
                bytes: bytes.into_vec(),
                prepared: false,
            },
            Part::Lent(account) => Backing::Shared(account),
            Part::Zeros(count) => Backing::Blank(count),
        }
    }

    #[inline]
    pub fn len(&self) -> usize
        ensures { result ≡ length (backing_bytes self.now) }
    {
        match self {
            Backing::Own { bytes, .. } => bytes.len(),
            Backing::Shared(account) => account.bytes.len(),
            Backing::Blank(count) => *count as usize,
        }
    }

    #[inline]
    pub fn is_own(&self) -> bool
        ensures { result ≡ is_own self.now }
    {
        matches!(self, Backing::Own { .. })
    }

    /// The account that others share, if the bytes are in one.
    pub fn lent(&self) -> Option<&Arc<Account>>
        ensures shared { IfSome result (λ lent. self.now ≡ Shared lent.now) }
        ensures own { is_prepared self.now ≡ true → result ≡ None }
    {
        match self {
            Backing::Shared(account) => Some(account),
            Backing::Own { .. } | Backing::Blank(_) => None,
        }
    }

    #[inline]
    pub fn get(&self, at: usize) -> u8
        requires { at < length (backing_bytes self.now) }
        ensures { result ≡ slice_index (backing_bytes self.now) at }
    {
        match self {
            Backing::Own { bytes, .. } => bytes[at],
            Backing::Shared(account) => account.bytes.as_slice()[at],
            Backing::Blank(_) => 0,
        }
    }

    /// Reads the bytes from a place on, as many as `into` has.
    #[inline]
    pub fn read(&self, at: usize, into: &mut [u8])
        requires { at + length into.old ≤ length (backing_bytes self.now) }
        ensures { into.new ≡ take (length into.old) (drop at (backing_bytes self.now)) }
    {
        let len = into.len();
        match self {
            Backing::Own { bytes, .. } => into.copy_from_slice(&bytes[at..at + len]),
            Backing::Shared(account) => {
                into.copy_from_slice(&account.bytes.as_slice()[at..at + len]);
            }
            Backing::Blank(_) => into.fill(0),
        }
    }

    /// The `N` bytes from a place on, if they are in memory.
    #[inline(always)]
    pub fn array<const N: usize>(&self, from: usize) -> Option<[u8; N]>
        requires { from + N < 2 ^ 64 }
        ensures bytes { IfSome result
            (λ found. ArrayStandsIn (backing_bytes self.now) from N found) }
        ensures blank { is_blank self.now ≡ true → result ≡ None }
    {
        match self {
            Backing::Own { bytes, .. } => array_in(bytes.as_slice(), from),
            Backing::Shared(account) => array_in(account.bytes.as_slice(), from),
            Backing::Blank(_) => None,
        }
    }

    /// Puts `N` bytes at a place, if there are as many of the list's own.
    #[inline(always)]
    pub fn put<const N: usize>(&mut self, from: usize, put: [u8; N]) -> bool
        requires { from + N < 2 ^ 64 }
        ensures within { result ≡ true → from + length put.entry ≤ length (backing_bytes self.old) }
        ensures all { result ≡ true → HasPut self.old self.new from put.entry }
        ensures none { result ≡ false → backing_bytes self.new ≡ backing_bytes self.old }
        ensures size { length (backing_bytes self.new) ≡ length (backing_bytes self.old) }
        ensures prepared { is_prepared self.new ≡ is_prepared self.old }
        ensures blank { is_blank self.new ≡ is_blank self.old }
        ensures never { is_blank self.old ≡ true → result ≡ false }
        ensures kept { is_blank self.old ≡ true → self.new ≡ self.old }
        ensures shared { StaysShared self.old self.new }
    {
        match self {
            Backing::Own { bytes, .. } => put_in(bytes.as_mut_slice(), from, put),
            Backing::Shared(_) | Backing::Blank(_) => false,
        }
    }

    /// Writes into bytes of the list's own.
    #[inline]
    pub fn write(&mut self, at: usize, bytes: &[u8])
        requires own { 0 < length bytes.now → is_own self.old ≡ true }
        requires within { at + length bytes.now ≤ length (backing_bytes self.old) }
        ensures bytes { backing_bytes self.new ≡ with_bytes (backing_bytes self.old) at bytes.now }
        ensures own { is_own self.new ≡ is_own self.old }
        ensures prepared { is_prepared self.new ≡ is_prepared self.old }
        ensures shared { StaysShared self.old self.new }
    {
        if let Backing::Own { bytes: own, .. } = self {
            let end = at + bytes.len();
            own[at..end].copy_from_slice(bytes);
        }
    }

    /// Copies `len` bytes of the list's own from one place to another. Where the two ranges meet,
    /// the bytes that stood there before are copied.
    pub fn copy_within(&mut self, to: usize, from: usize, len: usize)
        requires own { is_own self.old ≡ true }
        requires to { to + len ≤ length (backing_bytes self.old) }
        requires from { from + len ≤ length (backing_bytes self.old) }
        ensures bytes { backing_bytes self.new
            ≡ with_bytes (backing_bytes self.old) to (take len (drop from (backing_bytes self.old))) }
        ensures own { is_own self.new ≡ is_own self.old }
        ensures prepared { is_prepared self.new ≡ is_prepared self.old }
        ensures shared { StaysShared self.old self.new }
    {
        if let Backing::Own { bytes, .. } = self {
            copy_in(bytes.as_mut_slice(), to, from, len);
        }
    }

    /// Makes the bytes the list's own, and prepares them where that is wanted.
    pub fn make_own(&mut self, alloc: Global, prepare: bool) -> Result<(), OutOfMemory>
        ensures bytes { backing_bytes self.new ≡ backing_bytes self.old }
        ensures ok { OnOk result (test_of prepare self.new ≡ true) }
        ensures own { is_own self.old ≡ true → is_own self.new ≡ true }
        ensures plain { prepare ≡ false → is_prepared self.new ≡ is_prepared self.old }
        ensures stay { is_prepared self.old ≡ true → is_prepared self.new ≡ true }
        ensures ready { is_own self.old ≡ true → IsOk result }
        ensures shared { StaysShared self.old self.new }
    {
        let bytes = match self {
            Backing::Own { prepared, .. } => {
                *prepared = *prepared || prepare;
                return Ok(());
            }
            Backing::Shared(account) => account.bytes.try_copy()?.into_vec(),
            Backing::Blank(count) => Vec::from_elem(alloc, 0, *count as usize)?,
        };
        *self = Backing::Own {
            bytes,
            prepared: prepare,
        };
        Ok(())
    }
}

impl Piece {
    /// Zeros that are nowhere.
    pub fn blank(start: usize, count: u32) -> Piece
        ensures start { result.start ≡ start }
        ensures backing { result.backing ≡ Blank count }
    {
        Piece {
            start,
            backing: Backing::Blank(count),
        }
    }

    /// The `N` bytes from a place of the list on, if they are in this piece's memory.
    #[inline(always)]
    pub fn array<const N: usize>(&self, at: usize) -> Option<[u8; N]>
        requires { at + N < 2 ^ 64 }
        ensures bytes { IfSome result (λ found. ArrayStandsAt self.now at N found) }
        ensures blank { is_blank self.now.backing ≡ true → result ≡ None }
    {
        if at < self.start {
            return None;
        }
        self.backing.array(at - self.start)
    }

    /// Puts `N` bytes at a place of the list, if this piece has them as the list's own.
    #[inline(always)]
    pub fn put<const N: usize>(&mut self, at: usize, put: [u8; N]) -> bool
        requires { at + N < 2 ^ 64 }
        ensures start { self.new.start ≡ self.old.start }
        ensures first { result ≡ true → self.old.start ≤ at }
        ensures within { result ≡ true
            → at - self.old.start + length put.entry ≤ length (piece_bytes self.old) }
        ensures all { result ≡ true
            → HasPut self.old.backing self.new.backing (at - self.old.start) put.entry }
        ensures none { result ≡ false → piece_bytes self.new ≡ piece_bytes self.old }
        ensures size { length (piece_bytes self.new) ≡ length (piece_bytes self.old) }
        ensures prepared { is_prepared self.new.backing ≡ is_prepared self.old.backing }
        ensures blank { is_blank self.new.backing ≡ is_blank self.old.backing }
        ensures never { is_blank self.old.backing ≡ true → result ≡ false }
        ensures kept { is_blank self.old.backing ≡ true → self.new ≡ self.old }
        ensures shared { StaysShared self.old.backing self.new.backing }
    {
        if at < self.start {
            return false;
        }
        self.backing.put(at - self.start, put)
    }

    /// Where the piece and the range of `len` places from `at` on meet.
    pub fn meet(&self, at: usize, len: usize) -> Meeting
        requires { at + len < 2 ^ 64 }
        ensures piece { result.from + result.count ≤ length (piece_bytes self.now) }
        ensures range { result.done + result.count ≤ len }
        ensures same { 0 < result.count → self.now.start + result.from ≡ at + result.done }
        ensures first { result.done ≡ min len (self.now.start - at) }
        ensures last { result.done + result.count
            ≡ min len (self.now.start + length (piece_bytes self.now) - at) }
    {
        let size = self.backing.len();
        let from = at.saturating_sub(self.start).min(size);
        let done = self.start.saturating_sub(at).min(len);
        Meeting {
            from,
            done,
            count: (size - from).min(len - done),
        }
    }
}

/// The `N` bytes of a list from a place on, if there are as many.
#[inline(always)]
fn array_in<const N: usize>(list: &[u8], from: usize) -> Option<[u8; N]>
    requires { from + N < 2 ^ 64 }
    ensures { IfSome result (λ found. ArrayStandsIn list.now from N found) }
{
    if from + N > list.len() {
        return None;
    }
    let mut bytes = [0; N];
    bytes.copy_from_slice(&list[from..from + N]);
    Some(bytes)
}

/// Puts `N` bytes at a place of a list, if there are as many.
#[inline(always)]
fn put_in<const N: usize>(list: &mut [u8], from: usize, put: [u8; N]) -> bool
    requires { from + N < 2 ^ 64 }
    ensures within { result ≡ true → from + length put.entry ≤ length list.old }
    ensures all { result ≡ true → list.new ≡ with_bytes list.old from put.entry }
    ensures none { result ≡ false → list.new ≡ list.old }
{
    if from + N > list.len() {
        return false;
    }
    put_over(&mut list[from..from + N], put);
    true
}

/// Puts `N` bytes in the place of as many.
#[inline(always)]
fn put_over<const N: usize>(list: &mut [u8], put: [u8; N])
    requires { length list.old ≡ N }
    ensures { list.new ≡ put.entry }
{
    if let Some(chunk) = list.first_chunk_mut::<N>() {
        *chunk = put;
    }
}

/// Copies `len` bytes of a list within it.
fn copy_in(list: &mut [u8], to: usize, from: usize, len: usize)
    requires to { to + len ≤ length list.old }
    requires from { from + len ≤ length list.old }
    ensures { list.new ≡ with_bytes list.old to (take len (drop from list.old)) }
{
    list.copy_within(from..from + len, to);
}
