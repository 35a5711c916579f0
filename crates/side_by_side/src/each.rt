//! Calls at each place of a list.
ghost use Rattle.std.specs.Prelude.{◌≡◌, ℕ, ◌+◌, ◌^◌, ◌<◌, ◌≤◌, length, slice_index_or};
ghost use Rattle.std.specs.Fork.{AcceptsAt, AcceptsEach, ChangesAt, ChangesEach};
ghost use denote.Param.Send.{IsSync, IsSend};
ghost use Rattle.side_by_side.specs.Places.{AcceptsFrom, ChangesFrom};

use crate::limit::ThreadLimit;
use std::thread::{Threads, join_mut};

/// Calls `f(i, &mut list[i])` at each place, in at most so many threads, and 64 at most, each of which
/// goes through a part of the places.
pub fn for_each_mut<R: Threads + Sync, T: Send, F: Fn(usize, &mut T) + Sync>(
    rt: &R,
    list: &mut [T],
    threads: usize,
    f: &F,
)
    requires threads { 0 < threads }
    requires accepts { AcceptsEach F.Fn f.now list.old }
    ensures { ChangesEach F.Fn f.now list.old list.new }
{
    let limit = ThreadLimit::of(threads);
    start_from(rt, f, limit, limit.threads(), 0, list);
}

/// How many places the next thread goes through, where so many threads may be started yet. The last
/// one goes through all that are left.
fn part_of(places: usize, threads: usize) -> usize
    requires some { 0 < threads }
    ensures within { result ≤ places }
    ensures last { threads ≡ 1 → result ≡ places }
{
    if threads == 1 {
        places
    } else {
        places.div_ceil(threads).min(places)
    }
}

/// Starts a thread for each part of the places, as long as any may be started.
#[cycle(parts)]
fn start_from<R: Threads + Sync, T: Send, F: Fn(usize, &mut T) + Sync>(
    rt: &R,
    f: &F,
    limit: ThreadLimit,
    threads: usize,
    base: usize,
    list: &mut [T],
)
    requires most { threads ≤ limit.threads }
    requires some { 0 < length list.old → 0 < threads }
    requires room { base + length list.old < 2 ^ 64 }
    requires accepts { AcceptsFrom F.Fn f.now base list.old }
    ensures { ChangesFrom F.Fn f.now base list.old list.new }
{
    if list.is_empty() {
        return;
    }
    let count = part_of(list.len(), threads);
    let (part, rest) = list.split_at_mut(count);
    start_part(rt, f, limit, threads - 1, base, part, base + count, rest);
}

/// Starts a thread for one part, and then for each part of the rest, of which so many may be started.
#[cycle(parts)]
fn start_part<R: Threads + Sync, T: Send, F: Fn(usize, &mut T) + Sync>(
    rt: &R,
    f: &F,
    limit: ThreadLimit,
    threads: usize,
    base: usize,
    part: &mut [T],
    next: usize,
    rest: &mut [T],
)
    requires most { threads < limit.threads }
    requires some { 0 < length rest.old → 0 < threads }
    requires room { (base + length part.old < 2 ^ 64) × (next + length rest.old < 2 ^ 64) }
    requires part { AcceptsFrom F.Fn f.now base part.old }
    requires rest { AcceptsFrom F.Fn f.now next rest.old }
    ensures part { ChangesFrom F.Fn f.now base part.old part.new }
    ensures rest { ChangesFrom F.Fn f.now next rest.old rest.new }
{
    let mut one = ||
        requires { IsSync F.row × IsSend T.row × (base + length part.now < 2 ^ 64)
            × AcceptsFrom F.Fn f.now base part.now }
        ensures { ChangesFrom F.Fn f.entry.now base part.entry.now part.exit.now }
    { call_each(f, base, part) };
    let mut others = ||
        requires { IsSync R.row × IsSync F.row × IsSend T.row × (threads < limit.threads)
            × (0 < length rest.now → 0 < threads) × (next + length rest.now < 2 ^ 64) × AcceptsFrom F.Fn f.now next rest.now }
        ensures { ChangesFrom F.Fn f.entry.now next rest.entry.now rest.exit.now }
    { start_from(rt, f, limit, threads, next, rest) };
    join_mut(rt, &mut one, &mut others);
}

/// Calls `f` at each place, one after another.
fn call_each<T, F: Fn(usize, &mut T)>(f: &F, base: usize, list: &mut [T])
    requires room { base + length list.old < 2 ^ 64 }
    requires accepts { AcceptsFrom F.Fn f.now base list.old }
    ensures { ChangesFrom F.Fn f.now base list.old list.new }
{
    for at in 0..list.len() {
        call_at(f, base + at, &mut list[at]);
    }
}

/// Calls `f` at one place.
fn call_at<T, F: Fn(usize, &mut T)>(f: &F, at: usize, one: &mut T)
    requires { AcceptsAt F.Fn f.now at one.old }
    ensures { ChangesAt F.Fn f.now at one.old one.new }
{
    f(at, one);
}
