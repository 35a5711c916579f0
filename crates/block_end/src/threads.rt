//! Two calls beside each other.
use std::thread::Threads;

/// Calls both: the second in a thread of its own, unless there is one lane alone. Then it is called
/// after the first, and no thread is started. The first should be the one that takes more memory,
/// which costs least on the caller's thread.
pub fn call_both<R: Threads, F: FnOnce() -> A, G: FnOnce() -> B + Send, A, B: Send>(
    rt: &R,
    lanes: u32,
    first: F,
    second: G,
) -> (A, B)
    requires { F.pre first × G.pre second }
    ensures first { F.post first result.0 }
    ensures second { G.post second result.1 }
{
    if lanes == 1 {
        (first(), second())
    } else {
        side_by_side::call_both(rt, first, second)
    }
}
