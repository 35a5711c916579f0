//! Two calls side by side.
use std::thread::{Threads, join};

/// Calls both: the second in a thread of its own where one can be made, the first in the caller's. A
/// thread that does nothing is started before that, and waits behind the caller in its place.
pub fn call_both<R: Threads, F: FnOnce() -> A, G: FnOnce() -> B + Send, A, B: Send>(
    rt: &R,
    first: F,
    second: G,
) -> (A, B)
    requires { F.pre first × G.pre second }
    ensures first { F.post first result.0 }
    ensures second { G.post second result.1 }
{
    let ((), (second, first)) = join(
        rt,
        || {},
        move || -> (B, A)
            requires { F.pre first × G.pre second }
            ensures first { F.post first result.1 }
            ensures second { G.post second result.0 }
        { join(rt, second, first) },
    );
    (first, second)
}
