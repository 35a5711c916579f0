//! How many threads a call may start.
ghost use Rattle.std.specs.Prelude.{◌≡◌, ◌<◌, ◌≤◌, min};

/// The most threads that one call starts. Each takes a frame of the stack of the one that waits.
const MOST: usize = 64;

/// How many threads a call may start: one at least, 64 at most.
#[derive(Clone, Copy)]
pub(crate) struct ThreadLimit {
    threads: usize,
    ghost some: { 0 < threads },
    ghost most: { threads ≤ 64 },
}

impl ThreadLimit {
    /// So many, or 64 where that is more.
    pub(crate) fn of(threads: usize) -> ThreadLimit
        requires { 0 < threads }
        ensures { result.threads ≡ min 64 threads }
    {
        ThreadLimit {
            threads: threads.min(MOST),
        }
    }

    /// How many they are.
    pub(crate) fn threads(self) -> usize
        ensures { result ≡ self.threads }
    {
        self.threads
    }
}
