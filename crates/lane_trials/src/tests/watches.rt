//! A watch beside a run, which ends the test where the run does not end.
use std::process::Abort;
use std::sync::atomic::{AtomicU64, Ordering};
use std::thread;
use std::thread::{Threads, join};
use std::time::{Clock, Duration};

/// How many hundredths of a second a run may take.
const MOST: u64 = 2_000;

/// Looks each hundredth of a second whether the run has ended, and fails the test where it has not
/// in time.
fn watch(rt: &(impl Clock + Abort), ended: &AtomicU64) {
    for _ in 0..MOST {
        if ended.load(Ordering::SeqCst) != 0 {
            return;
        }
        thread::sleep(rt, Duration::from_millis(10));
    }
    assert!(rt; ended.load(Ordering::SeqCst) != 0);
}

/// What a run returns, which must end within twenty seconds.
pub fn watched<R: Threads + Clock + Abort + Sync, A, F: FnOnce() -> A>(rt: &R, run: F) -> A
    requires { F.pre run }
{
    let ended = AtomicU64::new(0);
    let ((), answer) = join(
        rt,
        || watch(rt, &ended),
        || -> A
            requires { F.pre run }
        {
            let answer = run();
            ended.store(1, Ordering::SeqCst);
            answer
        },
    );
    answer
}
