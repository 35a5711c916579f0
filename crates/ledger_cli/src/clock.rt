//! How long something takes.
use std::rt::Clock;
use std::time::Instant;

/// The time now. None where the clock cannot be read.
pub(crate) fn now<R: Clock>(rt: &R) -> Option<Instant> {
    Instant::now(rt).ok()
}

/// The microseconds since then, and 0 where the clock cannot be read.
pub(crate) fn since<R: Clock>(rt: &R, then: &Option<Instant>) -> u64 {
    match then {
        Some(then) => match then.elapsed(rt) {
            Ok(time) => u64::try_from(time.as_micros()).unwrap_or(u64::MAX),
            Err(_) => 0,
        },
        None => 0,
    }
}
