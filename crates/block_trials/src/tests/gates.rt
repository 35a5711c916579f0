//! Gates that keep a lane or a sender, and one that counts.
use bank_lanes::Gate;
use intake::SendGate;
use std::sync::atomic::{AtomicBool, AtomicU32, Ordering};
use std::thread;

/// The most turns that position 0 is kept.
const TURNS: u32 = 10_000_000;

/// Keeps position 0 until another position has passed.
#[derive(Drop)]
pub struct KeepingGate {
    until: u32,
    passed: AtomicBool,
    within: AtomicBool,
}

impl KeepingGate {
    pub fn new(until: u32) -> KeepingGate {
        KeepingGate {
            until,
            passed: AtomicBool::new(false),
            within: AtomicBool::new(false),
        }
    }

    /// The other position passed before the turns of position 0 were over.
    pub fn was_passed(&self) -> bool {
        self.within.load(Ordering::SeqCst)
    }

    fn keep(&self, position: u32) {
        if position == self.until {
            self.passed.store(true, Ordering::SeqCst);
        }
        if position == 0 && is_raised(&self.passed) {
            self.within.store(true, Ordering::SeqCst);
        }
    }
}

/// Waits until the flag is up, at most so many turns.
fn is_raised(flag: &AtomicBool) -> bool {
    for _ in 0..TURNS {
        if flag.load(Ordering::SeqCst) {
            return true;
        }
        thread::yield_now();
    }
    false
}

impl Gate for KeepingGate {
    fn pass(&self, _lane: u32, position: u32) {
        self.keep(position);
    }
}

impl SendGate for KeepingGate {
    fn pass(&self, _sender: u32, position: u32) {
        self.keep(position);
    }
}

/// Counts the transactions that are parsed.
#[derive(Drop)]
pub struct CountingGate {
    passed: AtomicU32,
}

impl CountingGate {
    pub fn new() -> CountingGate {
        CountingGate {
            passed: AtomicU32::new(0),
        }
    }

    pub fn count(&self) -> u32 {
        self.passed.load(Ordering::SeqCst)
    }
}

impl SendGate for CountingGate {
    fn pass(&self, _sender: u32, _position: u32) {
        self.passed.fetch_add(1, Ordering::SeqCst);
    }
}
