//! A gate that keeps a lane, or a sender.
use bank_lanes::Gate;
use intake::SendGate;
use std::sync::atomic::{AtomicU64, Ordering};
use std::thread;

/// The most turns that anybody waits.
const TURNS: u64 = 5_000_000;

/// Waits, for at most so many turns, until so many have come. True where they have.
pub fn wait_for(come: &AtomicU64, many: u64) -> bool {
    for _ in 0..TURNS {
        if come.load(Ordering::SeqCst) >= many {
            return true;
        }
        thread::yield_now();
    }
    false
}

/// Keeps position 0 until another position has passed.
#[derive(Drop)]
pub struct KeepingGate {
    until: u32,
    passed: AtomicU64,
    within: AtomicU64,
}

impl KeepingGate {
    pub fn new(until: u32) -> KeepingGate {
        KeepingGate {
            until,
            passed: AtomicU64::new(0),
            within: AtomicU64::new(0),
        }
    }

    /// The other position passed before the turns of position 0 were over.
    pub fn was_passed_within(&self) -> bool {
        self.within.load(Ordering::SeqCst) != 0
    }

    fn keep(&self, position: u32) {
        if position == self.until {
            self.passed.store(1, Ordering::SeqCst);
        }
        if position == 0 && wait_for(&self.passed, 1) {
            self.within.store(1, Ordering::SeqCst);
        }
    }
}

impl Gate for KeepingGate {
    fn pass(&self, _lane: u32, position: u32) {
        self.keep(position);
    }
}

impl SendGate for KeepingGate {
    fn pass(&self, _sender: u32, position: u32) {
        self.keep(position);
    }
}

/// Keeps the second of each three positions until the third has passed: so another lane has to come
/// for the third. The first is kept for so many turns.
#[derive(Drop)]
pub struct PairingGate {
    dawdle: u64,
    passed: AtomicU64,
    missed: AtomicU64,
}

impl PairingGate {
    pub fn new(dawdle: u64) -> PairingGate {
        PairingGate {
            dawdle,
            passed: AtomicU64::new(0),
            missed: AtomicU64::new(0),
        }
    }

    /// No turns were over before the third had passed.
    pub fn were_paired(&self) -> bool {
        self.missed.load(Ordering::SeqCst) == 0
    }
}

impl Gate for PairingGate {
    fn pass(&self, _lane: u32, position: u32) {
        if position % 3 == 0 {
            for _ in 0..self.dawdle {
                thread::yield_now();
            }
        } else if position % 3 == 2 {
            self.passed.fetch_add(1, Ordering::SeqCst);
        } else if !wait_for(&self.passed, u64::from(position / 3) + 1) {
            self.missed.store(1, Ordering::SeqCst);
        }
    }
}

/// Keeps each position until so many have passed.
#[derive(Drop)]
pub struct MeetingGate {
    many: u64,
    passed: AtomicU64,
    missed: AtomicU64,
}

impl MeetingGate {
    pub fn new(many: u64) -> MeetingGate {
        MeetingGate {
            many,
            passed: AtomicU64::new(0),
            missed: AtomicU64::new(0),
        }
    }

    /// All of them met, before anybody's turns were over.
    pub fn all_met(&self) -> bool {
        self.passed.load(Ordering::SeqCst) >= self.many && self.missed.load(Ordering::SeqCst) == 0
    }
}

impl Gate for MeetingGate {
    fn pass(&self, _lane: u32, _position: u32) {
        self.passed.fetch_add(1, Ordering::SeqCst);
        if !wait_for(&self.passed, self.many) {
            self.missed.store(1, Ordering::SeqCst);
        }
    }
}
