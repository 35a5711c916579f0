//! Where threads wait for a desk: a lane until there may be something for it, whoever wants the turn
//! until it is given up, and a reader until lanes have gone on. Nothing that is proved rests on it.
use bank_core::Offer;
use std::sync::Wait;
use std::sync::atomic::AtomicU64;
use std::sync::atomic::Ordering::SeqCst;
use std::thread;
use std::time::Duration;

/// How often a lane that finds nothing ready looks again, before it sleeps.
const YIELDS: u32 = 32;

/// How many microseconds a lane or a reader sleeps at most. It is a net: what there is for it wakes
/// it.
const NET: u64 = 1_000_000;

/// After how many turns a reader is woken: a wake costs more than what it has to do for one outcome.
const TURNS_TOLD: u64 = 8;

/// Where threads wait for a desk.
#[derive(Drop)]
pub(crate) struct Waiting {
    // 1 where the last turn left something for a lane: a position that is ready, or the end.
    offered: AtomicU64,
    // Changes whenever a lane that sleeps is to look again.
    bell: AtomicU64,
    // How many lanes sleep, or are about to.
    idle: AtomicU64,
    // How many threads sleep until the turn is given up, or are about to.
    queued: AtomicU64,
    // Changes with each turn that ends while a reader sleeps, or is about to.
    told: AtomicU64,
    // 1 while it does.
    reading: AtomicU64,
    // 1 once it has nothing to wait for any more.
    dismissed: AtomicU64,
}

/// The part of a word that a thread parks on.
fn low(word: u64) -> u32 {
    (word & 0xffff_ffff) as u32
}

impl Waiting {
    /// Nobody waits, and lanes are to look.
    pub(crate) fn new() -> Waiting {
        Waiting {
            offered: AtomicU64::new(1),
            bell: AtomicU64::new(0),
            idle: AtomicU64::new(0),
            queued: AtomicU64::new(0),
            told: AtomicU64::new(0),
            reading: AtomicU64::new(0),
            dismissed: AtomicU64::new(0),
        }
    }

    /// Shows what a turn leaves for a lane. It is called while one has the turn.
    pub(crate) fn show(&self, offer: Offer) {
        let offered = if offer == Offer::NotNow { 0 } else { 1 };
        if self.offered.load(SeqCst) != offered {
            self.offered.store(offered, SeqCst);
        }
    }

    /// Wakes the lanes that sleep where there is something for them: as many as positions are ready,
    /// and all at the end. It is called once the turn is given up.
    pub(crate) fn ring(&self, offer: Offer, ready: u32) {
        let idle = self.idle.load(SeqCst);
        if offer == Offer::NotNow || idle == 0 {
            return;
        }
        self.bell.fetch_add(1, SeqCst);
        if offer == Offer::Finished || idle <= ready as u64 {
            self.bell.wake_all();
        } else {
            for _ in 0..ready {
                self.bell.wake_one();
            }
        }
    }

    /// Waits until a turn has left something for a lane, or for a while. A lane counts as idle
    /// before it looks for the last time, and the bell is read before that: so whoever leaves
    /// something after that look finds it idle, and changes the bell.
    pub(crate) fn rest<R: Wait>(&self, rt: &R) {
        for _ in 0..YIELDS {
            if self.offered.load(SeqCst) != 0 {
                return;
            }
            thread::yield_now();
        }
        let bell = self.bell.load(SeqCst);
        self.idle.fetch_add(1, SeqCst);
        if self.offered.load(SeqCst) == 0 {
            self.bell
                .park_timeout(rt, low(bell), Duration::from_micros(NET));
        }
        self.idle.fetch_sub(1, SeqCst);
    }

    /// One thread more sleeps until the turn is given up, or is about to.
    pub(crate) fn queue_up(&self) {
        self.queued.fetch_add(1, SeqCst);
    }

    /// One thread fewer does.
    pub(crate) fn leave_queue(&self) {
        self.queued.fetch_sub(1, SeqCst);
    }

    /// Whether some thread does.
    pub(crate) fn has_queued(&self) -> bool {
        self.queued.load(SeqCst) != 0
    }

    /// A reader is about to look, under a turn of its own, for the last time before it sleeps. Each
    /// turn changes the word from now on. It returns the word as it is once that one turn has ended
    /// and no other has.
    pub(crate) fn begin_look(&self) -> u64 {
        self.reading.store(1, SeqCst);
        self.told.load(SeqCst).wrapping_add(1)
    }

    /// Waits until another turn than the look's own has ended since the look began, or the reader is
    /// dismissed, or for a while.
    pub(crate) fn rest_reader<R: Wait>(&self, rt: &R, word: u64) {
        if !self.is_dismissed() {
            self.told
                .park_timeout(rt, low(word), Duration::from_micros(NET));
        }
    }

    /// The reader has something to do, or was woken.
    pub(crate) fn end_look(&self) {
        self.reading.store(0, SeqCst);
    }

    /// Tells a reader that sleeps that a turn has ended, and wakes it after some of them. It is
    /// called once the turn is given up.
    pub(crate) fn tell(&self) {
        if self.reading.load(SeqCst) == 0 {
            return;
        }
        let turns = self.told.fetch_add(1, SeqCst);
        if turns % TURNS_TOLD == 0 {
            self.told.wake_one();
        }
    }

    /// Wakes the reader, which is not to wait any more.
    pub(crate) fn dismiss(&self) {
        self.dismissed.store(1, SeqCst);
        self.told.fetch_add(1, SeqCst);
        self.told.wake_one();
    }

    /// Whether the reader was dismissed.
    pub(crate) fn is_dismissed(&self) -> bool {
        self.dismissed.load(SeqCst) != 0
    }
}
