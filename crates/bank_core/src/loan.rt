//! Loans: the values of a position, lent to a lane.
ghost use Rattle.std.specs.Prelude.{◌≡◌, ◌<◌, ◌≤◌, ℕ, map, length, vec_len, vec_capacity};
ghost use Rattle.std.proofs.Props.{props};
ghost use Rattle.bank_law.specs.Job.{keys};
ghost use Rattle.bank_law.specs.Serial.{serial};
ghost use Rattle.bank_law.specs.Lawful.{Fits};
ghost use Rattle.bank_law.proofs.Props.{Fits-prop};
ghost use Rattle.account_store.specs.State.{at};
ghost use Rattle.sol_base.specs.Accounts.{accounts_of};

use crate::origin::Origin;
use crate::work::Work;
use proof_note::Note;
use sol_base::Account;
use std::sync::Arc;

/// The values of a position, lent to a lane. It must be spent.
pub struct Loan<W: Work> {
    pub(crate) position: u32,
    pub(crate) lane: u32,
    pub(crate) values: Vec<Arc<Account>>,
    pub(crate) origin: Note<Origin<W::Told>>,
    ghost below: { position < (W.job origin.value.told).count },
    ghost lent: { accounts_of values.items
        ≡ map (serial (W.job origin.value.told) (at origin.value.start) position)
        (keys (W.job origin.value.told) position) } by { Prim.hlevel props },
    ghost fits: { Fits ((W.job origin.value.told).locks position)
        (accounts_of values.items) } by { Fits-prop _ _ },
    ghost room: { (i : ℕ) → i < (W.job origin.value.told).count
        → length ((W.job origin.value.told).locks i) ≤ vec_capacity values },
}

impl<W: Work> Loan<W> {
    /// The position.
    pub fn position(&self) -> u32
        ensures { result ≡ self.now.position }
    {
        self.position
    }

    /// The lane.
    pub fn lane(&self) -> u32
        ensures { result ≡ self.now.lane }
    {
        self.lane
    }

    /// The values, in the order of the locks.
    pub fn values(&self) -> &[Arc<Account>]
        ensures { result.now ≡ self.now.values.items }
    {
        self.values.as_slice()
    }

    /// Lets the values go, which takes as long as it takes to give their memory back.
    pub fn spend(self) -> Spent<W>
        ensures { (result.position ≡ self.position) × (result.lane ≡ self.lane)
            × (result.origin.value ≡ self.origin.value) }
    {
        let Loan {
            position,
            lane,
            mut values,
            origin,
        } = self;
        values.clear();
        Spent {
            position,
            lane,
            buffer: values,
            origin,
        }
    }
}

/// A loan whose values are let go: its position is performed, and its effects may be taken.
pub struct Spent<W: Work> {
    pub(crate) position: u32,
    pub(crate) lane: u32,
    pub(crate) buffer: Vec<Arc<Account>>,
    pub(crate) origin: Note<Origin<W::Told>>,
    ghost below: { position < (W.job origin.value.told).count },
    ghost fits: { Fits ((W.job origin.value.told).locks position)
        (map (serial (W.job origin.value.told) (at origin.value.start) position)
        (keys (W.job origin.value.told) position)) } by { Fits-prop _ _ },
    ghost empty: { vec_len buffer ≡ 0 },
    ghost room: { (i : ℕ) → i < (W.job origin.value.told).count
        → length ((W.job origin.value.told).locks i) ≤ vec_capacity buffer },
}

/// What a take returns: a loan, or how many positions are held where none is ready, or that all are
/// done.
pub enum Take<W: Work> {
    Loan(Loan<W>),
    NotNow { held: u32 },
    Finished,
    OutOfMemory,
}
