//! What is left of a core at its end.
ghost use Rattle.std.specs.Prelude.{◌≡◌, IfOk};
ghost use Rattle.bank_core.specs.Ends.{HasSerialAccounts, state_at_end};
ghost use Rattle.bank_core.specs.Keeping.{AreEnds};
ghost use Rattle.bank_core.specs.Propositions.{AreEnds-prop};

use crate::finish::held_of;
use crate::origin::Origin;
use crate::work::Work;
use account_store::Accounts;
use lock_table::KeyTable;
use proof_note::Note;
use sol_base::{Account, OutOfMemory};
use std::alloc::Global;
use std::sync::Arc;

/// What is left of a core whose positions are all done, but for the outcomes. The accounts of its
/// keys are apart from the others yet.
pub struct Ended<W: Work> {
    pub(crate) origin: Note<Origin<W::Told>>,
    pub(crate) table: KeyTable,
    pub(crate) slots: Vec<Option<Arc<Account>>>,
    pub(crate) rest: Accounts,
    pub(crate) alloc: Global,
    ghost ends: { AreEnds (W.job origin.value.told) origin.value.start rest table
        slots.items } by { AreEnds-prop _ _ _ _ _ },
}

impl<W: Work> Drop for Ended<W> {
    fn drop(self) {
        let Ended {
            origin: _,
            table: _,
            slots: _,
            rest: _,
            alloc: _,
        } = self;
    }
}

impl<W: Work> Ended<W> {
    /// All accounts together.
    pub fn joined(self) -> Result<Accounts, OutOfMemory>
        ensures accounts { IfOk result
            (λ accounts. HasSerialAccounts W.job self.origin.value accounts) }
        ensures state { IfOk result (λ accounts.
            accounts ≡ state_at_end W.job self.origin.value) }
    {
        let Ended {
            origin: _,
            table,
            slots,
            rest,
            alloc,
        } = self;
        let held = held_of(alloc, &table, slots)?;
        rest.put_in(alloc, held)
    }
}
