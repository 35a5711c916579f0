//! Transactions that may run, as pointers.
ghost use Rattle.std.specs.Prelude.{◌≡◌, IfOk};

use crate::chosen::Chosen;
use sol_base::OutOfMemory;
use std::alloc::Global;
use std::marker::Model;

/// A transaction that may run. It is large, and moves from list to list as a pointer: from where it
/// is weighed to the end of its block. It is seen as the transaction itself.
#[derive(Drop)]
pub struct Candidate {
    chosen: Box<Chosen>,
}

impl Model for Candidate {
    ghost use Rattle.admission.specs.declared.chosen.Chosen.{Chosen};

    ghost Value = { Chosen };

    ghost view = { λ c. c.chosen.value };
}

impl Candidate {
    pub fn new(alloc: Global, chosen: Chosen) -> Result<Candidate, OutOfMemory>
        ensures { IfOk result (λ candidate. candidate ≡ chosen) }
    {
        Ok(Candidate {
            chosen: Box::new(alloc, chosen)?,
        })
    }

    /// The transaction.
    pub fn chosen(&self) -> &Chosen
        ensures { result.now ≡ self.now }
    {
        &self.chosen
    }

    /// The transaction, which runs.
    pub fn into_chosen(self) -> Chosen
        ensures { result ≡ self }
    {
        let Candidate { chosen } = self;
        Box::into_inner(chosen)
    }
}
