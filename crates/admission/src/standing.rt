//! The causes that the starting snapshot shows.
ghost use Rattle.std.specs.Prelude.{◌≡◌, ◌<◌, ◌≤◌, All, IfOk, length};
ghost use Rattle.sol_base.specs.declared.key.Hash32.{Hash32 as HashValue};
ghost use Rattle.message_codec.specs.Wire.{HasShortLists, IsCountable};
ghost use Rattle.fee_rules.specs.Budgets.{budget_in};
ghost use Rattle.status_cache.specs.Recent.{processed};
ghost use Rattle.admission.specs.Admission.{stands, start_of};
ghost use Rattle.admission.specs.Weighing.{with_budget};

use crate::candidate::Candidate;
use crate::chosen::Chosen;
use crate::lookups::{LookupFault, resolve};
use crate::refusal::Refusal;
use crate::weighing::Weighed;
use account_store::Accounts;
use fee_rules::{budget_of, fee};
use message_codec::{Loaded, Tx, locks, sanitize};
use sol_base::{Hash32, Limits, OutOfMemory};
use status_cache::Recent;
use std::alloc::Global;

/// The keys that a transaction loads, or the first of the causes that the starting snapshot shows:
/// `Sanitize`, `Lookup`, `UnknownBlockhash` and `AlreadyProcessed`. Whether its message was processed
/// is told.
#[tactic(auto, unfolding(crate::specs::Admission::stands))]
pub(crate) fn stands(
    alloc: Global,
    recent: &Recent,
    accounts: &Accounts,
    limits: &Limits,
    tx: &Tx,
    was_processed: bool,
) -> Result<Result<Loaded, Refusal>, OutOfMemory>
    requires { HasShortLists tx.now.message }
    ensures { (name : HashValue) → was_processed ≡ processed recent.now name →
        IfOk result (λ found.
        found ≡ stands (start_of recent.now accounts.now limits.now) tx.now name) }
{
    if let Err(fault) = sanitize(tx, limits.keys) {
        return Ok(Err(Refusal::Sanitize(fault)));
    }
    let loaded = match resolve(alloc, &tx.message, accounts) {
        Ok(loaded) => loaded,
        Err(LookupFault::OutOfMemory) => return Err(OutOfMemory),
        Err(fault) => return Ok(Err(Refusal::Lookup(fault))),
    };
    if !recent.knows_hash(&tx.message.blockhash) {
        return Ok(Err(Refusal::UnknownBlockhash));
    }
    if was_processed {
        return Ok(Err(Refusal::AlreadyProcessed));
    }
    Ok(Ok(loaded))
}

/// The transaction with all that it runs with, where it has a budget.
pub(crate) fn with_budget(
    alloc: Global,
    position: u32,
    tx: Tx,
    name: Hash32,
    loaded: Loaded,
) -> Result<Weighed, OutOfMemory>
    requires programs { All (λ i. i.program < length tx.message.keys) tx.message.instructions }
    requires most { IsCountable tx.message.instructions }
    ensures { IfOk result (λ found.
        found ≡ with_budget position tx name loaded (budget_in tx.message)) }
{
    let budget = match budget_of(&tx.message) {
        Ok(budget) => budget,
        Err(fault) => return Ok(Weighed::NoBudget { name, fault }),
    };
    let fee = fee(&tx.message, &budget);
    let locks = locks(alloc, &tx.message, &loaded)?;
    let chosen = Chosen {
        position,
        tx,
        loaded,
        name,
        budget,
        fee,
        locks,
    };
    Ok(Weighed::Ready(Candidate::new(alloc, chosen)?))
}
