//! What the state before a block says of each wire alone.
ghost use Rattle.std.specs.Prelude.{◌≡◌, ◌+◌, ◌<◌, ◌^◌, All, IfOk, length};
ghost use Rattle.admission.specs.Admission.{IsSound, start_of};
ghost use Rattle.std.specs.List.{filter_map};
ghost use Rattle.admission.specs.Weighing.{IsTold, is_noted, name_in, weighed, weighed_from};

use crate::candidate::Candidate;
use crate::refusal::Refusal;
use crate::sift::push_name;
use crate::standing::{stands, with_budget};
use account_store::Accounts;
use fee_rules::BudgetFault;
use message_codec::Parsed;
use sol_base::{Hash32, Items, Limits, OutOfMemory};
use status_cache::Recent;
use std::alloc::Global;
use std::collections::BTreeSet;

/// What the state before a block says of a wire, whatever the wires beside it are.
#[derive(Drop)]
pub(crate) enum Weighed {
    /// One of the causes that come before `RepeatedInBatch`.
    Refused(Refusal),
    /// None of them, but its message has no budget. It repeats others and is repeated by others.
    NoBudget { name: Hash32, fault: BudgetFault },
    /// No cause.
    Ready(Candidate),
}

/// The state before a block.
#[derive(Clone, Copy)]
pub(crate) struct Before<'a> {
    pub(crate) recent: &'a Recent,
    pub(crate) accounts: &'a Accounts,
    pub(crate) limits: &'a Limits,
}

/// Weighs the wire at a position of a batch, told whether its message was processed.
pub(crate) fn weigh_told(
    alloc: Global,
    before: Before<'_>,
    position: u32,
    wire: Parsed,
    was_processed: bool,
) -> Result<Weighed, OutOfMemory>
    requires sound { IsSound wire }
    requires told { IsTold before.recent.now wire was_processed }
    ensures { IfOk result (λ found. found ≡ weighed (start_of before.entry.recent.now
        before.entry.accounts.now before.entry.limits.now) position wire) }
{
    let (tx, name) = match wire {
        Parsed::Bad(fault) => return Ok(Weighed::Refused(Refusal::Wire(fault))),
        Parsed::Good { tx, name } => (tx, name),
    };
    let Before {
        recent,
        accounts,
        limits,
    } = before;
    match stands(alloc, recent, accounts, limits, &tx, was_processed)? {
        Ok(loaded) => with_budget(alloc, position, tx, name, loaded),
        Err(cause) => Ok(Weighed::Refused(cause)),
    }
}

/// Weighs wires that stand one after the other in a batch, the first at the position `first`.
pub(crate) fn weigh_from(
    alloc: Global,
    recent: &Recent,
    accounts: &Accounts,
    limits: &Limits,
    first: u32,
    wires: Items<Parsed>,
) -> Result<Items<Weighed>, OutOfMemory>
    requires few { first + length wires < 2 ^ 32 }
    requires sound { All IsSound wires }
    ensures { IfOk result (λ found.
        found ≡ weighed_from (start_of recent.now accounts.now limits.now) first wires) }
{
    let processed = processed_in(alloc, recent, wires.as_slice())?;
    let before = Before {
        recent,
        accounts,
        limits,
    };
    let mut found = Items::with_capacity(alloc, wires.len())?;
    let mut position = first;
    for wire in wires.into_vec() {
        let was_processed = is_noted(&processed, &wire);
        found.push(weigh_told(alloc, before, position, wire, was_processed)?)?;
        position += 1;
    }
    Ok(found)
}

/// The name of the message of a wire, if it has one.
fn name_in(wire: &Parsed) -> Option<Hash32>
    ensures { result ≡ name_in wire.now }
{
    match wire {
        Parsed::Bad(_) => None,
        Parsed::Good { tx: _, name } => Some(*name),
    }
}

/// The names of the messages of wires.
fn names_in(alloc: Global, wires: &[Parsed]) -> Result<Vec<Hash32>, OutOfMemory>
    ensures { IfOk result (λ names. names.items ≡ filter_map name_in wires.now) }
{
    let mut names = Vec::with_capacity(alloc, wires.len())?;
    for wire in wires {
        push_name(&mut names, name_in(wire))?;
    }
    Ok(names)
}

/// Those messages of wires that a block has processed.
pub(crate) fn processed_in(
    alloc: Global,
    recent: &Recent,
    wires: &[Parsed],
) -> Result<BTreeSet<Hash32>, OutOfMemory>
    ensures { IfOk result (λ noted.
        All (λ wire. IsTold recent.now wire (is_noted noted wire)) wires.now) }
{
    let names = names_in(alloc, wires)?;
    recent.processed_among(alloc, &names)
}

/// Whether the message of a wire is among those that are noted.
pub(crate) fn is_noted(noted: &BTreeSet<Hash32>, wire: &Parsed) -> bool
    ensures { result ≡ is_noted noted.now wire.now }
{
    match wire {
        Parsed::Bad(_) => false,
        Parsed::Good { tx: _, name } => noted.contains(name),
    }
}
