//! The early causes: those that the state before the block and the batch before a position show.
ghost use Rattle.std.specs.Prelude.{◌≡◌, ◌||◌, ◌++◌, true, IfOk, OnOk, map, not, option_to_list};
ghost use Rattle.std.specs.List.{IsDistinct, enumerate_from};
ghost use Rattle.std.specs.List.Sorted.{IsStrictlySortedBy};
ghost use Rattle.sol_base.specs.declared.key.Hash32.{Hash32 as HashValue};
ghost use Rattle.sol_base.specs.Keys.{hash_cmp, same_hash};
ghost use Rattle.status_cache.specs.Recent.{has_name};
ghost use Rattle.admission.specs.Admission.{is_name};
ghost use Rattle.admission.specs.Weighing.{causes_among, is_among, is_repeated, name_of, names_of, sifted_when, standing_among};

use crate::candidate::Candidate;
use crate::refusal::Refusal;
use crate::weighing::Weighed;
use sol_base::{Hash32, Items, OutOfMemory};
use std::alloc::Global;
use std::collections::BTreeSet;

/// A batch by its early causes.
#[derive(Drop)]
pub(crate) struct Sifted {
    /// The transactions that have none, by their positions.
    pub standing: Vec<Candidate>,
    /// The early cause of each position that has one.
    pub causes: Vec<Option<Refusal>>,
}

/// Parts a batch by its early causes.
pub(crate) fn sift(alloc: Global, batch: Items<Weighed>) -> Result<Sifted, OutOfMemory>
    ensures standing { IfOk result (λ s. s.standing.items ≡ standing_among batch) }
    ensures causes { IfOk result (λ s. s.causes.items ≡ causes_among batch) }
{
    let repeats = repeats(alloc, batch.as_slice())?;
    let mut standing = Vec::with_capacity(alloc, batch.len())?;
    let mut causes = Vec::with_capacity(alloc, batch.len())?;
    for one in batch.into_vec() {
        match sift_one(one, repeats[causes.len()]) {
            Ok(candidate) => {
                standing.push(candidate)?;
                causes.push(None)?;
            }
            Err(cause) => causes.push(Some(cause))?,
        }
    }
    Ok(Sifted { standing, causes })
}

/// The transaction or its first early cause, told whether its message is before it.
fn sift_one(one: Weighed, is_repeated: bool) -> Result<Candidate, Refusal>
    ensures { result ≡ sifted_when is_repeated one }
{
    match one {
        Weighed::Refused(cause) => Err(cause),
        Weighed::NoBudget { name: _, fault } => {
            if is_repeated {
                return Err(Refusal::RepeatedInBatch);
            }
            Err(Refusal::Budget(fault))
        }
        Weighed::Ready(candidate) => {
            if is_repeated {
                return Err(Refusal::RepeatedInBatch);
            }
            Ok(candidate)
        }
    }
}

/// Whether the message of each position occurs before it.
fn repeats(alloc: Global, batch: &[Weighed]) -> Result<Vec<bool>, OutOfMemory>
    ensures { IfOk result (λ repeats.
        repeats.items ≡ map (is_repeated batch.now) (enumerate_from 0 batch.now)) }
{
    if are_distinct(names_in(alloc, batch)?) {
        return Ok(vec![in alloc; false; batch.len()]?);
    }
    find_repeats(alloc, batch)
}

/// Whether the message of each position occurs before it, where some message may occur twice.
fn find_repeats(alloc: Global, batch: &[Weighed]) -> Result<Vec<bool>, OutOfMemory>
    ensures { IfOk result (λ repeats.
        repeats.items ≡ map (is_repeated batch.now) (enumerate_from 0 batch.now)) }
{
    let mut names = BTreeSet::new(alloc);
    let mut repeats = Vec::with_capacity(alloc, batch.len())?;
    for one in batch {
        let is_repeated = repeats_one(&mut names, one)?;
        repeats.push(is_repeated)?;
    }
    Ok(repeats)
}

/// The name of a message that none of the first causes refuses.
fn name_of(one: &Weighed) -> Option<Hash32>
    ensures { result ≡ name_of one.now }
{
    match one {
        Weighed::Refused(_) => None,
        Weighed::NoBudget { name, fault: _ } => Some(*name),
        Weighed::Ready(candidate) => Some(candidate.chosen().name),
    }
}

/// Adds a name, if there is one.
pub(crate) fn push_name(names: &mut Vec<Hash32>, name: Option<Hash32>) -> Result<(), OutOfMemory>
    ensures { OnOk result (names.new.items ≡ names.old.items ++ option_to_list name) }
{
    match name {
        None => Ok(()),
        Some(name) => Ok(names.push(name)?),
    }
}

/// The names in a batch.
fn names_in(alloc: Global, batch: &[Weighed]) -> Result<Vec<Hash32>, OutOfMemory>
    ensures { IfOk result (λ names. names.items ≡ names_of batch.now) }
{
    let mut names = Vec::with_capacity(alloc, batch.len())?;
    for one in batch {
        push_name(&mut names, name_of(one))?;
    }
    Ok(names)
}

/// Whether no name occurs twice.
fn are_distinct(mut names: Vec<Hash32>) -> bool
    ensures { result ≡ true → IsDistinct same_hash names.items }
{
    names.sort_unstable();
    ascend(&names)
}

/// Whether each name is above the one before.
fn ascend(names: &[Hash32]) -> bool
    ensures { result ≡ true → IsStrictlySortedBy hash_cmp names.now }
{
    for at in 1..names.len() {
        if !names[at - 1].cmp(&names[at]).is_lt() {
            return false;
        }
    }
    true
}

/// Whether the name of a message is there. It is added, if the message has one.
fn repeats_one(names: &mut BTreeSet<Hash32>, one: &Weighed) -> Result<bool, OutOfMemory>
    ensures repeated { IfOk result (λ repeated.
        repeated ≡ is_among (has_name names.old) (name_of one.now)) }
    ensures names { OnOk result ((other : HashValue) →
        has_name names.new other ≡ (has_name names.old other || is_name (name_of one.now) other)) }
{
    match name_of(one) {
        None => Ok(false),
        Some(name) => Ok(!add_name(names, name)?),
    }
}

/// Adds a name. True where it was not there.
fn add_name(names: &mut BTreeSet<Hash32>, name: Hash32) -> Result<bool, OutOfMemory>
    ensures added { IfOk result (λ added. added ≡ not (has_name names.old name)) }
    ensures names { OnOk result ((other : HashValue) →
        has_name names.new other ≡ (has_name names.old other || same_hash name other)) }
{
    Ok(names.insert(name)?)
}
