//! The units of the transactions that run so far.
ghost use Rattle.std.specs.Prelude.{◌≡◌, ◌+◌, ◌-◌, ◌<◌, ◌≤◌, ◌^◌, ◌++◌, ◌∷◌, [], ◌&&◌, All, List, OnOk, IfNone, IfOk, IfSome, length, min, if◌then◌else◌};
ghost use Rattle.std.specs.Bool.{OnFalse};
ghost use Rattle.std.specs.List.{IsDistinct, list_any};
ghost use Rattle.sol_base.specs.declared.key.Key.{Key as KeyValue};
ghost use Rattle.sol_base.specs.Keys.{same_key};
ghost use Rattle.sol_base.specs.Locks.{lock_keys};
ghost use Rattle.admission.specs.Admission.{late, locks_write, units_of, units_on};
ghost use Rattle.admission.specs.Sums.{AreSums, bucket_of, bucket_sum, passes, sum_at};
ghost use Rattle.admission.specs.declared.chosen.Chosen.{Chosen as ChosenValue};

use crate::candidate::Candidate;
use crate::chosen::Chosen;
use crate::refusal::Refusal;
use sol_base::{Key, Limits, Lock, OutOfMemory};
use std::alloc::Global;
use std::collections::BTreeMap;
use std::marker::Model;

/// The transactions that run so far, with the sums of their units: of all, and of those that may
/// write a key. Keys share buckets, and while the sum of a bucket does not pass the limit of a key,
/// no sum of its keys does. Where one does, the sums of all keys are told apart, by the order of the
/// keys, so no choice of keys makes that slow.
#[derive(Drop)]
pub(crate) struct Order {
    alloc: Global,
    chosen: Vec<Candidate>,
    units: u64,
    buckets: Vec<u64>,
    /// The sums of the keys, once they are told apart.
    key_units: Option<BTreeMap<Key, u64>>,
}

impl Model for Order {
    ghost use Rattle.std.specs.Prelude.{List};
    ghost use Rattle.admission.specs.declared.chosen.Chosen.{Chosen};
    ghost use Rattle.admission.specs.Sums.{HasSums};

    ghost Value = { List Chosen };

    ghost view = { λ o. o.chosen.items };

    ghost invariant = { λ o. HasSums o.chosen.items o.units o.buckets.items o.key_units };
}

impl Order {
    /// No transaction, with room for so many.
    pub(crate) fn new(alloc: Global, count: usize) -> Result<Order, OutOfMemory>
        ensures { IfOk result (λ order. order ≡ []) }
    {
        let bucket_count = count.saturating_mul(2).max(1);
        Ok(Order {
            alloc,
            chosen: Vec::with_capacity(alloc, count)?,
            units: 0,
            buckets: Vec::from_elem(alloc, 0, bucket_count)?,
            key_units: None,
        })
    }

    /// The transactions.
    pub(crate) fn into_candidates(self) -> Vec<Candidate>
        ensures { result.items ≡ self }
    {
        let Order {
            alloc: _,
            chosen,
            units: _,
            buckets: _,
            key_units: _,
        } = self;
        chosen
    }

    /// Why a transaction does not run behind these.
    pub(crate) fn late(
        &mut self,
        limits: &Limits,
        one: &Chosen,
    ) -> Result<Option<Refusal>, OutOfMemory>
        ensures same { self.new ≡ self.old }
        ensures exact { IfOk result (λ found. found ≡ late limits.now self.old one.now) }
        ensures fits { IfOk result (λ found.
            IfNone found (units_of self.old + one.now.budget.limit < 2 ^ 64)) }
    {
        let limit = one.budget.limit;
        let locks = one.locks.as_slice();
        if passes(self.units, limit, limits.block_units) {
            return Ok(Some(Refusal::BlockUnits));
        }
        if !passes_in_a_bucket(self.buckets.as_slice(), locks, limit, limits.key_units) {
            return Ok(None);
        }
        let sums = told_apart(self.alloc, self.key_units.take(), self.chosen.as_slice())?;
        let is_late = passes_key_units(&sums, locks, limit, limits.key_units);
        self.key_units = Some(sums);
        if is_late {
            return Ok(Some(Refusal::KeyUnits));
        }
        Ok(None)
    }

    /// Adds one more, which none of the limits refuses.
    pub(crate) fn push(&mut self, one: Candidate) -> Result<(), OutOfMemory>
        requires fits { units_of self.old + one.budget.limit < 2 ^ 64 }
        requires apart { IsDistinct same_key (lock_keys one.locks) }
        ensures { OnOk result (self.new ≡ self.old ++ one ∷ []) }
    {
        self.chosen.reserve(1)?;
        let chosen = one.chosen();
        let limit = u64::from(chosen.budget.limit);
        self.key_units = sums_with(self.key_units.take(), chosen)?;
        add_to_buckets(self.buckets.as_mut_slice(), chosen.locks.as_slice(), limit);
        self.chosen.push_reserved(one);
        self.units += limit;
        Ok(())
    }
}

/// Whether a limit brings a sum above the most that is allowed.
fn passes(sum: u64, limit: u32, most: u64) -> bool
    ensures exact { result ≡ passes sum limit most }
    ensures fits { OnFalse result (sum + limit < 2 ^ 64) }
{
    u128::from(sum) + u128::from(limit) > u128::from(most)
}

/// The bucket of a key, of so many.
#[tactic(auto, using(crate::proofs::SumLaws::in_buckets), unfolding(crate::specs::Sums::bucket_of))]
fn bucket_of(key: &Key, count: usize) -> usize
    ensures exact { result ≡ bucket_of count key.now }
    ensures inside { 0 < count → result < count }
{
    let bytes = &key.0;
    let number = usize::from(bytes[0])
        + 256 * usize::from(bytes[1])
        + 65_536 * usize::from(bytes[2]);
    number % count.max(1)
}

/// The sum of a key's bucket.
fn bucket_sum(buckets: &[u64], key: &Key) -> u64
    ensures { result ≡ bucket_sum buckets.now key.now }
{
    let bucket = bucket_of(key, buckets.len());
    if bucket < buckets.len() {
        buckets[bucket]
    } else {
        0
    }
}

/// Whether a limit brings the sum of the bucket of a key that is locked to be written above the
/// most.
fn passes_in_a_bucket(buckets: &[u64], locks: &[Lock], limit: u32, most: u64) -> bool
    ensures { result
        ≡ list_any (λ lock. lock.write && passes (bucket_sum buckets.now lock.key) limit most)
        locks.now }
{
    locks.iter().any(|lock| lock.write && passes(bucket_sum(buckets, &lock.key), limit, most))
}

/// Adds the limit to the bucket of each key that is locked to be written, up to what a sum can be.
fn add_to_buckets(buckets: &mut [u64], locks: &[Lock], limit: u64)
    requires some { 0 < length buckets.old }
    ensures { (key : KeyValue) →
        min (2 ^ 64 - 1)
        (bucket_sum buckets.old key + (if locks_write locks.now key then limit else 0))
        ≤ bucket_sum buckets.new key }
{
    for lock in locks {
        if lock.write {
            let bucket = bucket_of(&lock.key, buckets.len());
            buckets[bucket] = buckets[bucket].saturating_add(limit);
        }
    }
}

/// Whether a limit brings the sum of a key that is locked to be written above the most.
fn passes_key_units(sums: &BTreeMap<Key, u64>, locks: &[Lock], limit: u32, most: u64) -> bool
    ensures { result
        ≡ list_any (λ lock. lock.write && passes (sum_at sums.now lock.key) limit most) locks.now }
{
    locks.iter().any(|lock| lock.write && passes(sum_at(sums, &lock.key), limit, most))
}

/// The sum of a key, and 0 where it has none.
fn sum_at(sums: &BTreeMap<Key, u64>, key: &Key) -> u64
    ensures { result ≡ sum_at sums.now key.now }
{
    sums.get(key).copied().unwrap_or(0)
}

/// Adds the limit to the sum of each key that is locked to be written.
fn add_units(sums: &mut BTreeMap<Key, u64>, locks: &[Lock], limit: u64) -> Result<(), OutOfMemory>
    requires apart { IsDistinct same_key (lock_keys locks.now) }
    requires fits { (key : KeyValue) → sum_at sums.old key + limit < 2 ^ 64 }
    ensures { OnOk result ((key : KeyValue) →
        sum_at sums.new key ≡ sum_at sums.old key + (if locks_write locks.now key then limit
        else 0)) }
{
    for lock in locks {
        if lock.write {
            *sums.entry(lock.key)?.or_insert(0) += limit;
        }
    }
    Ok(())
}

/// The sums of the keys with one transaction more, where they are told apart.
fn sums_with(
    sums: Option<BTreeMap<Key, u64>>,
    one: &Chosen,
) -> Result<Option<BTreeMap<Key, u64>>, OutOfMemory>
    requires apart { IsDistinct same_key (lock_keys one.now.locks) }
    requires fits { IfSome sums (λ sums.
        (key : KeyValue) → sum_at sums key + one.now.budget.limit < 2 ^ 64) }
    ensures { IfOk result (λ next. (order : List ChosenValue) → AreSums order sums →
        AreSums (order ++ one.now ∷ []) next) }
{
    let Some(mut sums) = sums else {
        return Ok(None);
    };
    add_units(&mut sums, one.locks.as_slice(), u64::from(one.budget.limit))?;
    Ok(Some(sums))
}

/// The sums of the keys that transactions may write, if they are not told apart before.
fn told_apart(
    alloc: Global,
    sums: Option<BTreeMap<Key, u64>>,
    order: &[Candidate],
) -> Result<BTreeMap<Key, u64>, OutOfMemory>
    requires fits { units_of order.now < 2 ^ 64 }
    requires apart { All (λ one. IsDistinct same_key (lock_keys one.locks)) order.now }
    requires sums { AreSums order.now sums }
    ensures { IfOk result (λ sums. (key : KeyValue) → sum_at sums key ≡ units_on key order.now) }
{
    match sums {
        Some(sums) => Ok(sums),
        None => sums_of(alloc, order),
    }
}

/// The sums of the keys that transactions may write.
fn sums_of(alloc: Global, order: &[Candidate]) -> Result<BTreeMap<Key, u64>, OutOfMemory>
    requires fits { units_of order.now < 2 ^ 64 }
    requires apart { All (λ one. IsDistinct same_key (lock_keys one.locks)) order.now }
    ensures { IfOk result (λ sums. (key : KeyValue) → sum_at sums key ≡ units_on key order.now) }
{
    let mut sums = BTreeMap::new(alloc);
    for one in order {
        let chosen = one.chosen();
        add_units(
            &mut sums,
            chosen.locks.as_slice(),
            u64::from(chosen.budget.limit),
        )?;
    }
    Ok(sums)
}
