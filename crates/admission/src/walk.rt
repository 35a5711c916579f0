//! The late causes: those that the transactions before in the line show.
ghost use Rattle.std.specs.Prelude.{◌≡◌, ◌<◌, ◌^◌, All, IfOk, OnOk, length};
ghost use Rattle.std.specs.List.{IsDistinct};
ghost use Rattle.sol_base.specs.Keys.{same_key};
ghost use Rattle.sol_base.specs.Locks.{lock_keys};
ghost use Rattle.admission.specs.Admission.{walk};
ghost use Rattle.admission.specs.Sums.{numbered_in, with_late};

use crate::candidate::Candidate;
use crate::refusal::{Refusal, Refused};
use crate::units::Order;
use sol_base::{Items, Limits, OutOfMemory};
use std::alloc::Global;

/// Walks a line: the transactions that run, in their order. The others get their late causes.
pub(crate) fn walk(
    alloc: Global,
    limits: &Limits,
    line: Vec<Candidate>,
    causes: &mut Vec<Option<Refusal>>,
) -> Result<Vec<Candidate>, OutOfMemory>
    requires places { All (λ one. one.position < length causes.old.items) line.items }
    requires apart { All (λ one. IsDistinct same_key (lock_keys one.locks)) line.items }
    ensures order { IfOk result (λ order. order.items ≡ (walk limits.now line.items).order) }
    ensures causes { OnOk result (causes.new.items
        ≡ with_late (walk limits.now line.items).refused causes.old.items) }
{
    let mut order = Order::new(alloc, line.len())?;
    for one in line {
        match order.late(limits, one.chosen())? {
            Some(cause) => causes[one.chosen().position as usize] = Some(cause),
            None => order.push(one)?,
        }
    }
    Ok(order.into_candidates())
}

/// The positions that have a cause, ascending.
pub(crate) fn numbered(
    alloc: Global,
    causes: &[Option<Refusal>],
) -> Result<Items<Refused>, OutOfMemory>
    requires { length causes.now < 2 ^ 32 }
    ensures { IfOk result (λ refused. refused ≡ numbered_in causes.now) }
{
    let mut refused = Items::new(alloc);
    for (position, cause) in causes.iter().enumerate() {
        if let Some(cause) = *cause {
            let position = position as u32;
            refused.push(Refused { position, cause })?;
        }
    }
    Ok(refused)
}
