//! Fees and the priority of a message.
ghost use Rattle.std.specs.Prelude.{◌≡◌, ◌+◌};
ghost use Rattle.fee_rules.specs.Fees.{fee_of, priority_of};

use crate::budget::Budget;
use crate::charge::Fee;
use message_codec::Message;

/// What each required signature costs, in lamports (Solana).
pub(crate) const LAMPORTS_PER_SIGNATURE: u64 = 5_000;

/// How many micro-lamports, in which prices are given, make a lamport (Solana).
pub(crate) const MICRO_LAMPORTS_PER_LAMPORT: u128 = 1_000_000;

/// What the message's transaction pays with that budget. A priority fee with which the sum does not
/// fit in a u64 counts as the greatest with which it does (Solana; the cut is the project's own).
#[tactic(auto, unfolding(crate::specs::Fees::fee_of))]
pub fn fee(message: &Message, budget: &Budget) -> Fee
    ensures { result ≡ fee_of message.now budget.now }
{
    let base = LAMPORTS_PER_SIGNATURE * message.header.required as u64;
    let micro_lamports = budget.price as u128 * budget.limit as u128;
    let priority = micro_lamports.div_ceil(MICRO_LAMPORTS_PER_LAMPORT);
    let most = u64::MAX - base;
    Fee {
        base,
        priority: priority.min(most as u128) as u64,
    }
}

/// Both parts together.
pub fn total(fee: &Fee) -> u64
    ensures { result ≡ fee.now.base + fee.now.priority }
{
    fee.base + fee.priority
}

/// The rank of a transaction: what the collector gets of its fee, in micro-lamports, for
/// each unit of its limit and one more (the project's own). Greater comes first.
#[tactic(auto, unfolding(crate::specs::Fees::priority_of))]
pub fn priority(fee: &Fee, budget: &Budget) -> u128
    ensures { result ≡ priority_of fee.now budget.now }
{
    let rewarded = fee.priority as u128 + (fee.base - fee.base / 2) as u128;
    rewarded * MICRO_LAMPORTS_PER_LAMPORT / (budget.limit as u128 + 1)
}
