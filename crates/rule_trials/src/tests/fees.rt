//! Fees and priorities of messages.
use fee_rules::{Budget, Fee, fee, priority, split_fees, total};
use message_codec::{Header, Message, MessageKind};
use sol_base::{Hash32, Items, Key, OutOfMemory};
use std::alloc::Global;
use std::test::Fail;

/// A message with so many signatures and no instruction.
fn message(alloc: Global, required: u8) -> Result<Message, OutOfMemory> {
    let mut keys = Items::new(alloc);
    keys.push(Key([1; 32]))?;
    Ok(Message {
        kind: MessageKind::Legacy,
        header: Header {
            required,
            readonly_signed: 0,
            readonly_unsigned: 0,
        },
        keys,
        blockhash: Hash32([0; 32]),
        instructions: Items::new(alloc),
        lookups: Items::new(alloc),
    })
}

/// Signatures, price and limit, and the two parts of the fee and the priority.
type Paid = (u8, u64, u32, u64, u64, Option<u128>);

const FEES: [Paid; 7] = [
    (1, 0, 200_000, 5_000, 0, Some(12_499)),
    (1, 1_000_000, 450, 5_000, 450, Some(6_541_019)),
    (1, 10_000, 1_400_000, 5_000, 14_000, Some(11_785)),
    (1, 0, 400_000, 5_000, 0, Some(6_249)),
    (2, 0, 800_000, 10_000, 0, Some(6_249)),
    (1, 5_000_000, 200_000, 5_000, 1_000_000, None),
    (
        1,
        u64::MAX,
        1_400_000,
        5_000,
        18_446_744_073_709_546_615,
        None,
    ),
];

fn budget(limit: u32, price: u64) -> Budget {
    Budget {
        limit,
        price,
        heap: 32_768,
        loaded: 67_108_864,
    }
}

/// Whether the fee has these parts and this sum.
fn has_parts(paid: &Fee, base: u64, units: u64) -> bool {
    paid.base == base && paid.priority == units && total(paid) - base == units
}

/// Whether the rank is this one, where one is given.
fn has_rank(paid: &Fee, budget: &Budget, rank: &Option<u128>) -> bool {
    match rank {
        Some(rank) => priority(paid, budget) == *rank,
        None => true,
    }
}

/// Whether a message of a row pays and ranks so.
fn pays(alloc: Global, row: &Paid) -> Result<bool, OutOfMemory> {
    let message = message(alloc, row.0)?;
    let budget = budget(row.2, row.1);
    let paid = fee(&message, &budget);
    Ok(has_parts(&paid, row.3, row.4) && has_rank(&paid, &budget, &row.5))
}

#[test]
fn fees(rt: HostRuntime) -> Result<(), Fail> {
    for row in &FEES {
        assert!(rt; pays(rt.alloc(), row)?);
    }
    Ok(())
}

#[test]
fn half_of_the_base_fees_is_burned(rt: HostRuntime) {
    let split = split_fees(15_000, 450);
    assert!(rt; split.burned == 7_500 && split.rest == 7_950);
}
