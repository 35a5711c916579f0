//! Admission of a wire that was read before, and of wires in their own order.
ghost use Rattle.std.specs.Prelude.{◌≤◌, length};

use crate::tests::pieces::joined;
use account_store::Accounts;
use admission::{Admitted, Chosen, admit_listed, admit_parsed};
use message_codec::parse;
use sol_base::{Blob, COMPUTE_BUDGET_PROGRAM, Hash32, Items, Limits, OutOfMemory, SYSTEM_PROGRAM};
use status_cache::{Mark, Recent};
use std::alloc::Global;
use std::test::Fail;

/// The hash of the one block that the chain has.
const BLOCKHASH: Hash32 = Hash32([0xaa; 32]);

const LIMITS: Limits = Limits {
    keys: 64,
    height: 5,
    key_units: 12_000_000,
    block_units: 48_000_000,
};

/// How many instructions a message has, and the bytes of those before its transfer.
type Budget = (u8, &'static [u8]);

const PLAIN: Budget = (1, &[]);

/// A limit of 450 units and a price of 1,000,000.
const PRICED: Budget = (
    3,
    &[
        3, 0, 5, 2, 0xc2, 1, 0, 0, 3, 0, 9, 3, 0x40, 0x42, 0x0f, 0, 0, 0, 0, 0,
    ],
);

/// A transfer of one lamport.
fn transfer(alloc: Global, payer: u8, (count, first): Budget) -> Result<Blob, OutOfMemory> {
    joined(
        alloc,
        &[
            &[1],
            &[0; 64],
            &[1, 0, 2, 4],
            &[payer; 32],
            &[0x12; 32],
            &SYSTEM_PROGRAM.0,
            &COMPUTE_BUDGET_PROGRAM.0,
            &BLOCKHASH.0,
            &[count],
            first,
            &[2, 2, 0, 1, 12, 2, 0, 0, 0, 1, 0, 0, 0, 0, 0, 0, 0],
        ],
    )
}

/// A chain whose one block processed no message.
fn chain(alloc: Global) -> Result<Recent, OutOfMemory> {
    let mut recent = Recent::new(alloc);
    recent.advance(Mark {
        hash: BLOCKHASH,
        messages: Items::new(alloc),
    })?;
    Ok(recent)
}

/// The answer for one wire, which was read before.
fn admit_one(alloc: Global, wire: Blob) -> Result<Admitted, OutOfMemory> {
    let recent = chain(alloc)?;
    let parsed = Items::from_vec(Vec::from_array(alloc, [parse(alloc, wire.as_slice())?])?);
    let wires = Items::from_vec(Vec::from_array(alloc, [wire])?);
    admit_parsed(
        alloc,
        &wires,
        parsed,
        &recent,
        &Accounts::new(alloc),
        &LIMITS,
    )
}

/// The answer for two wires, the second of the higher priority, in their own order.
fn list_two(alloc: Global) -> Result<Admitted, OutOfMemory> {
    let recent = chain(alloc)?;
    let pair = [transfer(alloc, 1, PLAIN)?, transfer(alloc, 2, PRICED)?];
    let wires = Items::from_vec(Vec::from_array(alloc, pair)?);
    admit_listed(alloc, &wires, &recent, &Accounts::new(alloc), &LIMITS)
}

/// Whether these positions run, in this order, and no other is refused.
fn runs(answer: &Admitted, positions: &[u32]) -> bool {
    let order: &[Chosen] = answer.order.as_slice();
    order.len() == positions.len()
        && order
            .iter()
            .zip(positions)
            .all(|(one, position)| one.position == *position)
        && answer.refused.as_slice().is_empty()
}

#[test]
fn a_wire_that_was_read_before_is_admitted(rt: HostRuntime) -> Result<(), Fail> {
    let wire = transfer(rt.alloc(), 1, PLAIN)?;
    assert!(rt; runs(&admit_one(rt.alloc(), wire)?, &[0]));
    Ok(())
}

#[test]
fn listed_wires_run_in_their_own_order(rt: HostRuntime) -> Result<(), Fail> {
    assert!(rt; runs(&list_two(rt.alloc())?, &[0, 1]));
    Ok(())
}
