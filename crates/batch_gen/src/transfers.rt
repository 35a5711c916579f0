//! Transfers between two users, as transactions and as bytes.
ghost use Rattle.std.specs.Prelude.{◌≡◌, ◌≤◌, ◌+◌, ◌-◌, ◌%◌, ◌∷◌, [], ◌++◌, IfOk, ◌<◌, ◌^◌};
ghost use Rattle.message_codec.specs.Wire.{tx_bytes};
ghost use Rattle.batch_gen.specs.declared.start.TheConstants.{USERS};
ghost use Rattle.batch_gen.specs.declared.transfers.TheConstants.{PRICES};
ghost use Rattle.batch_gen.specs.Generator.{state_after, draw, unit_limit, unit_price, payment, transfer as transfer_of, drawn_transfer};

use crate::draws::Draws;
use crate::start::{START_HASH, USERS, user_key};
use message_codec::{Header, Instruction, Message, MessageKind, Signature, Tx, write_wire};
use sol_base::{Blob, COMPUTE_BUDGET_PROGRAM, Items, Key, OutOfMemory, SYSTEM_PROGRAM};
use std::alloc::Global;

/// The compute units that a transfer may take.
const UNIT_LIMIT: u32 = 1_000;

/// What prices stay below, in micro-lamports.
pub(crate) const PRICES: u64 = 1_000_000;

/// The place of the system program among the keys.
const SYSTEM_PLACE: u8 = 2;

/// The place of the compute budget program among the keys.
const BUDGET_PLACE: u8 = 3;

/// The tag of a limit of compute units (Solana).
const UNIT_LIMIT_TAG: u8 = 2;

/// The tag of a price of compute units (Solana).
const UNIT_PRICE_TAG: u8 = 3;

/// The tag of a transfer (Solana).
const TRANSFER_TAG: u32 = 2;

/// A tag and a number.
fn tagged(alloc: Global, tag: &[u8], number: &[u8]) -> Result<Blob, OutOfMemory>
    ensures { IfOk result (λ bytes. bytes ≡ tag.now ++ number.now) }
{
    let mut bytes = Blob::new(alloc);
    bytes.append(tag)?;
    bytes.append(number)?;
    Ok(bytes)
}

/// The instruction that limits the compute units.
fn limit_instruction(alloc: Global) -> Result<Instruction, OutOfMemory>
    ensures { IfOk result (λ instruction. instruction ≡ unit_limit) }
{
    Ok(Instruction {
        program: BUDGET_PLACE,
        accounts: Blob::new(alloc),
        input: tagged(alloc, &[UNIT_LIMIT_TAG], &UNIT_LIMIT.to_le_bytes())?,
    })
}

/// The instruction that sets the price of a compute unit.
fn price_instruction(alloc: Global, price: u64) -> Result<Instruction, OutOfMemory>
    ensures { IfOk result (λ instruction. instruction ≡ unit_price price) }
{
    Ok(Instruction {
        program: BUDGET_PLACE,
        accounts: Blob::new(alloc),
        input: tagged(alloc, &[UNIT_PRICE_TAG], &price.to_le_bytes())?,
    })
}

/// The instruction that moves lamports from key 0 to key 1.
fn payment_instruction(alloc: Global, lamports: u64) -> Result<Instruction, OutOfMemory>
    ensures { IfOk result (λ instruction. instruction ≡ payment lamports) }
{
    Ok(Instruction {
        program: SYSTEM_PLACE,
        accounts: Blob::from_slice(alloc, &[0, 1])?,
        input: tagged(alloc, &TRANSFER_TAG.to_le_bytes(), &lamports.to_le_bytes())?,
    })
}

/// The three instructions of a transfer.
fn instructions(alloc: Global, price: u64, lamports: u64) -> Result<Items<Instruction>, OutOfMemory>
    ensures { IfOk result (λ instructions. instructions
        ≡ unit_limit ∷ unit_price price ∷ payment lamports ∷ []) }
{
    let mut instructions = Items::with_capacity(alloc, 3)?;
    instructions.push(limit_instruction(alloc)?)?;
    instructions.push(price_instruction(alloc, price)?)?;
    instructions.push(payment_instruction(alloc, lamports)?)?;
    Ok(instructions)
}

/// The keys that a transfer names, the payer first.
fn keys(alloc: Global, from: u8, to: u8) -> Result<Items<Key>, OutOfMemory>
    ensures { IfOk result (λ keys. keys ≡ (transfer_of from to 0 0).message.keys) }
{
    let mut keys = Items::with_capacity(alloc, 4)?;
    keys.push(user_key(from))?;
    keys.push(user_key(to))?;
    keys.push(SYSTEM_PROGRAM)?;
    keys.push(COMPUTE_BUDGET_PROGRAM)?;
    Ok(keys)
}

/// A signature of zeros.
fn signatures(alloc: Global) -> Result<Items<Signature>, OutOfMemory>
    ensures { IfOk result (λ signatures. signatures ≡ (transfer_of 0 0 0 0).signatures) }
{
    let mut signatures = Items::with_capacity(alloc, 1)?;
    signatures.push(Signature([0; 64]))?;
    Ok(signatures)
}

/// A transfer of lamports from one user to another, at a price in micro-lamports a compute unit.
fn transfer(alloc: Global, from: u8, to: u8, price: u64, lamports: u64) -> Result<Tx, OutOfMemory>
    ensures { IfOk result (λ tx. tx ≡ transfer_of from to price lamports) }
{
    let message = Message {
        kind: MessageKind::Legacy,
        header: Header {
            required: 1,
            readonly_signed: 0,
            readonly_unsigned: 2,
        },
        keys: keys(alloc, from, to)?,
        blockhash: START_HASH,
        instructions: instructions(alloc, price, lamports)?,
        lookups: Items::new(alloc),
    };
    Ok(Tx {
        signatures: signatures(alloc)?,
        message,
    })
}

fn transfer_wire(
    alloc: Global,
    from: u8,
    to: u8,
    price: u64,
    lamports: u64,
) -> Result<Blob, OutOfMemory>
    ensures { IfOk result (λ wire. wire ≡ tx_bytes (transfer_of from to price lamports)) }
{
    let tx = transfer(alloc, from, to, price, lamports)?;
    write_wire(alloc, &tx)
}

/// Two different users.
fn draw_users(draws: &mut Draws) -> (u8, u8)
    ensures from { result.0 ≡ draw draws.old.state 1 % USERS }
    ensures to { result.1 ≡ (result.0 + 1 + draw draws.old.state 2 % (USERS - 1)) % USERS }
    ensures state { draws.new.state ≡ state_after 2 draws.old.state }
{
    let users = u64::from(USERS);
    let from = draws.next() % users;
    let to = (from + 1 + draws.next() % (users - 1)) % users;
    (from as u8, to as u8)
}

/// A price in micro-lamports a compute unit.
fn draw_price(draws: &mut Draws) -> u64
    ensures price { result ≡ draw draws.old.state 1 % PRICES }
    ensures state { draws.new.state ≡ state_after 1 draws.old.state }
{
    draws.next() % PRICES
}

/// What transaction t transfers.
fn lamports_of(t: u32) -> u64
    ensures { result ≡ t + 1 }
{
    u64::from(t) + 1
}

/// Transaction t.
pub(crate) fn draw_wire(alloc: Global, draws: &mut Draws, t: u32) -> Result<Blob, OutOfMemory>
    ensures wire { IfOk result (λ wire. wire
        ≡ tx_bytes (drawn_transfer draws.old.state (t + 1))) }
    ensures state { draws.new.state ≡ state_after 3 draws.old.state }
{
    let (from, to) = draw_users(draws);
    let price = draw_price(draws);
    transfer_wire(alloc, from, to, price, lamports_of(t))
}
