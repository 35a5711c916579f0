//! The system program: each instruction once, each refusal, and a transfer that fails.
ghost use Rattle.std.specs.Prelude.{◌≡◌, ◌<◌, ◌^◌, IfOk};
ghost use Rattle.std.specs.Arc.{arc_value};
ghost use Rattle.sol_base.specs.declared.account.Account.{Account as AccountValue};
ghost use Rattle.sol_base.specs.Accounts.{accounts_of, lamports_in};
ghost use Rattle.sol_base.specs.Metas.{AreInRange};

use crate::tests::pieces::{Pieces, joined};
use account_rules::RuleFault;
use sol_base::{Account, Blob, Items, Key, Meta, OutOfMemory, SYSTEM_PROGRAM, seed_key};
use std::alloc::Global;
use std::sync::Arc;
use std::test::Fail;
use system_prog::{SystemFault, run_system};

/// The payer, and the base that the other account is derived from.
const PAYER: Key = Key([0x31; 32]);

/// The program that owns what is made.
const PROGRAM: Key = Key([0x33; 32]);

// The bytes of instructions: tags, numbers, keys and the seed.
const CREATE: &[u8] = &[0, 0, 0, 0];

const ASSIGN: &[u8] = &[1, 0, 0, 0];

const TRANSFER: &[u8] = &[2, 0, 0, 0];

const CREATE_WITH_SEED: &[u8] = &[3, 0, 0, 0];

const ADVANCE_NONCE: &[u8] = &[4, 0, 0, 0];

const ALLOCATE: &[u8] = &[8, 0, 0, 0];

const ALLOCATE_WITH_SEED: &[u8] = &[9, 0, 0, 0];

const ASSIGN_WITH_SEED: &[u8] = &[10, 0, 0, 0];

const TRANSFER_WITH_SEED: &[u8] = &[11, 0, 0, 0];

const NONE: &[u8] = &[0; 8];

const TWO: &[u8] = &[2, 0, 0, 0, 0, 0, 0, 0];

const FIVE: &[u8] = &[5, 0, 0, 0, 0, 0, 0, 0];

const MORE_THAN_IT_HAS: &[u8] = &[0x50, 7, 0, 0, 0, 0, 0, 0];

const TOO_MANY: &[u8] = &[1, 0, 0, 1, 0, 0, 0, 0];

const SEED: &[u8] = b"\x04\0\0\0\0\0\0\0seed";

const OTHER_SEED: &[u8] = b"\x05\0\0\0\0\0\0\0seed!";

const LONG_SEED: &[u8] = b"\x21\0\0\0\0\0\0\0ssssssssssssssssssssssssssssssssS";

const PAYER_BYTES: &[u8] = b"11111111111111111111111111111111";

const OWNER: &[u8] = b"33333333333333333333333333333333";

const ILLEGAL: &[u8] = b"33333333333ProgramDerivedAddress";

/// Which account comes first, the other one instead of the payer, and whether each signs.
type Order = (bool, bool, bool);

/// The payer comes first.
const FIRST: Order = (false, true, true);

/// The other account comes first.
const SECOND: Order = (true, true, true);

fn meta(index: u8, signer: bool) -> Meta
    ensures { result.index ≡ index }
{
    Meta {
        index,
        signer,
        writable: true,
    }
}

/// The payer and the other account, or the other way round, and then the payer again.
fn metas(order: Order) -> [Meta; 3]
    ensures { AreInRange 2 result }
{
    let (swapped, payer, other) = order;
    if swapped {
        [meta(1, other), meta(0, payer), meta(0, payer)]
    } else {
        [meta(0, payer), meta(1, other), meta(0, payer)]
    }
}

fn account(alloc: Global, lamports: u32, bytes: &[u8]) -> Result<Arc<Account>, OutOfMemory>
    ensures { IfOk result (λ share. let value : AccountValue = arc_value share in
        value.lamports ≡ lamports) }
{
    let account = Account {
        lamports: u64::from(lamports),
        owner: SYSTEM_PROGRAM,
        executable: false,
        bytes: Blob::from_slice(alloc, bytes)?,
    };
    Ok(Arc::new(alloc, account)?)
}

/// The payer without data, and the other account.
fn pair(
    alloc: Global,
    payer: u32,
    other: u32,
    bytes: &[u8],
) -> Result<[Arc<Account>; 2], OutOfMemory>
    ensures { IfOk result (λ accounts. lamports_in (accounts_of accounts) < 2 ^ 64) }
{
    Ok([account(alloc, payer, &[])?, account(alloc, other, bytes)?])
}

/// What an instruction does to the two accounts.
fn run(
    alloc: Global,
    keys: &[Key; 2],
    accounts: &[Arc<Account>; 2],
    order: Order,
    pieces: &[&[u8]],
) -> Result<Items<Arc<Account>>, SystemFault>
    requires { lamports_in (accounts_of accounts.now) < 2 ^ 64 }
{
    let input = joined(alloc, pieces)?;
    run_system(alloc, keys, accounts, &metas(order), input.as_slice())
}

/// The payer's key, and the key that is derived from it.
fn keys() -> [Key; 2] {
    match seed_key(&PAYER, b"seed", &PROGRAM) {
        Ok(key) => [PAYER, key],
        Err(_) => [PAYER, PAYER],
    }
}

/// An instruction, the order of its accounts, and the lamports and data of the other account.
type Call = (Pieces, Order, u32, &'static [u8]);

/// What an instruction does where the payer has 1,000 lamports.
fn run_call(
    alloc: Global,
    (pieces, order, lamports, bytes): Call,
) -> Result<Items<Arc<Account>>, SystemFault> {
    let accounts = pair(alloc, 1000, lamports, bytes)?;
    run(alloc, &keys(), &accounts, order, pieces)
}

/// The payer's lamports after an instruction, and the other account's lamports, owner and number
/// of data bytes.
type Left = (u64, u64, Key, usize);

/// Whether the two accounts are left so.
fn are_left(accounts: &[Arc<Account>], want: &Left) -> bool {
    match accounts {
        [payer, other] => {
            payer.lamports == want.0
                && other.lamports == want.1
                && other.owner == want.2
                && other.bytes.len() == want.3
        }
        _ => false,
    }
}

/// Whether the answer is this refusal.
fn is_refusal(answer: Result<Items<Arc<Account>>, SystemFault>, want: &SystemFault) -> bool {
    match answer {
        Ok(_) => false,
        Err(fault) => fault == *want,
    }
}

const IN_USE: SystemFault = SystemFault::Custom { code: 0 };

const POOR: SystemFault = SystemFault::Custom { code: 1 };

const LARGE: SystemFault = SystemFault::Custom { code: 3 };

const LONG: SystemFault = SystemFault::Custom { code: 4 };

const WRONG_KEY: SystemFault = SystemFault::Custom { code: 5 };

const INVALID: SystemFault = SystemFault::InvalidInstruction;

const BAD_ARGUMENT: SystemFault = SystemFault::InvalidArgument;

const OWNER_CHANGE: SystemFault = SystemFault::Rule(RuleFault::OwnerChange { i: 0 });

/// The keys of the worked example.
const EXAMPLE_KEYS: [Key; 2] = [Key([1; 32]), Key([0x0a; 32])];

/// 890,880 lamports.
const RENT: &[u8] = &[0x00, 0x98, 0x0d, 0, 0, 0, 0, 0];

/// 5,000,000,000 lamports.
const MUCH: &[u8] = &[0x00, 0xf2, 0x05, 0x2a, 1, 0, 0, 0];

/// An account is made, and then its maker is asked for more than it has left.
#[test]
fn a_failed_second_instruction(rt: HostRuntime) -> Result<(), Fail> {
    let before = pair(rt.alloc(), 1_999_990_000, 0, &[])?;
    let pieces = [CREATE, RENT, NONE, OWNER];
    let after = run(rt.alloc(), &EXAMPLE_KEYS, &before, FIRST, &pieces)?;
    assert!(rt; are_left(after.as_slice(), &(1_999_099_120, 890_880, PROGRAM, 0)));
    let before = pair(rt.alloc(), 1_999_099_120, 890_880, &[])?;
    let answer = run(rt.alloc(), &EXAMPLE_KEYS, &before, FIRST, &[TRANSFER, MUCH]);
    assert!(rt; is_refusal(answer, &POOR));
    Ok(())
}

/// Each instruction, and what it leaves.
const GOOD: [(Call, Left); 8] = [
    (
        (&[CREATE, FIVE, TWO, OWNER], FIRST, 0, b""),
        (995, 5, PROGRAM, 2),
    ),
    ((&[ASSIGN, OWNER], SECOND, 7, b""), (1000, 7, PROGRAM, 0)),
    (
        (&[TRANSFER, FIVE], FIRST, 7, b""),
        (995, 12, SYSTEM_PROGRAM, 0),
    ),
    (
        (
            &[CREATE_WITH_SEED, PAYER_BYTES, SEED, FIVE, TWO, OWNER],
            (false, true, false),
            0,
            b"",
        ),
        (995, 5, PROGRAM, 2),
    ),
    (
        (&[ALLOCATE, TWO, b"more"], SECOND, 7, b""),
        (1000, 7, SYSTEM_PROGRAM, 2),
    ),
    (
        (
            &[ALLOCATE_WITH_SEED, PAYER_BYTES, SEED, TWO, OWNER],
            (true, true, false),
            7,
            b"",
        ),
        (1000, 7, PROGRAM, 2),
    ),
    (
        (
            &[ASSIGN_WITH_SEED, PAYER_BYTES, SEED, OWNER],
            (true, true, false),
            7,
            b"",
        ),
        (1000, 7, PROGRAM, 0),
    ),
    (
        (
            &[TRANSFER_WITH_SEED, FIVE, SEED, OWNER],
            (true, true, false),
            7,
            b"",
        ),
        (1005, 2, SYSTEM_PROGRAM, 0),
    ),
];

/// Whether an instruction leaves the two accounts so.
fn leaves(alloc: Global, call: Call, want: &Left) -> Result<bool, SystemFault> {
    let after = run_call(alloc, call)?;
    Ok(are_left(after.as_slice(), want))
}

#[test]
fn each_instruction_ends_well(rt: HostRuntime) -> Result<(), Fail> {
    for row in &GOOD {
        assert!(rt; leaves(rt.alloc(), row.0, &row.1)?);
    }
    Ok(())
}

/// Instructions, and why they are refused.
const REFUSED: [(Call, SystemFault); 15] = [
    ((&[ADVANCE_NONCE], FIRST, 0, b""), INVALID),
    ((&[TRANSFER, &[5, 0, 0]], FIRST, 0, b""), INVALID),
    (
        (&[TRANSFER, FIVE], (false, false, true), 0, b""),
        SystemFault::MissingSignature { i: 0 },
    ),
    ((&[TRANSFER, FIVE], SECOND, 7, b"text"), BAD_ARGUMENT),
    ((&[TRANSFER, MORE_THAN_IT_HAS], FIRST, 0, b""), POOR),
    ((&[CREATE, FIVE, TWO, OWNER], FIRST, 7, b""), IN_USE),
    ((&[CREATE, FIVE, TWO, OWNER], FIRST, 0, b"text"), IN_USE),
    (
        (&[CREATE, FIVE, TWO, OWNER], (false, true, false), 0, b""),
        SystemFault::MissingSignature { i: 1 },
    ),
    ((&[CREATE, FIVE, TOO_MANY, OWNER], FIRST, 0, b""), LARGE),
    (
        (
            &[CREATE_WITH_SEED, PAYER_BYTES, LONG_SEED, FIVE, TWO, OWNER],
            FIRST,
            0,
            b"",
        ),
        LONG,
    ),
    (
        (
            &[CREATE_WITH_SEED, PAYER_BYTES, SEED, FIVE, TWO, ILLEGAL],
            FIRST,
            0,
            b"",
        ),
        BAD_ARGUMENT,
    ),
    (
        (
            &[CREATE_WITH_SEED, PAYER_BYTES, OTHER_SEED, FIVE, TWO, OWNER],
            FIRST,
            0,
            b"",
        ),
        WRONG_KEY,
    ),
    (
        (
            &[ASSIGN_WITH_SEED, PAYER_BYTES, SEED, OWNER],
            (true, false, true),
            7,
            b"",
        ),
        SystemFault::MissingSignature { i: 0 },
    ),
    ((&[ASSIGN, OWNER], SECOND, 7, b"text"), OWNER_CHANGE),
    (
        (
            &[TRANSFER_WITH_SEED, FIVE, SEED, OWNER],
            (true, false, true),
            7,
            b"",
        ),
        SystemFault::MissingSignature { i: 1 },
    ),
];

#[test]
fn each_refusal_comes(rt: HostRuntime) {
    for row in &REFUSED {
        assert!(rt; is_refusal(run_call(rt.alloc(), row.0), &row.1));
    }
}

/// What an instruction that lists no account comes to.
fn run_alone(alloc: Global, pieces: Pieces) -> Result<Items<Arc<Account>>, SystemFault> {
    let input = joined(alloc, pieces)?;
    run_system(alloc, &[], &[], &[], input.as_slice())
}

/// The length of a seed of one byte.
const ONE: &[u8] = &[1, 0, 0, 0, 0, 0, 0, 0];

/// Instructions that list no account, the first with a seed that is not UTF-8.
const ALONE: [(Pieces, SystemFault); 2] = [
    (
        &[ASSIGN_WITH_SEED, PAYER_BYTES, ONE, &[0xff], OWNER],
        INVALID,
    ),
    (
        &[ASSIGN_WITH_SEED, PAYER_BYTES, ONE, b"s", OWNER],
        SystemFault::NotEnoughAccounts,
    ),
];

#[test]
fn data_come_before_accounts(rt: HostRuntime) {
    for row in &ALONE {
        assert!(rt; is_refusal(run_alone(rt.alloc(), row.0), &row.1));
    }
}
