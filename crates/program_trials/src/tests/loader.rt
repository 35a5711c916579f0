//! The loader: each instruction once, and the order of its refusals.
ghost use Rattle.std.specs.Prelude.{◌≡◌, ◌<◌, IfOk};
ghost use Rattle.std.specs.Arc.{arc_value};
ghost use Rattle.sol_base.specs.declared.account.Account.{Account as AccountValue};
ghost use Rattle.sol_base.specs.Accounts.{accounts_of, lamports_in};
ghost use Rattle.sol_base.specs.Metas.{AreInRange};

use crate::tests::pieces::{Pieces, joined};
use account_rules::RuleFault;
use loader_prog::{LoaderFault, run_loader};
use sol_base::{Account, Blob, Items, Key, LOADER_PROGRAM, Meta, OutOfMemory, SYSTEM_PROGRAM};
use std::alloc::Global;
use std::sync::Arc;
use std::test::Fail;

const BUFFER: Key = Key([0x0b; 32]);

/// The bytes of the authority's key, and of another.
const AUTHORITY: [u8; 32] = [1; 32];

pub const OTHER: [u8; 32] = [2; 32];

/// An image of `stb [r1+96], 7`, `mov64 r0, 0` and `exit`.
pub const PROGRAM: [u8; 40] =
    *b"SBPFIMG1\x03\0\0\0\0\0\0\0\x72\x01\x60\0\x07\0\0\0\xb7\0\0\0\0\0\0\0\x95\0\0\0\0\0\0\0";

/// An image whose text, `mov64 r10, 1` and `exit`, is not verified.
const UNVERIFIED: [u8; 32] = *b"SBPFIMG1\x02\0\0\0\0\0\0\0\xb7\x0a\0\0\x01\0\0\0\x95\0\0\0\0\0\0\0";

const BUFFER_MAGIC: &[u8] = b"SBPFBUF1";

const FINAL_MAGIC: &[u8] = b"SBPFFIN1";

const INIT: &[u8] = &[0, 0, 0, 0];

const WRITE: &[u8] = &[1, 0, 0, 0];

const FINALIZE: &[u8] = &[2, 0, 0, 0];

const SET_AUTHORITY: &[u8] = &[3, 0, 0, 0];

/// The account of the buffer, and two wallets.
#[derive(Clone, Copy)]
enum Party {
    Buffer,
    Authority,
    Other,
}

/// An account that an instruction lists, and whether it signs and is writable.
type Seat = (Party, bool, bool);

/// The accounts that an instruction lists.
#[derive(Clone, Copy)]
enum Listed {
    Nothing,
    One(Seat),
    Two(Seat, Seat),
}

/// The buffer alone, which signs.
const SIGNED: Listed = Listed::One((Party::Buffer, true, true));

/// The buffer alone, which does not sign.
const UNSIGNED: Listed = Listed::One((Party::Buffer, false, true));

/// The buffer without a signature, and then with one.
const TWICE: Listed = Listed::Two((Party::Buffer, false, true), (Party::Buffer, true, false));

/// The buffer, and its authority, which signs.
const BOTH: Listed = Listed::Two(
    (Party::Buffer, false, true),
    (Party::Authority, true, false),
);

/// The buffer, and its authority, which does not sign.
const BOTH_UNSIGNED: Listed = Listed::Two(
    (Party::Buffer, false, true),
    (Party::Authority, false, false),
);

/// The buffer, and another key, which signs.
const STRANGER: Listed = Listed::Two((Party::Buffer, false, true), (Party::Other, true, false));

/// The buffer, not writable, and its authority, which signs.
const READ_ONLY: Listed = Listed::Two(
    (Party::Buffer, false, false),
    (Party::Authority, true, false),
);

fn place_of(party: Party) -> u8
    ensures { result < 3 }
{
    match party {
        Party::Buffer => 0,
        Party::Authority => 1,
        Party::Other => 2,
    }
}

fn meta(seat: Seat) -> Meta
    ensures { result.index < 3 }
{
    Meta {
        index: place_of(seat.0),
        signer: seat.1,
        writable: seat.2,
    }
}

pub fn account_of(owner: Key, bytes: Blob) -> Account
    ensures { result.lamports ≡ 1 }
{
    Account {
        lamports: 1,
        owner,
        executable: false,
        bytes,
    }
}

fn shared(alloc: Global, owner: Key, bytes: Blob) -> Result<Arc<Account>, OutOfMemory>
    ensures { IfOk result (λ share. let a : AccountValue = arc_value share in a.lamports ≡ 1) }
{
    Ok(Arc::new(alloc, account_of(owner, bytes))?)
}

/// An account with the data, and two wallets.
fn accounts_with(alloc: Global, owner: Key, bytes: Blob) -> Result<[Arc<Account>; 3], OutOfMemory>
    ensures { IfOk result (λ accounts. lamports_in (accounts_of accounts) ≡ 3) }
{
    Ok([
        shared(alloc, owner, bytes)?,
        shared(alloc, SYSTEM_PROGRAM, Blob::new(alloc))?,
        shared(alloc, SYSTEM_PROGRAM, Blob::new(alloc))?,
    ])
}

/// The keys of the three accounts.
const KEYS: [Key; 3] = [BUFFER, Key(AUTHORITY), Key(OTHER)];

/// What the loader returns for the accounts that are listed.
fn run(
    alloc: Global,
    accounts: &[Arc<Account>; 3],
    listed: Listed,
    input: &[u8],
) -> Result<Items<Arc<Account>>, LoaderFault>
    requires { lamports_in (accounts_of accounts.now) ≡ 3 }
{
    match listed {
        Listed::Nothing => run_loader(alloc, &KEYS, accounts, &[], input),
        Listed::One(seat) => run_loader(alloc, &KEYS, accounts, &[meta(seat)], input),
        Listed::Two(one, two) => {
            run_loader(alloc, &KEYS, accounts, &[meta(one), meta(two)], input)
        }
    }
}

/// What the loader returns over an account of that owner with the data.
fn answer(
    alloc: Global,
    owner: Key,
    bytes: Blob,
    listed: Listed,
    input: &[&[u8]],
) -> Result<Items<Arc<Account>>, LoaderFault> {
    let input = joined(alloc, input)?;
    let accounts = accounts_with(alloc, owner, bytes)?;
    run(alloc, &accounts, listed, input.as_slice())
}

/// The data of the first account.
fn first_data(alloc: Global, accounts: &[Arc<Account>]) -> Result<Blob, LoaderFault> {
    match accounts.first() {
        Some(account) => Ok(account.bytes.try_copy()?),
        None => Err(LoaderFault::NotEnoughAccounts),
    }
}

/// The data of a buffer after an instruction that the loader runs.
fn data_after(
    alloc: Global,
    bytes: Blob,
    listed: Listed,
    input: &[&[u8]],
) -> Result<Blob, LoaderFault> {
    let accounts = answer(alloc, LOADER_PROGRAM, bytes, listed, input)?;
    first_data(alloc, accounts.as_slice())
}

/// The data of a buffer, the accounts listed, and an instruction.
type Call = (Pieces, Listed, Pieces);

/// Whether an instruction leaves the buffer with these data.
fn leaves(
    alloc: Global,
    ((before, listed, input), want): (Call, Pieces),
) -> Result<bool, LoaderFault> {
    let after = data_after(alloc, joined(alloc, before)?, listed, input)?;
    let want = joined(alloc, want)?;
    Ok(after.as_slice() == want.as_slice())
}

/// Each instruction, and the data after it.
const GOOD: [(Call, Pieces); 7] = [
    (
        (&[&[0; 8], &[9; 33]], SIGNED, &[INIT, &AUTHORITY, b"more"]),
        &[BUFFER_MAGIC, &AUTHORITY, &[9]],
    ),
    (
        (&[&[0; 40]], TWICE, &[INIT, &AUTHORITY]),
        &[BUFFER_MAGIC, &AUTHORITY],
    ),
    (
        (
            &[BUFFER_MAGIC, &AUTHORITY, b"abcd"],
            BOTH,
            &[WRITE, &[1, 0, 0, 0], &[3, 0, 0, 0, 0, 0, 0, 0], b"xyz"],
        ),
        &[BUFFER_MAGIC, &AUTHORITY, b"axyz"],
    ),
    // the bytes are there already, so that the buffer need not be writable
    (
        (
            &[BUFFER_MAGIC, &AUTHORITY, b"abcd"],
            READ_ONLY,
            &[WRITE, &[1, 0, 0, 0], &[2, 0, 0, 0, 0, 0, 0, 0], b"bc"],
        ),
        &[BUFFER_MAGIC, &AUTHORITY, b"abcd"],
    ),
    (
        (&[BUFFER_MAGIC, &AUTHORITY, &PROGRAM], BOTH, &[FINALIZE]),
        &[FINAL_MAGIC, &AUTHORITY, &PROGRAM],
    ),
    (
        (
            &[BUFFER_MAGIC, &AUTHORITY, b"a"],
            BOTH,
            &[SET_AUTHORITY, &OTHER],
        ),
        &[BUFFER_MAGIC, &OTHER, b"a"],
    ),
    (
        (
            &[BUFFER_MAGIC, &OTHER],
            STRANGER,
            &[SET_AUTHORITY, &AUTHORITY],
        ),
        &[BUFFER_MAGIC, &AUTHORITY],
    ),
];

#[test]
fn instructions_change_a_buffer(rt: HostRuntime) -> Result<(), Fail> {
    for row in &GOOD {
        assert!(rt; leaves(rt.alloc(), *row)?);
    }
    Ok(())
}

/// Whether an instruction over an account of that owner is refused so.
fn is_refused(
    alloc: Global,
    owner: Key,
    (before, listed, input): Call,
    want: &LoaderFault,
) -> Result<bool, OutOfMemory> {
    Ok(
        match answer(alloc, owner, joined(alloc, before)?, listed, input) {
            Ok(_) => false,
            Err(fault) => fault == *want,
        },
    )
}

const INVALID: LoaderFault = LoaderFault::InvalidInstruction;

const TOO_FEW: LoaderFault = LoaderFault::NotEnoughAccounts;

const FOREIGN: LoaderFault = LoaderFault::Custom { code: 1 };

const TOO_SHORT: LoaderFault = LoaderFault::Custom { code: 2 };

const NOT_BLANK: LoaderFault = LoaderFault::Custom { code: 3 };

const NO_BUFFER: LoaderFault = LoaderFault::Custom { code: 4 };

const NOT_AUTHORITY: LoaderFault = LoaderFault::Custom { code: 5 };

const PAST_THE_END: LoaderFault = LoaderFault::Custom { code: 6 };

const NO_IMAGE: LoaderFault = LoaderFault::Custom { code: 7 };

const NOT_VERIFIED: LoaderFault = LoaderFault::Custom { code: 8 };

/// Instructions, and why they are refused.
const REFUSED: [(Call, LoaderFault); 20] = [
    // the data are looked at before the accounts
    ((&[], Listed::Nothing, &[&[0; 3]]), INVALID),
    ((&[], Listed::Nothing, &[&[4, 0, 0, 0], &[0; 40]]), INVALID),
    ((&[], Listed::Nothing, &[INIT, &[7; 31]]), INVALID),
    (
        (&[], Listed::Nothing, &[WRITE, &[0; 4], &[0xff; 8], b"abc"]),
        INVALID,
    ),
    ((&[], Listed::Nothing, &[INIT, &AUTHORITY]), TOO_FEW),
    ((&[], SIGNED, &[FINALIZE]), TOO_FEW),
    // and a signature before the data of the account
    (
        (&[], UNSIGNED, &[INIT, &AUTHORITY]),
        LoaderFault::MissingSignature { i: 0 },
    ),
    ((&[&[1; 39]], SIGNED, &[INIT, &AUTHORITY]), TOO_SHORT),
    (
        (&[&[0; 7], &[1; 33]], SIGNED, &[INIT, &AUTHORITY]),
        NOT_BLANK,
    ),
    ((&[BUFFER_MAGIC, &[1; 31]], BOTH, &[FINALIZE]), NO_BUFFER),
    (
        (&[FINAL_MAGIC, &AUTHORITY, &PROGRAM], BOTH, &[FINALIZE]),
        NO_BUFFER,
    ),
    // the next three are a worked example
    (
        (
            &[BUFFER_MAGIC, &AUTHORITY, &[0; 40]],
            STRANGER,
            &[WRITE, &[0; 4], &[1, 0, 0, 0, 0, 0, 0, 0], b"a"],
        ),
        NOT_AUTHORITY,
    ),
    (
        (
            &[BUFFER_MAGIC, &AUTHORITY, &[0; 40]],
            BOTH,
            &[WRITE, &[1, 0, 0, 0], &[40, 0, 0, 0, 0, 0, 0, 0], &[7; 40]],
        ),
        PAST_THE_END,
    ),
    (
        (&[BUFFER_MAGIC, &AUTHORITY, &[0; 40]], BOTH, &[FINALIZE]),
        NO_IMAGE,
    ),
    (
        (
            &[BUFFER_MAGIC, &AUTHORITY],
            BOTH_UNSIGNED,
            &[SET_AUTHORITY, &OTHER],
        ),
        LoaderFault::MissingSignature { i: 1 },
    ),
    (
        (
            &[BUFFER_MAGIC, &AUTHORITY],
            BOTH,
            &[WRITE, &[0xff; 4], &[0; 8]],
        ),
        PAST_THE_END,
    ),
    (
        (
            &[BUFFER_MAGIC, &AUTHORITY, &PROGRAM, b"a"],
            BOTH,
            &[FINALIZE],
        ),
        NO_IMAGE,
    ),
    (
        (&[BUFFER_MAGIC, &AUTHORITY, &UNVERIFIED], BOTH, &[FINALIZE]),
        NOT_VERIFIED,
    ),
    (
        (
            &[BUFFER_MAGIC, &AUTHORITY],
            READ_ONLY,
            &[SET_AUTHORITY, &OTHER],
        ),
        LoaderFault::Rule(RuleFault::ReadonlyChanged { i: 0 }),
    ),
    (
        (&[BUFFER_MAGIC, &OTHER], BOTH, &[SET_AUTHORITY, &OTHER]),
        NOT_AUTHORITY,
    ),
];

#[test]
fn the_first_refusal_is_the_answer(rt: HostRuntime) -> Result<(), Fail> {
    for row in &REFUSED {
        assert!(rt; is_refused(rt.alloc(), LOADER_PROGRAM, row.0, &row.1)?);
    }
    Ok(())
}

/// Instructions over an account of another program.
const OVER_ANOTHER: [Call; 2] = [
    (&[&[0; 40]], UNSIGNED, &[INIT, &AUTHORITY]),
    (&[&[0; 40]], BOTH, &[SET_AUTHORITY, &AUTHORITY]),
];

#[test]
fn an_account_of_another_program_is_refused(rt: HostRuntime) -> Result<(), Fail> {
    for call in &OVER_ANOTHER {
        assert!(rt; is_refused(rt.alloc(), Key(OTHER), *call, &FOREIGN)?);
    }
    Ok(())
}
