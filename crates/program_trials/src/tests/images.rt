//! Example "refused images", and programs that are ready.
use account_store::{Accounts, KeyedAccount, StoreFault};
use program_cache::{Found, Programs};
use sbpf_verify::VerifyFault;
use sol_base::{Account, Blob, Items, Key, MAX_DATA_LEN, OutOfMemory, SYSTEM_PROGRAM};
use std::alloc::Global;
use std::test::Fail;

const EXIT: [u8; 8] = [0x95, 0, 0, 0, 0, 0, 0, 0];

/// The key of the one account here.
const PROGRAM: Key = Key([0x77; 32]);

/// An answer without its image.
#[derive(Clone, Copy, PartialEq, Eq)]
enum Answer {
    Ready,
    NotFound,
    NotProgram,
    Bad,
    Unverified(VerifyFault),
}

/// What is found under the key, without its image.
fn answer_of(programs: &Programs) -> Answer {
    match programs.find(&PROGRAM) {
        Found::Ready(_) => Answer::Ready,
        Found::NotFound => Answer::NotFound,
        Found::NotProgram => Answer::NotProgram,
        Found::Bad => Answer::Bad,
        Found::Unverified(fault) => Answer::Unverified(fault),
    }
}

/// Accounts with the one account, which is executable and has these data.
fn accounts_with(alloc: Global, bytes: Blob) -> Result<Accounts, StoreFault> {
    if bytes.len() > MAX_DATA_LEN {
        return Err(StoreFault::OutOfMemory);
    }
    let mut entries = Items::new(alloc);
    entries.push(KeyedAccount {
        key: PROGRAM,
        account: Account {
            lamports: 1,
            owner: SYSTEM_PROGRAM,
            executable: true,
            bytes,
        },
    })?;
    Accounts::from_sorted(alloc, entries)
}

/// The given bytes, and then so many `exit` slots.
fn with_exits(alloc: Global, bytes: &[u8], exits: u32) -> Result<Blob, OutOfMemory> {
    let mut data = Blob::from_slice(alloc, bytes)?;
    for _ in 0..exits {
        data.append(&EXIT)?;
    }
    Ok(data)
}

/// The program under the key, where the account has these data.
fn programs_with(alloc: Global, bytes: Blob) -> Result<Programs, StoreFault> {
    let accounts = accounts_with(alloc, bytes)?;
    let mut keys = Items::new(alloc);
    keys.push(PROGRAM)?;
    Ok(Programs::from_accounts(alloc, &accounts, &keys)?)
}

/// Data before a number of `exit` slots, and what is found for an executable account with them.
const DATA: [(&[u8], u32, Answer); 9] = [
    (b"", 0, Answer::Bad),
    (b"SBPFIMG2\0\0\0\0\0\0\0\0", 0, Answer::Bad),
    (
        b"SBPFIMG1\0\0\0\0\0\0\0\0",
        0,
        Answer::Unverified(VerifyFault::Length),
    ),
    (b"SBPFIMG1\xff\xff\xff\xff\0\0\0\0", 0, Answer::Bad),
    (
        b"SBPFIMG1\x03\0\0\0\0\0\0\0\x72\x01\x60\0\x07\0\0\0\xb7\0\0\0\0\0\0\0\x95\0\0\0\0\0\0\0+",
        0,
        Answer::Bad,
    ),
    (
        b"SBPFIMG1\x01\0\x01\0\0\0\0\0",
        65_537,
        Answer::Unverified(VerifyFault::Length),
    ),
    // an opcode that has no row
    (
        b"SBPFIMG1\x02\0\0\0\0\0\0\0\x06\0\0\0\0\0\0\0",
        1,
        Answer::Unverified(VerifyFault::Opcode { at: 0 }),
    ),
    // the text of example "foreign data"
    (
        b"SBPFIMG1\x03\0\0\0\0\0\0\0\x72\x01\x60\0\x07\0\0\0\xb7\0\0\0\0\0\0\0",
        1,
        Answer::Ready,
    ),
    (b"SBPFIMG1\0\0\x01\0\0\0\0\0", 65_536, Answer::Ready),
];

#[test]
fn data_are_judged(rt: HostRuntime) -> Result<(), Fail> {
    for (bytes, exits, wanted) in &DATA {
        let data = with_exits(rt.alloc(), bytes, *exits)?;
        let programs = programs_with(rt.alloc(), data)?;
        assert!(rt; answer_of(&programs) == *wanted);
    }
    Ok(())
}
