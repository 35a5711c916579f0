//! One byte changed, by each of the three calls.
ghost use Rattle.std.specs.Prelude.{◌≡◌};

use account_rules::{RuleFault, check, check_listed, check_touched};
use sol_base::{Account, Blob, Key, Meta, OutOfMemory};
use std::alloc::Global;
use std::sync::Arc;
use std::test::Fail;

const PROGRAM: Key = Key([0x77; 32]);

fn with_byte(alloc: Global, owner: u8, byte: u8) -> Result<Arc<Account>, OutOfMemory> {
    let account = Account {
        lamports: 1,
        owner: Key([owner; 32]),
        executable: false,
        bytes: Blob::from_slice(alloc, &[byte])?,
    };
    Ok(Arc::new(alloc, account)?)
}

/// An account before and after its byte changed.
fn changed(alloc: Global, owner: u8) -> Result<(Arc<Account>, Arc<Account>), OutOfMemory> {
    let before = with_byte(alloc, owner, 0)?;
    let after = with_byte(alloc, owner, 7)?;
    Ok((before, after))
}

/// What is said of a change of an account of this owner.
fn answer(alloc: Global, owner: u8) -> Result<Result<(), RuleFault>, OutOfMemory> {
    let (before, after) = changed(alloc, owner)?;
    Ok(check(&PROGRAM, &[true], &[before], &[after]))
}

/// The program writes the byte of an account that it owns, and of one that it does not.
#[test]
fn a_byte_changed(rt: HostRuntime) -> Result<(), Fail> {
    assert!(rt; answer(rt.alloc(), 0x77)? == Ok(()));
    assert!(rt; answer(rt.alloc(), 0x55)? == Err(RuleFault::ForeignData { i: 0 }));
    Ok(())
}

/// What is said of a change of an account of this owner, beside an account of another program that
/// nothing has touched.
fn answer_touched(alloc: Global, owner: u8) -> Result<Result<(), RuleFault>, OutOfMemory> {
    let foreign = with_byte(alloc, 0x55, 9)?;
    let share = Arc::try_clone(&foreign)?;
    let (before, after) = changed(alloc, owner)?;
    Ok(check_touched(
        &PROGRAM,
        &[true, true],
        &[false, true],
        &[share, before],
        &[foreign, after],
    ))
}

#[test]
fn a_byte_changed_beside_an_untouched_account(rt: HostRuntime) -> Result<(), Fail> {
    assert!(rt; answer_touched(rt.alloc(), 0x77)? == Ok(()));
    assert!(rt; answer_touched(rt.alloc(), 0x55)? == Err(RuleFault::ForeignData { i: 1 }));
    Ok(())
}

fn meta_of(index: u8, writable: bool) -> Meta
    ensures at { result.index ≡ index }
{
    Meta {
        index,
        signer: false,
        writable,
    }
}

/// What is said of a change of an account of this owner, the last of three: one is not listed, and one
/// is not touched.
fn answer_listed(
    alloc: Global,
    owner: u8,
    writable: bool,
) -> Result<Result<(), RuleFault>, OutOfMemory> {
    let unlisted = with_byte(alloc, 0x55, 9)?;
    let untouched = with_byte(alloc, 0x55, 8)?;
    let first = Arc::try_clone(&unlisted)?;
    let second = Arc::try_clone(&untouched)?;
    let (before, after) = changed(alloc, owner)?;
    let metas = [
        meta_of(1, true),
        meta_of(2, false),
        meta_of(1, false),
        meta_of(2, writable),
    ];
    Ok(check_listed(
        &PROGRAM,
        &metas,
        &[true, false, true],
        &[first, second, before],
        &[unlisted, untouched, after],
    ))
}

/// The owner, whether the account is writable, and the answer.
const LISTED: [(u8, bool, Result<(), RuleFault>); 3] = [
    (0x77, true, Ok(())),
    (0x55, true, Err(RuleFault::ForeignData { i: 1 })),
    (0x77, false, Err(RuleFault::ReadonlyChanged { i: 1 })),
];

#[test]
fn a_byte_changed_of_a_listed_account(rt: HostRuntime) -> Result<(), Fail> {
    for row in &LISTED {
        assert!(rt; answer_listed(rt.alloc(), row.0, row.1)? == row.2);
    }
    Ok(())
}
