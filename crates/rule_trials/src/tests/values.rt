//! Lists of bytes and of items, and accounts: each call once.
use sol_base::{
    Account, Blob, Items, Key, LOADER_PROGRAM, Lock, LockList, OutOfMemory, SYSTEM_PROGRAM,
};
use std::alloc::Global;

/// Adds three letters, in two steps.
fn add_letters(bytes: &mut Blob) -> Result<(), OutOfMemory> {
    bytes.append(b"ab")?;
    bytes.append(b"c")
}

/// Whether a letter that is added to the bytes leaves their copy as it is.
fn are_apart(bytes: &mut Blob, copy: &Blob) -> Result<bool, OutOfMemory> {
    bytes.append(b"d")?;
    Ok(
        bytes.as_slice() == b"abcd".as_slice()
            && bytes.len() == 4
            && copy.as_slice() == b"abc".as_slice(),
    )
}

/// Whether the letters are added and copied.
fn are_copied(bytes: &mut Blob) -> Result<bool, OutOfMemory> {
    add_letters(bytes)?;
    let copy = bytes.try_copy()?;
    are_apart(bytes, &copy)
}

/// Whether a list with room is empty, and keeps what is added.
fn keeps_bytes(alloc: Global) -> Result<bool, OutOfMemory> {
    let mut bytes = Blob::with_capacity(alloc, 4)?;
    Ok(bytes.is_empty() && are_copied(&mut bytes)?)
}

/// Whether a list is made of bytes, and of none.
fn is_made(alloc: Global) -> Result<bool, OutOfMemory> {
    let bytes = Blob::from_slice(alloc, b"xyz")?;
    Ok(bytes.as_slice() == b"xyz".as_slice() && Blob::new(alloc).is_empty())
}

#[test]
fn bytes_are_kept(rt: HostRuntime) {
    assert!(rt; keeps_bytes(rt.alloc()) == Ok(true));
    assert!(rt; is_made(rt.alloc()) == Ok(true));
}

const READ: Lock = Lock {
    key: Key([1; 32]),
    write: false,
};

const WRITE: Lock = Lock {
    key: Key([2; 32]),
    write: true,
};

/// Whether a lock to read and one to write are kept in their order.
fn keeps_two(locks: &mut LockList) -> Result<bool, OutOfMemory> {
    locks.push(READ)?;
    locks.push(WRITE)?;
    Ok(locks.as_slice() == [READ, WRITE].as_slice())
}

/// Whether the last of the two is taken out.
fn gives_last(locks: &mut LockList) -> bool {
    locks.pop() == Some(WRITE) && locks.len() == 1 && !locks.is_empty()
}

/// Whether the first of the two stays, in a vector too.
fn keeps_first(locks: LockList) -> bool {
    Items::from_vec(locks.into_vec()).as_slice() == [READ].as_slice()
}

/// Whether a list with room for two is empty, and keeps two.
fn keeps_locks(alloc: Global) -> Result<bool, OutOfMemory> {
    let mut locks: LockList = Items::with_capacity(alloc, 2)?;
    let kept = locks.pop() == None && keeps_two(&mut locks)? && gives_last(&mut locks);
    Ok(kept && keeps_first(locks))
}

#[test]
fn items_are_kept(rt: HostRuntime) {
    assert!(rt; keeps_locks(rt.alloc()) == Ok(true));
}

/// Whether the account is a program of 7 lamports.
fn is_program(account: &Account) -> bool {
    account.lamports == 7
        && account.owner == LOADER_PROGRAM
        && account.executable
        && account.bytes.as_slice() == b"image".as_slice()
}

/// Whether the account is one that is absent.
fn is_absent(account: &Account) -> bool {
    account.lamports == 0
        && account.owner == SYSTEM_PROGRAM
        && !account.executable
        && account.bytes.is_empty()
}

/// Whether an account that is absent is one, and is copied.
fn copies_absent(alloc: Global) -> Result<bool, OutOfMemory> {
    let account = Account::empty(alloc);
    Ok(is_absent(&account) && is_absent(&account.try_copy()?))
}

/// A program with 7 lamports.
fn program(alloc: Global) -> Result<Account, OutOfMemory> {
    Ok(Account {
        lamports: 7,
        owner: LOADER_PROGRAM,
        executable: true,
        bytes: Blob::from_slice(alloc, b"image")?,
    })
}

/// Whether a program is copied.
fn copies_program(alloc: Global) -> Result<bool, OutOfMemory> {
    let account = program(alloc)?;
    Ok(is_program(&account.try_copy()?))
}

#[test]
fn accounts_are_copied(rt: HostRuntime) {
    assert!(rt; copies_absent(rt.alloc()) == Ok(true));
    assert!(rt; copies_program(rt.alloc()) == Ok(true));
}
