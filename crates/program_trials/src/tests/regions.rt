//! Example "region layout", and each call once for each kind of input.
ghost use Rattle.std.specs.Prelude.{IfOk};
ghost use Rattle.std.specs.Arc.{arc_value};
ghost use Rattle.sol_base.specs.Accounts.{IsShort};

use abi_input::{BackFault, PatchFault, TakenBack, lay_out, patch, take_back};
use data_parts::Parts;
use sol_base::{Account, Blob, Key, MAX_DATA_LEN, Meta, OutOfMemory};
use std::alloc::Global;
use std::sync::Arc;
use std::test::Fail;

const KEY: Key = Key([0x44; 32]);

const PROGRAM: Key = Key([0x77; 32]);

/// The one account, listed twice.
const TWICE: [Meta; 2] = [
    Meta {
        index: 0,
        signer: false,
        writable: true,
    },
    Meta {
        index: 0,
        signer: true,
        writable: false,
    },
];

/// The bytes of the region of 16 data bytes that are listed twice.
const SIZE: usize = 10_408;

/// Where the length of the data is.
const LENGTH_AT: usize = 88;

/// An account with these data, which are not too long.
fn account_of(alloc: Global, lamports: u64, bytes: &[u8]) -> Result<Arc<Account>, OutOfMemory>
    ensures { IfOk result (λ share. IsShort (arc_value share)) }
{
    if bytes.len() > MAX_DATA_LEN {
        return Err(OutOfMemory);
    }
    let account = Account {
        lamports,
        owner: PROGRAM,
        executable: false,
        bytes: Blob::from_slice(alloc, bytes)?,
    };
    Ok(Arc::new(alloc, account)?)
}

/// What is taken back where this length is written over that of the account.
fn taken(alloc: Global, length: u64) -> Result<TakenBack, BackFault> {
    let start = [account_of(alloc, 5, &[7; 16])?];
    let mut region = lay_out(alloc, &[KEY], &start, &TWICE, &[], &PROGRAM)?;
    if region.len() != SIZE {
        return Err(BackFault::OutOfMemory);
    }
    region.write(LENGTH_AT, &length.to_le_bytes())?;
    if region.len() != SIZE {
        return Err(BackFault::OutOfMemory);
    }
    take_back(alloc, &region, &start, &start, &TWICE)
}

/// How many data bytes are taken back, and whether the account may differ.
fn taken_length(alloc: Global, length: u64) -> Result<(usize, bool), BackFault> {
    let taken = taken(alloc, length)?;
    match (taken.accounts.as_slice(), taken.touched.as_slice()) {
        ([account], [touched]) => Ok((account.bytes.len(), *touched)),
        _ => Err(BackFault::OutOfMemory),
    }
}

/// A length in the region, and what is taken back.
const TAKEN: [(u64, Result<(usize, bool), BackFault>); 5] = [
    (16, Ok((16, false))),
    (0, Ok((0, true))),
    (10_256, Ok((10_256, true))),
    (10_257, Err(BackFault::LengthTooLarge { i: 0 })),
    (u64::MAX, Err(BackFault::LengthTooLarge { i: 0 })),
];

#[test]
fn lengths_are_taken_back(rt: HostRuntime) {
    for (length, wanted) in &TAKEN {
        assert!(rt; taken_length(rt.alloc(), *length) == *wanted);
    }
}

/// The region of the account, patched with these data.
fn patched(alloc: Global, bytes: &[u8]) -> Result<Parts, PatchFault> {
    let start = [account_of(alloc, 5, &[7; 16])?];
    let now = [account_of(alloc, 6, bytes)?];
    let mut region = lay_out(alloc, &[KEY], &start, &TWICE, &[], &PROGRAM)?;
    patch(alloc, &mut region, &start, &now, &TWICE)?;
    Ok(region)
}

/// Whether the bytes are at a place.
fn stands(region: &Parts, place: usize, bytes: &[u8]) -> bool {
    let mut at = place;
    for byte in bytes {
        if at >= region.len() || region.get(at) != *byte {
            return false;
        }
        at = at.wrapping_add(1);
    }
    true
}

/// Whether that many data bytes are patched in.
fn is_patched(alloc: Global, bytes: &[u8]) -> Result<bool, PatchFault> {
    let region = patched(alloc, bytes)?;
    Ok(stands(&region, LENGTH_AT, &(bytes.len() as u64).to_le_bytes()))
}

#[test]
fn lengths_are_patched(rt: HostRuntime) -> Result<(), Fail> {
    assert!(rt; is_patched(rt.alloc(), &[])?);
    assert!(rt; is_patched(rt.alloc(), &[8; 10_256])?);
    let refused = is_patched(rt.alloc(), &[8; 10_257]);
    assert!(rt; refused == Err(PatchFault::LengthTooLarge { i: 0 }));
    Ok(())
}

/// The region of 16 data bytes that are listed twice.
fn region_of(alloc: Global) -> Result<Parts, OutOfMemory> {
    let start = [account_of(alloc, 5, &[7; 16])?];
    lay_out(alloc, &[KEY], &start, &TWICE, &[], &PROGRAM)
}

/// What is in that region: the number of accounts, and then the flags of both metas together;
/// the data; and the second listing.
const STANDS: [(usize, &[u8]); 3] = [
    (0, &[2, 0, 0, 0, 0, 0, 0, 0, 255, 1, 1, 0]),
    (96, &[7; 16]),
    (10_360, &[0; 8]),
];

#[test]
fn a_region_is_laid_out(rt: HostRuntime) -> Result<(), Fail> {
    let region = region_of(rt.alloc())?;
    assert!(rt; region.len() == SIZE);
    for (place, bytes) in &STANDS {
        assert!(rt; stands(&region, *place, bytes));
    }
    Ok(())
}
