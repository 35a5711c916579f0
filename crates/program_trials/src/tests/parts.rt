//! Lists of bytes in parts: what is written, and the account that is lent.
use crate::tests::region::{lent_account, region};
use data_parts::Parts;
use sol_base::{Account, OutOfMemory};
use std::alloc::Global;

/// Whether these are the bytes, read whole and as an array.
fn has_bytes(list: &Parts, bytes: [u8; 5]) -> bool {
    if list.len() != 5 {
        return false;
    }
    let mut read = [0xff; 5];
    list.read(0, &mut read);
    read == bytes && list.array::<5>(0) == Some(bytes)
}

/// Whether this byte is at the place.
fn has_byte(list: &Parts, at: usize, byte: u8) -> bool {
    at < list.len() && list.get(at) == byte
}

/// Whether the account still has the data `0304`.
fn keeps_data(lent: &Account) -> bool {
    lent.bytes.as_slice() == [3, 4].as_slice()
}

/// Whether the list has these bytes after a write.
fn writes(list: &mut Parts, at: usize, bytes: &[u8], all: [u8; 5]) -> Result<bool, OutOfMemory> {
    if list.len() != 5 || at > 5 || bytes.len() > 5 - at {
        return Ok(false);
    }
    list.write(at, bytes)?;
    Ok(has_bytes(list, all))
}

/// Whether the list has these bytes after places of it are prepared.
fn prepares(list: &mut Parts, at: usize, len: usize, all: [u8; 5]) -> Result<bool, OutOfMemory> {
    if list.len() != 5 || at > 5 || len > 5 - at {
        return Ok(false);
    }
    list.prepare(at, len)?;
    Ok(has_bytes(list, all))
}

/// Whether the region is written and prepared.
fn writes_region(list: &mut Parts) -> Result<bool, OutOfMemory> {
    Ok(
        writes(list, 1, &[0xaa, 0xbb], [1, 0xaa, 0xbb, 4, 0])?
            && prepares(list, 0, 5, [1, 0xaa, 0xbb, 4, 0])?
            && writes(list, 0, &[9, 8, 7, 6, 5], [9, 8, 7, 6, 5])?
            && has_byte(list, 3, 6),
    )
}

/// Whether a region is written so, and its account is not.
fn is_written(alloc: Global) -> Result<bool, OutOfMemory> {
    let lent = lent_account(alloc)?;
    let mut list = region(alloc, &lent)?;
    Ok(writes_region(&mut list)? && keeps_data(&lent))
}

#[test]
fn a_region_is_written(rt: HostRuntime) {
    assert!(rt; is_written(rt.alloc()) == Ok(true));
}

/// Whether an account is lent at the places of the region, before its lent part is written.
const LENT: [(usize, bool); 5] = [(0, false), (1, false), (2, true), (3, false), (5, false)];

/// Whether the list lends at these places.
fn lends_by_table(list: &Parts) -> bool {
    for (at, lends) in LENT {
        if list.lent_at(at).is_some() != lends {
            return false;
        }
    }
    true
}

/// Whether the list lends its account until it is written there.
fn lends_until_written(list: &mut Parts) -> Result<bool, OutOfMemory> {
    Ok(lends_by_table(list) && writes(list, 3, &[5], [1, 2, 3, 5, 0])? && list.lent_at(2).is_none())
}

/// Whether a region lends so, and its account is not written.
fn is_lent(alloc: Global) -> Result<bool, OutOfMemory> {
    let lent = lent_account(alloc)?;
    let mut list = region(alloc, &lent)?;
    Ok(lends_until_written(&mut list)? && keeps_data(&lent))
}

#[test]
fn an_account_is_lent_until_it_is_written(rt: HostRuntime) {
    assert!(rt; is_lent(rt.alloc()) == Ok(true));
}
