//! Sets of locks as numbers, and sets that conflict.
use crate::tests::trial::{READ, WRITE, locks_of};
use lock_table::{HashSeed, KeyTable, LockSet, NumberedLock, conflict, has_distinct_keys, set_of};
use sol_base::OutOfMemory;
use std::alloc::Global;
use std::process::Abort;
use std::test::Fail;

/// The set of the locks, where they are on distinct keys and the table has room for them.
fn set_in(
    rt: &impl Abort,
    alloc: Global,
    table: &mut KeyTable,
    entries: &[(u8, bool)],
) -> Result<LockSet, OutOfMemory> {
    let locks = locks_of(alloc, entries)?;
    assert!(rt; table.len() < 1_000 && locks.len() < 1_000 && has_distinct_keys(&locks));
    set_of(alloc, table, &locks)
}

/// The locks of the second set below, where keys 3 and 5 have the numbers 0 and 1.
const NUMBERED: [NumberedLock; 3] = [
    NumberedLock {
        number: 2,
        write: READ,
    },
    NumberedLock {
        number: 1,
        write: WRITE,
    },
    NumberedLock {
        number: 0,
        write: READ,
    },
];

#[test]
fn sets_keep_the_order_of_their_locks(rt: HostRuntime) -> Result<(), Fail> {
    let alloc = rt.alloc();
    let mut table = KeyTable::new(alloc, HashSeed::new().hash()?);
    let _ = set_in(&rt, alloc, &mut table, &[(3, WRITE), (5, READ)])?;
    let set = set_in(&rt, alloc, &mut table, &[(4, READ), (5, WRITE), (3, READ)])?;
    assert!(rt; set.items() == NUMBERED.as_slice());
    Ok(())
}

/// Locks, and whether they conflict with those of the test.
const CONFLICTS: [(&[(u8, bool)], bool); 9] = [
    (&[], false),
    (&[(1, READ)], false),
    (&[(1, WRITE)], true),
    (&[(2, READ)], true),
    (&[(2, WRITE)], true),
    (&[(4, WRITE), (3, READ), (1, READ)], false),
    (&[(4, WRITE), (3, WRITE)], true),
    (&[(3, READ), (2, READ), (1, READ)], true),
    (&[(9, WRITE), (8, WRITE)], false),
];

/// Whether both ways round the sets conflict, or do not.
fn conflict_so(one: &LockSet, other: &LockSet, so: bool) -> bool {
    conflict(one, other) == so && conflict(other, one) == so
}

#[test]
fn sets_conflict_where_a_number_is_in_both_and_one_writes_it(rt: HostRuntime) -> Result<(), Fail> {
    let alloc = rt.alloc();
    let mut table = KeyTable::new(alloc, HashSeed::new().hash()?);
    let first = set_in(&rt, alloc, &mut table, &[(1, READ), (2, WRITE), (3, READ)])?;
    for (entries, so) in CONFLICTS {
        let second = set_in(&rt, alloc, &mut table, entries)?;
        assert!(rt; conflict_so(&first, &second, so));
    }
    Ok(())
}
