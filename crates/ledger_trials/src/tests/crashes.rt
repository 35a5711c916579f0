//! A crash at each step of a block that is added.
use crate::tests::inputs::{add_block, chain, slot_of, stands_at};
use ledger_folder::{MemFolder, Name};
use ledger_store::open_ledger;
use sol_base::OutOfMemory;
use std::alloc::Global;
use std::test::Fail;
use std::thread::Threads;

/// Puts anything in the place of the files of a slot beside its block.
fn spoil(folder: &mut MemFolder, slot: u64) -> Result<(), OutOfMemory> {
    folder.put(Name::State { slot }, b"anything")?;
    folder.put(Name::Changes { slot }, b"anything")
}

/// How many blocks a chain of so many has after a crash in the next one, after so many of its steps.
/// None where it is not as it was made, or the block after it is not added then.
fn left_after<T: Threads>(
    threads: &T,
    alloc: Global,
    blocks: u8,
    steps: u64,
    spoils: bool,
) -> Result<Option<usize>, Fail> {
    let next = blocks.saturating_add(1);
    let mut folder = chain(threads, alloc, 3, blocks)?;
    folder.allow(steps);
    let _refused = add_block(threads, alloc, &mut folder, next)?;
    folder.allow(1000);
    if spoils {
        spoil(&mut folder, slot_of(next))?;
    }
    let ledger = open_ledger(threads, alloc, &mut folder)?;
    let count = ledger.head.slots.len();
    let number = if count == usize::from(blocks) {
        blocks
    } else {
        next
    };
    if !stands_at(alloc, &ledger, number)? {
        return Ok(None);
    }
    add_block(threads, alloc, &mut folder, number.saturating_add(1))??;
    let ledger = open_ledger(threads, alloc, &mut folder)?;
    Ok(if stands_at(alloc, &ledger, number.saturating_add(1))? {
        Some(count)
    } else {
        None
    })
}

/// Whether a crash leaves the chain before the block up to the seventh step, and then the chain after
/// it, whatever the other files of its slot hold before the fifth.
fn survives<T: Threads>(threads: &T, alloc: Global, blocks: u8) -> Result<bool, Fail> {
    for steps in 0..9u64 {
        let more = if steps < 7 { 0 } else { 1 };
        let wanted = usize::from(blocks) + more;
        if left_after(threads, alloc, blocks, steps, steps < 4)? != Some(wanted) {
            return Ok(false);
        }
    }
    Ok(true)
}

#[test]
fn a_crash_leaves_the_chain_before_or_after(rt: HostRuntime) -> Result<(), Fail> {
    for blocks in 0..5 {
        assert!(rt; survives(&rt, rt.alloc(), blocks)?);
    }
    Ok(())
}
