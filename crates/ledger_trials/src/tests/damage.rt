//! Files that are cut or changed.
use crate::tests::inputs::{chain, slot_of};
use ledger_folder::{MemFolder, Name};
use ledger_store::{LedgerFault, open_ledger, read_block};
use sol_base::{Blob, OutOfMemory};
use std::alloc::Global;
use std::test::Fail;
use std::thread::Threads;

/// The bytes with the one at a place changed, or without it and all behind it.
fn damaged(alloc: Global, bytes: &[u8], at: usize, cut: bool) -> Result<Blob, OutOfMemory> {
    let mut out = Blob::new(alloc);
    for (place, byte) in bytes.iter().enumerate() {
        if place < at || (place > at && !cut) {
            out.append(&[*byte])?;
        } else if place == at && !cut {
            out.append(&[*byte ^ 4])?;
        }
    }
    Ok(out)
}

/// What reading the file's part of the chain refuses.
fn refusal<T: Threads>(
    threads: &T,
    alloc: Global,
    folder: &mut MemFolder,
    name: Name,
) -> Option<LedgerFault> {
    match name {
        Name::Block { slot } => read_block(alloc, folder, slot).err(),
        _ => open_ledger(threads, alloc, folder).err(),
    }
}

/// Whether it is refused as damaged, by its name.
fn is_named<T: Threads>(threads: &T, alloc: Global, folder: &mut MemFolder, wanted: Name) -> bool {
    match refusal(threads, alloc, folder, wanted) {
        Some(LedgerFault::Damaged { name, .. }) => name == wanted,
        _ => false,
    }
}

/// Whether each cut and each changed byte of the file is refused by its name.
fn is_told<T: Threads>(
    threads: &T,
    alloc: Global,
    folder: &mut MemFolder,
    name: Name,
) -> Result<bool, OutOfMemory> {
    let Some(bytes) = folder.bytes(name)? else {
        return Ok(false);
    };
    for at in 0..bytes.len() {
        for cut in [true, false] {
            folder.put(name, damaged(alloc, bytes.as_slice(), at, cut)?.as_slice())?;
            if !is_named(threads, alloc, folder, name) {
                return Ok(false);
            }
        }
    }
    folder.put(name, bytes.as_slice())?;
    Ok(refusal(threads, alloc, folder, name).is_none())
}

#[test]
fn a_damaged_file_is_named(rt: HostRuntime) -> Result<(), Fail> {
    let alloc = rt.alloc();
    let mut folder = chain(&rt, alloc, 3, 4)?;
    assert!(rt; is_told(&rt, alloc, &mut folder, Name::Chain)?);
    assert!(rt; is_told(&rt, alloc, &mut folder, Name::State { slot: slot_of(3) })?);
    assert!(rt; is_told(&rt, alloc, &mut folder, Name::Changes { slot: slot_of(4) })?);
    assert!(rt; is_told(&rt, alloc, &mut folder, Name::Block { slot: slot_of(4) })?);
    Ok(())
}
