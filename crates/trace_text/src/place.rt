//! Where an address lies in the memory of a frame.

use sbpf_memory::{FRAME_COUNT, FRAME_SIZE, FRAME_STEP, INPUT_START, PROGRAM_START, STACK_START};
use sol_base::OutOfMemory;
use std::alloc::{AllocError, Global};
use trace_run::{Began, Listed, listing_places};

/// Where the heap begins.
const HEAP_START: u64 = 0x3_0000_0000;

/// The bytes before the data in the entry of an account, and all of the entry of one that was listed
/// before.
const DATA_AT: u64 = 88;

const REPEATED_LEN: usize = 8;

/// What is at an offset of a range that has so many bytes.
fn in_range(alloc: Global, name: &str, offset: u64, len: u64) -> Result<String, AllocError> {
    if offset < len {
        format!(in alloc; "in {name}, at byte {offset} of {len}")
    } else {
        let behind = offset - len;
        format!(in alloc; "{behind} bytes behind {name}, which has {len} bytes")
    }
}

/// What is at an offset of the stack.
fn in_stack(alloc: Global, offset: u64) -> Result<String, AllocError> {
    let frame = offset / FRAME_STEP;
    let within = offset % FRAME_STEP;
    if frame >= FRAME_COUNT {
        String::from_str(alloc, "behind the stack")
    } else if within < FRAME_SIZE {
        format!(in alloc; "in frame {frame} of the stack, at byte {within}")
    } else {
        let behind = within - FRAME_SIZE;
        format!(in alloc; "{behind} bytes behind frame {frame} of the stack, in the gap")
    }
}

/// What is at an offset of an account's data, of which there are so many bytes.
fn in_data(alloc: Global, account: usize, offset: u64, len: u64) -> Result<String, AllocError> {
    if offset < len {
        format!(in alloc; "in account {account}'s data, at byte {offset} of {len}")
    } else {
        let behind = offset - len;
        format!(in alloc; "{behind} bytes behind account {account}'s data, which have {len} bytes")
    }
}

/// The part of an account's entry before its data that has this offset.
fn part_at(offset: u64) -> &'static str {
    match offset {
        0..=7 => "flags",
        8..=39 => "key",
        40..=71 => "owner",
        72..=79 => "lamports",
        _ => "length",
    }
}

/// What is at an offset of an account's entry.
fn in_entry(
    alloc: Global,
    account: usize,
    listed: &Listed,
    offset: u64,
) -> Result<String, AllocError> {
    if listed.room <= REPEATED_LEN {
        format!(in alloc; "in the entry of account {account}, which repeats an earlier one")
    } else if offset < DATA_AT {
        let part = part_at(offset);
        format!(in alloc; "in account {account}'s {part}")
    } else {
        in_data(alloc, account, offset - DATA_AT, listed.len as u64)
    }
}

/// What is at an offset behind the accounts' entries, where the instruction has so many bytes of data.
fn behind_entries(alloc: Global, offset: u64, len: u64) -> Result<String, AllocError> {
    if offset < 8 {
        return String::from_str(alloc, "in the length of the instruction's data");
    }
    let offset = offset - 8;
    if offset < len {
        return format!(in alloc; "in the instruction's data, at byte {offset} of {len}");
    }
    let offset = offset - len;
    if offset < 32 {
        return String::from_str(alloc, "in the program's key, the last of the input");
    }
    let behind = offset - 32;
    format!(in alloc; "{behind} bytes behind the input")
}

/// What is at an offset of the input region.
fn in_input(alloc: Global, began: &Began, offset: u64) -> Result<String, OutOfMemory> {
    let places = listing_places(alloc, began)?;
    let mut end: u64 = 8;
    for (account, listed) in places.iter().enumerate() {
        let start = listed.start as u64;
        end = start.saturating_add(listed.room as u64);
        if start <= offset && offset < end {
            return Ok(in_entry(alloc, account, listed, offset - start)?);
        }
    }
    if offset < end {
        return Ok(String::from_str(alloc, "in the number of accounts")?);
    }
    Ok(behind_entries(alloc, offset - end, began.data.len() as u64)?)
}

/// Where an address lies in the memory of a frame, whose program has so many bytes.
pub(crate) fn place_of(
    alloc: Global,
    began: &Began,
    program_len: usize,
    addr: u64,
) -> Result<String, OutOfMemory> {
    if addr >= INPUT_START {
        return in_input(alloc, began, addr - INPUT_START);
    }
    let place = if addr < PROGRAM_START {
        String::from_str(alloc, "below the program, where nothing is mapped")
    } else if addr < STACK_START {
        in_range(
            alloc,
            "the program",
            addr - PROGRAM_START,
            program_len as u64,
        )
    } else if addr < HEAP_START {
        in_stack(alloc, addr - STACK_START)
    } else {
        in_range(alloc, "the heap", addr - HEAP_START, u64::from(began.heap))
    };
    Ok(place?)
}
