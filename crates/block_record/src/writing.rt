//! From a block to the bytes of its record, and its hash.
ghost use Rattle.std.specs.Prelude.{◌≡◌, ◌≤◌, ◌++◌, ℕ, List, length, All, OnOk, IfOk};
ghost use Rattle.std.specs.List.{flat_map};
ghost use Rattle.sha2.specs.Hashers.{Holds256};
ghost use Rattle.spec_base.specs.Bytes.{sized_bytes};
ghost use Rattle.message_codec.specs.Wire.{IsCountable, max_wire_len};
ghost use Rattle.format_fields.specs.Output.{Adds};
ghost use Rattle.block_record.specs.Record.{AreCountable, IsCounted, bytes_of_lines, end_bytes, entry_bytes, entry_in, heading_bytes, front_bytes, block_bytes, hash_of_block, bytes_of_record, whole_record};

use crate::block::{Block, Entry, EntryParts};
use format_fields::{ByteCount, Output};
use sha2::{Digest, Sha256};
use sol_base::{Blob, Hash32, Items, Key, OutOfMemory};
use std::alloc::Global;
use tx_report::status_bytes;

/// What a record begins with.
pub(crate) const MAGIC: [u8; 8] = *b"SOLBLCK1";

/// A transaction or a line: its length, and its bytes.
fn write_sized<O: Output>(out: &mut O, bytes: &Blob) -> Result<(), OutOfMemory>
    requires { IsCountable bytes.now }
    ensures { OnOk result (Adds O.holds out.old out.new (sized_bytes bytes.now)) }
{
    out.append(&(bytes.len() as u16).to_le_bytes())?;
    out.append(bytes.as_slice())
}

fn write_each_line<O: Output>(out: &mut O, lines: &[Blob]) -> Result<(), OutOfMemory>
    requires { All IsCountable lines.now }
    ensures { OnOk result (Adds O.holds out.old out.new (flat_map sized_bytes lines.now)) }
{
    for line in lines {
        write_sized(out, line)?;
    }
    Ok(())
}

fn write_lines<O: Output>(out: &mut O, lines: &Items<Blob>) -> Result<(), OutOfMemory>
    requires { AreCountable lines.now }
    ensures { OnOk result (Adds O.holds out.old out.new (bytes_of_lines lines.now)) }
{
    let lines = lines.as_slice();
    out.append(&(lines.len() as u16).to_le_bytes())?;
    write_each_line(out, lines)
}

/// Writes an entry whose parts are apart from each other.
pub fn write_parts<O: Output>(out: &mut O, parts: EntryParts<'_>) -> Result<(), OutOfMemory>
    requires wire { length parts.wire.now ≤ max_wire_len }
    requires lines { AreCountable parts.lines.now }
    ensures { OnOk result (Adds O.holds out.old out.new (entry_bytes (entry_in parts.entry))) }
{
    write_sized(out, parts.wire)?;
    out.append(&status_bytes(parts.status))?;
    out.append(&parts.units.to_le_bytes())?;
    out.append(&parts.fee.to_le_bytes())?;
    write_lines(out, parts.lines)
}

fn write_entry<O: Output>(out: &mut O, entry: &Entry) -> Result<(), OutOfMemory>
    requires wire { length entry.now.wire ≤ max_wire_len }
    requires lines { AreCountable entry.now.lines }
    ensures { OnOk result (Adds O.holds out.old out.new (entry_bytes entry.now)) }
{
    let parts = EntryParts {
        wire: &entry.wire,
        status: &entry.status,
        units: entry.units,
        fee: entry.fee,
        lines: &entry.lines,
    };
    write_parts(out, parts)
}

fn write_each_entry<O: Output>(out: &mut O, entries: &[Entry]) -> Result<(), OutOfMemory>
    requires wires { All (λ entry. length entry.wire ≤ max_wire_len) entries.now }
    requires lines { All (λ entry. AreCountable entry.lines) entries.now }
    ensures { OnOk result (Adds O.holds out.old out.new (flat_map entry_bytes entries.now)) }
{
    for entry in entries {
        write_entry(out, entry)?;
    }
    Ok(())
}

/// Writes what is before the entries, of which there are so many.
pub fn write_heading<O: Output>(
    out: &mut O,
    slot: u64,
    collector: &Key,
    previous: &Hash32,
    entries: u32,
) -> Result<(), OutOfMemory>
    ensures { OnOk result (Adds O.holds out.old out.new
        (heading_bytes slot collector.now previous.now entries)) }
{
    out.append(&MAGIC)?;
    out.append(&slot.to_le_bytes())?;
    out.append(&collector.0)?;
    out.append(&previous.0)?;
    out.append(&entries.to_le_bytes())
}

/// Writes a record up to the end of its entries.
fn write_front<O: Output>(out: &mut O, block: &Block) -> Result<(), OutOfMemory>
    requires { IsCounted block.now }
    ensures { OnOk result (Adds O.holds out.old out.new (front_bytes block.now)) }
{
    let entries = block.entries.as_slice();
    write_heading(
        out,
        block.slot,
        &block.collector,
        &block.previous,
        entries.len() as u32,
    )?;
    write_each_entry(out, entries)
}

/// Writes what is between the entries and the block hash.
fn write_end<O: Output>(
    out: &mut O,
    burned: u64,
    collected: u64,
    state: &Hash32,
) -> Result<(), OutOfMemory>
    ensures { OnOk result (Adds O.holds out.old out.new (end_bytes burned collected state.now)) }
{
    out.append(&burned.to_le_bytes())?;
    out.append(&collected.to_le_bytes())?;
    out.append(&state.0)
}

/// Writes all of a record but the block hash.
fn write_block<O: Output>(out: &mut O, block: &Block) -> Result<(), OutOfMemory>
    requires { IsCounted block.now }
    ensures { OnOk result (Adds O.holds out.old out.new (block_bytes block.now)) }
{
    write_front(out, block)?;
    write_end(out, block.burned, block.collected, &block.state)
}

/// The output with the record of the block behind what it has taken (the project's own format). The
/// hash that is in it is the block's own.
pub fn write_record<O: Output>(mut out: O, block: &Block) -> Result<O, OutOfMemory>
    requires { IsCounted block.now }
    ensures { IfOk result (λ new. Adds O.holds out new (bytes_of_record block.now)) }
{
    write_block(&mut out, block)?;
    out.append(&block.hash.0)?;
    Ok(out)
}

/// The record of the block, in one buffer. The hash that is in it is the block's own.
pub fn record_bytes(alloc: Global, block: &Block) -> Result<Blob, OutOfMemory>
    requires { IsCounted block.now }
    ensures { IfOk result (λ bytes. bytes ≡ bytes_of_record block.now) }
{
    let count = write_record(ByteCount(0), block)?;
    let out = Blob::with_capacity(alloc, count.0)?;
    write_record(out, block)
}

/// A hash that has taken what is before the entries in the record of a block, which is to have
/// so many.
pub fn begin_hash(
    slot: u64,
    collector: &Key,
    previous: &Hash32,
    entries: u32,
) -> Result<Sha256, OutOfMemory>
    ensures { IfOk result (λ hasher.
        Holds256 hasher (heading_bytes slot collector.now previous.now entries)) }
{
    let mut hasher = Sha256::new();
    write_heading(&mut hasher, slot, collector, previous, entries)?;
    Ok(hasher)
}

/// The hash with these entries after what it has taken. No copy of their bytes is made.
pub fn hash_entries(mut hasher: Sha256, entries: &[Entry]) -> Result<Sha256, OutOfMemory>
    requires wires { All (λ entry. length entry.wire ≤ max_wire_len) entries.now }
    requires lines { All (λ entry. AreCountable entry.lines) entries.now }
    ensures { IfOk result (λ next. (taken : List ℕ) → Holds256 hasher taken
        → Holds256 next (taken ++ flat_map entry_bytes entries.now)) }
{
    write_each_entry(&mut hasher, entries)?;
    Ok(hasher)
}

/// The SHA-256 of all that is before the block hash in the block's record.
pub fn end_hash(mut hasher: Sha256, block: &Block) -> Hash32
    requires { Holds256 hasher (front_bytes block.now) }
    ensures { result ≡ hash_of_block block.now }
{
    hasher.update(&block.burned.to_le_bytes());
    hasher.update(&block.collected.to_le_bytes());
    hasher.update(&block.state.0);
    Hash32(hasher.finalize())
}

/// Ends a record, from its bytes up to the end of its entries, which the hash has taken, and tells
/// its block hash.
pub fn end_record<O: Output>(
    out: &mut O,
    mut hasher: Sha256,
    burned: u64,
    collected: u64,
    state: &Hash32,
) -> Result<Hash32, OutOfMemory>
    ensures { (front : List ℕ) → O.holds out.old front → Holds256 hasher front
        → IfOk result (λ hash.
        O.holds out.new (whole_record front burned collected state.now).bytes
        × (hash ≡ (whole_record front burned collected state.now).hash)) }
{
    write_end(&mut hasher, burned, collected, state)?;
    let hash = Hash32(hasher.finalize());
    write_end(out, burned, collected, state)?;
    out.append(&hash.0)?;
    Ok(hash)
}

/// The SHA-256 of all that is before the block hash, at once.
pub fn block_hash(_alloc: Global, block: &Block) -> Result<Hash32, OutOfMemory>
    requires { IsCounted block.now }
    ensures { IfOk result (λ hash. hash ≡ hash_of_block block.now) }
{
    let entries = block.entries.as_slice();
    let hasher = begin_hash(
        block.slot,
        &block.collector,
        &block.previous,
        entries.len() as u32,
    )?;
    Ok(end_hash(hash_entries(hasher, entries)?, block))
}

/// The number of lines and the lines, as they are in an entry.
pub fn lines_bytes(alloc: Global, lines: &Items<Blob>) -> Result<Blob, OutOfMemory>
    requires { AreCountable lines.now }
    ensures { IfOk result (λ bytes. bytes ≡ bytes_of_lines lines.now) }
{
    let mut count = ByteCount(0);
    write_lines(&mut count, lines)?;
    let mut out = Blob::with_capacity(alloc, count.0)?;
    write_lines(&mut out, lines)?;
    Ok(out)
}
