//! The rows of the lines that a block's transactions logged.
ghost use Rattle.std.specs.Prelude.{◌≡◌, ◌++◌, IfOk, OnOk};
ghost use Rattle.ledger_tables.specs.Rows.{lines_of_entry, log_row, log_rows};

use crate::rows::LogRow;
use block_record::{Block, Entry};
use sol_base::{Blob, Items, OutOfMemory};
use std::alloc::Global;

fn log_row(slot: u64, position: u64, place: u64, line: &Blob) -> Result<LogRow, OutOfMemory>
    ensures { IfOk result (λ row. row ≡ log_row slot position (place, line.now)) }
{
    Ok(LogRow {
        slot,
        position,
        place,
        line: line.try_copy()?,
    })
}

/// Adds the rows of the lines of one transaction.
fn push_lines(
    rows: &mut Items<LogRow>,
    slot: u64,
    position: u64,
    entry: &Entry,
) -> Result<(), OutOfMemory>
    ensures { OnOk result (rows.new ≡ rows.old ++ lines_of_entry slot (position, entry.now)) }
{
    let lines = entry.lines.as_slice();
    for (place, line) in lines.iter().enumerate() {
        rows.push(log_row(slot, position, place as u64, line)?)?;
    }
    Ok(())
}

/// A row for each line of each transaction of the block, in their order.
pub(crate) fn log_rows(alloc: Global, block: &Block) -> Result<Items<LogRow>, OutOfMemory>
    ensures { IfOk result (λ rows. rows ≡ log_rows block.now) }
{
    let entries = block.entries.as_slice();
    let mut rows = Items::new(alloc);
    for (position, entry) in entries.iter().enumerate() {
        push_lines(&mut rows, block.slot, position as u64, entry)?;
    }
    Ok(rows)
}
