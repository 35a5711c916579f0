//! The lines of blocks.
ghost use Rattle.block_record.specs.Record.{IsCounted};

use block_record::Block;
use ledger_tables::{BlockTotals, totals_of};
use sol_base::{Blob, Key, OutOfMemory, key_text};
use std::alloc::Global;
use std::str;

/// The text of hexadecimal digits.
fn text_of(digits: &[u8]) -> &str {
    match str::from_utf8(digits) {
        Ok(text) => text,
        Err(_) => "",
    }
}

/// Adds the line of a block in a list: its slot, its hash, how many transactions it has, how many of
/// them are not Ok, the units and the fees of all, and the microseconds that its run took.
pub(crate) fn append_listed(
    alloc: Global,
    out: &mut Blob,
    block: &Block,
    micros: u64,
) -> Result<(), OutOfMemory>
    requires { IsCounted block.now }
{
    let digits = key_text(&Key(block.hash.0));
    let hash = text_of(&digits);
    let slot = block.slot;
    let BlockTotals {
        transactions,
        failed,
        units,
        fees,
    } = totals_of(block);
    let line = format!(in alloc;
        "{slot} {hash} {transactions} {failed} {units} {fees} {micros}\n"
    )?;
    out.append(line.as_bytes())
}

/// How long the parts of `add` took, in microseconds.
#[derive(Clone, Copy)]
pub(crate) struct Times {
    /// Up to the state that the block starts from.
    pub(crate) open: u64,
    /// The run.
    pub(crate) run: u64,
    /// The writing.
    pub(crate) keep: u64,
}

/// The line of a block that was added: what a list has, with names, and how long it took in
/// microseconds.
pub(crate) fn added_line(
    alloc: Global,
    block: &Block,
    refused: usize,
    times: &Times,
) -> Result<String, OutOfMemory>
    requires { IsCounted block.now }
{
    let digits = key_text(&Key(block.hash.0));
    let hash = text_of(&digits);
    let slot = block.slot;
    let BlockTotals {
        transactions,
        failed,
        units,
        fees,
    } = totals_of(block);
    let Times { open, run, keep } = *times;
    Ok(format!(in alloc;
        "slot {slot} hash {hash} transactions {transactions} refused {refused} failed {failed} units {units} fees {fees} open {open} run {run} keep {keep}\n"
    )?)
}
