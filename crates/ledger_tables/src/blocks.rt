//! All rows of a block.
ghost use Rattle.std.specs.Prelude.{◌≡◌, IfOk};
ghost use Rattle.ledger_tables.specs.Rows.{block_row, block_rows};

use crate::accounts::{account_rows, gone_rows};
use crate::instructions::instruction_rows;
use crate::logs::log_rows;
use crate::rows::{BlockRow, BlockRows};
use crate::texts::{hash_digits, key_digits};
use crate::transactions::transaction_rows;
use account_store::Accounts;
use block_record::Block;
use sol_base::{Key, OutOfMemory};
use std::alloc::Global;

fn block_row(alloc: Global, block: &Block, micros: u64) -> Result<BlockRow, OutOfMemory>
    ensures { IfOk result (λ row. row ≡ block_row block.now micros) }
{
    Ok(BlockRow {
        slot: block.slot,
        hash: hash_digits(alloc, &block.hash)?,
        previous: hash_digits(alloc, &block.previous)?,
        collector: key_digits(alloc, &block.collector)?,
        state: hash_digits(alloc, &block.state)?,
        burned: block.burned,
        collected: block.collected,
        micros,
    })
}

/// The rows of a block whose run took so many microseconds, over the accounts before it, with the
/// accounts that it changed or made and the keys that it took away (the project's own).
///
/// Only the instructions of messages have rows, and none that programs call. The keys that a message
/// looks up are those of the accounts before the block; where that is refused it has none of them.
pub fn block_rows(
    alloc: Global,
    before: &Accounts,
    block: &Block,
    micros: u64,
    changed: &Accounts,
    gone: &[Key],
) -> Result<BlockRows, OutOfMemory>
    ensures { IfOk result (λ rows.
        rows ≡ block_rows before.now block.now micros changed.now gone.now) }
{
    Ok(BlockRows {
        block: block_row(alloc, block, micros)?,
        transactions: transaction_rows(alloc, block)?,
        instructions: instruction_rows(alloc, before, block)?,
        logs: log_rows(alloc, block)?,
        changed: account_rows(alloc, block.slot, changed)?,
        gone: gone_rows(alloc, block.slot, gone)?,
    })
}
