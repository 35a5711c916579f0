//! Rows into the tables, a block at a time.
ghost use Rattle.std.specs.Prelude.{IfErr, OnOk};
ghost use Rattle.ledger_tables.specs.Faults.{IsCaused};
ghost use Rattle.ledger_tables.specs.Columns.{account_columns, instruction_columns, log_columns, transaction_columns};
ghost use Rattle.ledger_tables.specs.Statements.{Ran, RanAll, StaysKnown, account_inserts, accounts_statements, block_inserts, block_statements, inserts};

use crate::fault::TablesFault;
use crate::inserts::{
    insert_account, insert_block, insert_instruction, insert_log, insert_transaction, run,
};
use crate::rows::{AccountRow, BlockRows, InstructionRow, LogRow, TransactionRow};
use crate::schema::{
    BEGIN, COMMIT, INDEXES, INSERT_INSTRUCTION, INSERT_LOG, INSERT_TRANSACTION, SCHEMA,
};
use sqlite::{Alter, Connection};

/// Makes the tables, in a database that has none of them (the project's own schema).
pub fn add_tables<S: Alter>(conn: &mut Connection<S>) -> Result<(), TablesFault>
    ensures ran { OnOk result (RanAll S.Store SCHEMA.now conn.old conn.new) }
    ensures cause { IfErr result IsCaused }
{
    Ok(conn.execute_batch(SCHEMA)?)
}

/// Makes the indexes of the tables, once their rows are there.
pub fn add_indexes<S: Alter>(conn: &mut Connection<S>) -> Result<(), TablesFault>
    ensures ran { OnOk result (RanAll S.Store INDEXES.now conn.old conn.new) }
    ensures cause { IfErr result IsCaused }
{
    Ok(conn.execute_batch(INDEXES)?)
}

fn insert_transactions<S: Alter>(
    conn: &mut Connection<S>,
    rows: &[TransactionRow],
) -> Result<(), TablesFault>
    ensures ran { OnOk result (Ran S.Store
        (inserts INSERT_TRANSACTION.now transaction_columns rows.now) conn.old conn.new) }
    ensures cause { IfErr result IsCaused }
    ensures known { StaysKnown S.Store conn.old conn.new }
{
    for row in rows {
        insert_transaction(conn, row)?;
    }
    Ok(())
}

fn insert_instructions<S: Alter>(
    conn: &mut Connection<S>,
    rows: &[InstructionRow],
) -> Result<(), TablesFault>
    ensures ran { OnOk result (Ran S.Store
        (inserts INSERT_INSTRUCTION.now instruction_columns rows.now) conn.old conn.new) }
    ensures cause { IfErr result IsCaused }
    ensures known { StaysKnown S.Store conn.old conn.new }
{
    for row in rows {
        insert_instruction(conn, row)?;
    }
    Ok(())
}

fn insert_logs<S: Alter>(conn: &mut Connection<S>, rows: &[LogRow]) -> Result<(), TablesFault>
    ensures ran { OnOk result (Ran S.Store
        (inserts INSERT_LOG.now log_columns rows.now) conn.old conn.new) }
    ensures cause { IfErr result IsCaused }
    ensures known { StaysKnown S.Store conn.old conn.new }
{
    for row in rows {
        insert_log(conn, row)?;
    }
    Ok(())
}

fn insert_accounts<S: Alter>(
    conn: &mut Connection<S>,
    rows: &[AccountRow],
) -> Result<(), TablesFault>
    ensures ran { OnOk result (Ran S.Store (account_inserts rows.now) conn.old conn.new) }
    ensures cause { IfErr result IsCaused }
    ensures known { StaysKnown S.Store conn.old conn.new }
{
    for row in rows {
        insert_account(conn, row)?;
    }
    Ok(())
}

fn insert_rows<S: Alter>(conn: &mut Connection<S>, rows: &BlockRows) -> Result<(), TablesFault>
    ensures ran { OnOk result (Ran S.Store (block_inserts rows.now) conn.old conn.new) }
    ensures cause { IfErr result IsCaused }
    ensures known { StaysKnown S.Store conn.old conn.new }
{
    insert_block(conn, &rows.block)?;
    insert_transactions(conn, rows.transactions.as_slice())?;
    insert_instructions(conn, rows.instructions.as_slice())?;
    insert_logs(conn, rows.logs.as_slice())?;
    insert_accounts(conn, rows.changed.as_slice())?;
    insert_accounts(conn, rows.gone.as_slice())?;
    Ok(())
}

/// Adds the rows of a block to the tables, as one transaction: the statements of the definition run,
/// in their order, and no others. After a failure the transaction may be open, and the database is of
/// no more use.
pub fn add_block<S: Alter>(conn: &mut Connection<S>, rows: &BlockRows) -> Result<(), TablesFault>
    ensures ran { OnOk result (Ran S.Store (block_statements rows.now) conn.old conn.new) }
    ensures cause { IfErr result IsCaused }
    ensures known { StaysKnown S.Store conn.old conn.new }
{
    run(conn, BEGIN, &[])?;
    insert_rows(conn, rows)?;
    run(conn, COMMIT, &[])?;
    Ok(())
}

/// Adds rows of accounts to their table, as one transaction, in the same way.
pub fn add_accounts<S: Alter>(
    conn: &mut Connection<S>,
    rows: &[AccountRow],
) -> Result<(), TablesFault>
    ensures ran { OnOk result (Ran S.Store (accounts_statements rows.now) conn.old conn.new) }
    ensures cause { IfErr result IsCaused }
    ensures known { StaysKnown S.Store conn.old conn.new }
{
    run(conn, BEGIN, &[])?;
    insert_accounts(conn, rows)?;
    run(conn, COMMIT, &[])?;
    Ok(())
}
