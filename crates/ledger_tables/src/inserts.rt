//! One row into its table.
ghost use Rattle.std.specs.Prelude.{[], ◌∷◌, IfErr, OnOk};
ghost use Rattle.sqlite.specs.Values.{bound};
ghost use Rattle.ledger_tables.specs.Faults.{IsCaused};
ghost use Rattle.ledger_tables.specs.Columns.{account_columns, block_columns, instruction_columns, log_columns, transaction_columns};
ghost use Rattle.ledger_tables.specs.Statements.{Ran, StaysKnown};

use crate::columns::{flag, number, text_or_null};
use crate::fault::TablesFault;
use crate::rows::{AccountRow, BlockRow, InstructionRow, LogRow, TransactionRow};
use crate::schema::{
    INSERT_ACCOUNT, INSERT_BLOCK, INSERT_INSTRUCTION, INSERT_LOG, INSERT_TRANSACTION,
};
use sqlite::types::ValueRef;
use sqlite::{Alter, Connection};

/// Runs a statement. How many rows it wrote is of no use here.
pub(crate) fn run<S: Alter>(
    conn: &mut Connection<S>,
    sql: &str,
    values: &[ValueRef<'_>],
) -> Result<(), TablesFault>
    ensures ran { OnOk result (Ran S.Store (record { sql = sql.now; values = bound values.now } ∷ [])
        conn.old conn.new) }
    ensures cause { IfErr result IsCaused }
    ensures known { StaysKnown S.Store conn.old conn.new }
{
    let _rows = conn.execute(sql, values)?;
    Ok(())
}

pub(crate) fn insert_block<S: Alter>(
    conn: &mut Connection<S>,
    row: &BlockRow,
) -> Result<(), TablesFault>
    ensures ran { OnOk result (Ran S.Store
        (record { sql = INSERT_BLOCK.now; values = block_columns row.now } ∷ [])
        conn.old conn.new) }
    ensures cause { IfErr result IsCaused }
    ensures known { StaysKnown S.Store conn.old conn.new }
{
    let values = [
        number(row.slot)?,
        ValueRef::Text(row.hash.as_slice()),
        ValueRef::Text(row.previous.as_slice()),
        ValueRef::Text(row.collector.as_slice()),
        ValueRef::Text(row.state.as_slice()),
        number(row.burned)?,
        number(row.collected)?,
        number(row.micros)?,
    ];
    run(conn, INSERT_BLOCK, &values)
}

pub(crate) fn insert_transaction<S: Alter>(
    conn: &mut Connection<S>,
    row: &TransactionRow,
) -> Result<(), TablesFault>
    ensures ran { OnOk result (Ran S.Store
        (record { sql = INSERT_TRANSACTION.now; values = transaction_columns row.now } ∷ [])
        conn.old conn.new) }
    ensures cause { IfErr result IsCaused }
    ensures known { StaysKnown S.Store conn.old conn.new }
{
    let values = [
        number(row.slot)?,
        number(row.position)?,
        text_or_null(&row.signature),
        text_or_null(&row.payer),
        ValueRef::Text(row.status.as_slice()),
        number(row.units)?,
        number(row.fee)?,
    ];
    run(conn, INSERT_TRANSACTION, &values)
}

pub(crate) fn insert_instruction<S: Alter>(
    conn: &mut Connection<S>,
    row: &InstructionRow,
) -> Result<(), TablesFault>
    ensures ran { OnOk result (Ran S.Store
        (record { sql = INSERT_INSTRUCTION.now; values = instruction_columns row.now } ∷ [])
        conn.old conn.new) }
    ensures cause { IfErr result IsCaused }
    ensures known { StaysKnown S.Store conn.old conn.new }
{
    let values = [
        number(row.slot)?,
        number(row.position)?,
        number(row.place)?,
        text_or_null(&row.program),
        ValueRef::Text(row.accounts.as_slice()),
        ValueRef::Blob(row.input.as_slice()),
    ];
    run(conn, INSERT_INSTRUCTION, &values)
}

pub(crate) fn insert_log<S: Alter>(
    conn: &mut Connection<S>,
    row: &LogRow,
) -> Result<(), TablesFault>
    ensures ran { OnOk result (Ran S.Store
        (record { sql = INSERT_LOG.now; values = log_columns row.now } ∷ []) conn.old conn.new) }
    ensures cause { IfErr result IsCaused }
    ensures known { StaysKnown S.Store conn.old conn.new }
{
    let values = [
        number(row.slot)?,
        number(row.position)?,
        number(row.place)?,
        ValueRef::Text(row.line.as_slice()),
    ];
    run(conn, INSERT_LOG, &values)
}

pub(crate) fn insert_account<S: Alter>(
    conn: &mut Connection<S>,
    row: &AccountRow,
) -> Result<(), TablesFault>
    ensures ran { OnOk result (Ran S.Store
        (record { sql = INSERT_ACCOUNT.now; values = account_columns row.now } ∷ [])
        conn.old conn.new) }
    ensures cause { IfErr result IsCaused }
    ensures known { StaysKnown S.Store conn.old conn.new }
{
    let values = [
        number(row.slot)?,
        ValueRef::Text(row.key.as_slice()),
        number(row.lamports)?,
        ValueRef::Text(row.owner.as_slice()),
        flag(row.executable),
        ValueRef::Blob(row.bytes.as_slice()),
    ];
    run(conn, INSERT_ACCOUNT, &values)
}
