//! A chain as the tables of a SQLite file: the rows of a block, and the statements that keep them.
#![tactic(auto)]

mod accounts;
mod blocks;
mod columns;
mod fault;
mod inserts;
mod instructions;
mod logs;
mod rows;
mod schema;
mod tables;
mod texts;
mod totals;
mod transactions;

pub use accounts::{account_rows, gone_rows};
pub use blocks::block_rows;
pub use fault::TablesFault;
pub use rows::{AccountRow, BlockRow, BlockRows, InstructionRow, LogRow, TransactionRow};
pub use schema::{INDEXES, SCHEMA};
pub use tables::{add_accounts, add_block, add_indexes, add_tables};
pub use totals::{BlockTotals, totals_of};
