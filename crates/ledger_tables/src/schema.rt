//! The schema of the tables.

/// The tables of a chain. Numbers are integers; keys, hashes and signatures are texts of hexadecimal
/// digits in lower case; `accounts` of an instruction is a JSON array of keys; `slot` and `position`
/// together name a transaction.
pub const SCHEMA: &str = "\
CREATE TABLE blocks (
  slot INTEGER PRIMARY KEY, hash TEXT NOT NULL, previous TEXT NOT NULL, collector TEXT NOT NULL,
  state TEXT NOT NULL, burned INTEGER NOT NULL, collected INTEGER NOT NULL, micros INTEGER NOT NULL
) STRICT;
CREATE TABLE transactions (
  slot INTEGER NOT NULL, position INTEGER NOT NULL, signature TEXT, payer TEXT,
  status TEXT NOT NULL, units INTEGER NOT NULL, fee INTEGER NOT NULL
) STRICT;
CREATE TABLE instructions (
  slot INTEGER NOT NULL, position INTEGER NOT NULL, place INTEGER NOT NULL, program TEXT,
  accounts TEXT NOT NULL, data BLOB NOT NULL
) STRICT;
CREATE TABLE logs (
  slot INTEGER NOT NULL, position INTEGER NOT NULL, place INTEGER NOT NULL, line TEXT NOT NULL
) STRICT;
CREATE TABLE accounts (
  slot INTEGER NOT NULL, key TEXT NOT NULL, lamports INTEGER NOT NULL, owner TEXT NOT NULL,
  executable INTEGER NOT NULL, data BLOB NOT NULL
) STRICT;
";

/// What makes the tables quick to look into, once their rows are there.
pub const INDEXES: &str = "\
CREATE INDEX transactions_by_slot ON transactions (slot, position);
CREATE INDEX transactions_by_payer ON transactions (payer);
CREATE INDEX instructions_by_slot ON instructions (slot, position);
CREATE INDEX logs_by_slot ON logs (slot, position);
CREATE INDEX accounts_by_key ON accounts (key, slot);
";

pub(crate) const INSERT_BLOCK: &str = "INSERT INTO blocks VALUES (?1, ?2, ?3, ?4, ?5, ?6, ?7, ?8)";

pub(crate) const INSERT_TRANSACTION: &str =
    "INSERT INTO transactions VALUES (?1, ?2, ?3, ?4, ?5, ?6, ?7)";

pub(crate) const INSERT_INSTRUCTION: &str =
    "INSERT INTO instructions VALUES (?1, ?2, ?3, ?4, ?5, ?6)";

pub(crate) const INSERT_LOG: &str = "INSERT INTO logs VALUES (?1, ?2, ?3, ?4)";

pub(crate) const INSERT_ACCOUNT: &str = "INSERT INTO accounts VALUES (?1, ?2, ?3, ?4, ?5, ?6)";

pub(crate) const BEGIN: &str = "BEGIN";

pub(crate) const COMMIT: &str = "COMMIT";
