//! Why a table does not take a row.
use sol_base::OutOfMemory;
use sqlite::Error as SqlError;
use std::alloc::AllocError;
use thiserror::Error;

/// Why a table does not take a row.
#[derive(Clone, Copy, Debug, PartialEq, Eq, Error)]
pub enum TablesFault {
    /// SQLite has no integers from 2^63 on.
    #[error("the number {number} is above what SQLite can hold")]
    TooLarge { number: u64 },
    /// The file or a statement is refused, or memory ran out in it.
    #[error("{error}")]
    Sql { error: SqlError },
    #[error("out of memory")]
    OutOfMemory,
}

impl From<OutOfMemory> for TablesFault {
    ghost use Rattle.std.specs.Prelude.{◌≡◌};
    ghost use Rattle.ledger_tables.specs.declared.fault.TablesFault.TheVariants.{OutOfMemory as no_memory};

    ghost from_gives = { λ _ e. e ≡ no_memory };

    fn from(_e: OutOfMemory) -> TablesFault {
        TablesFault::OutOfMemory
    }
}

impl From<AllocError> for TablesFault {
    ghost use Rattle.std.specs.Prelude.{◌≡◌};
    ghost use Rattle.ledger_tables.specs.declared.fault.TablesFault.TheVariants.{OutOfMemory as no_memory};

    ghost from_gives = { λ _ e. e ≡ no_memory };

    fn from(_e: AllocError) -> TablesFault {
        TablesFault::OutOfMemory
    }
}

impl From<SqlError> for TablesFault {
    ghost use Rattle.std.specs.Prelude.{◌≡◌};
    ghost use Rattle.ledger_tables.specs.declared.fault.TablesFault.TheVariants.{Sql};

    ghost from_gives = { λ error e. e ≡ Sql error };

    fn from(error: SqlError) -> TablesFault {
        TablesFault::Sql { error }
    }
}
