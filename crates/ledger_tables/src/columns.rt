//! The values of columns.
ghost use Rattle.std.specs.Prelude.{◌≡◌, IfErr, IfOk};
ghost use Rattle.sqlite_value.specs.Value.{owned};
ghost use Rattle.sqlite_value.specs.declared.value.Value.TheVariants.{Text};
ghost use Rattle.sqlite.specs.Values.{or_null};
ghost use Rattle.ledger_tables.specs.Columns.{flag, number as number_value};
ghost use Rattle.ledger_tables.specs.Faults.{IsCaused};
ghost use Rattle.ledger_tables.specs.declared.fault.TablesFault.TheVariants.{TooLarge};

use crate::fault::TablesFault;
use sol_base::Blob;
use sqlite::types::ValueRef;

/// The number as an integer of SQLite.
pub(crate) fn number(number: u64) -> Result<ValueRef<'static>, TablesFault>
    ensures ok { IfOk result (λ value. owned value ≡ number_value number) }
    ensures err { IfErr result (λ e. (e ≡ TooLarge number) × IsCaused e) }
{
    match i64::try_from(number) {
        Ok(integer) => Ok(ValueRef::Int(integer)),
        Err(_) => Err(TablesFault::TooLarge { number }),
    }
}

/// The text, or NULL where there is none.
pub(crate) fn text_or_null(text: &Option<Blob>) -> ValueRef<'_>
    ensures { owned result ≡ or_null Text text.now }
{
    match text {
        Some(text) => ValueRef::Text(text.as_slice()),
        None => ValueRef::Null,
    }
}

/// 1 where it is so, and 0 where it is not.
pub(crate) fn flag(is_so: bool) -> ValueRef<'static>
    ensures { owned result ≡ flag is_so }
{
    if is_so {
        ValueRef::Int(1)
    } else {
        ValueRef::Int(0)
    }
}
