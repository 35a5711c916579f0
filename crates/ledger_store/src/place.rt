//! Files read whole, and files put in their places.
ghost use Rattle.std.specs.Prelude.{◌≡◌, true, IfErr, OnErr, OnOk};
ghost use Rattle.ledger_folder.specs.Placing.{StoppedPlacing, placing};
ghost use Rattle.ledger_store.specs.Faults.{LedgerCounts, found_or, is_free};
ghost use Rattle.ledger_store.specs.Adding.{OnlyReads};
ghost use Rattle.ledger_store.specs.Reading.{Tells};
ghost use Rattle.ledger_store.specs.declared.fault.LedgerFault.TheVariants.{Missing};

use crate::fault::LedgerFault;
use ledger_folder::{Folder, Name};
use sol_base::Blob;

/// All bytes of a file that the chain has.
pub(crate) fn read_file<F: Folder>(folder: &mut F, name: Name) -> Result<Blob, LedgerFault>
    ensures tells { Tells (F.events folder.old) (F.events folder.new) result
        (λ disk. found_or (Missing name) (disk name)) }
    ensures reads { OnOk result (OnlyReads (F.events folder.old) (F.events folder.new)) }
    ensures counts { LedgerCounts result (F.faults folder.old) (F.faults folder.new) }
{
    match folder.read(name)? {
        Some(bytes) => Ok(bytes),
        None => Err(LedgerFault::Missing { name }),
    }
}

/// Puts a file in its place so that it outlasts a crash: it is written beside its place, synced and
/// moved there, and the folder is synced.
pub(crate) fn place_file<F: Folder>(
    folder: &mut F,
    name: Name,
    bytes: &[u8],
) -> Result<(), LedgerFault>
    ensures placed { OnOk result
        (F.events folder.new ≡ placing name bytes.now (F.events folder.old)) }
    ensures stopped { OnErr result
        (StoppedPlacing name bytes.now (F.events folder.old) (F.events folder.new)) }
    ensures free { IfErr result (λ fault. is_free fault ≡ true) }
    ensures counts { LedgerCounts result (F.faults folder.old) (F.faults folder.new) }
{
    folder.write(name, bytes)?;
    folder.sync(name)?;
    folder.rename(name)?;
    folder.sync_folder()?;
    Ok(())
}
