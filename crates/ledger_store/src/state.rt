//! Files of full states.
ghost use Rattle.std.specs.Prelude.{◌≡◌, IfOk};
ghost use Rattle.spec_base.specs.Reading.{Gives};
ghost use Rattle.snapshot_codec.specs.Snapshot.{BeginsWith, HasWidths, IsReadable, IsWritable, snapshot_bytes as bytes_of_snapshot};
ghost use Rattle.ledger_folder.specs.declared.name.Name.TheVariants.{State};
ghost use Rattle.ledger_store.specs.Faults.{LedgerCounts, NeverFails, is_ledger_memory};
ghost use Rattle.ledger_store.specs.Seal.{sealed};
ghost use Rattle.ledger_store.specs.States.{front_in, state_from, state_in, whole_state};
ghost use Rattle.ledger_store.specs.Reading.{Tells};

use crate::fault::{LedgerFault, snapshot_fault};
use crate::place::read_file;
use crate::seal::{body_of, seal};
use format_fields::ByteCount;
use ledger_folder::{Folder, Name};
use snapshot_codec::{Prefix, Snapshot, read_snapshot, write_snapshot};
use sol_base::{Blob, OutOfMemory};
use std::alloc::Global;

/// The place of the slot in a snapshot and in a record.
pub(crate) const SLOT_PLACE: usize = 8;

/// The snapshot that a file's body begins with.
#[tactic(auto, unfolding(crate::specs::States::front_in))]
pub(crate) fn front_in(alloc: Global, name: Name, body: &[u8]) -> Result<Prefix, LedgerFault>
    ensures gives { Gives is_ledger_memory (λ prefix. prefix) result (front_in name body.now) }
    ensures begins { IfOk result (λ prefix. BeginsWith body.now prefix) }
    ensures quiet { NeverFails result }
{
    match read_snapshot(alloc, body) {
        Ok(prefix) => Ok(prefix),
        Err(fault) => Err(snapshot_fault(name, fault)),
    }
}

/// A snapshot of the slot, and nothing behind it.
#[tactic(auto, unfolding(crate::specs::States::whole_state))]
pub(crate) fn whole_state(alloc: Global, slot: u64, body: &[u8]) -> Result<Snapshot, LedgerFault>
    ensures gives { Gives is_ledger_memory (λ s. s) result (whole_state slot body.now) }
    ensures readable { IfOk result IsReadable }
    ensures widths { IfOk result HasWidths }
    ensures quiet { NeverFails result }
{
    let name = Name::State { slot };
    let Prefix { snapshot, length } = front_in(alloc, name, body)?;
    if snapshot.slot != slot {
        return Err(LedgerFault::Damaged {
            name,
            at: SLOT_PLACE,
        });
    }
    if length != body.len() {
        return Err(LedgerFault::Damaged { name, at: length });
    }
    Ok(snapshot)
}

/// The full state of a slot that a file holds.
#[tactic(auto, unfolding(crate::specs::States::state_from))]
fn state_from(alloc: Global, slot: u64, bytes: &[u8]) -> Result<Snapshot, LedgerFault>
    ensures gives { Gives is_ledger_memory (λ s. s) result (state_from slot bytes.now) }
    ensures readable { IfOk result IsReadable }
    ensures widths { IfOk result HasWidths }
    ensures quiet { NeverFails result }
{
    let body = body_of(Name::State { slot }, bytes)?;
    whole_state(alloc, slot, body)
}

/// The full state after the block of a slot.
pub(crate) fn state_at<F: Folder>(
    alloc: Global,
    folder: &mut F,
    slot: u64,
) -> Result<Snapshot, LedgerFault>
    ensures tells { Tells (F.events folder.old) (F.events folder.new) result
        (λ disk. state_in slot (disk (State slot))) }
    ensures readable { IfOk result IsReadable }
    ensures widths { IfOk result HasWidths }
    ensures counts { LedgerCounts result (F.faults folder.old) (F.faults folder.new) }
{
    let bytes = read_file(folder, Name::State { slot })?;
    state_from(alloc, slot, bytes.as_slice())
}

/// The file of a full state, sealed.
pub(crate) fn state_file(alloc: Global, snapshot: &Snapshot) -> Result<Blob, OutOfMemory>
    requires { IsWritable snapshot.now }
    ensures { IfOk result (λ bytes. bytes ≡ sealed (bytes_of_snapshot snapshot.now)) }
{
    let count = write_snapshot(ByteCount(0), snapshot)?;
    let out = Blob::with_capacity(alloc, count.0.saturating_add(32))?;
    let mut out = write_snapshot(out, snapshot)?;
    seal(&mut out)?;
    Ok(out)
}
