//! The entries of a block, as values and as the bytes of its record.
ghost use Rattle.std.specs.Prelude.{◌≡◌, ◌+◌, ◌<◌, ◌^◌, ◌++◌, All, IfOk, OnOk, length};
ghost use Rattle.std.specs.List.{flat_map};
ghost use Rattle.admission.specs.Batches.{IsOf};
ghost use Rattle.block_record.specs.Record.{entry_bytes};
ghost use Rattle.tx_report.specs.Outcomes.{IsSmallOutcome};
ghost use Rattle.block_end.specs.Blocks.{entries_of, entry_of};

use admission::{Candidate, Chosen};
use bank_core::SharedOutcome;
use block_record::{Entry, EntryParts, write_parts};
use sol_base::{Blob, Items, OutOfMemory};
use std::alloc::Global;
use tx_report::Outcome;

/// A transaction as it came, with its outcome.
fn entry_of(
    alloc: Global,
    wires: &[Blob],
    chosen: &Chosen,
    outcome: SharedOutcome,
) -> Result<Entry, OutOfMemory>
    requires below { chosen.now.position < length wires.now }
    requires fee { outcome.base_paid + outcome.priority_paid < 2 ^ 64 }
    ensures { IfOk result (λ entry. entry ≡ entry_of wires.now (chosen.now, outcome)) }
{
    let Outcome {
        status,
        units,
        base_paid,
        priority_paid,
        lines,
    } = outcome.into_outcome(alloc)?;
    Ok(Entry {
        wire: wires[chosen.position as usize].try_copy()?,
        status,
        units,
        fee: base_paid + priority_paid,
        lines,
    })
}

/// Each transaction with its outcome, in their order.
pub(crate) fn entries_of(
    alloc: Global,
    wires: &[Blob],
    order: &[Candidate],
    outcomes: Items<SharedOutcome>,
) -> Result<Items<Entry>, OutOfMemory>
    requires one_each { length outcomes ≡ length order.now }
    requires below { All (λ chosen. chosen.position < length wires.now) order.now }
    requires fees { All (λ outcome. outcome.base_paid + outcome.priority_paid < 2 ^ 64) outcomes }
    ensures each { IfOk result (λ entries. entries ≡ entries_of wires.now order.now outcomes) }
    ensures long { IfOk result (λ entries. length entries ≡ length order.now) }
{
    let mut entries = Items::with_capacity(alloc, order.len())?;
    for outcome in outcomes.into_vec() {
        let chosen = order[entries.len()].chosen();
        entries.push(entry_of(alloc, wires, chosen, outcome)?)?;
    }
    Ok(entries)
}

/// Writes the entry of a transaction with its outcome. Neither is copied.
fn write_entry(
    out: &mut Blob,
    wires: &[Blob],
    chosen: &Chosen,
    outcome: &Outcome,
) -> Result<(), OutOfMemory>
    requires of { IsOf wires.now chosen.now }
    requires small { IsSmallOutcome outcome.now }
    ensures { OnOk result (out.new
        ≡ out.old ++ entry_bytes (entry_of wires.now (chosen.now, outcome.now))) }
{
    let parts = EntryParts {
        wire: &wires[chosen.position as usize],
        status: &outcome.status,
        units: outcome.units,
        fee: outcome.base_paid + outcome.priority_paid,
        lines: &outcome.lines,
    };
    write_parts(out, parts)
}

/// Writes the entry of each transaction, in their order.
pub(crate) fn write_entries(
    out: &mut Blob,
    wires: &[Blob],
    order: &[Candidate],
    outcomes: &[SharedOutcome],
) -> Result<(), OutOfMemory>
    requires one_each { length outcomes.now ≡ length order.now }
    requires of { All (IsOf wires.now) order.now }
    requires small { All IsSmallOutcome outcomes.now }
    ensures { OnOk result (out.new
        ≡ out.old ++ flat_map entry_bytes (entries_of wires.now order.now outcomes.now)) }
{
    for (at, one) in order.iter().enumerate() {
        write_entry(out, wires, one.chosen(), outcomes[at].value())?;
    }
    Ok(())
}
