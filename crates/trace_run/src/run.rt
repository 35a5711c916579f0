//! The transactions of a block, one after another, with notes of those that are sought.
ghost use Rattle.std.specs.Prelude.{◌≡◌, ◌≤◌, IfOk, All, length, option_map};
ghost use Rattle.sol_base.specs.Limits.{max_transactions};
ghost use Rattle.snapshot_codec.specs.Snapshot.{IsReadable};
ghost use Rattle.admission.specs.Answers.{told_by};
ghost use Rattle.admission.specs.Chosen.{IsChosen};
ghost use Rattle.trace_run.specs.Sought.{has_first, position_of, signed_by, wanted_in};
ghost use Rattle.trace_run.specs.Traced.{IsTraced, IsTracedOf};

use crate::notes::Notes;
use admission::{Candidate, InLine, Refused, line_up};
use block_run::{Wanted, Watched, watch_order};
use message_codec::Signature;
use snapshot_codec::{Batch, Snapshot};
use sol_base::{Items, OutOfMemory};
use std::alloc::Global;
use std::thread::Threads;

/// The transactions that are sought.
#[derive(Clone, Copy, PartialEq, Eq)]
pub enum Sought {
    All,
    /// The one at this place of the batch.
    Place(u32),
    /// The first whose first signature this is.
    Signature(Signature),
}

/// What came of it.
#[derive(Drop)]
pub enum Traced {
    /// The transactions ran, and these did not, by their places in the batch.
    Ran(Watched, Items<Refused>),
    /// The one that is sought was refused.
    Refused(Refused),
    /// There is none such in the batch.
    Absent,
}

/// Whether the first of the signatures is this one.
fn has_first(signatures: &[Signature], signature: &Signature) -> bool
    ensures { result ≡ has_first signature.now signatures.now }
{
    match signatures {
        [] => false,
        [first, ..] => *first == *signature,
    }
}

/// The position in the block of the transaction at a place of the batch.
fn position_of(order: &[Candidate], place: u32) -> Option<usize>
    ensures { result ≡ position_of order.now place }
{
    order.iter().position(|one| one.chosen().position == place)
}

/// The position in the block of the transaction with this first signature.
fn signed_by(order: &[Candidate], signature: &Signature) -> Option<usize>
    ensures { result ≡ signed_by order.now signature.now }
{
    order.iter().position(|one| has_first(one.chosen().tx.signatures.as_slice(), signature))
}

/// Which positions are wanted. None if the transaction that is sought does not run.
fn wanted_in(order: &[Candidate], sought: Sought) -> Option<Wanted>
    requires { length order.now ≤ max_transactions }
    ensures { result ≡ wanted_in order.now sought }
{
    let position = match sought {
        Sought::All => return Some(Wanted::All),
        Sought::Place(place) => position_of(order, place),
        Sought::Signature(signature) => signed_by(order, &signature),
    };
    match position {
        Some(position) => Some(Wanted::One(position as u32)),
        None => None,
    }
}

/// The refusal of the transaction that is sought by its place.
fn refused_at(refused: &[Refused], sought: Sought) -> Option<Refused> {
    let Sought::Place(place) = sought else {
        return None;
    };
    for one in refused {
        if one.position == place {
            return Some(*one);
        }
    }
    None
}

/// Runs transactions that are admitted over a snapshot, and notes what those do that are sought.
fn trace_line<R: Threads + Sync>(
    rt: &R,
    alloc: Global,
    snapshot: Snapshot,
    slot: u64,
    line: InLine,
    sought: Sought,
    notes: &mut Notes,
) -> Result<Traced, OutOfMemory>
    requires readable { IsReadable snapshot }
    requires few { length line.order ≤ max_transactions }
    requires chosen { All IsChosen line.order }
    ensures { IfOk result (IsTracedOf snapshot slot (told_by line) sought) }
{
    let InLine { order, refused } = line;
    match wanted_in(order.as_slice(), sought) {
        Some(wanted) => {
            let watched = watch_order(rt, alloc, snapshot, slot, order, wanted, notes)?;
            Ok(Traced::Ran(watched, refused))
        }
        None => match refused_at(refused.as_slice(), sought) {
            Some(one) => Ok(Traced::Refused(one)),
            None => Ok(Traced::Absent),
        },
    }
}

/// Runs a batch over a snapshot, one transaction after another, and notes what those do that are
/// sought. What these come to is what the record of the batch's block says.
pub fn trace_block<R: Threads + Sync>(
    rt: &R,
    alloc: Global,
    snapshot: Snapshot,
    batch: &Batch,
    sought: Sought,
    notes: &mut Notes,
) -> Result<Traced, OutOfMemory>
    requires readable { IsReadable snapshot }
    requires few { length batch.now.wires ≤ max_transactions }
    ensures { IfOk result (IsTraced snapshot batch.now sought) }
{
    let line = line_up(
        alloc,
        &batch.wires,
        &snapshot.recent,
        &snapshot.accounts,
        &snapshot.limits,
    )?;
    trace_line(rt, alloc, snapshot, batch.slot, line, sought, notes)
}
