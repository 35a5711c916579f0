//! Which transactions of a batch run, over the snapshot before the block.
ghost use Rattle.std.specs.Prelude.{◌<◌, ◌≤◌, ◌^◌, IfOk, length};
ghost use Rattle.sol_base.specs.Limits.{max_transaction_keys};
ghost use Rattle.admission.specs.Admission.{AreParsed, admitted};
ghost use Rattle.admission.specs.Answers.{IsAnswer, told_by};
ghost use Rattle.block_run.specs.Blocks.{start_in};

use admission::{InLine, line_up_on};
use bank_lanes::Gate;
use block_end::Crew;
use message_codec::Parsed;
use snapshot_codec::Snapshot;
use sol_base::{Blob, Items, OutOfMemory};
use std::thread::Threads;

/// Which transactions of a batch run over a snapshot, whose wires were read before.
pub(crate) fn admit_on<G: Gate, R: Threads + Sync>(
    crew: &Crew<'_, G, R>,
    snapshot: &Snapshot,
    wires: &Items<Blob>,
    parsed: Items<Parsed>,
) -> Result<InLine, OutOfMemory>
    requires read { AreParsed wires.now parsed }
    requires keys { snapshot.now.limits.keys ≤ max_transaction_keys }
    requires few { length wires.now < 2 ^ 32 }
    ensures { IfOk result (λ line.
        IsAnswer (admitted (start_in snapshot.now) wires.now) (told_by line)) }
{
    line_up_on(
        crew.rt,
        crew.alloc,
        crew.lanes,
        wires,
        parsed,
        &snapshot.recent,
        &snapshot.accounts,
        &snapshot.limits,
    )
}
