//! The transactions of a block, one after another, for one who sees what they do.
ghost use Rattle.std.specs.Prelude.{◌≡◌, ◌<◌, ◌≤◌, [], All, IfOk, length};
ghost use Rattle.sol_base.specs.Accounts.{accounts_of};
ghost use Rattle.sol_base.specs.Limits.{max_stack_height, max_transactions};
ghost use Rattle.account_store.specs.State.{at};
ghost use Rattle.snapshot_codec.specs.Snapshot.{IsUpTo};
ghost use Rattle.admission.specs.Chosen.{IsChosen};
ghost use Rattle.bank_law.specs.Lawful.{Fits};
ghost use Rattle.bank_core.specs.Effects.{effects_seen};
ghost use Rattle.tx_exec.specs.AdmittedBlock.{job_of};
ghost use Rattle.block_run.specs.SerialRun.{told_in};
ghost use Rattle.block_run.specs.Watching.{IsSerial, seen_after, wants};

use crate::run::{Opened, open};
use admission::Candidate;
use bank_core::{Core, Effects, SharedOutcome, Take, Work};
use bank_lanes::OpenGate;
use block_end::Crew;
use invoke_engine::Watch;
use snapshot_codec::Snapshot;
use sol_base::{Account, Items, OutOfMemory};
use std::alloc::Global;
use std::sync::Arc;
use std::thread::Threads;
use tx_exec::TxWork;

/// Which transactions are seen, by their positions in the block.
#[derive(Clone, Copy, PartialEq, Eq)]
pub enum Wanted {
    All,
    One(u32),
}

/// A transaction that was seen: its position in the block, and what it came to.
#[derive(Drop)]
pub struct Seen {
    pub position: u32,
    pub outcome: SharedOutcome,
}

/// The transactions of a block in their order, and those that were seen.
#[derive(Drop)]
pub struct Watched {
    pub work: TxWork,
    pub seen: Items<Seen>,
}

/// Whether the transaction of this position is seen.
fn is_wanted(wanted: Wanted, position: u32) -> bool
    ensures { result ≡ wants wanted position }
{
    match wanted {
        Wanted::All => true,
        Wanted::One(one) => one == position,
    }
}

/// Performs a position, and notes what it came to if it is seen.
fn see<V: Watch>(
    work: &TxWork,
    position: u32,
    values: &[Arc<Account>],
    wanted: Wanted,
    watch: &mut V,
    seen: &mut Items<Seen>,
) -> Result<Effects, OutOfMemory>
    requires below { position < (job_of work.now.told).count }
    requires fits { Fits ((job_of work.now.told).locks position) (accounts_of values.now) }
    ensures effects { IfOk result (λ effects. effects_seen effects
        ≡ (job_of work.now.told).effects position (accounts_of values.now)) }
    ensures seen { IfOk result (λ effects.
        seen.new ≡ seen_after (wants wanted position) position effects.outcome seen.old) }
{
    if !is_wanted(wanted, position) {
        return work.perform(position, values);
    }
    let effects = work.watch(position, values, watch)?;
    let outcome = effects.outcome.again()?;
    seen.push(Seen { position, outcome })?;
    Ok(effects)
}

/// Performs the positions in their order on the one lane of a core, up to the one that is wanted.
fn see_in_turn<V: Watch>(
    alloc: Global,
    core: &mut Core<TxWork>,
    work: &TxWork,
    wanted: Wanted,
    watch: &mut V,
) -> Result<Items<Seen>, OutOfMemory>
    requires one { core.old.lanes ≡ 1 }
    requires told { core.old.origin.value.told ≡ work.now.told }
    requires journal { core.old.journal.items ≡ [] }
    ensures { IfOk result
        (All (IsSerial (job_of work.now.told) (at core.old.origin.value.start))) }
{
    let mut seen = Items::new(alloc);
    'turns: loop {
        match core.take(0) {
            Take::Loan(loan) => {
                let position = loan.position();
                match see(work, position, loan.values(), wanted, watch, &mut seen) {
                    Ok(effects) => core.commit(loan, effects),
                    Err(OutOfMemory) => {
                        core.give_back(loan);
                        return Err(OutOfMemory);
                    }
                }
                if wanted == Wanted::One(position) {
                    return Ok(seen);
                }
            }
            Take::NotNow { held: _ } => unreachable!(),
            Take::Finished => return Ok(seen),
            Take::OutOfMemory => return Err(OutOfMemory),
        }
    }
}

/// Runs transactions in their order over a snapshot, one after another, for one who sees those that
/// are wanted. What these come to is what they come to in the serial run, which is the record's.
pub fn watch_order<V: Watch, R: Threads + Sync>(
    rt: &R,
    alloc: Global,
    snapshot: Snapshot,
    slot: u64,
    order: Items<Candidate>,
    wanted: Wanted,
    watch: &mut V,
) -> Result<Watched, OutOfMemory>
    requires few { length order ≤ max_transactions }
    requires height { IsUpTo max_stack_height snapshot.limits.height }
    requires chosen { All IsChosen order }
    ensures told { IfOk result (λ watched. watched.work.told ≡ told_in snapshot slot order) }
    ensures seen { IfOk result (λ watched.
        All (IsSerial (job_of (told_in snapshot slot order)) (at snapshot.accounts)) watched.seen) }
{
    let crew = Crew {
        rt,
        alloc,
        lanes: 1,
        gate: &OpenGate,
    };
    let Opened {
        work,
        mut core,
        chain: _,
    } = open(&crew, 1, snapshot, slot, order)?;
    let seen = see_in_turn(alloc, &mut core, &work, wanted, watch)?;
    Ok(Watched { work, seen })
}
