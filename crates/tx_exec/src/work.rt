//! The transactions of a block as the work of lanes.
ghost use Rattle.std.specs.Prelude.{◌≡◌, ◌<◌, ◌≤◌, ◌^◌, All, length, IfOk};
ghost use Rattle.std.proofs.Props.{props};
ghost use Rattle.std.proofs.lemmas.Map.Keys.{IsDistinct-prop};
ghost use Rattle.sol_base.specs.Limits.{max_stack_height};
ghost use Rattle.bank_core.specs.Effects.{effects_seen};
ghost use Rattle.bank_law.specs.Lawful.{Fits, IsLawful};
ghost use Rattle.sol_base.specs.Accounts.{accounts_of};
ghost use Rattle.bank_law.proofs.Props.{IsLawful-prop};
ghost use Rattle.admission.specs.Chosen.{IsChosen};
ghost use Rattle.tx_exec.specs.AdmittedBlock.{job_of};

use crate::admitted::AdmittedBlock;
use crate::perform::{perform_one, watch_one};
use admission::{Candidate, Chosen};
use bank_core::{Effects, Work};
use invoke_engine::Watch;
use program_cache::Programs;
use sol_base::{Account, Items, LockList, OutOfMemory};
use std::alloc::Global;
use std::sync::Arc;

/// The transactions as pointers.
fn boxed(alloc: Global, chosen: Items<Chosen>) -> Result<Items<Candidate>, OutOfMemory>
    ensures { IfOk result (λ boxes. boxes ≡ chosen) }
{
    let mut boxes = Items::with_capacity(alloc, chosen.len())?;
    for one in chosen.into_vec() {
        boxes.push(Candidate::new(alloc, one)?)?;
    }
    Ok(boxes)
}

/// The transactions of a block as the work of lanes, a position for each.
#[derive(Drop)]
pub struct TxWork {
    told: AdmittedBlock,
    alloc: Global,
    ghost few: { length told.chosen < 2 ^ 32 },
    ghost height: { (1 ≤ told.height) × (told.height ≤ max_stack_height) } by { Prim.hlevel props },
    ghost lawful: { IsLawful (job_of told) } by { IsLawful-prop (job_of told) },
    ghost each: { All IsChosen told.chosen } by { Prim.hlevel (props, IsDistinct-prop) },
}

impl TxWork {
    /// A work over admitted transactions, with the programs among their keys.
    pub fn new(
        alloc: Global,
        chosen: Items<Chosen>,
        programs: Programs,
        slot: u64,
        height: u8,
    ) -> Result<TxWork, OutOfMemory>
        requires few { length chosen < 2 ^ 32 }
        requires height { (1 ≤ height) × (height ≤ max_stack_height) }
        requires chosen { All IsChosen chosen }
        ensures { IfOk result (λ work. work.told
            ≡ record { chosen = chosen; programs = programs; slot = slot; height = height }) }
    {
        Ok(TxWork::over(alloc, boxed(alloc, chosen)?, programs, slot, height))
    }

    /// A work over admitted transactions that are pointers, with the programs among their keys.
    pub fn over(
        alloc: Global,
        chosen: Items<Candidate>,
        programs: Programs,
        slot: u64,
        height: u8,
    ) -> TxWork
        requires few { length chosen < 2 ^ 32 }
        requires height { (1 ≤ height) × (height ≤ max_stack_height) }
        requires chosen { All IsChosen chosen }
        ensures { result.told
            ≡ record { chosen = chosen; programs = programs; slot = slot; height = height } }
    {
        TxWork {
            told: AdmittedBlock {
                chosen,
                programs,
                slot,
                height,
            },
            alloc,
        }
    }

    /// The transactions, in the order in which they count.
    pub fn chosen(&self) -> &[Candidate]
        ensures { result.now ≡ self.now.told.chosen }
    {
        self.told.chosen.as_slice()
    }

    /// Performs a position for one who sees its frames.
    pub fn watch<W: Watch>(
        &self,
        position: u32,
        values: &[Arc<Account>],
        watch: &mut W,
    ) -> Result<Effects, OutOfMemory>
        requires below { position < (job_of self.now.told).count }
        requires fits { Fits ((job_of self.now.told).locks position) (accounts_of values.now) }
        ensures { IfOk result (λ effects. effects_seen effects
            ≡ (job_of self.now.told).effects position (accounts_of values.now)) }
    {
        let chosen = self.told.chosen.as_slice()[position as usize].chosen();
        watch.transaction(position)?;
        watch_one(self.alloc, &self.told, chosen, values, watch)
    }
}

impl Work for TxWork {
    type Told = AdmittedBlock;

    ghost told = { λ work. work.told };

    ghost job = { job_of };

    ghost lawful = { λ work. work.lawful };

    fn count(&self) -> u32 {
        self.told.chosen.len() as u32
    }

    fn locks(&self, position: u32) -> &LockList {
        &self.told.chosen.as_slice()[position as usize]
            .chosen()
            .locks
    }

    fn perform(&self, position: u32, values: &[Arc<Account>]) -> Result<Effects, OutOfMemory> {
        let chosen = self.told.chosen.as_slice()[position as usize].chosen();
        perform_one(self.alloc, &self.told, chosen, values)
    }
}
