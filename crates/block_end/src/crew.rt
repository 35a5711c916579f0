//! What runs a block.
ghost use Rattle.std.specs.Prelude.{◌≡◌, ◌≤◌, ◌<◌, ◌*◌, filter, if◌then◌else◌, length, max, min, nat_lt};
ghost use Rattle.sol_base.specs.Limits.{max_lanes};
ghost use Rattle.bank_core.specs.Counts.{max_lane_numbers};
ghost use Rattle.block_end.specs.Crew.{has_instruction};

use admission::{Candidate, Chosen};
use std::alloc::Global;

/// How many transactions a block has at least before whose run, and after it, a thread is started:
/// for fewer it costs more than it saves.
pub const MANY_TRANSACTIONS: usize = 64;

/// How many lane numbers of the core a thread drives, where there are several threads: so many
/// positions it takes in one turn at most.
pub const LANE_NUMBERS: u32 = 16;

/// What runs a block: so many lanes, on threads of this runtime, and the gate that they pass.
#[derive(Drop)]
pub struct Crew<'a, G, R> {
    pub rt: &'a R,
    pub alloc: Global,
    pub lanes: u32,
    pub gate: &'a G,
    ghost some: { 1 ≤ lanes },
    ghost most: { lanes ≤ max_lanes },
}

impl<'a, G, R> Crew<'a, G, R> {
    /// This crew with no more lanes than transactions that are work for one, and one lane at least.
    pub fn busy(&self, working: usize) -> Crew<'a, G, R>
        ensures { result.lanes ≡ min self.now.lanes (max 1 working) }
    {
        Crew {
            rt: self.rt,
            alloc: self.alloc,
            lanes: (self.lanes as usize).min(working.max(1)) as u32,
            gate: self.gate,
        }
    }

    /// How many lanes its core has: one alone, or all lane numbers of the threads.
    pub fn lane_numbers(&self) -> u32
        ensures some { 1 ≤ result }
        ensures most { result ≤ max_lane_numbers }
        ensures alone { self.now.lanes ≡ 1 → result ≡ 1 }
        ensures many { 1 < self.now.lanes → result ≡ LANE_NUMBERS * self.now.lanes }
    {
        if self.lanes == 1 {
            1
        } else {
            LANE_NUMBERS * self.lanes
        }
    }

    /// The lanes, or one alone where the transactions are few.
    pub fn lanes_for_many(&self, transactions: usize) -> u32
        ensures { result ≡ (if nat_lt transactions MANY_TRANSACTIONS then 1 else self.now.lanes) }
    {
        if transactions < MANY_TRANSACTIONS {
            1
        } else {
            self.lanes
        }
    }
}

/// Whether a transaction has an instruction.
fn has_instruction(chosen: &Chosen) -> bool
    ensures { result ≡ has_instruction chosen.now }
{
    !chosen.tx.message.instructions.is_empty()
}

/// How many of the transactions have an instruction: one without any is no work for a lane.
pub fn working_in(order: &[Candidate]) -> usize
    ensures { result ≡ length (filter has_instruction order.now) }
{
    let mut working = 0;
    for one in order {
        if has_instruction(one.chosen()) {
            working += 1;
        }
    }
    working
}
