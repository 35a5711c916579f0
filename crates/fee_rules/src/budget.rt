//! The budget of a message.
ghost use Rattle.std.specs.Prelude.{◌≡◌, ◌<◌, ◌≤◌, All, length};
ghost use Rattle.message_codec.specs.Compact.{max_count};
ghost use Rattle.message_codec.specs.Wire.{IsCountable};
ghost use Rattle.fee_rules.specs.Budgets.{budget_for, budget_in, is_budget};

use crate::request::{Asked, MIN_HEAP_FRAME, read_request};
use message_codec::{Instruction, Message};
use sol_base::{COMPUTE_BUDGET_PROGRAM, Key};
use thiserror::Error;

/// The most compute units of a transaction (Solana).
pub(crate) const MAX_UNITS: u32 = 1_400_000;

/// The compute units of an instruction, where its message has no limit of its own (Solana; that
/// built-in programs have as many is the project's own).
pub(crate) const UNITS_PER_INSTRUCTION: u32 = 200_000;

/// The most bytes of data that a transaction may load (Solana).
pub(crate) const MAX_LOADED_DATA: u32 = 67_108_864;

/// What a message asks of the machine.
#[derive(Clone, Copy, PartialEq, Eq)]
pub struct Budget {
    /// The most compute units.
    pub limit: u32,
    /// The price of a compute unit, in micro-lamports.
    pub price: u64,
    /// The bytes of each program's heap.
    pub heap: u32,
    /// The most bytes of data of all its accounts together.
    pub loaded: u32,
}

/// Why a message has no budget. `index` is the place of the instruction among all of the message.
#[derive(Clone, Copy, Debug, PartialEq, Eq, Error)]
pub enum BudgetFault {
    #[error("instruction {index} is no request to the compute budget program")]
    BadBudget { index: u16 },
    #[error("instruction {index} repeats a request to the compute budget program")]
    RepeatedBudget { index: u16 },
}

/// The budget that the compute budget instructions of a message ask for (Solana; that built-in
/// programs have no smaller default is the project's own). The first of them that is bad or repeats
/// a kind is the refusal.
pub fn budget_of(message: &Message) -> Result<Budget, BudgetFault>
    requires programs { All (λ i. i.program < length message.now.keys) message.now.instructions }
    requires most { IsCountable message.now.instructions }
    ensures { result ≡ budget_in message.now }
{
    let keys = message.keys.as_slice();
    let mut asked = Asked::nothing();
    let mut others = 0;
    for (index, instruction) in message.instructions.as_slice().iter().enumerate() {
        if calls_compute_budget(keys, instruction) {
            let index = index as u16;
            let Some(request) = read_request(instruction.input.as_slice()) else {
                return Err(BudgetFault::BadBudget { index });
            };
            if asked.has(request) {
                return Err(BudgetFault::RepeatedBudget { index });
            }
            asked.add(request);
        } else {
            others += 1;
        }
    }
    Ok(budget_from(&asked, others))
}

fn calls_compute_budget(keys: &[Key], instruction: &Instruction) -> bool
    requires { instruction.now.program < length keys.now }
    ensures { result ≡ is_budget keys.now instruction.now }
{
    keys[instruction.program as usize] == COMPUTE_BUDGET_PROGRAM
}

fn budget_from(asked: &Asked, others: u64) -> Budget
    requires { others ≤ max_count }
    ensures { result ≡ budget_for asked.now others }
{
    Budget {
        limit: match asked.limit {
            Some(units) => units.min(MAX_UNITS),
            None => (UNITS_PER_INSTRUCTION as u64 * others).min(MAX_UNITS as u64) as u32,
        },
        price: asked.price.unwrap_or(0),
        heap: asked.heap.unwrap_or(MIN_HEAP_FRAME),
        loaded: asked.loaded.unwrap_or(MAX_LOADED_DATA).min(MAX_LOADED_DATA),
    }
}
