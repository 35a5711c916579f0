//! Instructions of the compute budget program by name (Solana).
ghost use Rattle.std.specs.Prelude.{codes};
ghost use Rattle.spec_base.specs.Reading.{Gives};
ghost use Rattle.serde_json.specs.View.{view};
ghost use Rattle.json_parts.specs.Faults.{is_json_memory};
ghost use Rattle.json_parts.specs.Parts.{one_of};
ghost use Rattle.text_short.specs.BudgetCalls.{budget_names, budget_in, budget_named, size_named, numbered_in, price_in};

use crate::call::call;
use crate::members::{no_such_instruction, text_member};
use json_parts::{JsonFault, known, number_member, one_of};
use serde_json::Value;
use sol_base::COMPUTE_BUDGET_PROGRAM;
use std::alloc::Global;
use tx_build::KeyedInstruction;

/// The name is that of one of these instructions.
#[tactic(auto, unfolding(crate::specs::BudgetCalls::budget_names))]
fn listed(alloc: Global, name: &str) -> Result<(), JsonFault>
    ensures { Gives is_json_memory (λ x. x) result (one_of (codes "budget") budget_names name.now) }
{
    one_of(
        alloc,
        "budget",
        &[
            "SetComputeUnitLimit",
            "SetComputeUnitPrice",
            "RequestHeapFrame",
            "SetLoadedAccountsDataSizeLimit",
        ],
        name,
    )
}

/// The instruction of the compute budget program that the member `budget` names.
#[tactic(auto, unfolding(crate::specs::BudgetCalls::budget_in))]
pub(crate) fn budget_instruction(
    alloc: Global,
    value: &Value,
) -> Result<KeyedInstruction, JsonFault>
    ensures { Gives is_json_memory (λ x. x) result (budget_in (view value.now)) }
{
    let name = text_member(alloc, value, "budget")?;
    listed(alloc, name)?;
    budget_named(alloc, value, name)
}

#[tactic(auto, unfolding(crate::specs::BudgetCalls::budget_named))]
fn budget_named(alloc: Global, value: &Value, name: &str) -> Result<KeyedInstruction, JsonFault>
    ensures { Gives is_json_memory (λ x. x) result (budget_named name.now (view value.now)) }
{
    match name {
        "SetComputeUnitLimit" => with_number(alloc, value, 2, "units"),
        "SetComputeUnitPrice" => unit_price(alloc, value),
        _ => size_named(alloc, value, name),
    }
}

/// The instructions that ask for bytes.
#[tactic(auto, unfolding(crate::specs::BudgetCalls::size_named))]
fn size_named(alloc: Global, value: &Value, name: &str) -> Result<KeyedInstruction, JsonFault>
    ensures { Gives is_json_memory (λ x. x) result (size_named name.now (view value.now)) }
{
    match name {
        "RequestHeapFrame" => with_number(alloc, value, 1, "bytes"),
        "SetLoadedAccountsDataSizeLimit" => with_number(alloc, value, 4, "bytes"),
        _ => no_such_instruction(alloc, "budget"),
    }
}

/// A tag, and a number of four bytes that the member of that name is.
#[tactic(auto, unfolding(crate::specs::BudgetCalls::numbered_in))]
fn with_number(
    alloc: Global,
    value: &Value,
    tag: u8,
    name: &str,
) -> Result<KeyedInstruction, JsonFault>
    ensures { Gives is_json_memory (λ x. x) result (numbered_in tag name.now (view value.now)) }
{
    known(alloc, value, &["budget", name])?;
    let number = number_member(alloc, value, name, 0, u64::from(u32::MAX))?;
    let fields: [&[u8]; 2] = [&[tag], &(number as u32).to_le_bytes()];
    Ok(call(alloc, COMPUTE_BUDGET_PROGRAM, &[], &fields)?)
}

/// A tag and a price.
#[tactic(auto, unfolding(crate::specs::BudgetCalls::price_in))]
fn unit_price(alloc: Global, value: &Value) -> Result<KeyedInstruction, JsonFault>
    ensures { Gives is_json_memory (λ x. x) result (price_in (view value.now)) }
{
    known(alloc, value, &["budget", "micro_lamports"])?;
    let price = number_member(alloc, value, "micro_lamports", 0, u64::MAX)?;
    let fields: [&[u8]; 2] = [&[3], &price.to_le_bytes()];
    Ok(call(alloc, COMPUTE_BUDGET_PROGRAM, &[], &fields)?)
}
