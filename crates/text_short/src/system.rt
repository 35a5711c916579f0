//! Instructions of the system program by name (Solana).
ghost use Rattle.std.specs.Prelude.{codes};
ghost use Rattle.spec_base.specs.Reading.{Gives};
ghost use Rattle.serde_json.specs.View.{view};
ghost use Rattle.json_parts.specs.Faults.{is_json_memory};
ghost use Rattle.json_parts.specs.Parts.{one_of};
ghost use Rattle.text_short.specs.SystemCalls.{system_names, system_in, system_named, create_account_in, assign_in, transfer_in, allocate_in};

use crate::accounts::{signs_and_writes, writes};
use crate::call::call;
use crate::members::{key_member, text_member};
use crate::seeded::paid_with_seed;
use json_parts::{JsonFault, known, number_member, one_of};
use serde_json::Value;
use sol_base::SYSTEM_PROGRAM;
use std::alloc::Global;
use tx_build::KeyedInstruction;

/// The name is that of one of these instructions.
#[tactic(auto, unfolding(crate::specs::SystemCalls::system_names))]
fn listed(alloc: Global, name: &str) -> Result<(), JsonFault>
    ensures { Gives is_json_memory (λ x. x) result (one_of (codes "system") system_names name.now) }
{
    one_of(
        alloc,
        "system",
        &[
            "CreateAccount",
            "Assign",
            "Transfer",
            "Allocate",
            "CreateAccountWithSeed",
            "TransferWithSeed",
            "AllocateWithSeed",
            "AssignWithSeed",
        ],
        name,
    )
}

/// The instruction of the system program that the member `system` names.
#[tactic(auto, unfolding(crate::specs::SystemCalls::system_in))]
pub(crate) fn system_instruction(
    alloc: Global,
    value: &Value,
) -> Result<KeyedInstruction, JsonFault>
    ensures { Gives is_json_memory (λ x. x) result (system_in (view value.now)) }
{
    let name = text_member(alloc, value, "system")?;
    listed(alloc, name)?;
    system_named(alloc, value, name)
}

#[tactic(auto, unfolding(crate::specs::SystemCalls::system_named))]
fn system_named(alloc: Global, value: &Value, name: &str) -> Result<KeyedInstruction, JsonFault>
    ensures { Gives is_json_memory (λ x. x) result (system_named name.now (view value.now)) }
{
    match name {
        "CreateAccount" => create_account(alloc, value),
        "Assign" => assign(alloc, value),
        "Transfer" => transfer(alloc, value),
        "Allocate" => allocate(alloc, value),
        _ => paid_with_seed(alloc, value, name),
    }
}

#[tactic(auto, unfolding(crate::specs::SystemCalls::create_account_in))]
fn create_account(alloc: Global, value: &Value) -> Result<KeyedInstruction, JsonFault>
    ensures { Gives is_json_memory (λ x. x) result (create_account_in (view value.now)) }
{
    known(
        alloc,
        value,
        &["system", "from", "to", "lamports", "space", "owner"],
    )?;
    let from = key_member(alloc, value, "from")?;
    let to = key_member(alloc, value, "to")?;
    let lamports = number_member(alloc, value, "lamports", 0, u64::MAX)?;
    let space = number_member(alloc, value, "space", 0, u64::MAX)?;
    let owner = key_member(alloc, value, "owner")?;
    let accounts = [signs_and_writes(from), signs_and_writes(to)];
    let fields: [&[u8]; 4] = [
        &0u32.to_le_bytes(),
        &lamports.to_le_bytes(),
        &space.to_le_bytes(),
        &owner.0,
    ];
    Ok(call(alloc, SYSTEM_PROGRAM, &accounts, &fields)?)
}

#[tactic(auto, unfolding(crate::specs::SystemCalls::assign_in))]
fn assign(alloc: Global, value: &Value) -> Result<KeyedInstruction, JsonFault>
    ensures { Gives is_json_memory (λ x. x) result (assign_in (view value.now)) }
{
    known(alloc, value, &["system", "account", "owner"])?;
    let account = key_member(alloc, value, "account")?;
    let owner = key_member(alloc, value, "owner")?;
    let fields: [&[u8]; 2] = [&1u32.to_le_bytes(), &owner.0];
    Ok(call(alloc, SYSTEM_PROGRAM, &[signs_and_writes(account)], &fields)?)
}

#[tactic(auto, unfolding(crate::specs::SystemCalls::transfer_in))]
fn transfer(alloc: Global, value: &Value) -> Result<KeyedInstruction, JsonFault>
    ensures { Gives is_json_memory (λ x. x) result (transfer_in (view value.now)) }
{
    known(alloc, value, &["system", "from", "to", "lamports"])?;
    let from = key_member(alloc, value, "from")?;
    let to = key_member(alloc, value, "to")?;
    let lamports = number_member(alloc, value, "lamports", 0, u64::MAX)?;
    let fields: [&[u8]; 2] = [&2u32.to_le_bytes(), &lamports.to_le_bytes()];
    Ok(call(
        alloc,
        SYSTEM_PROGRAM,
        &[signs_and_writes(from), writes(to)],
        &fields,
    )?)
}

#[tactic(auto, unfolding(crate::specs::SystemCalls::allocate_in))]
fn allocate(alloc: Global, value: &Value) -> Result<KeyedInstruction, JsonFault>
    ensures { Gives is_json_memory (λ x. x) result (allocate_in (view value.now)) }
{
    known(alloc, value, &["system", "account", "space"])?;
    let account = key_member(alloc, value, "account")?;
    let space = number_member(alloc, value, "space", 0, u64::MAX)?;
    let fields: [&[u8]; 2] = [&8u32.to_le_bytes(), &space.to_le_bytes()];
    Ok(call(alloc, SYSTEM_PROGRAM, &[signs_and_writes(account)], &fields)?)
}
