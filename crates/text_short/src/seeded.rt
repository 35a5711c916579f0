//! Instructions of the system program, by name, on accounts whose keys are derived from a base, a seed
//! and an owner (Solana).
ghost use Rattle.std.specs.Prelude.{◌≡◌, IfOk};
ghost use Rattle.std.specs.List.{flat_map};
ghost use Rattle.spec_base.specs.Reading.{Gives};
ghost use Rattle.serde_json.specs.View.{view};
ghost use Rattle.json_parts.specs.Faults.{is_json_memory};
ghost use Rattle.json_parts.specs.Parts.{known_in};
ghost use Rattle.text_short.specs.SeededCalls.{create_names, transfer_names, allocate_names, sized_text, derived_in, paid_with_seed, set_with_seed, creation, create_account_with_seed_in, allocate_with_seed_in, assign_with_seed_in, transfer_with_seed_in};

use crate::accounts::{signs, signs_and_writes, writes};
use crate::call::call;
use crate::members::{key_member, no_such_instruction, text_member};
use json_parts::{JsonFault, known, number_member};
use serde_json::Value;
use sol_base::{Blob, Key, OutOfMemory, SYSTEM_PROGRAM};
use std::alloc::Global;
use tx_build::KeyedInstruction;

/// The instructions that move lamports.
#[tactic(auto, unfolding(crate::specs::SeededCalls::paid_with_seed))]
pub(crate) fn paid_with_seed(
    alloc: Global,
    value: &Value,
    name: &str,
) -> Result<KeyedInstruction, JsonFault>
    ensures { Gives is_json_memory (λ x. x) result (paid_with_seed name.now (view value.now)) }
{
    match name {
        "CreateAccountWithSeed" => create_account_with_seed(alloc, value),
        "TransferWithSeed" => transfer_with_seed(alloc, value),
        _ => set_with_seed(alloc, value, name),
    }
}

/// The instructions that set what an account is.
#[tactic(auto, unfolding(crate::specs::SeededCalls::set_with_seed))]
fn set_with_seed(alloc: Global, value: &Value, name: &str) -> Result<KeyedInstruction, JsonFault>
    ensures { Gives is_json_memory (λ x. x) result (set_with_seed name.now (view value.now)) }
{
    match name {
        "AllocateWithSeed" => allocate_with_seed(alloc, value),
        "AssignWithSeed" => assign_with_seed(alloc, value),
        _ => no_such_instruction(alloc, "system"),
    }
}

/// What a key is derived from (Solana).
#[derive(Drop)]
struct Derived {
    base: Key,
    /// A text behind its length.
    seed: Blob,
    owner: Key,
}

/// The text behind its length.
fn sized(alloc: Global, text: &str) -> Result<Blob, OutOfMemory>
    ensures { IfOk result (λ bytes. bytes ≡ sized_text text.now) }
{
    let mut bytes = Blob::from_slice(alloc, &(text.len() as u64).to_le_bytes())?;
    bytes.append(text.as_bytes())?;
    Ok(bytes)
}

#[tactic(auto, unfolding(crate::specs::SeededCalls::derived_in))]
fn derivation(alloc: Global, value: &Value) -> Result<Derived, JsonFault>
    ensures { Gives is_json_memory (λ x. x) result (derived_in (view value.now)) }
{
    let base = key_member(alloc, value, "base")?;
    let text = text_member(alloc, value, "seed")?;
    let owner = key_member(alloc, value, "owner")?;
    let seed = sized(alloc, text)?;
    Ok(Derived { base, seed, owner })
}

/// The call that creates an account: the base signs beside the payer, unless it is the payer.
#[tactic(auto, unfolding(crate::specs::SeededCalls::creation))]
fn creation(
    alloc: Global,
    from: Key,
    to: Key,
    base: Key,
    fields: &[&[u8]],
) -> Result<KeyedInstruction, OutOfMemory>
    ensures { IfOk result (λ i. i ≡ creation from to base (flat_map (λ f. f.now) fields.now)) }
{
    if base == from {
        call(
            alloc,
            SYSTEM_PROGRAM,
            &[signs_and_writes(from), writes(to)],
            fields,
        )
    } else {
        call(
            alloc,
            SYSTEM_PROGRAM,
            &[signs_and_writes(from), writes(to), signs(base)],
            fields,
        )
    }
}

#[tactic(auto, unfolding(crate::specs::SeededCalls::create_names))]
fn known_to_create(alloc: Global, value: &Value) -> Result<(), JsonFault>
    ensures { Gives is_json_memory (λ x. x) result (known_in create_names (view value.now)) }
{
    known(
        alloc,
        value,
        &[
            "system", "from", "to", "base", "seed", "lamports", "space", "owner",
        ],
    )
}

#[tactic(auto, unfolding(crate::specs::SeededCalls::create_account_with_seed_in))]
fn create_account_with_seed(alloc: Global, value: &Value) -> Result<KeyedInstruction, JsonFault>
    ensures { Gives is_json_memory (λ x. x) result (create_account_with_seed_in (view value.now)) }
{
    known_to_create(alloc, value)?;
    let from = key_member(alloc, value, "from")?;
    let to = key_member(alloc, value, "to")?;
    let derived = derivation(alloc, value)?;
    let lamports = number_member(alloc, value, "lamports", 0, u64::MAX)?;
    let space = number_member(alloc, value, "space", 0, u64::MAX)?;
    let fields: [&[u8]; 6] = [
        &3u32.to_le_bytes(),
        &derived.base.0,
        derived.seed.as_slice(),
        &lamports.to_le_bytes(),
        &space.to_le_bytes(),
        &derived.owner.0,
    ];
    Ok(creation(alloc, from, to, derived.base, &fields)?)
}

#[tactic(auto, unfolding(crate::specs::SeededCalls::allocate_names))]
fn known_to_allocate(alloc: Global, value: &Value) -> Result<(), JsonFault>
    ensures { Gives is_json_memory (λ x. x) result (known_in allocate_names (view value.now)) }
{
    known(
        alloc,
        value,
        &["system", "account", "base", "seed", "space", "owner"],
    )
}

#[tactic(auto, unfolding(crate::specs::SeededCalls::allocate_with_seed_in))]
fn allocate_with_seed(alloc: Global, value: &Value) -> Result<KeyedInstruction, JsonFault>
    ensures { Gives is_json_memory (λ x. x) result (allocate_with_seed_in (view value.now)) }
{
    known_to_allocate(alloc, value)?;
    let account = key_member(alloc, value, "account")?;
    let derived = derivation(alloc, value)?;
    let space = number_member(alloc, value, "space", 0, u64::MAX)?;
    let accounts = [writes(account), signs(derived.base)];
    let fields: [&[u8]; 5] = [
        &9u32.to_le_bytes(),
        &derived.base.0,
        derived.seed.as_slice(),
        &space.to_le_bytes(),
        &derived.owner.0,
    ];
    Ok(call(alloc, SYSTEM_PROGRAM, &accounts, &fields)?)
}

#[tactic(auto, unfolding(crate::specs::SeededCalls::assign_with_seed_in))]
fn assign_with_seed(alloc: Global, value: &Value) -> Result<KeyedInstruction, JsonFault>
    ensures { Gives is_json_memory (λ x. x) result (assign_with_seed_in (view value.now)) }
{
    known(
        alloc,
        value,
        &["system", "account", "base", "seed", "owner"],
    )?;
    let account = key_member(alloc, value, "account")?;
    let derived = derivation(alloc, value)?;
    let accounts = [writes(account), signs(derived.base)];
    let fields: [&[u8]; 4] = [
        &10u32.to_le_bytes(),
        &derived.base.0,
        derived.seed.as_slice(),
        &derived.owner.0,
    ];
    Ok(call(alloc, SYSTEM_PROGRAM, &accounts, &fields)?)
}

#[tactic(auto, unfolding(crate::specs::SeededCalls::transfer_names))]
fn known_to_transfer(alloc: Global, value: &Value) -> Result<(), JsonFault>
    ensures { Gives is_json_memory (λ x. x) result (known_in transfer_names (view value.now)) }
{
    known(
        alloc,
        value,
        &["system", "from", "base", "seed", "owner", "to", "lamports"],
    )
}

#[tactic(auto, unfolding(crate::specs::SeededCalls::transfer_with_seed_in))]
fn transfer_with_seed(alloc: Global, value: &Value) -> Result<KeyedInstruction, JsonFault>
    ensures { Gives is_json_memory (λ x. x) result (transfer_with_seed_in (view value.now)) }
{
    known_to_transfer(alloc, value)?;
    let from = key_member(alloc, value, "from")?;
    let derived = derivation(alloc, value)?;
    let to = key_member(alloc, value, "to")?;
    let lamports = number_member(alloc, value, "lamports", 0, u64::MAX)?;
    let accounts = [writes(from), signs(derived.base), writes(to)];
    let fields: [&[u8]; 4] = [
        &11u32.to_le_bytes(),
        &lamports.to_le_bytes(),
        derived.seed.as_slice(),
        &derived.owner.0,
    ];
    Ok(call(alloc, SYSTEM_PROGRAM, &accounts, &fields)?)
}
