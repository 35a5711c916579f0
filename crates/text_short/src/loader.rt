//! Instructions of the loader program by name (the project's own).
ghost use Rattle.std.specs.Prelude.{codes};
ghost use Rattle.spec_base.specs.Reading.{Gives};
ghost use Rattle.serde_json.specs.View.{view};
ghost use Rattle.json_parts.specs.Faults.{is_json_memory};
ghost use Rattle.json_parts.specs.Parts.{one_of};
ghost use Rattle.text_short.specs.LoaderCalls.{loader_names, loader_in, loader_named, init_in, write_in, finalize_in, set_authority_in};

use crate::accounts::{signs, signs_and_writes, writes};
use crate::call::call;
use crate::members::{key_member, no_such_instruction, text_member};
use json_parts::{JsonFault, data_member, known, number_member, one_of};
use message_codec::MAX_COUNT;
use serde_json::Value;
use sol_base::LOADER_PROGRAM;
use std::alloc::Global;
use tx_build::KeyedInstruction;

/// The name is that of one of these instructions.
#[tactic(auto, unfolding(crate::specs::LoaderCalls::loader_names))]
fn listed(alloc: Global, name: &str) -> Result<(), JsonFault>
    ensures { Gives is_json_memory (λ x. x) result (one_of (codes "loader") loader_names name.now) }
{
    one_of(
        alloc,
        "loader",
        &["Init", "Write", "Finalize", "SetAuthority"],
        name,
    )
}

/// The instruction of the loader that the member `loader` names.
#[tactic(auto, unfolding(crate::specs::LoaderCalls::loader_in))]
pub(crate) fn loader_instruction(
    alloc: Global,
    value: &Value,
) -> Result<KeyedInstruction, JsonFault>
    ensures { Gives is_json_memory (λ x. x) result (loader_in (view value.now)) }
{
    let name = text_member(alloc, value, "loader")?;
    listed(alloc, name)?;
    loader_named(alloc, value, name)
}

#[tactic(auto, unfolding(crate::specs::LoaderCalls::loader_named))]
fn loader_named(alloc: Global, value: &Value, name: &str) -> Result<KeyedInstruction, JsonFault>
    ensures { Gives is_json_memory (λ x. x) result (loader_named name.now (view value.now)) }
{
    match name {
        "Init" => init(alloc, value),
        "Write" => write(alloc, value),
        "Finalize" => finalize(alloc, value),
        "SetAuthority" => set_authority(alloc, value),
        _ => no_such_instruction(alloc, "loader"),
    }
}

#[tactic(auto, unfolding(crate::specs::LoaderCalls::init_in))]
fn init(alloc: Global, value: &Value) -> Result<KeyedInstruction, JsonFault>
    ensures { Gives is_json_memory (λ x. x) result (init_in (view value.now)) }
{
    known(alloc, value, &["loader", "buffer", "authority"])?;
    let buffer = key_member(alloc, value, "buffer")?;
    let authority = key_member(alloc, value, "authority")?;
    let fields: [&[u8]; 2] = [&0u32.to_le_bytes(), &authority.0];
    Ok(call(alloc, LOADER_PROGRAM, &[signs_and_writes(buffer)], &fields)?)
}

#[tactic(auto, unfolding(crate::specs::LoaderCalls::write_in))]
fn write(alloc: Global, value: &Value) -> Result<KeyedInstruction, JsonFault>
    ensures { Gives is_json_memory (λ x. x) result (write_in (view value.now)) }
{
    known(
        alloc,
        value,
        &["loader", "buffer", "authority", "offset", "bytes"],
    )?;
    let buffer = key_member(alloc, value, "buffer")?;
    let authority = key_member(alloc, value, "authority")?;
    let offset = number_member(alloc, value, "offset", 0, u64::from(u32::MAX))?;
    let bytes = data_member(alloc, value, "bytes", MAX_COUNT)?;
    let fields: [&[u8]; 4] = [
        &1u32.to_le_bytes(),
        &(offset as u32).to_le_bytes(),
        &(bytes.len() as u64).to_le_bytes(),
        bytes.as_slice(),
    ];
    Ok(call(
        alloc,
        LOADER_PROGRAM,
        &[writes(buffer), signs(authority)],
        &fields,
    )?)
}

#[tactic(auto, unfolding(crate::specs::LoaderCalls::finalize_in))]
fn finalize(alloc: Global, value: &Value) -> Result<KeyedInstruction, JsonFault>
    ensures { Gives is_json_memory (λ x. x) result (finalize_in (view value.now)) }
{
    known(alloc, value, &["loader", "buffer", "authority"])?;
    let buffer = key_member(alloc, value, "buffer")?;
    let authority = key_member(alloc, value, "authority")?;
    let fields: [&[u8]; 1] = [&2u32.to_le_bytes()];
    Ok(call(
        alloc,
        LOADER_PROGRAM,
        &[writes(buffer), signs(authority)],
        &fields,
    )?)
}

#[tactic(auto, unfolding(crate::specs::LoaderCalls::set_authority_in))]
fn set_authority(alloc: Global, value: &Value) -> Result<KeyedInstruction, JsonFault>
    ensures { Gives is_json_memory (λ x. x) result (set_authority_in (view value.now)) }
{
    known(alloc, value, &["loader", "buffer", "authority", "to"])?;
    let buffer = key_member(alloc, value, "buffer")?;
    let authority = key_member(alloc, value, "authority")?;
    let to = key_member(alloc, value, "to")?;
    let fields: [&[u8]; 2] = [&3u32.to_le_bytes(), &to.0];
    Ok(call(
        alloc,
        LOADER_PROGRAM,
        &[writes(buffer), signs(authority)],
        &fields,
    )?)
}
