//! The members of an object in the short form.
ghost use Rattle.spec_base.specs.Reading.{Gives};
ghost use Rattle.serde_json.specs.View.{view};
ghost use Rattle.json_parts.specs.Faults.{is_json_memory};
ghost use Rattle.json_parts.specs.Parts.{member_in};
ghost use Rattle.text_short.specs.Members.{text_in, key_in, no_such_instruction};

use crate::list::ReadsItems;
use crate::names::named_key;
use json_parts::{
    JsonFault, Wanted, found, in_member, refused, refused_instruction, refused_member,
};
use serde_json::Value;
use sol_base::Key;
use std::alloc::Global;
use tx_build::KeyedInstruction;

/// The text that the value is.
#[tactic(auto, unfolding(crate::specs::Members::text_in))]
fn text(alloc: Global, value: &Value) -> Result<&str, JsonFault>
    ensures { Gives is_json_memory (λ t. t.now) result (text_in (view value.now)) }
{
    match value.as_str() {
        Some(text) => Ok(text),
        None => Err(refused(alloc, Wanted::Text)),
    }
}

/// What the member of that name stands for: a text.
#[tactic(auto, unfolding(crate::specs::Members::text_in, json_parts::specs::Parts::member_in))]
pub(crate) fn text_member<'a>(
    alloc: Global,
    value: &'a Value,
    name: &str,
) -> Result<&'a str, JsonFault>
    ensures { Gives is_json_memory (λ t. t.now) result
        (member_in name.now text_in (view value.now)) }
{
    let found = found(alloc, value, name)?;
    match found.as_str() {
        Some(text) => Ok(text),
        None => Err(refused_member(alloc, name, Wanted::Text)),
    }
}

/// A key, as `named_key` reads its text.
#[tactic(auto, unfolding(crate::specs::Members::key_in))]
fn key(alloc: Global, value: &Value) -> Result<Key, JsonFault>
    ensures { Gives is_json_memory (λ x. x) result (key_in (view value.now)) }
{
    let text = text(alloc, value)?;
    named_key(alloc, text)
}

/// Lists of keys.
pub(crate) struct Keys;

impl ReadsItems<Key> for Keys {
    ghost use Rattle.text_short.specs.Members.{key_in};

    ghost item_in = { λ _. key_in };

    fn read(&self, alloc: Global, value: &Value) -> Result<Key, JsonFault> {
        key(alloc, value)
    }
}

/// What the member of that name stands for: a key, by its digits or its name.
#[tactic(auto, unfolding(json_parts::specs::Parts::member_in))]
pub(crate) fn key_member(alloc: Global, value: &Value, name: &str) -> Result<Key, JsonFault>
    ensures { Gives is_json_memory (λ x. x) result (member_in name.now key_in (view value.now)) }
{
    let found = found(alloc, value, name)?;
    in_member(alloc, name, key(alloc, found))
}

/// The program that the member names has no instruction of that name. A name that is not listed is
/// refused before, with those that are.
pub(crate) fn no_such_instruction(
    alloc: Global,
    program: &str,
) -> Result<KeyedInstruction, JsonFault>
    ensures { Gives is_json_memory (λ x. x) result (no_such_instruction program.now) }
{
    Err(refused_instruction(alloc, program, &[]))
}
